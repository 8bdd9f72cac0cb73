// A job of the cradle: a program, and the two cores that it moves between.
ghost use Rattle.script.specs.Tokens.{words_in};
ghost use Rattle.script.specs.Numerals.{numbers_behind};
ghost use Rattle.script.specs.Scripts.{setting_in, no_line, move_of};
ghost use Rattle.script.specs.Told.{Says, Reads, setting, moved};

use crate::error::ReadError;
use crate::numbers::{number_behind, numbers_behind};
use crate::reader::{Line, Reader};
use crate::tokens::split_word;
use jobfile::scheme::Scheme;
use jobfile::setting::Setting;
use std::alloc::Global;

// The scanner that starts the job, the spare that takes it over, the program and its data words, and after how many
// cycles the scanner is interrupted.
#[derive(PartialEq, Eq, Debug, Drop)]
pub struct Move {
    pub scanner: Setting,
    pub spare: Setting,
    pub program: Vec<u32>,
    pub data: Vec<u32>,
    pub interrupt: u32,
}

// The setting behind a key: scheme, delays and capacity.
fn setting_line(alloc: Global, key: &[u8], line: Line<'_>) -> Result<Setting, ReadError>
    ensures { Says setting line.entry.number (setting_in (numbers_behind key.now (words_in line.entry.code.now))) result }
{
    let numbers = numbers_behind(alloc, key, line)?;
    match numbers.as_slice() {
        [scheme, short, multiply, divide, memory, capacity] => {
            let scheme = Scheme::try_from(*scheme).map_err(|_| ReadError::Line(line.number))?;
            Ok(Setting {
                scheme,
                delays: [*short, *multiply, *divide, *memory],
                capacity: *capacity,
            })
        }
        _ => Err(ReadError::Line(line.number)),
    }
}

// The end of a text, behind the last line that says something.
fn end_line(line: Line<'_>) -> Result<(), ReadError>
    ensures { Says (λ end. end) line.entry.number (no_line (words_in line.entry.code.now)) result }
{
    match split_word(line.code) {
        Some(_) => Err(ReadError::Line(line.number)),
        None => Ok(()),
    }
}

// The job that a text holds, or the number of the first line that is not right.
pub fn read_move(alloc: Global, text: &[u8]) -> Result<Move, ReadError>
    ensures { Reads moved (move_of text.now) result }
{
    let mut reader = Reader::new(text);
    let scanner = setting_line(alloc, b"scanner", reader.next_line())?;
    let spare = setting_line(alloc, b"spare", reader.next_line())?;
    let program = numbers_behind(alloc, b"program", reader.next_line())?;
    let data = numbers_behind(alloc, b"data", reader.next_line())?;
    let interrupt = number_behind(alloc, b"interrupt", reader.next_line())?;
    end_line(reader.next_line())?;
    Ok(Move {
        scanner,
        spare,
        program,
        data,
        interrupt,
    })
}
