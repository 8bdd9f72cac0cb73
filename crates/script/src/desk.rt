// A desk script: what a core is loaded with, and the calls on it.
ghost use Rattle.script.specs.Tokens.{words_in};
ghost use Rattle.script.specs.Scripts.{scheme_line, delays_line, script_of};
ghost use Rattle.script.specs.Told.{Says, Reads, scripted};

use crate::calls::read_calls;
use crate::error::ReadError;
use crate::numbers::{number_behind, numbers_behind};
use crate::reader::{Line, Reader};
use isa::unit::UNITS;
use jobfile::scheme::Scheme;
use jobfile::setting::Setting;
use jobs::call::Call;
use std::alloc::Global;

// The setting of a core, a program, its data words, and the calls.
#[derive(PartialEq, Eq, Debug, Drop)]
pub struct Script {
    pub setting: Setting,
    pub program: Vec<u32>,
    pub data: Vec<u32>,
    pub calls: Vec<Call>,
}

// The scheme that a line names by its number.
fn scheme_line(alloc: Global, line: Line<'_>) -> Result<Scheme, ReadError>
    ensures { Says (λ s. s) line.entry.number (scheme_line (words_in line.entry.code.now)) result }
{
    let number = number_behind(alloc, b"scheme", line)?;
    Scheme::try_from(number).map_err(|_| ReadError::Line(line.number))
}

// The delays that a line has.
fn delays_line(alloc: Global, line: Line<'_>) -> Result<[u32; UNITS], ReadError>
    ensures { Says (λ d. d) line.entry.number (delays_line (words_in line.entry.code.now)) result }
{
    let numbers = numbers_behind(alloc, b"delays", line)?;
    match numbers.as_slice() {
        [short, multiply, divide, memory] => Ok([*short, *multiply, *divide, *memory]),
        _ => Err(ReadError::Line(line.number)),
    }
}

// The script that a text holds, or the number of the first line that is not right.
pub fn read_script(alloc: Global, text: &[u8]) -> Result<Script, ReadError>
    ensures { Reads scripted (script_of text.now) result }
{
    let mut reader = Reader::new(text);
    let scheme = scheme_line(alloc, reader.next_line())?;
    let delays = delays_line(alloc, reader.next_line())?;
    let capacity = number_behind(alloc, b"capacity", reader.next_line())?;
    let program = numbers_behind(alloc, b"program", reader.next_line())?;
    let data = numbers_behind(alloc, b"data", reader.next_line())?;
    let calls = read_calls(alloc, reader)?;
    Ok(Script {
        setting: Setting {
            scheme,
            delays,
            capacity,
        },
        program,
        data,
        calls,
    })
}
