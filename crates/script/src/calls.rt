// The calls of a script, one on a line.
ghost use Rattle.std.specs.Prelude.{◌≡◌};
ghost use Rattle.std.specs.Option.{option_map};
ghost use Rattle.script.specs.Tokens.{lines_of, words_in};
ghost use Rattle.script.specs.Calls.{call_with, takes_image, call_of, calls_of};
ghost use Rattle.script.specs.Told.{Says, Reads, asked, all_asked};

use crate::error::ReadError;
use crate::keyword::Keyword;
use crate::numbers::numbers_in;
use crate::reader::{Line, Reader};
use crate::tokens::split_word;
use jobs::call::Call;
use std::alloc::Global;

// The call of a keyword with the numbers behind it; a run is of at most a million cycles.
fn call_with(key: Keyword, numbers: Vec<u32>) -> Option<Call>
    ensures { option_map asked result ≡ call_with key numbers.items }
{
    match (key, numbers.as_slice()) {
        (Keyword::Step, []) => Some(Call::Step),
        (Keyword::Run, [most]) if *most <= 1_000_000 => Some(Call::Run(*most as usize)),
        (Keyword::Request, []) => Some(Call::Request),
        (Keyword::Cut, []) => Some(Call::Cut),
        (Keyword::Amend, [register, word]) => Some(Call::Amend(*register, *word)),
        (Keyword::TakeUp, _) => Some(Call::TakeUp(numbers)),
        (Keyword::Resume, [counter]) => Some(Call::Resume(*counter)),
        (Keyword::Report, []) => Some(Call::Report),
        (Keyword::Registers, []) => Some(Call::Registers),
        (Keyword::Image, []) => Some(Call::Image),
        (Keyword::Data, []) => Some(Call::Data),
        _ => None,
    }
}

// Whether a word and what stands behind it are `take-up image`.
fn is_take_up_image(word: &[u8], rest: &[u8]) -> bool
    ensures { result ≡ takes_image word.now (words_in rest.now) }
{
    match split_word(rest) {
        Some((what, behind)) => {
            word == b"take-up".as_slice()
                && what == b"image".as_slice()
                && split_word(behind).is_none()
        }
        None => false,
    }
}

// The call that a line asks for.
pub(crate) fn read_call(alloc: Global, line: Line<'_>) -> Result<Call, ReadError>
    ensures { Says asked line.entry.number (call_of (words_in line.entry.code.now)) result }
{
    let wrong = ReadError::Line(line.number);
    let (word, rest) = split_word(line.code).ok_or(wrong)?;
    if is_take_up_image(word, rest) {
        return Ok(Call::TakeUpImage);
    }
    let key = Keyword::try_from(word).map_err(|_| wrong)?;
    let numbers = numbers_in(alloc, rest)?.ok_or(wrong)?;
    call_with(key, numbers).ok_or(wrong)
}

// The calls from a place on.
pub(crate) fn read_calls(alloc: Global, mut reader: Reader<'_>) -> Result<Vec<Call>, ReadError>
    ensures { Reads all_asked (calls_of reader.entry.number (lines_of reader.entry.rest.now)) result }
{
    let mut calls = Vec::new(alloc);
    let mut line = reader.next_line();
    while !line.code.is_empty() {
        calls.push(read_call(alloc, line)?)?;
        line = reader.next_line();
    }
    Ok(calls)
}
