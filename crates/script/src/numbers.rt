// The numbers behind a line's first word.
ghost use Rattle.std.specs.Prelude.{◌≡◌, IfOk, vec_items};
ghost use Rattle.std.specs.Option.{option_map};
ghost use Rattle.script.specs.Tokens.{words_in};
ghost use Rattle.script.specs.Numerals.{numbers_of, numbers_behind};
ghost use Rattle.script.specs.Scripts.{one_number};
ghost use Rattle.script.specs.Told.{Says};

use crate::error::ReadError;
use crate::numeral::number_of;
use crate::reader::Line;
use crate::tokens::split_word;
use std::alloc::{AllocError, Global};

// The numbers that some bytes hold, if each word is one.
#[tactic(auto, using(crate::proofs::Spoken::word_more))]
pub(crate) fn numbers_in(alloc: Global, bytes: &[u8]) -> Result<Option<Vec<u32>>, AllocError>
    ensures { IfOk result (λ o. option_map vec_items o ≡ numbers_of (words_in bytes.now)) }
{
    let mut numbers = Vec::new(alloc);
    let mut rest = bytes;
    while let Some((word, behind)) = split_word(rest) {
        let Some(number) = number_of(word) else {
            return Ok(None);
        };
        numbers.push(number)?;
        rest = behind;
    }
    Ok(Some(numbers))
}

// The numbers behind the line's first word, which is to be the key.
pub(crate) fn numbers_behind(
    alloc: Global,
    key: &[u8],
    line: Line<'_>,
) -> Result<Vec<u32>, ReadError>
    ensures { Says vec_items line.entry.number (numbers_behind key.now (words_in line.entry.code.now)) result }
{
    match split_word(line.code) {
        Some((word, rest)) if word == key => {
            numbers_in(alloc, rest)?.ok_or(ReadError::Line(line.number))
        }
        _ => Err(ReadError::Line(line.number)),
    }
}

// The one number behind the key.
pub(crate) fn number_behind(alloc: Global, key: &[u8], line: Line<'_>) -> Result<u32, ReadError>
    ensures { Says (λ n. n) line.entry.number (one_number (numbers_behind key.now (words_in line.entry.code.now))) result }
{
    let numbers = numbers_behind(alloc, key, line)?;
    match numbers.as_slice() {
        [number] => Ok(*number),
        _ => Err(ReadError::Line(line.number)),
    }
}
