// What several lines share.
ghost use Rattle.std.specs.Prelude.{◌≡◌, ◌≤◌, true, ◌++◌, length, Some, is_ok, string_bytes};
ghost use Rattle.printing.specs.Lines.{declined_text, record_text, words_text, words_line};

use isa::number::number_or_0;
use isa::refusal::Refusal;
use jobfile::lines::{Cycle, spaced_hex};
use pickcore::record::CycleRecord;
use std::alloc::AllocError;
use std::fmt;

// That a call was declined: by its number, and for a word of an image the word's index.
#[derive(Clone, Copy, PartialEq, Eq, Debug)]
pub struct Declined(pub Refusal);

impl fmt::Display for Declined {
    ghost output = { λ x. Some (declined_text x.0) };

    fn fmt<W: fmt::Write>(&self, f: &mut fmt::Formatter<W>) -> fmt::Result {
        let number = u32::from(self.0);
        match self.0 {
            Refusal::ImageWord(index) => write!(f, "declined {number} {index}"),
            _ => write!(f, "declined {number}"),
        }
    }
}

// What one cycle of a list did, with its cause.
#[derive(Clone, Copy, PartialEq, Eq, Debug)]
pub struct Record(pub CycleRecord);

impl fmt::Display for Record {
    ghost output = { λ x. Some (record_text x.0) };

    fn fmt<W: fmt::Write>(&self, f: &mut fmt::Formatter<W>) -> fmt::Result {
        write!(f, "{} {}", Cycle(self.0), number_or_0(self.0.cause))
    }
}

// The words, each behind a space, as one text in a lent room for sixteen of them.
fn spaced_words<'a>(room: &'a mut [[u8; 11]; 16], words: &[u32]) -> &'a str
    requires { length words.now ≤ 16 }
    ensures { result.now ≡ words_text words.now }
{
    // Each at its own index: what stands behind the words stays, and is not read.
    for (at, word) in words.iter().enumerate() {
        room[at] = spaced_hex(*word);
    }
    // It is ASCII, so it is text.
    let Ok(text) = str::from_utf8(room[..words.len()].as_flattened()) else {
        unreachable!();
    };
    text
}

// Some words, each behind a space.
#[derive(Clone, Copy, PartialEq, Eq, Debug)]
pub struct Words<'a>(pub &'a [u32]);

impl fmt::Display for Words<'_> {
    ghost output = { λ x. Some (words_text x.0.now) };

    fn fmt<W: fmt::Write>(&self, f: &mut fmt::Formatter<W>) -> fmt::Result {
        // Sixteen words in one write: with `{:08x}` for each, `desk` took twice as long over long lines.
        let mut room = [[0; 11]; 16];
        for chunk in self.0.chunks(16) {
            f.write_str(spaced_words(&mut room, chunk))?;
        }
        Ok(())
    }
}

// Appends a name and some words.
pub fn push_words(text: &mut String, name: &str, words: &[u32]) -> Result<(), AllocError>
    ensures { is_ok result ≡ true → string_bytes text.new ≡ string_bytes text.old ++ words_line name.now words.now }
{
    writeln!(text, "{name}{}", Words(words))
}
