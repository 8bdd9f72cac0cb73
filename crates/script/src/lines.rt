// The lines of a text that say something, one after the other.
ghost use Rattle.std.specs.Prelude.{◌≡◌, ◌<◌, length};
ghost use Rattle.script.specs.Tokens.{lines_of, words_in};
ghost use Rattle.script.specs.Found.{next_line};
ghost use Rattle.script.specs.Told.{found};

use crate::reader::{Line, Reader};
use crate::tokens::{said, split_line};

impl<'a> Reader<'a> {
    // The front of a text.
    pub(crate) fn new(text: &'a [u8]) -> Reader<'a>
        ensures rest { result.rest.now ≡ text.now }
        ensures number { result.number ≡ 1 }
    {
        Reader {
            rest: text,
            number: 1,
        }
    }

    // The next line that says something; at the end an empty one, with the number behind the last line.
    // No `Iterator`: a head asks for the line at the end too, and names it in its error.
    pub(crate) fn next_line(&mut self) -> Line<'a>
        ensures line { found result self.new ≡ next_line self.old.number (lines_of self.old.rest.now) }
        ensures some { 0 < length result.code.now → 0 < length (words_in result.code.now) }
    {
        while let Some((line, behind)) = split_line(self.rest) {
            let number = self.number;
            *self = Reader {
                rest: behind,
                number: number + 1,
            };
            let code = said(line);
            if !code.is_empty() {
                return Line { number, code };
            }
        }
        Line {
            number: self.number,
            code: self.rest,
        }
    }
}
