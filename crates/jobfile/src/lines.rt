// The lines that a program prints.
ghost use Rattle.std.specs.Prelude.{◌≡◌, ◌<◌, ◌++◌, Some, codes};
ghost use Rattle.jobfile.specs.Lines.{hex_digit, hex_byte, hex_word, counter_text, cycle_text, cycle_line, report_text, stop_line, declined_line};

use isa::number::number_or_0;
use isa::refusal::Refusal;
use pickcore::record::{CycleRecord, Report};
use std::fmt;

// A counter, or a dash where there is none.
#[derive(Clone, Copy, PartialEq, Eq, Debug)]
pub struct Counter(pub Option<u16>);

impl fmt::Display for Counter {
    ghost output = { λ x. Some (counter_text x.0) };

    fn fmt<W: fmt::Write>(&self, f: &mut fmt::Formatter<W>) -> fmt::Result {
        match self.0 {
            Some(at) => write!(f, "{at}"),
            None => write!(f, "-"),
        }
    }
}

// What one cycle did: the retired and the issued counter, and the hold.
#[derive(Clone, Copy, PartialEq, Eq, Debug)]
pub struct Cycle(pub CycleRecord);

impl fmt::Display for Cycle {
    ghost output = { λ x. Some (cycle_text x.0) };

    fn fmt<W: fmt::Write>(&self, f: &mut fmt::Formatter<W>) -> fmt::Result {
        let retired = Counter(self.0.retired);
        let issued = Counter(self.0.issued);
        let hold = number_or_0(self.0.hold);
        write!(f, "{retired} {issued} {hold}")
    }
}

// A cycle's number, and what it did.
#[derive(Clone, Copy, PartialEq, Eq, Debug)]
pub struct CycleLine {
    pub number: usize,
    pub cycle: CycleRecord,
}

impl fmt::Display for CycleLine {
    ghost output = { λ x. Some (cycle_line x.number x.cycle) };

    fn fmt<W: fmt::Write>(&self, f: &mut fmt::Formatter<W>) -> fmt::Result {
        writeln!(f, "{} {}", self.number, Cycle(self.cycle))
    }
}

// Why, where and after how many instructions a core stopped.
#[derive(Clone, Copy, PartialEq, Eq, Debug)]
pub struct Stop(pub Report);

impl fmt::Display for Stop {
    ghost output = { λ x. Some (report_text x.0) };

    fn fmt<W: fmt::Write>(&self, f: &mut fmt::Formatter<W>) -> fmt::Result {
        let cause = number_or_0(self.0.cause);
        let counter = self.0.counter;
        let count = self.0.count;
        write!(f, "{cause} {counter} {count}")
    }
}

// That a core stopped.
#[derive(Clone, Copy, PartialEq, Eq, Debug)]
pub struct StopLine(pub Report);

impl fmt::Display for StopLine {
    ghost output = { λ x. Some (stop_line x.0) };

    fn fmt<W: fmt::Write>(&self, f: &mut fmt::Formatter<W>) -> fmt::Result {
        writeln!(f, "stop {}", Stop(self.0))
    }
}

// A call that was declined.
#[derive(Clone, Copy, PartialEq, Eq, Debug)]
pub struct DeclinedLine(pub Refusal);

impl fmt::Display for DeclinedLine {
    ghost output = { λ x. Some (declined_line x.0) };

    fn fmt<W: fmt::Write>(&self, f: &mut fmt::Formatter<W>) -> fmt::Result {
        let number = u32::from(self.0);
        writeln!(f, "declined {number}")
    }
}

// A word as `0x` and eight hexadecimal digits.
#[derive(Clone, Copy, PartialEq, Eq, Debug)]
pub struct HexWord(pub u32);

impl fmt::Display for HexWord {
    ghost output = { λ x. Some (hex_word x.0) };

    #[tactic(auto, using(crate::proofs::Hexadecimal::hex_word_is))]
    fn fmt<W: fmt::Write>(&self, f: &mut fmt::Formatter<W>) -> fmt::Result {
        let word = self.0;
        write!(f, "0x{word:08x}")
    }
}

// A hexadecimal digit, as ASCII.
fn hex_digit(n: u8) -> u8
    requires { n < 16 }
    ensures { result ≡ hex_digit n }
{
    if n < 10 { b'0' + n } else { b'a' + (n - 10) }
}

// The two hexadecimal digits of a byte.
fn hex_byte(byte: u8) -> [u8; 2]
    ensures { result ≡ hex_byte byte }
{
    [hex_digit(byte / 16), hex_digit(byte % 16)]
}

// A word as `HexWord` writes it, behind a space: its bytes, for lines of many words, which write several words at once.
pub fn spaced_hex(word: u32) -> [u8; 11]
    ensures { result ≡ codes " " ++ hex_word word }
{
    let [first, second, third, last] = word.to_be_bytes();
    let [a, b] = hex_byte(first);
    let [c, d] = hex_byte(second);
    let [e, f] = hex_byte(third);
    let [g, h] = hex_byte(last);
    [b' ', b'0', b'x', a, b, c, d, e, f, g, h]
}
