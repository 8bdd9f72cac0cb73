// The lines around the answers of a desk script.
ghost use Rattle.std.specs.Prelude.{◌≡◌, true, ◌++◌, is_ok, string_bytes};
ghost use Rattle.printing.specs.Lines.{load_line, input_line, totals_line};

use crate::parts::Declined;
use isa::refusal::Refusal;
use std::alloc::AllocError;

// Appends the answer to a load.
pub fn push_load(text: &mut String, answer: Result<(), Refusal>) -> Result<(), AllocError>
    ensures { is_ok result ≡ true → string_bytes text.new ≡ string_bytes text.old ++ load_line answer }
{
    match answer {
        Ok(()) => writeln!(text, "load ok"),
        Err(refusal) => writeln!(text, "load {}", Declined(refusal)),
    }
}

// Appends the number of the first line that is not right.
pub fn push_input(text: &mut String, line: usize) -> Result<(), AllocError>
    ensures { is_ok result ≡ true → string_bytes text.new ≡ string_bytes text.old ++ input_line line }
{
    writeln!(text, "input {line}")
}

// Appends how many reports there were, and over all of them the instructions and the cycles.
pub fn push_totals(
    text: &mut String,
    reports: usize,
    instructions: u128,
    cycles: u128,
) -> Result<(), AllocError>
    ensures { is_ok result ≡ true → string_bytes text.new ≡ string_bytes text.old ++ totals_line reports instructions cycles }
{
    writeln!(
        text,
        "reports {reports} instructions {instructions} cycles {cycles}"
    )
}
