// The lines of a call and its answer.
ghost use Rattle.std.specs.Prelude.{◌≡◌, true, ◌++◌, is_ok, string_bytes};
ghost use Rattle.printing.specs.Lines.{run_lines, answer_lines, call_name};

use crate::calls::call_name;
use crate::parts::{Declined, Record, push_words};
use jobfile::lines::Stop;
use jobs::call::{Answer, Call};
use pickcore::record::CycleRecord;
use std::alloc::AllocError;

// Appends the cycles of a run, and how many it had.
fn push_run(
    text: &mut String,
    name: &str,
    count: usize,
    records: &[CycleRecord],
) -> Result<(), AllocError>
    ensures { is_ok result ≡ true → string_bytes text.new ≡ string_bytes text.old ++ run_lines name.now count records.now }
{
    for (i, record) in records.iter().enumerate() {
        writeln!(text, "cycle {} {}", i + 1, Record(*record))?;
    }
    writeln!(text, "{name} {count}")
}

// Appends the lines of a call and its answer: of a run with the records that it wrote, of a call for the data words
// with these.
pub fn push_answer(
    text: &mut String,
    call: &Call,
    answer: &Answer,
    records: &[CycleRecord],
    words: &[u32],
) -> Result<(), AllocError>
    ensures { is_ok result ≡ true → string_bytes text.new ≡ string_bytes text.old ++ answer_lines (call_name call.now) answer.now records.now words.now }
{
    let name = call_name(call);
    match answer {
        Answer::Stepped(Ok(record)) => writeln!(text, "{name} {}", Record(*record)),
        Answer::Ran(Ok(count)) => push_run(text, name, *count, records),
        Answer::Done(Ok(())) => writeln!(text, "{name} ok"),
        Answer::Reported(Ok(report)) => writeln!(text, "{name} {}", Stop(*report)),
        Answer::Registers(Ok(registers)) => push_words(text, name, registers),
        Answer::Imaged(Ok(image)) => push_words(text, name, image),
        Answer::Data(_) => push_words(text, name, words),
        Answer::Stepped(Err(refusal))
        | Answer::Ran(Err(refusal))
        | Answer::Done(Err(refusal))
        | Answer::Reported(Err(refusal))
        | Answer::Registers(Err(refusal))
        | Answer::Imaged(Err(refusal)) => writeln!(text, "{name} {}", Declined(*refusal)),
    }
}
