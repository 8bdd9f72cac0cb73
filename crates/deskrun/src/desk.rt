// The desk: a script of calls, and the lines that answer it.
ghost use Rattle.std.specs.Prelude.{◌≡◌, true, ◌++◌, take, drop, is_ok, IfOk, Ok, Err, string_bytes};
ghost use Rattle.jobrun.specs.Runs.{timing_of};
ghost use Rattle.printing.specs.Lines.{load_line, totals_line, input_line};
ghost use Rattle.deskrun.specs.Desk.{answers_text, TellsOn, PrintsDesk};

use crate::lists::{copies_asked, cycles_asked};
use future::FutureFile;
use history::HistoryBuffer;
use isa::refusal::Refusal;
use jobfile::scheme::Scheme;
use jobs::call::{Answer, Call, Totals};
use jobs::play::{NotPlayed, play};
use pickcore::record::CycleRecord;
use pickcore::setup::Setup;
use pickcore::state::Core;
use printing::answers::push_answer;
use printing::desk::{push_input, push_load, push_totals};
use recovery::Recovery;
use reorder::{BypassBuffer, ReorderBuffer};
use script::desk::{Script, read_script};
use script::error::ReadError;
use std::alloc::{AllocError, Global};

// The first so many elements, and those behind them: of a shorter list all, and none.
fn parts<T>(list: &[T], many: usize) -> (&[T], &[T])
    ensures front { result.0.now ≡ take many list.now }
    ensures back { result.1.now ≡ drop many list.now }
{
    list.split_at(many.min(list.len()))
}

// The calls of a script with their answers, and the lists that hold the records and the data words of these.
#[derive(Clone, Copy)]
struct Answered<'a> {
    calls: &'a [Call],
    answers: &'a [Answer],
    records: &'a [CycleRecord],
    copies: &'a [u32],
}

// Appends the lines of some answers.
fn push_answers(text: &mut String, made: Answered<'_>) -> Result<(), AllocError>
    ensures { is_ok result ≡ true → string_bytes text.new ≡ string_bytes text.old ++ answers_text made.entry.calls.now made.entry.answers.now made.entry.records.now made.entry.copies.now }
{
    let mut records = made.records;
    let mut copies = made.copies;
    for (call, answer) in made.calls.iter().zip(made.answers) {
        let (own, later) = parts(records, answer.records());
        let (words, others) = parts(copies, answer.copies());
        push_answer(text, call, answer, own, words)?;
        records = later;
        copies = others;
    }
    Ok(())
}

// The lines of calls that were made: the load, their answers, and the totals.
fn tell_played(alloc: Global, totals: Totals, made: Answered<'_>) -> Result<String, AllocError>
    ensures { IfOk result (λ s. string_bytes s ≡ load_line (Ok tt) ++ (answers_text made.entry.calls.now made.entry.answers.now (take totals.records made.entry.records.now) (take totals.words made.entry.copies.now) ++ totals_line totals.reports totals.instructions totals.cycles)) }
{
    // More than any one piece that is written, so from here the text only doubles: docs/DECISIONS.md says why from 304.
    let mut text = String::with_capacity(alloc, 304)?;
    push_load(&mut text, Ok(()))?;
    let (records, _) = parts(made.records, totals.records);
    let (copies, _) = parts(made.copies, totals.words);
    push_answers(
        &mut text,
        Answered {
            records,
            copies,
            ..made
        },
    )?;
    push_totals(
        &mut text,
        totals.reports,
        totals.instructions,
        totals.cycles,
    )?;
    Ok(text)
}

// The one line of a core that declined to load.
fn tell_refused(alloc: Global, refusal: Refusal) -> Result<String, AllocError>
    ensures { IfOk result (λ s. string_bytes s ≡ load_line (Err refusal)) }
{
    let mut text = String::new(alloc);
    push_load(&mut text, Err(refusal))?;
    Ok(text)
}

// Makes the calls of a script on a core over one scheme, and tells their answers.
fn tell_on<S: Recovery + Drop>(alloc: Global, script: Script) -> Result<String, AllocError>
    ensures { IfOk result (λ s. TellsOn S.MARK script.setting.delays script.setting.capacity script.program.items script.«data».items script.calls.items (string_bytes s)) }
{
    let Script {
        setting,
        program,
        mut data,
        calls,
    } = script;
    let program = program.as_slice();
    let data = data.as_mut_slice();
    let calls = calls.as_slice();
    let cycles = cycles_asked(calls).ok_or(AllocError)?;
    let words = copies_asked(calls)
        .checked_mul(data.len())
        .ok_or(AllocError)?;
    let mut answers = vec![in alloc; Answer::Data(0); calls.len()]?;
    let mut records = vec![in alloc; CycleRecord::default(); cycles]?;
    let mut copies = vec![in alloc; 0; words]?;
    let mut core: Core<S> = Core::new();
    let setup = Setup::new(setting.delays, setting.capacity, program, data);
    let played = play(
        &mut core,
        setup,
        program,
        data,
        calls,
        answers.as_mut_slice(),
        records.as_mut_slice(),
        copies.as_mut_slice(),
    );
    match played {
        Ok(totals) => tell_played(
            alloc,
            totals,
            Answered {
                calls,
                answers: answers.as_slice(),
                records: records.as_slice(),
                copies: copies.as_slice(),
            },
        ),
        Err(NotPlayed::Load(refusal)) => tell_refused(alloc, refusal),
        Err(NotPlayed::Answers) => unreachable(),
    }
}

// Makes the calls of a script under its scheme.
// A match: each arm is another type, and a trait for what is run over any scheme would be longer than this and `jobrun`'s.
fn run_script(alloc: Global, script: Script) -> Result<String, AllocError>
    ensures { IfOk result (λ s. TellsOn (timing_of script.setting.scheme) script.setting.delays script.setting.capacity script.program.items script.«data».items script.calls.items (string_bytes s)) }
{
    match script.setting.scheme {
        Scheme::ReorderBuffer => tell_on::<ReorderBuffer>(alloc, script),
        Scheme::BypassBuffer => tell_on::<BypassBuffer>(alloc, script),
        Scheme::HistoryBuffer => tell_on::<HistoryBuffer>(alloc, script),
        Scheme::FutureFile => tell_on::<FutureFile>(alloc, script),
    }
}

// The one line of a text that holds no script.
fn tell_input(alloc: Global, line: usize) -> Result<String, AllocError>
    ensures { IfOk result (λ s. string_bytes s ≡ input_line line) }
{
    let mut text = String::new(alloc);
    push_input(&mut text, line)?;
    Ok(text)
}

// What `desk` prints for its input: `input` and the number of the first line that is not right, `load declined` where the
// core does not load, or the answers to the calls, one after another, and the totals.
pub fn desk(alloc: Global, input: &[u8]) -> Result<String, AllocError>
    ensures { IfOk result (λ s. PrintsDesk input.now (string_bytes s)) }
{
    match read_script(alloc, input) {
        Ok(script) => run_script(alloc, script),
        Err(ReadError::Line(line)) => tell_input(alloc, line),
        Err(ReadError::OutOfMemory) => Err(AllocError),
    }
}
