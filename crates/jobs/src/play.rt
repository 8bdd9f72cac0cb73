// A list of calls on a core that is loaded first.
ghost use Rattle.std.specs.Prelude.{◌≡◌, ◌+◌, ◌^◌, ◌<◌, ◌≤◌, Bool, true, length, is_ok, is_err};
ghost use Rattle.pickcore.specs.Core.{machine_of};
ghost use Rattle.jobs.specs.Play.{words_known, or_image, steps_in, records_in, copies_in, counted, count_of, noted, no_totals, Plays};
ghost use Rattle.jobs.specs.declared.play.NotPlayed.TheVariants.{Load};
ghost use Rattle.jobs.specs.Precision.{Outcomes, ListsArePrecise};

use crate::call::{Answer, Call, Totals};
use crate::make::make;
use images::layout::IMAGE_WORDS;
use isa::refusal::Refusal;
use pickcore::record::{CycleRecord, Report};
use pickcore::setup::Setup;
use pickcore::state::Core;
use recovery::Recovery;

// The last image answered, now that there is one answer more.
fn newest_image(answer: &Answer, last: Option<[u32; IMAGE_WORDS]>) -> Option<[u32; IMAGE_WORDS]>
    ensures { words_known result ≡ or_image answer.now (words_known last) }
{
    match answer {
        Answer::Imaged(Ok(words)) => Some(*words),
        _ => last,
    }
}

// The count of a report that a call made, where the core ran before it.
fn report_made(ran: bool, report: Result<Report, Refusal>) -> Option<u32>
    ensures value { result ≡ counted ran report }
    ensures few { count_of result ≤ 2 ^ 32 }
{
    match report {
        Ok(report) if ran => Some(report.count),
        _ => None,
    }
}

impl Totals {
    fn none() -> Totals
        ensures { result ≡ no_totals }
    {
        Totals {
            records: 0,
            words: 0,
            reports: 0,
            instructions: 0,
            cycles: 0,
        }
    }

    // One call more, with the count of the report that it made, if any.
    fn note(&mut self, answer: &Answer, made: Option<u32>)
        requires { (self.old.records + records_in answer.now < 2 ^ 64) × ((self.old.words + copies_in answer.now < 2 ^ 64) × ((self.old.reports < 2 ^ 63) × ((self.old.instructions < 2 ^ 127) × (self.old.cycles < 2 ^ 127)))) }
        ensures totals { self.new ≡ noted self.old answer.now made }
        ensures short { steps_in answer.now ≤ 2 ^ 64 }
    {
        self.records += answer.records();
        self.words += answer.copies();
        self.cycles += answer.cycles() as u128;
        if let Some(count) = made {
            self.reports += 1;
            self.instructions += count as u128;
        }
    }
}

// Makes the calls one after another.
fn make_all<S: Recovery>(
    core: &mut Core<S>,
    program: &[u32],
    data: &mut [u32],
    calls: &[Call],
    answers: &mut [Answer],
    records: &mut [CycleRecord],
    copies: &mut [u32],
) -> Totals
    requires { (length calls.now ≤ length answers.old) × ((length records.old < 2 ^ 64) × (length copies.old < 2 ^ 64)) }
    ensures { Plays S.MARK program.now calls.now answers.old records.old copies.old (machine_of S.meaning core.old) «data».old result answers.new records.new copies.new (machine_of S.meaning core.new) «data».new }
{
    let mut totals = Totals::none();
    let mut last = None;
    // by index: tried as a zip, whose borrow hides the answers given so far from the invariant, and the proof did not close
    for (i, call) in calls.iter().enumerate() {
        let ran = core.report().is_err();
        let answer = make(
            core,
            call,
            &last,
            program,
            data,
            &mut records[totals.records..],
            &mut copies[totals.words..],
        );
        totals.note(&answer, report_made(ran, core.report()));
        last = newest_image(&answer, last);
        answers[i] = answer;
    }
    totals
}

// Why a list of calls was not made.
#[derive(Clone, Copy, PartialEq, Eq, Debug)]
pub enum NotPlayed {
    // there are fewer places for answers than calls
    Answers,
    // the core declined to load
    Load(Refusal),
}

impl From<Refusal> for NotPlayed {
    ghost from_gives = { λ refusal reason. reason ≡ Load refusal };

    fn from(refusal: Refusal) -> NotPlayed {
        NotPlayed::Load(refusal)
    }
}

// Loads a core and makes a list of calls on it, each lent the program, the data words, and what is left of the lists. The
// answers go to the list for answers, the records of all runs one after another to the list for records, and the data
// words of each `Data` to the list for copies; where one of the latter two is full, a run makes no further cycle and a
// `Data` no further copy. It allocates nothing.
//
// The lists are lent one by one: a struct of four `&mut` would have each clause speak of its loan.
//
// Whatever the calls are, every report among them agrees with the plain machine beside the core.
pub fn play<S: Recovery>(
    core: &mut Core<S>,
    setup: Setup,
    program: &[u32],
    data: &mut [u32],
    calls: &[Call],
    answers: &mut [Answer],
    records: &mut [CycleRecord],
    copies: &mut [u32],
) -> Result<Totals, NotPlayed>
    ensures outcome { Outcomes S.MARK program.now setup calls.now answers.old records.old copies.old (machine_of S.meaning core.old) «data».old result answers.new records.new copies.new (machine_of S.meaning core.new) «data».new }
    ensures same { is_err result ≡ true → core.new ≡ core.old }
{
    if answers.len() < calls.len() {
        return Err(NotPlayed::Answers);
    }
    core.load(setup)?;
    Ok(make_all(core, program, data, calls, answers, records, copies))
}

// Every list of calls on a core just loaded is precise, over every scheme, whatever tags it chose.
pub fn lists_are_precise()
    ensures { ListsArePrecise }
{}
