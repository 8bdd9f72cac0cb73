// What was played, counted, so that a comparison that misses a case shows it.
use isa::fault::Cause;
use isa::number::number_or_0;
use pickcore::record::CycleRecord;
use pickcore::setup::Setup;
use std::fmt;

#[derive(Clone, Copy)]
pub enum Call {
    Load,
    Resume,
    Amend,
    Step,
    Run,
    Request,
    Cut,
    Report,
    Registers,
    WriteImage,
}

const CALLS: [Call; 10] = [
    Call::Load,
    Call::Resume,
    Call::Amend,
    Call::Step,
    Call::Run,
    Call::Request,
    Call::Cut,
    Call::Report,
    Call::Registers,
    Call::WriteImage,
];

// How many numbers an answer may have: 0 for a call that is taken, or a refusal's.
const NUMBERS: usize = 12;

impl Call {
    // Whether the call can have this answer in some state.
    fn may_answer(self, number: usize) -> bool {
        match self {
            Call::Load => matches!(number, 0..=4 | 6),
            Call::Resume => matches!(number, 0 | 6 | 8),
            Call::Amend => matches!(number, 0 | 6 | 7),
            Call::Step | Call::Run => matches!(number, 0 | 5 | 9 | 10),
            Call::Request | Call::Cut => matches!(number, 0 | 5),
            Call::Report | Call::Registers => matches!(number, 0 | 6),
            Call::WriteImage => matches!(number, 0 | 6 | 11),
        }
    }
}

impl fmt::Display for Call {
    fn fmt<W: fmt::Write>(&self, f: &mut fmt::Formatter<W>) -> fmt::Result {
        f.write_str(match self {
            Call::Load => "load",
            Call::Resume => "resume",
            Call::Amend => "amend",
            Call::Step => "step",
            Call::Run => "run",
            Call::Request => "request",
            Call::Cut => "cut",
            Call::Report => "report",
            Call::Registers => "registers",
            Call::WriteImage => "write_image",
        })
    }
}

// How often something happened.
#[derive(Clone, Copy, Default)]
pub struct Tally(u64);

impl Tally {
    pub fn add_one(&mut self) {
        self.0 = self.0.saturating_add(1);
    }

    fn is_zero(self) -> bool {
        self.0 == 0
    }
}

impl fmt::Display for Tally {
    fn fmt<W: fmt::Write>(&self, f: &mut fmt::Formatter<W>) -> fmt::Result {
        write!(f, "{}", self.0)
    }
}

// Counts at a place of a list.
fn count(list: &mut [Tally], place: u32) {
    if let Some(tally) = list.get_mut(place as usize) {
        tally.add_one();
    }
}

#[derive(Clone, Copy, Default)]
pub struct Covered {
    pub jobs: Tally,
    pub plain_steps: Tally,
    pub cuts_in_flight: Tally,
    pub resumes_after_backing_out: Tally,
    pub used_up_stretches: Tally,
    calls: Tally,
    cycles: Tally,
    stops: Tally,
    // accepted loads with no data words, and with as many as a core takes
    empty_data: Tally,
    full_data: Tally,
    // by number
    holds: [Tally; 7],
    causes: [Tally; 9],
    kinds: [Tally; 12],
    delays: [Tally; 17],
    capacities: [Tally; 17],
    // by call and number
    answers: [[Tally; NUMBERS]; 10],
}

impl Covered {
    pub fn answer(&mut self, call: Call, number: u32) {
        self.calls.add_one();
        count(&mut self.answers[call as usize], number);
    }

    pub fn cycle(&mut self, record: CycleRecord) {
        self.cycles.add_one();
        count(&mut self.holds, number_or_0(record.hold));
    }

    // An instruction that issued.
    // Its kind is a number here: the top four bits of any word, and a place in the list.
    pub fn issue(&mut self, kind: u32) {
        count(&mut self.kinds, kind);
    }

    // A load that was taken.
    pub fn load(&mut self, setup: Setup) {
        for delay in setup.delays {
            count(&mut self.delays, delay);
        }
        count(&mut self.capacities, setup.capacity);
        match setup.data_length {
            0 => self.empty_data.add_one(),
            4096 => self.full_data.add_one(),
            _ => {}
        }
    }

    pub fn stop(&mut self, cause: Cause) {
        self.stops.add_one();
        count(&mut self.causes, u32::from(cause));
    }
}

// A line for one number.
fn write_tally<W: fmt::Write>(f: &mut fmt::Formatter<W>, name: &str, tally: Tally) -> fmt::Result {
    writeln!(f, "{name}: {tally}")?;
    if tally.is_zero() {
        writeln!(f, "not covered: {name}")?;
    }
    Ok(())
}

// A line that tells how often each number from 1 on came, and a line for each that never came.
fn write_tallies<W: fmt::Write>(
    f: &mut fmt::Formatter<W>,
    name: &str,
    tallies: &[Tally],
) -> fmt::Result {
    write!(f, "{name} from 1:")?;
    for tally in tallies.iter().skip(1) {
        write!(f, " {tally}")?;
    }
    writeln!(f)?;
    for (number, tally) in tallies.iter().enumerate().skip(1) {
        if tally.is_zero() {
            writeln!(f, "not covered: {name} from 1 {number}")?;
        }
    }
    Ok(())
}

// A line with the answers that a call can have, each with how often it came, and a line for each that never came.
fn write_answers<W: fmt::Write>(
    f: &mut fmt::Formatter<W>,
    call: Call,
    tallies: &[Tally],
) -> fmt::Result {
    write!(f, "{call}:")?;
    for (number, tally) in tallies.iter().enumerate() {
        if call.may_answer(number) {
            write!(f, " {number}={tally}")?;
        }
    }
    writeln!(f)?;
    for (number, tally) in tallies.iter().enumerate() {
        if call.may_answer(number) && tally.is_zero() {
            writeln!(f, "not covered: {call} {number}")?;
        }
    }
    Ok(())
}

impl fmt::Display for Covered {
    fn fmt<W: fmt::Write>(&self, f: &mut fmt::Formatter<W>) -> fmt::Result {
        write_tally(f, "jobs, each under one scheme", self.jobs)?;
        write_tally(f, "calls", self.calls)?;
        write_tally(f, "cycles", self.cycles)?;
        write_tally(f, "steps of the plain machine", self.plain_steps)?;
        write_tally(f, "stops, each compared with the plain machine", self.stops)?;
        writeln!(
            f,
            "how often each call had each answer, 0 or a refusal's number"
        )?;
        for (call, answers) in CALLS.iter().zip(self.answers.iter()) {
            write_answers(f, *call, answers)?;
        }
        write_tallies(f, "holds", &self.holds)?;
        write_tallies(f, "causes", &self.causes)?;
        write_tallies(f, "issued kinds", &self.kinds)?;
        write_tallies(f, "delays", &self.delays)?;
        write_tallies(f, "capacities", &self.capacities)?;
        write_tally(f, "loads with no data", self.empty_data)?;
        write_tally(f, "loads with 4096 data words", self.full_data)?;
        write_tally(f, "cuts with two or more in flight", self.cuts_in_flight)?;
        write_tally(
            f,
            "resumes after two or more were taken back",
            self.resumes_after_backing_out,
        )?;
        write_tally(f, "used-up stretches", self.used_up_stretches)
    }
}
