// A call on a core, as one of a list, and its answer.
ghost use Rattle.std.specs.Prelude.{◌≡◌};
ghost use Rattle.jobs.specs.Play.{steps_in, records_in, copies_in};

use isa::refusal::Refusal;
use pickcore::record::{CycleRecord, Report};

// A call; the program, the data words and the list of records are those that the whole list of calls is lent.
#[derive(PartialEq, Eq, Debug, Drop)]
pub enum Call {
    // one cycle
    Step,
    // at most so many cycles
    Run(usize),
    Request,
    Cut,
    // a register, and the word for it
    Amend(u32, u32),
    // an image
    TakeUp(Vec<u32>),
    // the words of the last image that was answered, or no words where none was
    TakeUpImage,
    // the counter to start at
    Resume(u32),
    Report,
    Registers,
    Image,
    // the data words as they are
    Data,
}

// What a call answers.
#[derive(Clone, Copy, PartialEq, Eq, Debug)]
pub enum Answer {
    Stepped(Result<CycleRecord, Refusal>),
    // how many records the run wrote
    Ran(Result<usize, Refusal>),
    // of a request, a cut, an amend, a take-up or a resume
    Done(Result<(), Refusal>),
    Reported(Result<Report, Refusal>),
    Registers(Result<[u32; 16], Refusal>),
    Imaged(Result<[u32; 36], Refusal>),
    // how many data words were written
    Data(usize),
}

impl Answer {
    // The cycles that the call took.
    pub fn cycles(&self) -> usize
        ensures { result ≡ steps_in self.now }
    {
        match self {
            Answer::Stepped(Ok(_)) => 1,
            _ => self.records(),
        }
    }

    // The places that the call filled in the list of records.
    pub fn records(&self) -> usize
        ensures { result ≡ records_in self.now }
    {
        match self {
            Answer::Ran(Ok(cycles)) => *cycles,
            _ => 0,
        }
    }

    // The places that the call filled in the list of data words.
    pub fn copies(&self) -> usize
        ensures { result ≡ copies_in self.now }
    {
        match self {
            Answer::Data(words) => *words,
            _ => 0,
        }
    }
}

// What a list of calls came to.
#[derive(Clone, Copy, PartialEq, Eq, Debug)]
pub struct Totals {
    // places filled in the list of records, and in the list of data words
    pub records: usize,
    pub words: usize,
    // reports made, the instructions that they count together, and the accepted steps
    pub reports: usize,
    pub instructions: u128,
    pub cycles: u128,
}
