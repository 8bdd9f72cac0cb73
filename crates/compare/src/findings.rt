// Where the models differ.
use crate::covered::{Call, Covered, Tally};
use arrayvec::ArrayVec;
use isa::fault::Fault;
use isa::number::number_or_0;
use isa::refusal::Refusal;
use pickcore::record::{CycleRecord, Report};
use std::fmt;

// What is compared. `Plain` is what the plain machine has beside the core.
#[derive(Clone, Copy, Default)]
pub enum What {
    Answer(Call),
    #[default]
    Records,
    Retired,
    Issued,
    Hold,
    CycleCause,
    Cause,
    Counter,
    Count,
    Register,
    Data,
    Image,
    Guard,
    PlainFault,
    PlainCounter,
    PlainRegister,
    PlainData,
}

impl fmt::Display for What {
    fn fmt<W: fmt::Write>(&self, f: &mut fmt::Formatter<W>) -> fmt::Result {
        f.write_str(match self {
            What::Answer(call) => return call.fmt(f),
            What::Records => "number of records",
            What::Retired => "retired",
            What::Issued => "issued",
            What::Hold => "hold",
            What::CycleCause => "cause of a cycle",
            What::Cause => "cause of a report",
            What::Counter => "counter",
            What::Count => "count",
            What::Register => "register",
            What::Data => "data",
            What::Image => "image",
            What::Guard => "word that stays",
            What::PlainFault => "plain fault",
            What::PlainCounter => "plain counter",
            What::PlainRegister => "plain register",
            What::PlainData => "plain data",
        })
    }
}

// Where the play stands: which job, under which scheme, at which of its calls.
#[derive(Clone, Copy, Default)]
struct Place {
    job: Tally,
    // a number, and no enum: it is only printed, and each scheme is a type with its number
    scheme: u32,
    call: Tally,
}

// The words that the core and the other model have for one thing, and where. The default fills a list's free places.
#[derive(Clone, Copy, Default)]
struct Difference {
    place: Place,
    what: What,
    core: u32,
    other: u32,
}

impl fmt::Display for Place {
    fn fmt<W: fmt::Write>(&self, f: &mut fmt::Formatter<W>) -> fmt::Result {
        write!(
            f,
            "job {} scheme {} call {}",
            self.job, self.scheme, self.call
        )
    }
}

impl fmt::Display for Difference {
    fn fmt<W: fmt::Write>(&self, f: &mut fmt::Formatter<W>) -> fmt::Result {
        write!(
            f,
            "{}: {} {} against {}",
            self.place, self.what, self.core, self.other
        )
    }
}

// How many differences are shown.
const SHOWN: usize = 6;

#[derive(Drop)]
pub struct Findings {
    pub covered: Covered,
    place: Place,
    differences: Tally,
    first: ArrayVec<Difference, SHOWN>,
}

// A counter of a record as a number, which no counter is where there is none.
fn counter_number<N: Into<u32>>(counter: Option<N>) -> u32 {
    counter.map_or(u32::MAX, N::into)
}

impl Findings {
    pub fn new() -> Findings {
        Findings {
            covered: Covered::default(),
            place: Place::default(),
            differences: Tally::default(),
            first: ArrayVec::new(),
        }
    }

    pub fn begin_job(&mut self, scheme: u32) {
        self.covered.jobs.add_one();
        self.place = Place {
            job: self.covered.jobs,
            scheme,
            call: Tally::default(),
        };
    }

    pub fn compare(&mut self, what: What, core: u32, other: u32) {
        if core == other {
            return;
        }
        self.differences.add_one();
        // what finds the list full is counted and not shown
        let _ = self.first.try_push(Difference {
            place: self.place,
            what,
            core,
            other,
        });
    }

    // Compares words one by one, and the lengths.
    pub fn words(&mut self, what: What, core: &[u32], other: &[u32]) {
        if core.len() != other.len() {
            self.compare(what, 0, 1);
        }
        for (word, other_word) in core.iter().zip(other.iter()) {
            self.compare(what, *word, *other_word);
        }
    }

    // Counts a call, and compares the numbers of its answers.
    pub fn answer_numbers(&mut self, call: Call, core: u32, other: u32) {
        self.covered.answer(call, core);
        self.place.call.add_one();
        self.compare(What::Answer(call), core, other);
    }

    // Counts a call, and compares why it was declined, if it was.
    pub fn answer(&mut self, call: Call, core: Option<Refusal>, other: Option<second::Refusal>) {
        self.answer_numbers(call, number_or_0(core), number_or_0(other));
    }

    pub fn record(&mut self, core: CycleRecord, other: second::Record) {
        self.compare(
            What::Retired,
            counter_number(core.retired),
            counter_number(other.retired),
        );
        self.compare(
            What::Issued,
            counter_number(core.issued),
            counter_number(other.issued),
        );
        self.compare(What::Hold, number_or_0(core.hold), number_or_0(other.hold));
        self.compare(
            What::CycleCause,
            number_or_0(core.cause),
            number_or_0(other.cause),
        );
    }

    pub fn report(&mut self, core: Report, other: second::Report) {
        self.compare(
            What::Cause,
            number_or_0(core.cause),
            number_or_0(other.cause),
        );
        self.compare(What::Counter, u32::from(core.counter), other.counter);
        self.compare(What::Count, core.count, other.count);
    }

    // Compares the fault that the core stopped at, or none, with the plain machine's.
    pub fn plain_fault(&mut self, core: Option<Fault>, plain: Option<second::Fault>) {
        self.compare(What::PlainFault, number_or_0(core), number_or_0(plain));
    }
}

impl fmt::Display for Findings {
    fn fmt<W: fmt::Write>(&self, f: &mut fmt::Formatter<W>) -> fmt::Result {
        write!(f, "{}", self.covered)?;
        for difference in self.first.iter() {
            writeln!(f, "{difference}")?;
        }
        writeln!(f, "differences {}", self.differences)
    }
}
