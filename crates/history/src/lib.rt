// A history buffer: a recovery scheme that writes each result into its one file at once, and backs out by putting the
// old words back, from the youngest record to the oldest.
#![tactic(auto)]

ghost use Rattle.std.specs.Prelude.{◌≡◌, ◌<◌};
ghost use Rattle.recovery.specs.declared.Timing.TheVariants.{Early};
ghost use Rattle.recovery.specs.Meaning.{awaited, awaited_destination};
ghost use Rattle.history.specs.Unwind.{record_names, unwind, word_at, first_progress, new_record, newest_progress, progress_by, file_after};
ghost use Rattle.history.specs.Buffer.{meaning_of};
ghost use Rattle.std.proofs.Common.{arith};
ghost use Rattle.history.specs.Steps.{flown};
ghost use Rattle.history.specs.Unwinding.{length_unwind};

pub mod buffer;

pub use buffer::HistoryBuffer;
use buffer::{HistoryRecord, Progress};
use isa::fault::Fault;
use recovery::flight::Flight;
use recovery::search::Naming;
use recovery::slots::put_word;
use recovery::{AdmitError, Recovery, Timing, Trap};

impl Naming<u8> for HistoryRecord {
    ghost names = { record_names };

    fn is_for(&self, key: u8) -> bool {
        self.destination == Some(key)
    }
}

// The word that a destination has now; no file has a register above 15.
fn word_at(file: &[u32; 16], destination: Option<u8>) -> u32
    ensures { result ≡ word_at file.now destination }
{
    match destination {
        Some(register) if register < 16 => file[register as usize],
        _ => 0,
    }
}

// Without a destination there is nothing to wait for.
fn first_progress(destination: Option<u8>) -> Progress
    ensures { result ≡ first_progress destination }
{
    match destination {
        Some(_) => Progress::Waiting,
        None => Progress::Finished,
    }
}

// The record of an instruction that is just admitted. It saves the old word at once, so that every record in flight can
// be undone, whether its result has come or not.
fn new_record(file: &[u32; 16], counter: u16, destination: Option<u8>) -> HistoryRecord
    ensures { result ≡ new_record file.now counter destination }
{
    HistoryRecord {
        counter,
        destination,
        old: word_at(file, destination),
        progress: first_progress(destination),
    }
}

// Writes a result into the file, and answers the progress that it makes. A fault writes nothing.
fn store(file: &mut [u32; 16], destination: Option<u8>, outcome: Result<u32, Fault>) -> Progress
    ensures answer { result ≡ progress_by outcome }
    ensures leaves { file.new ≡ file_after file.old destination outcome }
{
    match outcome {
        Ok(word) => {
            put_word(file, destination, word);
            Progress::Finished
        }
        Err(fault) => Progress::Failed(fault),
    }
}

// Puts the old words back, from the youngest record to the oldest: of two records that name one register, the oldest
// one has the settled word.
fn unwind_all(file: &mut [u32; 16], records: &[HistoryRecord])
    ensures { file.new ≡ unwind records.entry.now file.old }
{
    for undone in records.iter().rev() {
        put_word(file, undone.destination, undone.old);
    }
}

impl HistoryBuffer {
    // The progress of the youngest record that names the register.
    #[tactic(auto, using(crate::specs::Unwinding::newest_none, crate::specs::Unwinding::newest_some))]
    fn newest(&self, register: u8) -> Option<Progress>
        ensures { result ≡ newest_progress register self.now.flight.entries.items }
    {
        Some(self.flight.newest(register)?.progress)
    }

    // Whether a register is awaited: only the word of a finished record is in the file.
    #[tactic(auto, using(crate::specs::Steps::awaited_by))]
    fn awaits(&self, register: u8) -> bool
        ensures { result ≡ awaited (meaning_of self.now) register }
    {
        register >= 16
            || self
                .newest(register)
                .is_some_and(|progress| progress != Progress::Finished)
    }

    // Whether a destination is awaited.
    fn awaits_destination(&self, destination: Option<u8>) -> bool
        ensures { result ≡ awaited_destination (meaning_of self.now) destination }
    {
        destination.is_some_and(|register| self.awaits(register))
    }
}

impl Recovery for HistoryBuffer {
    const MARK: Timing = Timing::Early;

    ghost MARK = { Early };

    ghost meaning = { meaning_of };

    ghost sixteen = { λ s. omega (arith, length_unwind s.flight.entries.items s.file, s.sixteen) };

    ghost some = { λ s. s.flight.some };

    ghost most = { λ s. s.flight.most };

    ghost roomy = { λ s. omega (arith, flown s, s.flight.room) };

    fn fresh() -> HistoryBuffer {
        HistoryBuffer {
            file: [0; 16],
            flight: Flight::new(),
        }
    }

    fn start(&mut self, capacity: u32) -> bool {
        if !self.flight.start(capacity) {
            return false;
        }
        self.file = [0; 16];
        true
    }

    #[tactic(auto, using(crate::specs::Steps::place_by))]
    fn place(&mut self, register: u8, word: u32) -> bool {
        if !self.flight.entries().is_empty() || register >= 16 {
            return false;
        }
        self.file[register as usize] = word;
        true
    }

    #[tactic(auto, using(crate::specs::Steps::admits, crate::specs::Steps::guarded_more))]
    fn admit(&mut self, counter: u16, destination: Option<u8>) -> Result<u8, AdmitError> {
        if self.awaits_destination(destination) {
            return Err(AdmitError::Awaited);
        }
        self.flight
            .push(new_record(&self.file, counter, destination))
    }

    fn deliver(&mut self, tag: u8, outcome: Result<u32, Fault>) -> bool {
        let Some(record) = self.flight.entry_at(tag) else {
            return false;
        };
        if record.progress != Progress::Waiting {
            return false;
        }
        let progress = store(&mut self.file, record.destination, outcome);
        self.flight
            .replace(tag, HistoryRecord { progress, ..record });
        true
    }

    #[tactic(auto, using(crate::specs::Steps::looks))]
    fn look(&self, register: u8) -> Option<u32> {
        if self.awaits(register) {
            return None;
        }
        let word = self.file[register as usize];
        match Self::MARK {
            Timing::Early => Some(word),
            Timing::Late => self.newest(register).is_none().then_some(word),
        }
    }

    fn oldest(&self) -> Option<u16> {
        self.flight.oldest().map(|record| record.counter)
    }

    #[tactic(auto, using(crate::specs::Steps::retires, crate::specs::Steps::guarded_on))]
    fn retire(&mut self) -> Result<Option<u16>, Trap> {
        let Some(head) = self.flight.oldest() else {
            return Ok(None);
        };
        match head.progress {
            Progress::Waiting => Ok(None),
            Progress::Failed(fault) => Err(Trap {
                counter: head.counter,
                fault,
            }),
            // No word moves: the result is in the file, and only the old word is lost.
            Progress::Finished => {
                self.flight.remove_oldest();
                Ok(Some(head.counter))
            }
        }
    }

    #[tactic(auto, using(crate::specs::Unwinding::unwound))]
    fn back_out(&mut self) {
        unwind_all(&mut self.file, self.flight.entries());
        self.flight.clear();
    }
}
