// What is done with a reorder buffer: results come in any order, and are settled from the oldest entry on.
ghost use Rattle.std.specs.Prelude.{◌≡◌};
ghost use Rattle.recovery.specs.Meaning.{fresh, start_answer, start_leaves, place_answer, place_leaves, awaited_source, awaited_destination, Admits, deliver_answer, deliver_leaves, look_answer, oldest_answer, retire_answer, retire_leaves, backed_out};
ghost use Rattle.reorder.specs.Mean.{mean, newest_status, readable_word, taken_slot};

use super::Buffer;
use isa::fault::Fault;
use recovery::flight::Flight;
use recovery::slots::{Slot, put_word, status_at_first};
use recovery::{AdmitError, Status, Timing, Trap};

// The word that a source takes from the youngest entry that names it, if it may be read yet.
fn readable(timing: Timing, status: Status) -> Option<u32>
    ensures { result ≡ readable_word timing status }
{
    match (timing, status) {
        (Timing::Early, Status::Done(word)) => Some(word),
        _ => None,
    }
}

impl Buffer {
    // A buffer never started: capacity 1, zero registers, nothing in flight.
    pub fn new() -> Buffer
        ensures { mean result ≡ fresh }
    {
        Buffer {
            settled: [0; 16],
            flight: Flight::new(),
        }
    }

    // Sets the capacity, zeroes the registers and empties the flight; outside 1 to 16 it answers no.
    pub fn start(&mut self, capacity: u32) -> bool
        ensures answer { result ≡ start_answer capacity }
        ensures leaves { mean self.new ≡ start_leaves (mean self.old) capacity }
    {
        if !self.flight.start(capacity) {
            return false;
        }
        self.settled = [0; 16];
        true
    }

    // Writes a settled register; with something in flight, or above 15, it answers no.
    #[tactic(auto, using(crate::specs::Steps::place_by))]
    pub fn place(&mut self, register: u8, word: u32) -> bool
        ensures answer { result ≡ place_answer (mean self.old) register }
        ensures leaves { mean self.new ≡ place_leaves (mean self.old) register word }
    {
        if !self.flight.entries().is_empty() || register >= 16 {
            return false;
        }
        self.settled[register as usize] = word;
        true
    }

    // The settled registers.
    pub fn settled(&self) -> &[u32; 16]
        ensures { result.now ≡ (mean self.now).settled }
    {
        &self.settled
    }

    // The status of the youngest entry that names the register.
    #[tactic(auto, using(crate::specs::Steps::newest_none, crate::specs::Steps::newest_some))]
    fn newest(&self, register: u8) -> Option<Status>
        ensures { result ≡ newest_status self.now register }
    {
        Some(self.flight.newest(register)?.status)
    }

    // Whether a source is awaited.
    pub fn awaits(&self, timing: Timing, register: u8) -> bool
        ensures { result ≡ awaited_source timing (mean self.now) register }
    {
        register >= 16
            || self
                .newest(register)
                .is_some_and(|status| readable(timing, status).is_none())
    }

    // Whether a destination is awaited: as a source is that is read early.
    fn awaits_destination(&self, destination: Option<u8>) -> bool
        ensures { result ≡ awaited_destination (mean self.now) destination }
    {
        destination.is_some_and(|register| self.awaits(Timing::Early, register))
    }

    // Appends an entry, unless its destination is awaited or the flight is full.
    #[tactic(auto, using(crate::specs::Steps::admits))]
    pub fn admit(&mut self, counter: u16, destination: Option<u8>) -> Result<u8, AdmitError>
        ensures { Admits (mean self.old) counter destination result (mean self.new) }
    {
        if self.awaits_destination(destination) {
            return Err(AdmitError::Awaited);
        }
        self.flight.push(Slot {
            counter,
            destination,
            status: status_at_first(destination),
        })
    }

    // The pending entry of a tag, if any.
    #[tactic(auto, using(crate::specs::Steps::taken_by))]
    pub fn taker(&self, tag: u8) -> Option<Slot>
        ensures { result ≡ taken_slot self.now tag }
    {
        let slot = self.flight.entry_at(tag)?;
        (slot.status == Status::Pending).then_some(slot)
    }

    // Turns the pending entry of a tag done or faulted; without one it answers no.
    pub fn deliver(&mut self, tag: u8, outcome: Result<u32, Fault>) -> bool
        ensures answer { result ≡ deliver_answer (mean self.old) tag }
        ensures leaves { mean self.new ≡ deliver_leaves (mean self.old) tag outcome }
    {
        let Some(slot) = self.taker(tag) else {
            return false;
        };
        let status = Status::from(outcome);
        self.flight.replace(tag, Slot { status, ..slot });
        true
    }

    // The newest word of a source; none where it is awaited.
    pub fn look(&self, timing: Timing, register: u8) -> Option<u32>
        ensures { result ≡ look_answer timing (mean self.now) register }
    {
        if register >= 16 {
            return None;
        }
        match self.newest(register) {
            None => Some(self.settled[register as usize]),
            Some(status) => readable(timing, status),
        }
    }

    // The counter of the oldest entry, if any.
    pub fn oldest(&self) -> Option<u16>
        ensures { result ≡ oldest_answer (mean self.now) }
    {
        self.flight.oldest().map(|slot| slot.counter)
    }

    // Settles the oldest entry where it is done; a faulted one is answered and stays.
    pub fn retire(&mut self) -> Result<Option<u16>, Trap>
        ensures answer { result ≡ retire_answer (mean self.old) }
        ensures leaves { mean self.new ≡ retire_leaves (mean self.old) }
    {
        let Some(head) = self.flight.oldest() else {
            return Ok(None);
        };
        match head.status {
            Status::Pending => Ok(None),
            Status::Faulted(fault) => Err(Trap {
                counter: head.counter,
                fault,
            }),
            Status::Done(word) => {
                put_word(&mut self.settled, head.destination, word);
                self.flight.remove_oldest();
                Ok(Some(head.counter))
            }
        }
    }

    // Empties the flight.
    pub fn back_out(&mut self)
        ensures { mean self.new ≡ backed_out (mean self.old) }
    {
        self.flight.clear();
    }
}
