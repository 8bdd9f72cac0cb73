// A recovery scheme, known to the core by its meaning alone: how results that come in any order are settled in the
// order of the program, and how what is in flight is backed out.
#![tactic(auto)]

ghost use Rattle.std.specs.Prelude.{◌≡◌, ℕ, ◌≤◌, length};
ghost use Rattle.recovery.specs.declared.Timing.{Timing};
ghost use Rattle.recovery.specs.Meaning.{Meaning, fresh, start_answer, start_leaves, place_answer, place_leaves, Admits, deliver_answer, deliver_leaves, look_answer, oldest_answer, retire_answer, retire_leaves, backed_out};

pub mod flight;
pub mod search;
pub mod slots;

use isa::fault::Fault;

// When a source may be read: early, as soon as the youngest entry that names it is done; late, once no entry names it.
#[derive(Clone, Copy, PartialEq, Eq, Debug)]
pub enum Timing {
    Early,
    Late,
}

// What an entry in flight has come to.
// Its own enum, though of the shape of Option<Result<u32, Fault>>: three states with names, which searches wrap once more.
#[derive(Clone, Copy, PartialEq, Eq, Debug, Default)]
pub enum Status {
    #[default]
    Pending,
    Done(u32),
    Faulted(Fault),
}

// Why no entry is appended: the destination is awaited, or the flight is full.
#[derive(Clone, Copy, PartialEq, Eq, Debug)]
pub enum AdmitError {
    Awaited,
    Full,
}

// The oldest entry is faulted: its counter and its fault.
#[derive(Clone, Copy, PartialEq, Eq, Debug)]
pub struct Trap {
    pub counter: u16,
    pub fault: Fault,
}

// Yes or no, and no errors, where the meaning has no reason for a no.
pub trait Recovery: Sized {
    // the scheme's mark: one for all its values
    const MARK: Timing;

    ghost MARK: { Timing };

    // what a value of the scheme means: sixteen settled registers, a capacity, and the flight, oldest first
    ghost meaning: { Self → Meaning };

    // A scheme never started: capacity 1, zero registers, nothing in flight.
    fn fresh() -> Self
        ensures { meaning result ≡ fresh };

    // Sets the capacity, zeroes the registers and empties the flight; outside 1 to 16 it answers no.
    fn start(&mut self, capacity: u32) -> bool
        ensures answer { result ≡ start_answer capacity }
        ensures leaves { meaning self.new ≡ start_leaves (meaning self.old) capacity };

    // Writes a settled register; with something in flight, or above 15, it answers no.
    fn place(&mut self, register: u8, word: u32) -> bool
        ensures answer { result ≡ place_answer (meaning self.old) register }
        ensures leaves { meaning self.new ≡ place_leaves (meaning self.old) register word };

    // Appends an entry and answers its tag, unless its destination is awaited or the flight is full.
    fn admit(&mut self, counter: u16, destination: Option<u8>) -> Result<u8, AdmitError>
        ensures { Admits (meaning self.old) counter destination result (meaning self.new) };

    // Turns the pending entry of a tag done or faulted; without one it answers no.
    fn deliver(&mut self, tag: u8, outcome: Result<u32, Fault>) -> bool
        ensures answer { result ≡ deliver_answer (meaning self.old) tag }
        ensures leaves { meaning self.new ≡ deliver_leaves (meaning self.old) tag outcome };

    // The newest word of a source; none where it is awaited.
    fn look(&self, register: u8) -> Option<u32>
        ensures { result ≡ look_answer MARK (meaning self.now) register };

    // The counter of the oldest entry, if any.
    fn oldest(&self) -> Option<u16>
        ensures { result ≡ oldest_answer (meaning self.now) };

    // Settles the oldest entry where it is done, and answers its counter; a faulted one is answered and stays.
    fn retire(&mut self) -> Result<Option<u16>, Trap>
        ensures answer { result ≡ retire_answer (meaning self.old) }
        ensures leaves { meaning self.new ≡ retire_leaves (meaning self.old) };

    // Empties the flight.
    fn back_out(&mut self)
        ensures { meaning self.new ≡ backed_out (meaning self.old) };

    ghost sixteen: { (s : Self) → length (meaning s).settled ≡ 16 };

    ghost some: { (s : Self) → 1 ≤ (meaning s).capacity };

    ghost most: { (s : Self) → (meaning s).capacity ≤ 16 };

    ghost roomy: { (s : Self) → length (meaning s).flight ≤ (meaning s).capacity };
}
