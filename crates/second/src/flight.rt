//! The instructions in flight, the oldest first.

ghost use Rattle.std.specs.Prelude.{◌≤◌};

use crate::reasons::Fault;

/// An instruction that issued and has not retired. Its result is known, and counts from the cycle `due` on.
#[derive(Clone, Copy)]
pub struct Flying {
    pub counter: u32,
    pub destination: Option<u32>,
    pub result: Result<u32, Fault>,
    pub due: u32,
}

impl Flying {
    pub fn writes(&self, register: u32) -> bool {
        self.destination == Some(register)
    }

    /// The word that has come by the cycle; none if it has not, or if a fault came.
    pub fn word_by(&self, cycle: u32) -> Option<u32> {
        if self.due > cycle {
            return None;
        }
        self.result.ok()
    }
}

/// The slots that are taken come before those that are free.
// Kept: an ArrayVec asks for a default of what it holds, which a result on its way has not.
#[derive(Clone, Copy)]
pub struct Flight {
    slots: [Option<Flying>; 16],
}

impl Flight {
    pub fn empty() -> Flight {
        Flight { slots: [None; 16] }
    }

    pub fn oldest(&self) -> Option<Flying> {
        self.slots[0]
    }

    pub fn is_empty(&self) -> bool {
        self.slots[0].is_none()
    }

    /// How many there are; the place of the first free slot, too.
    pub fn size(&self) -> usize
        ensures { result ≤ 16 }
    {
        self.slots
            .iter()
            .position(|slot| slot.is_none())
            .unwrap_or(16)
    }

    /// The youngest that writes the register.
    pub fn writer(&self, register: u32) -> Option<Flying> {
        self.slots
            .iter()
            .rev()
            .flatten()
            .find(|flying| flying.writes(register))
            .copied()
    }

    /// Whether a result comes in that very cycle.
    pub fn expects(&self, cycle: u32) -> bool {
        self.slots
            .iter()
            .flatten()
            .any(|flying| flying.due == cycle)
    }

    /// Takes one more, the youngest, if there is a free slot.
    pub fn join(&mut self, flying: Flying) {
        let place = self.size();
        if let Some(slot) = self.slots.get_mut(place) {
            *slot = Some(flying);
        }
    }

    /// Lets the oldest go.
    pub fn leave(&mut self) {
        self.slots[0] = None;
        self.slots.rotate_left(1);
    }
}
