// What schemes share that keep their entries oldest first in a fixed array, with consecutive tags.
ghost use Rattle.std.specs.Prelude.{◌≡◌};
ghost use Rattle.recovery.specs.Meaning.{first_status, ended, put};
ghost use Rattle.recovery.specs.Slots.{slot_names};

use crate::Status;
use crate::search::Naming;
use isa::fault::Fault;

// One entry in flight. Its tag is not stored: the tags count up, modulo 256, from the oldest entry's.
#[derive(Clone, Copy, PartialEq, Eq, Debug, Default)]
pub struct Slot {
    pub counter: u16,
    pub destination: Option<u8>,
    pub status: Status,
}

impl Naming<u8> for Slot {
    ghost names = { slot_names };

    fn is_for(&self, key: u8) -> bool {
        self.destination == Some(key)
    }
}

// The status of an entry that is just admitted: one without a destination has nothing to wait for.
pub fn status_at_first(destination: Option<u8>) -> Status
    ensures { result ≡ first_status destination }
{
    match destination {
        Some(_) => Status::Pending,
        None => Status::Done(0),
    }
}

// The status that a result gives.
impl From<Result<u32, Fault>> for Status {
    ghost from_gives = { λ outcome status. status ≡ ended outcome };

    fn from(outcome: Result<u32, Fault>) -> Status {
        match outcome {
            Ok(word) => Status::Done(word),
            Err(fault) => Status::Faulted(fault),
        }
    }
}

// Writes a word to its destination, if any; no file has a register above 15.
pub fn put_word(file: &mut [u32; 16], destination: Option<u8>, word: u32)
    ensures { file.new ≡ put file.old destination word }
{
    if let Some(register) = destination {
        if register < 16 {
            file[register as usize] = word;
        }
    }
}
