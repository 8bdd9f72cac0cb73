// The history buffer and its records.
ghost use Rattle.std.specs.Prelude.{◌≡◌, true, length};
ghost use Rattle.history.specs.Unwind.{guarded};

use isa::fault::Fault;
use recovery::flight::Flight;

// How far an instruction in flight has come. Its word is in the file, so it is not kept here.
#[derive(Clone, Copy, PartialEq, Eq, Debug, Default)]
pub enum Progress {
    #[default]
    Waiting,
    Finished,
    Failed(Fault),
}

// One instruction in flight, with the word that its destination had when it was admitted.
#[derive(Clone, Copy, PartialEq, Eq, Debug, Default)]
pub struct HistoryRecord {
    pub counter: u16,
    pub destination: Option<u8>,
    pub old: u32,
    pub progress: Progress,
}

// Results go straight into the one file, and the records in flight, oldest first, undo them.
#[derive(Drop)]
pub struct HistoryBuffer {
    pub(crate) file: [u32; 16],
    pub(crate) flight: Flight<HistoryRecord>,
    ghost sixteen: { length file ≡ 16 },
    // a result that comes is the newest word of its register
    ghost undisturbed: { guarded flight.entries.items ≡ true },
}
