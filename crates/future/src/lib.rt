// A future file: beside a reorder buffer stands a second file with the newest word of each register.
#![tactic(auto)]

ghost use Rattle.std.specs.Prelude.{◌≡◌, ℕ, length};
ghost use Rattle.recovery.specs.declared.Timing.{Timing};
ghost use Rattle.recovery.specs.declared.Timing.TheVariants.{Early};
ghost use Rattle.reorder.specs.Mean.{mean};
ghost use Rattle.future.specs.Current.{Follows, written};
ghost use Rattle.std.proofs.Common.{arith};
ghost use Rattle.reorder.specs.Steps.{mean_length};

use isa::fault::Fault;
use recovery::slots::{Slot, put_word};
use recovery::{AdmitError, Recovery, Timing, Trap};
use reorder::buffer::Buffer;

// Sources are read from the newest file, which takes each word as it is delivered. The buffer settles the same words
// in the order of the program, and its registers are what the newest file returns to when the flight is backed out.
#[derive(Drop)]
pub struct FutureFile {
    buffer: Buffer,
    newest: [u32; 16],
    ghost size: { length newest ≡ 16 },
    ghost follows: { Follows newest (mean buffer) },
}

// Writes the word of a result, if it has one, to the destination of the entry that takes it.
fn write_result(file: &mut [u32; 16], taker: Option<Slot>, outcome: Result<u32, Fault>)
    ensures { file.new ≡ written file.old taker outcome }
{
    if let (Some(slot), Ok(word)) = (taker, outcome) {
        put_word(file, slot.destination, word);
    }
}

impl Recovery for FutureFile {
    const MARK: Timing = Timing::Early;

    ghost MARK = { Early };

    ghost meaning = { λ s. mean s.buffer };

    ghost sixteen = { λ s. s.buffer.sixteen };

    ghost some = { λ s. s.buffer.flight.some };

    ghost most = { λ s. s.buffer.flight.most };

    ghost roomy = { λ s. omega (arith, mean_length s.buffer, s.buffer.flight.room) };

    fn fresh() -> FutureFile {
        FutureFile {
            buffer: Buffer::new(),
            newest: [0; 16],
        }
    }

    fn start(&mut self, capacity: u32) -> bool {
        if !self.buffer.start(capacity) {
            return false;
        }
        self.newest = [0; 16];
        true
    }

    fn place(&mut self, register: u8, word: u32) -> bool {
        if !self.buffer.place(register, word) {
            return false;
        }
        self.newest[register as usize] = word;
        true
    }

    fn admit(&mut self, counter: u16, destination: Option<u8>) -> Result<u8, AdmitError> {
        self.buffer.admit(counter, destination)
    }

    fn deliver(&mut self, tag: u8, outcome: Result<u32, Fault>) -> bool {
        let taker = self.buffer.taker(tag);
        write_result(&mut self.newest, taker, outcome);
        self.buffer.deliver(tag, outcome)
    }

    fn look(&self, register: u8) -> Option<u32> {
        if self.buffer.awaits(Self::MARK, register) {
            return None;
        }
        Some(self.newest[register as usize])
    }

    fn oldest(&self) -> Option<u16> {
        self.buffer.oldest()
    }

    fn retire(&mut self) -> Result<Option<u16>, Trap> {
        self.buffer.retire()
    }

    fn back_out(&mut self) {
        self.buffer.back_out();
        self.newest = *self.buffer.settled();
    }
}
