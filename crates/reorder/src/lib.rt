// Two recovery schemes over one reorder buffer: they differ in when a source may be read.
#![tactic(auto)]

ghost use Rattle.recovery.specs.declared.Timing.{Timing};
ghost use Rattle.recovery.specs.declared.Timing.TheVariants.{Early, Late};
ghost use Rattle.reorder.specs.Mean.{mean};
ghost use Rattle.std.proofs.Common.{arith};
ghost use Rattle.reorder.specs.Steps.{mean_length};

pub mod buffer;

use buffer::Buffer;
use isa::fault::Fault;
use recovery::{AdmitError, Recovery, Timing, Trap};
use std::marker::PhantomData;

// When a source may be read, as a type.
pub trait Reading {
    const MARK: Timing;

    ghost MARK: { Timing };
}

// A source is read from the settled registers, once no entry names it.
pub struct Settled;

impl Reading for Settled {
    const MARK: Timing = Timing::Late;

    ghost MARK = { Late };
}

// A source is read from the youngest entry that names it, once that is done: past the settled registers.
pub struct Bypassed;

impl Reading for Bypassed {
    const MARK: Timing = Timing::Early;

    ghost MARK = { Early };
}

// A reorder buffer, from which sources are read as R says.
#[derive(Drop)]
pub struct Reordering<R> {
    buffer: Buffer,
    reading: PhantomData<R>,
}

// A reorder buffer without bypasses.
pub type ReorderBuffer = Reordering<Settled>;

// A reorder buffer with bypasses.
pub type BypassBuffer = Reordering<Bypassed>;

impl<R: Reading> Recovery for Reordering<R> {
    const MARK: Timing = R::MARK;

    ghost MARK = { R.MARK };

    ghost meaning = { λ s. mean s.buffer };

    ghost sixteen = { λ s. s.buffer.sixteen };

    ghost some = { λ s. s.buffer.flight.some };

    ghost most = { λ s. s.buffer.flight.most };

    ghost roomy = { λ s. omega (arith, mean_length s.buffer, s.buffer.flight.room) };

    fn fresh() -> Self {
        Reordering {
            buffer: Buffer::new(),
            reading: PhantomData,
        }
    }

    fn start(&mut self, capacity: u32) -> bool {
        self.buffer.start(capacity)
    }

    fn place(&mut self, register: u8, word: u32) -> bool {
        self.buffer.place(register, word)
    }

    fn admit(&mut self, counter: u16, destination: Option<u8>) -> Result<u8, AdmitError> {
        self.buffer.admit(counter, destination)
    }

    fn deliver(&mut self, tag: u8, outcome: Result<u32, Fault>) -> bool {
        self.buffer.deliver(tag, outcome)
    }

    fn look(&self, register: u8) -> Option<u32> {
        self.buffer.look(R::MARK, register)
    }

    fn oldest(&self) -> Option<u16> {
        self.buffer.oldest()
    }

    fn retire(&mut self) -> Result<Option<u16>, Trap> {
        self.buffer.retire()
    }

    fn back_out(&mut self) {
        self.buffer.back_out();
    }
}
