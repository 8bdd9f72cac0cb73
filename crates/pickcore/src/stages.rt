// The sixteen stages, a result shift register: a result enters the stage that its unit's delay names, moves one stage
// on in each cycle, and is delivered from the first.
ghost use Rattle.std.specs.Prelude.{◌≡◌, ◌-◌, ◌≤◌, [], ◌∷◌, ◌++◌, length, drop, replicate, is_some, Some, None, slice_index_or, slice_set};

use isa::fault::Fault;

// A result on its way, with the tag of its entry.
#[derive(Clone, Copy, PartialEq, Eq, Debug)]
pub struct Stage {
    pub tag: u8,
    pub result: Result<u32, Fault>,
}

#[derive(Clone, Copy, PartialEq, Eq, Debug)]
pub struct Stages {
    slots: [Option<Stage>; 16],
    ghost sixteen: { length slots ≡ 16 },
}

impl Stages {
    pub(crate) fn empty() -> Stages
        ensures { result.slots ≡ replicate 16 None }
    {
        Stages { slots: [None; 16] }
    }

    // What is in the first stage, which is then empty.
    pub(crate) fn take_first(&mut self) -> Option<Stage>
        ensures answer { result ≡ slice_index_or self.old.slots 0 None }
        ensures leaves { self.new.slots ≡ slice_set self.old.slots 0 None }
    {
        self.slots[0].take()
    }

    // Every stage moves one place on, and the last is empty.
    pub(crate) fn shift(&mut self)
        ensures { self.new.slots ≡ drop 1 self.old.slots ++ (None ∷ []) }
    {
        self.slots.rotate_left(1);
        self.slots[15] = None;
    }

    // Whether the stage of a delay is taken; there is none outside 1 to 16.
    pub(crate) fn is_taken(&self, delay: u32) -> bool
        ensures { result ≡ is_some (slice_index_or self.now.slots (delay - 1) None) }
    {
        let at = delay.saturating_sub(1) as usize;
        at < 16 && self.slots[at].is_some()
    }

    // Puts a result into the stage of a delay.
    pub(crate) fn enter(&mut self, delay: u32, stage: Stage)
        ensures { self.new.slots ≡ slice_set self.old.slots (delay - 1) (Some stage) }
    {
        let at = delay.saturating_sub(1) as usize;
        if at < 16 {
            self.slots[at] = Some(stage);
        }
    }
}
