// What an image holds.
ghost use Rattle.std.specs.Prelude.{◌≡◌, ◌≤◌, length};

use isa::fault::Cause;

// A stopped core: its registers, the counter of the next instruction, why it stopped, and how many instructions ran.
#[derive(Clone, Copy, PartialEq, Eq, Debug)]
pub struct State {
    pub registers: [u32; 16],
    pub counter: u16,
    pub cause: Option<Cause>,
    pub count: u32,
    ghost sixteen: { length registers ≡ 16 },
    ghost counted: { count ≤ 1000000 },
}
