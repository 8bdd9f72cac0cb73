// The state of a reorder buffer; `steps` has what is done with it.
ghost use Rattle.std.specs.Prelude.{◌≡◌, length};

mod steps;

use recovery::flight::Flight;
use recovery::slots::Slot;

// The settled registers, and the entries in flight.
#[derive(Drop)]
pub struct Buffer {
    settled: [u32; 16],
    flight: Flight<Slot>,
    ghost sixteen: { length settled ≡ 16 },
}
