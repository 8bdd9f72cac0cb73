// What a core is made of.

use crate::scheme::Scheme;
use isa::unit::UNITS;

// A core's scheme, the delays of its units, and its capacity.
#[derive(Clone, Copy, PartialEq, Eq, Debug)]
pub struct Setting {
    pub scheme: Scheme,
    pub delays: [u32; UNITS],
    pub capacity: u32,
}
