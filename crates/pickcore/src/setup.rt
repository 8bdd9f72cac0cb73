// What a core is loaded with.
ghost use Rattle.std.specs.Prelude.{◌≡◌, min};
ghost use Rattle.pickcore.specs.Setup.{setup_for};

use isa::unit::UNITS;

// The delays of the units, the capacity, and the lengths of program and data.
#[derive(Clone, Copy, PartialEq, Eq, Debug)]
pub struct Setup {
    pub delays: [u32; UNITS],
    pub capacity: u32,
    pub program_length: u32,
    pub data_length: u32,
}

impl Setup {
    // What a core is loaded with for a program and its data words. A length past 32 bits counts as the most of them, which
    // load declines as it does the length itself.
    pub fn new(delays: [u32; UNITS], capacity: u32, program: &[u32], data: &[u32]) -> Setup
        ensures { result ≡ setup_for delays capacity program.now «data».now }
    {
        Setup {
            delays,
            capacity,
            program_length: in_32_bits(program.len()),
            data_length: in_32_bits(data.len()),
        }
    }
}

// A length, or the most of 32 bits.
fn in_32_bits(length: usize) -> u32
    ensures { result ≡ min length 4294967295 }
{
    u32::try_from(length).unwrap_or(u32::MAX)
}
