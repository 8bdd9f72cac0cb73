// Numbers that look like chance and are the same in every run.
#[derive(Clone, Copy)]
pub struct Seed {
    state: u32,
}

// Words at which sums wrap, overflow or turn their sign.
const EDGES: [u32; 8] = [
    0,
    1,
    2,
    0x7fff_ffff,
    0x8000_0000,
    0xffff_ffff,
    0xffff_fffe,
    0x0001_0001,
];

impl Seed {
    pub fn new(number: u32) -> Seed {
        let mixed = number.wrapping_mul(0x9e37_79b9) ^ 0x5bd1_e995;
        // from zero only zeros would follow
        Seed {
            state: if mixed == 0 { 1 } else { mixed },
        }
    }

    pub fn word(&mut self) -> u32 {
        let mut state = self.state;
        state ^= state << 13;
        state ^= state >> 17;
        state ^= state << 5;
        self.state = state;
        state.wrapping_mul(0x85eb_ca6b)
    }

    // A number below the bound, or 0 where there is none.
    pub fn below(&mut self, bound: u32) -> u32 {
        if bound == 0 {
            return 0;
        }
        // the lowest bits of a product depend on too few others
        (self.word() >> 4) % bound
    }

    pub fn one_in(&mut self, many: u32) -> bool {
        self.below(many) == 0
    }

    // An edge, a small number or any word.
    pub fn operand(&mut self) -> u32 {
        match self.below(4) {
            0 => self.below(8),
            1 => self.word(),
            _ => EDGES[(self.word() >> 29) as usize],
        }
    }
}
