// The parts of an image that its reader and its writer share.
ghost use Rattle.std.specs.Prelude.{◌≡◌};
ghost use Rattle.images.specs.Kinds.{word_kind_number};

// How many words an image has, and how many of them, from its front, hold registers.
pub const IMAGE_WORDS: usize = 36;

pub const REGISTER_WORDS: usize = 32;

// The places of the words after the registers.
pub const COUNTER_AT: usize = 32;

pub const CAUSE_AT: usize = 33;

pub const COUNT_AT: usize = 34;

pub const END_AT: usize = 35;

// What a word holds: a half of a register, or one of the words after the registers.
#[derive(Clone, Copy, PartialEq, Eq, Debug)]
pub enum WordKind {
    LowHalf,
    HighHalf,
    Counter,
    Cause,
    Count,
}

// The kind's number stands in the top four bits.
impl From<WordKind> for u32 {
    ghost from_gives = { λ kind number. number ≡ word_kind_number kind };

    fn from(kind: WordKind) -> u32 {
        match kind {
            WordKind::LowHalf => 1,
            WordKind::HighHalf => 2,
            WordKind::Counter => 3,
            WordKind::Cause => 4,
            WordKind::Count => 5,
        }
    }
}

// The last word of every image: the kind 15 and the number of words.
pub const END_WORD: u32 = 0xf000_0024;

// The largest half, or counter, and the largest count.
pub const MOST_HALF: u32 = 0xffff;

pub const MOST_COUNT: u32 = 1000000;
