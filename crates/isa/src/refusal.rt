// Why a call is declined. A declined call changes nothing.
ghost use Rattle.std.specs.Prelude.{◌≡◌};
ghost use Rattle.isa.specs.Numbers.{refusal_number};

#[derive(Clone, Copy, PartialEq, Eq, Debug)]
pub enum Refusal {
    // a delay outside 1 to 16
    Delay,
    // a capacity outside 1 to 16
    Capacity,
    // a program length of 0 or above 4,096
    Program,
    // a data length above 4,096
    Data,
    // the core is stopped
    Stopped,
    // the core runs
    Running,
    // a register above 15
    Register,
    // a counter above 65,535
    Counter,
    // a lent length is not the loaded one
    Length,
    // a million cycles have passed since the resume
    Stretch,
    // a buffer of under 36 words
    Buffer,
    // an image that is not 36 words
    ImageLength,
    // a word of an image breaks its rule; the first such word's index
    ImageWord(usize),
    // no legal instruction word
    NotAnInstruction,
}

impl From<Refusal> for u32 {
    ghost from_gives = { λ refusal number. number ≡ refusal_number refusal };

    fn from(refusal: Refusal) -> u32 {
        match refusal {
            Refusal::Delay => 1,
            Refusal::Capacity => 2,
            Refusal::Program => 3,
            Refusal::Data => 4,
            Refusal::Stopped => 5,
            Refusal::Running => 6,
            Refusal::Register => 7,
            Refusal::Counter => 8,
            Refusal::Length => 9,
            Refusal::Stretch => 10,
            Refusal::Buffer => 11,
            Refusal::ImageLength => 12,
            Refusal::ImageWord(_) => 13,
            Refusal::NotAnInstruction => 14,
        }
    }
}
