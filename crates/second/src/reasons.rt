//! Why an instruction does not run, why a core stops, why a cycle issues nothing and why a call is declined. Each has the
//! number that the core's documents give it.

ghost use Rattle.std.specs.Prelude.{◌≡◌};
ghost use Rattle.second.specs.Numbers.{fault_number, cause_number, hold_number, refusal_number, ReadsCause};

/// What is wrong with an instruction. A stop is a fault of its word.
#[derive(Clone, Copy, PartialEq, Eq, Debug)]
pub enum Fault {
    DivideByZero = 1,
    Overflow = 2,
    Address = 3,
    Illegal = 4,
    PastEnd = 5,
    Stop = 6,
}

impl From<Fault> for u32 {
    ghost from_gives = { λ fault number. number ≡ fault_number fault };

    fn from(fault: Fault) -> u32 {
        fault as u32
    }
}

/// Why a core stopped.
#[derive(Clone, Copy, PartialEq, Eq, Debug)]
pub enum Cause {
    Fault(Fault),
    Request,
    Cut,
}

impl From<Cause> for u32 {
    ghost from_gives = { λ cause number. number ≡ cause_number cause };

    fn from(cause: Cause) -> u32 {
        match cause {
            Cause::Fault(fault) => fault.into(),
            Cause::Request => 7,
            Cause::Cut => 8,
        }
    }
}

/// A number that no cause has.
#[derive(Clone, Copy, PartialEq, Eq, Debug)]
pub struct NoCause;

impl TryFrom<u32> for Cause {
    type Error = NoCause;

    ghost try_from_gives = { ReadsCause };

    fn try_from(number: u32) -> Result<Cause, NoCause> {
        match number {
            1 => Ok(Cause::Fault(Fault::DivideByZero)),
            2 => Ok(Cause::Fault(Fault::Overflow)),
            3 => Ok(Cause::Fault(Fault::Address)),
            4 => Ok(Cause::Fault(Fault::Illegal)),
            5 => Ok(Cause::Fault(Fault::PastEnd)),
            6 => Ok(Cause::Fault(Fault::Stop)),
            7 => Ok(Cause::Request),
            8 => Ok(Cause::Cut),
            _ => Err(NoCause),
        }
    }
}

/// Why the next instruction does not issue in a cycle.
#[derive(Clone, Copy, PartialEq, Eq, Debug)]
pub enum Hold {
    /// A request waits until nothing is in flight.
    Request = 1,
    /// The instruction itself waits until nothing is in flight.
    Flight = 2,
    /// A source is awaited.
    Source = 3,
    /// Another result comes in the same cycle.
    Stage = 4,
    /// The destination is awaited.
    Destination = 5,
    /// As many are in flight as may be.
    Capacity = 6,
}

impl From<Hold> for u32 {
    ghost from_gives = { λ hold number. number ≡ hold_number hold };

    fn from(hold: Hold) -> u32 {
        hold as u32
    }
}

/// Why a call is declined.
#[derive(Clone, Copy, PartialEq, Eq, Debug)]
pub enum Refusal {
    Delay,
    Capacity,
    ProgramLength,
    DataLength,
    Stopped,
    Running,
    Register,
    Counter,
    LentLength,
    Stretch,
    Buffer,
    ImageLength,
    /// The index of an image's first bad word.
    ImageWord(usize),
}

impl From<Refusal> for u32 {
    ghost from_gives = { λ refusal number. number ≡ refusal_number refusal };

    fn from(refusal: Refusal) -> u32 {
        match refusal {
            Refusal::Delay => 1,
            Refusal::Capacity => 2,
            Refusal::ProgramLength => 3,
            Refusal::DataLength => 4,
            Refusal::Stopped => 5,
            Refusal::Running => 6,
            Refusal::Register => 7,
            Refusal::Counter => 8,
            Refusal::LentLength => 9,
            Refusal::Stretch => 10,
            Refusal::Buffer => 11,
            Refusal::ImageLength => 12,
            Refusal::ImageWord(_) => 13,
        }
    }
}
