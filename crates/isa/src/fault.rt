// Why an instruction does not run, and why a core stops.
ghost use Rattle.std.specs.Prelude.{◌≡◌};
ghost use Rattle.isa.specs.Numbers.{fault_number, cause_number, cause_numbered};

// What is wrong with an instruction: a step with a fault changes nothing.
#[derive(Clone, Copy, PartialEq, Eq, Debug)]
pub enum Fault {
    DivideByZero,
    Overflow,
    Address,
    Illegal,
    PastEnd,
    Stop,
}

impl From<Fault> for u32 {
    ghost from_gives = { λ fault number. number ≡ fault_number fault };

    fn from(fault: Fault) -> u32 {
        match fault {
            Fault::DivideByZero => 1,
            Fault::Overflow => 2,
            Fault::Address => 3,
            Fault::Illegal => 4,
            Fault::PastEnd => 5,
            Fault::Stop => 6,
        }
    }
}

// Why a core stopped: a fault, a request that was met, or a cut, by which a caller stops the core at once.
#[derive(Clone, Copy, PartialEq, Eq, Debug)]
pub enum Cause {
    Fault(Fault),
    Request,
    Cut,
}

impl From<Cause> for u32 {
    ghost from_gives = { λ cause number. number ≡ cause_number cause };

    fn from(cause: Cause) -> u32 {
        match cause {
            Cause::Fault(fault) => u32::from(fault),
            Cause::Request => 7,
            Cause::Cut => 8,
        }
    }
}

// A number that no cause has.
#[derive(Clone, Copy, PartialEq, Eq, Debug)]
pub struct UnknownCause(pub u32);

impl TryFrom<u32> for Cause {
    type Error = UnknownCause;

    ghost try_from_gives = { λ number cause. cause ≡ cause_numbered number };

    fn try_from(number: u32) -> Result<Cause, UnknownCause> {
        match number {
            1 => Ok(Cause::Fault(Fault::DivideByZero)),
            2 => Ok(Cause::Fault(Fault::Overflow)),
            3 => Ok(Cause::Fault(Fault::Address)),
            4 => Ok(Cause::Fault(Fault::Illegal)),
            5 => Ok(Cause::Fault(Fault::PastEnd)),
            6 => Ok(Cause::Fault(Fault::Stop)),
            7 => Ok(Cause::Request),
            8 => Ok(Cause::Cut),
            _ => Err(UnknownCause(number)),
        }
    }
}
