// What one cycle did.
ghost use Rattle.std.specs.Prelude.{◌≡◌};
ghost use Rattle.pickcore.specs.Record.{hold_number, hold_of, issued_or_held, record_of};

use isa::fault::Cause;
use recovery::AdmitError;

// Why the next instruction did not issue in a cycle.
#[derive(Clone, Copy, PartialEq, Eq, Debug)]
pub enum Hold {
    // a request is marked and something is in flight
    Request,
    // the next word waits until nothing is in flight
    Flight,
    // a source is awaited
    Source,
    // the stage that the unit's delay names is taken
    Stage,
    // the destination is awaited
    Destination,
    // the flight is full
    Capacity,
}

impl From<Hold> for u32 {
    ghost from_gives = { λ hold number. number ≡ hold_number hold };

    fn from(hold: Hold) -> u32 {
        match hold {
            Hold::Request => 1,
            Hold::Flight => 2,
            Hold::Source => 3,
            Hold::Stage => 4,
            Hold::Destination => 5,
            Hold::Capacity => 6,
        }
    }
}

// What a scheme declines to admit is held.
impl From<AdmitError> for Hold {
    ghost from_gives = { λ error hold. hold ≡ hold_of error };

    fn from(error: AdmitError) -> Hold {
        match error {
            AdmitError::Awaited => Hold::Destination,
            AdmitError::Full => Hold::Capacity,
        }
    }
}

// How a cycle ends: an instruction enters the flight, a store is written, the next instruction is held, or the core
// stops.
#[derive(Clone, Copy, PartialEq, Eq, Debug)]
pub enum Ending {
    Issued(u16),
    Stored(u16),
    Held(Hold),
    Stopped(Cause),
}

// An instruction issues, or is held.
impl From<Result<u16, Hold>> for Ending {
    ghost from_gives = { λ issued ending. ending ≡ issued_or_held issued };

    fn from(issued: Result<u16, Hold>) -> Ending {
        match issued {
            Ok(counter) => Ending::Issued(counter),
            Err(hold) => Ending::Held(hold),
        }
    }
}

// The record of a cycle: the counter that retired, the counter that issued (a store counts as issued), the hold and
// the cause, each where there is one.
#[derive(Clone, Copy, PartialEq, Eq, Debug, Default)]
pub struct CycleRecord {
    pub retired: Option<u16>,
    pub issued: Option<u16>,
    pub hold: Option<Hold>,
    pub cause: Option<Cause>,
}

impl CycleRecord {
    pub fn new(retired: Option<u16>, ending: Ending) -> CycleRecord
        ensures { result ≡ record_of retired ending }
    {
        let blank = CycleRecord {
            retired,
            issued: None,
            hold: None,
            cause: None,
        };
        match ending {
            Ending::Issued(counter) | Ending::Stored(counter) => {
                CycleRecord {
                    issued: Some(counter),
                    ..blank
                }
            }
            Ending::Held(hold) => CycleRecord {
                hold: Some(hold),
                ..blank
            },
            Ending::Stopped(cause) => CycleRecord {
                cause: Some(cause),
                ..blank
            },
        }
    }
}

// Why, where and after how many instructions a core stopped: no cause before any run.
#[derive(Clone, Copy, PartialEq, Eq, Debug)]
pub struct Report {
    pub cause: Option<Cause>,
    pub counter: u16,
    pub count: u32,
}
