// What the trials share: running a program on the plain machine, and on a core over each scheme.
use isa::fault::{Cause, Fault};
use isa::plain::PlainMachine;
use isa::refusal::Refusal;
use isa::unit::UNITS;
use pickcore::record::{CycleRecord, Report};
use pickcore::setup::Setup;
use pickcore::state::Core;
use recovery::Recovery;
use std::process::Abort;
use std::test::Fail;

// What a trial comes to under each of the four schemes, by number. A `?` behind the call stands behind each of the four.
macro_rules! under_each_scheme {
    ($trial:ident($($argument:expr),*) $($question:tt)?) => {
        [
            $trial::<reorder::ReorderBuffer>($($argument),*) $($question)?,
            $trial::<reorder::BypassBuffer>($($argument),*) $($question)?,
            $trial::<history::HistoryBuffer>($($argument),*) $($question)?,
            $trial::<future::FutureFile>($($argument),*) $($question)?,
        ]
    };
}

pub(crate) use under_each_scheme;

// A record of no cycle, to fill lists with.
pub const BLANK: CycleRecord = CycleRecord {
    retired: None,
    issued: None,
    hold: None,
    cause: None,
};

// The delays of the short, multiply, divide and memory units, and the capacity.
#[derive(Clone, Copy)]
pub struct Setting {
    pub delays: [u32; UNITS],
    pub capacity: u32,
}

pub const SETTING: Setting = Setting {
    delays: [2, 4, 5, 3],
    capacity: 4,
};

// set R1 7; divide R3 R1 R2; add R1 R1 R1; stop
pub const EXAMPLE: [u32; 4] = [0x1100_0007, 0x6312_0000, 0x2111_0000, 0];

// How a run ended: why, at which counter, after how many instructions, and what it left.
#[derive(Clone, Copy, PartialEq, Eq, Debug)]
pub struct Outcome {
    pub cause: Option<Cause>,
    pub counter: usize,
    pub count: u32,
    pub registers: [u32; 16],
    pub data: [u32; 4],
}

// Loads a core with a setting, for a program and data words of these lengths.
pub fn load<S: Recovery>(
    core: &mut Core<S>,
    setting: Setting,
    program_length: u32,
    data_length: u32,
) -> Result<(), Refusal> {
    let Setting { delays, capacity } = setting;
    core.load(Setup {
        delays,
        capacity,
        program_length,
        data_length,
    })
}

// A core that is loaded with a setting and started at counter 0.
pub fn started<S: Recovery + Drop>(
    setting: Setting,
    program: &[u32],
    data: &[u32],
) -> Result<Core<S>, Refusal> {
    let mut core: Core<S> = Core::new();
    core.load(Setup::new(setting.delays, setting.capacity, program, data))?;
    core.resume(0)?;
    Ok(core)
}

// Runs until a run is declined, which after a report it is; the list is used over and over.
pub fn run_on<S: Recovery>(
    core: &mut Core<S>,
    program: &[u32],
    data: &mut [u32],
    records: &mut [CycleRecord],
) {
    for _ in 0..200 {
        if core.run(program, data, records).is_err() {
            return;
        }
    }
}

// What a core reports that was stopped by this.
pub fn stopped(cause: Cause, counter: u16, count: u32) -> Result<Report, Refusal> {
    Ok(Report {
        cause: Some(cause),
        counter,
        count,
    })
}

// What a core that is stopped has come to.
fn outcome_of<S: Recovery>(core: &Core<S>, data: [u32; 4]) -> Result<Outcome, Refusal> {
    let report = core.report()?;
    let (registers, _) = core.registers();
    Ok(Outcome {
        cause: report.cause,
        counter: report.counter as usize,
        count: report.count,
        registers,
        data,
    })
}

fn core_outcome<S: Recovery + Drop>(
    setting: Setting,
    program: &[u32],
    mut data: [u32; 4],
) -> Result<Outcome, Refusal> {
    let mut core: Core<S> = started(setting, program, &data)?;
    run_on(&mut core, program, &mut data, &mut [BLANK; 64]);
    outcome_of(&core, data)
}

// The outcome on the plain machine, if it comes to a fault.
fn plain_outcome(program: &[u32], mut data: [u32; 4]) -> Option<Outcome> {
    let mut machine = PlainMachine::new();
    let (count, stepped) = machine.run(program, &mut data, 2000);
    let fault = stepped.err()?;
    Some(Outcome {
        cause: Some(Cause::Fault(fault)),
        counter: machine.counter,
        count,
        registers: machine.registers,
        data,
    })
}

// The outcome of a program, which the plain machine and the core under each scheme agree on.
pub fn agreed(
    rt: &impl Abort,
    setting: Setting,
    program: &[u32],
    data: [u32; 4],
) -> Result<Outcome, Fail> {
    let outcome = plain_outcome(program, data).ok_or("the plain machine goes on")?;
    for other in under_each_scheme!(core_outcome(setting, program, data)) {
        assert_eq!(rt; other, Ok(outcome));
    }
    Ok(outcome)
}
