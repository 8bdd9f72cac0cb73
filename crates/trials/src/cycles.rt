// What a core does in each cycle: when an instruction issues, and what holds it.
use crate::bench::{BLANK, EXAMPLE, SETTING, Setting, started, stopped, under_each_scheme};
use isa::fault::{Cause, Fault};
use isa::refusal::Refusal;
use pickcore::record::{CycleRecord, Hold, Report};
use pickcore::state::Core;
use recovery::Recovery;
use std::process::Abort;
use std::test::Fail;

// Written out, and not by the constructor, which is under test here.
// A cycle in which an instruction issues, is held, or stops the core.
fn issues(retired: Option<u16>, at: u16) -> CycleRecord {
    CycleRecord {
        retired,
        issued: Some(at),
        hold: None,
        cause: None,
    }
}

fn holds(retired: Option<u16>, hold: Hold) -> CycleRecord {
    CycleRecord {
        retired,
        issued: None,
        hold: Some(hold),
        cause: None,
    }
}

fn stops(retired: Option<u16>, fault: Fault) -> CycleRecord {
    CycleRecord {
        retired,
        issued: None,
        hold: None,
        cause: Some(Cause::Fault(fault)),
    }
}

// The first cycles of a program with one data word.
fn first_cycles<S: Recovery + Drop>(
    setting: Setting,
    program: &[u32],
) -> Result<[CycleRecord; 6], Refusal> {
    let mut data = [0];
    let mut records = [BLANK; 6];
    let mut core: Core<S> = started(setting, program, &data)?;
    core.run(program, &mut data, &mut records)?;
    Ok(records)
}

// The same under the four schemes, by number.
fn under_each(setting: Setting, program: &[u32]) -> [Result<[CycleRecord; 6], Refusal>; 4] {
    under_each_scheme!(first_cycles(setting, program))
}

// A source that is set behind a multiply is read from its entry in flight, and under the late scheme only once both
// are settled.
#[test]
fn bypasses(rt: HostRuntime) {
    // multiply R3, set R4, add R5 of R4 and R4, stop
    let program = [0x5312_0000, 0x1400_0005, 0x2544_0000, 0];
    let [late, bypass, history, future] = under_each(SETTING, &program);
    let waits = holds(None, Hold::Source);
    let expected = [
        issues(None, 0),
        issues(None, 1),
        waits,
        waits,
        holds(Some(0), Hold::Source),
        issues(Some(1), 2),
    ];
    assert_eq!(rt; late, Ok(expected), "late");
    let expected = [
        issues(None, 0),
        issues(None, 1),
        waits,
        issues(None, 2),
        holds(Some(0), Hold::Flight),
        holds(Some(1), Hold::Flight),
    ];
    for records in [bypass, history, future] {
        assert_eq!(rt; records, Ok(expected), "early");
    }
}

// Delays of the short and multiply units, a capacity, two instructions, what holds the second in cycle 2, and what
// retires in cycle 3, in which the second issues.
const HELD: [(u32, u32, u32, [u32; 2], Hold, Option<u16>); 9] = [
    // a set, and a store, a branch or an add that reads the register
    (2, 4, 4, [0x1100_0000, 0x9011_0000], Hold::Flight, Some(0)),
    (2, 4, 4, [0x1100_0000, 0xa012_0000], Hold::Source, Some(0)),
    (2, 4, 4, [0x1100_0000, 0xa021_0000], Hold::Source, Some(0)),
    (2, 4, 4, [0x1100_0000, 0x2212_0000], Hold::Source, Some(0)),
    (2, 4, 4, [0x1100_0000, 0x2221_0000], Hold::Source, Some(0)),
    // a multiply, and a set that would be delivered with it
    (2, 3, 4, [0x5312_0000, 0x1400_0005], Hold::Stage, None),
    // two sets, of one register, and of two with room for one
    (
        2,
        4,
        4,
        [0x1100_0001, 0x1100_0002],
        Hold::Destination,
        Some(0),
    ),
    (2, 4, 1, [0x1100_0001, 0x1200_0002], Hold::Capacity, Some(0)),
    // a branch has no stage and no destination, and still takes a place
    (2, 4, 1, [0x1100_0001, 0xa000_0000], Hold::Capacity, Some(0)),
];

// Each hold but a request's, for one cycle.
#[test]
fn held_for_a_cycle(rt: HostRuntime) -> Result<(), Fail> {
    for (short, multiply, capacity, program, hold, retired) in HELD {
        let setting = Setting {
            delays: [short, multiply, 5, 3],
            capacity,
        };
        let expected = [issues(None, 0), holds(None, hold), issues(retired, 1)];
        for records in under_each(setting, &program) {
            let [first, second, third, ..] = records?;
            assert_eq!(rt; [first, second, third], expected);
        }
    }
    Ok(())
}

// A set, and behind it a fault that waits until nothing is in flight.
fn stop_waits(rt: &impl Abort, program: &[u32], fault: Fault) {
    let expected = [
        issues(None, 0),
        holds(None, Hold::Flight),
        stops(Some(0), fault),
        BLANK,
        BLANK,
        BLANK,
    ];
    for records in under_each(SETTING, program) {
        assert_eq!(rt; records, Ok(expected));
    }
}

#[test]
fn stops_wait(rt: HostRuntime) {
    stop_waits(&rt, &[0x1100_0007, 0x0000_0000], Fault::Stop);
    stop_waits(&rt, &[0x1100_0007, 0xc000_0000], Fault::Illegal);
    stop_waits(&rt, &[0x1100_0007], Fault::PastEnd);
}

// The worked example: set R1 7, divide R3 by R2, which is 0, add R1 to itself, stop. The divide stops the core, and
// the add behind it is undone.
fn worked_example<S: Recovery + Drop>(rt: &impl Abort) -> Result<(), Fail> {
    // a record that no cycle here has
    let filler = issues(Some(77), 99);
    let mut records = [filler; 10];
    let mut core: Core<S> = started(SETTING, &EXAMPLE, &[])?;
    let ran = (
        core.run(&EXAMPLE, &mut [], &mut []),
        core.run(&EXAMPLE, &mut [], &mut records),
    );
    let waits = holds(None, Hold::Flight);
    let expected = [
        issues(None, 0),
        holds(None, Hold::Source),
        issues(Some(0), 1),
        issues(None, 2),
        waits,
        waits,
        waits,
        stops(None, Fault::DivideByZero),
        filler,
        filler,
    ];
    let report = stopped(Cause::Fault(Fault::DivideByZero), 1, 1);
    let mut registers = [0; 16];
    registers[1] = 7;
    assert_eq!(rt; (ran, records), ((Ok(0), Ok(8)), expected));
    assert_eq!(rt; (core.report(), core.registers()), (report, (registers, 0)));
    Ok(())
}

// Every scheme has the same cycles here. A run with an empty list moves nothing, and of a long list the places behind
// the last cycle stay.
#[test]
fn worked_examples(rt: HostRuntime) -> Result<(), Fail> {
    under_each_scheme!(worked_example(&rt)?);
    Ok(())
}

// A core never loaded has a program of one word and no data words; here set R1 7.
fn never_loaded<S: Recovery + Drop>(rt: &impl Abort) {
    let program = [0x1100_0007];
    let mut core: Core<S> = Core::new();
    let before = (core.report(), core.registers());
    let resumed = core.resume(0);
    let steps = (core.step(&program, &mut []), core.step(&program, &mut []));
    let after = (core.report(), core.registers());
    let unused = Report {
        cause: None,
        counter: 0,
        count: 0,
    };
    let report = stopped(Cause::Fault(Fault::PastEnd), 1, 1);
    let mut registers = [0; 16];
    registers[1] = 7;
    assert_eq!(rt; (before, resumed), ((Ok(unused), ([0; 16], 0)), Ok(())));
    assert_eq!(rt;
        steps,
        (Ok(issues(None, 0)), Ok(stops(Some(0), Fault::PastEnd)))
    );
    assert_eq!(rt; after, (report, (registers, 0)));
}

#[test]
fn cores_never_loaded(rt: HostRuntime) {
    under_each_scheme!(never_loaded(&rt));
}
