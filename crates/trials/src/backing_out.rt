// Faults with other instructions in flight: the oldest is reported, and all behind it is undone.
use crate::bench::{BLANK, Setting, agreed, run_on, started, stopped, under_each_scheme};
use isa::fault::{Cause, Fault};
use isa::refusal::Refusal;
use pickcore::record::Report;
use pickcore::state::Core;
use recovery::Recovery;
use std::process::Abort;
use std::test::Fail;

// What a core answers to report and registers.
type Answers = (Result<Report, Refusal>, ([u32; 16], u32));

// A divide takes long, so that a short instruction behind it is delivered first, and a multiply longer still.
const SLOW_DIVIDE: Setting = Setting {
    delays: [1, 16, 12, 2],
    capacity: 8,
};

// Of two faults in flight the older is reported, though the younger is delivered first.
#[test]
fn older_fault_is_reported(rt: HostRuntime) -> Result<(), Fail> {
    // load R1 2,147,483,647; set R2 1; divide R3 by R0; checked add R4 of R1 and R2; stop
    let program = [0x8100_0000, 0x1200_0001, 0x6310_0000, 0x7412_0000, 0];
    let end = agreed(&rt, SLOW_DIVIDE, &program, [0x7fff_ffff, 0, 0, 0])?;
    let stop = (end.cause, end.counter, end.count);
    assert_eq!(rt; stop, (Some(Cause::Fault(Fault::DivideByZero)), 2, 2));
    Ok(())
}

// Writes of R5 behind a fault are undone, up to two at once, and those before it stay.
#[test]
fn writes_behind_a_fault_are_undone(rt: HostRuntime) -> Result<(), Fail> {
    // set R5 7, set R5 8, set R5 9, and at one place a divide by zero
    for (program, kept) in [
        ([0x6310_0000, 0x1500_0007, 0x1500_0008, 0x1500_0009, 0], 0),
        ([0x1500_0007, 0x6310_0000, 0x1500_0008, 0x1500_0009, 0], 7),
        ([0x1500_0007, 0x1500_0008, 0x6310_0000, 0x1500_0009, 0], 8),
        ([0x1500_0007, 0x1500_0008, 0x1500_0009, 0x6310_0000, 0], 9),
        // the last write, a multiply, is still on its way
        ([0x1500_0007, 0x6310_0000, 0x1500_0008, 0x5511_0000, 0], 7),
    ] {
        let end = agreed(&rt, SLOW_DIVIDE, &program, [0; 4])?;
        let stop = (end.cause, end.registers[5]);
        assert_eq!(rt; stop, (Some(Cause::Fault(Fault::DivideByZero)), kept));
    }
    Ok(())
}

// A few hundred turns of a loop admit more instructions than there are tags.
#[test]
fn tags_are_used_again(rt: HostRuntime) -> Result<(), Fail> {
    // set R1 300, set R2 1; add R1 to R3, subtract R2 from R1, branch to the add while R1 is not 0; stop
    let program = [
        0x1100_012c,
        0x1200_0001,
        0x2331_0000,
        0x3112_0000,
        0xb010_0002,
        0,
    ];
    let end = agreed(&rt, SLOW_DIVIDE, &program, [0; 4])?;
    let stop = (end.cause, end.count, end.registers[1], end.registers[3]);
    assert_eq!(rt; stop, (Some(Cause::Fault(Fault::Stop)), 902, 0, 45150));
    Ok(())
}

// What a core with no data words comes to.
fn ended<S: Recovery>(core: &mut Core<S>, program: &[u32]) -> Answers {
    run_on(core, program, &mut [], &mut [BLANK; 64]);
    (core.report(), core.registers())
}

// After a fault nothing stays on its way: a result from before it would else be taken for one that comes later.
fn nothing_is_left<S: Recovery + Drop>(rt: &impl Abort) -> Result<(), Fail> {
    let setting = Setting {
        delays: [1, 16, 2, 1],
        capacity: 8,
    };
    let program = [
        // set R1 3, set R2 5, divide R3 by R0, multiply R4 of R1 and R2, stop
        0x1100_0003,
        0x1200_0005,
        0x6310_0000,
        0x5412_0000,
        0x0000_0000,
        // multiply R6 of R1 and R1, multiply R7 of R2 and R2, add R8 of R6 and R7, stop
        0x5611_0000,
        0x5722_0000,
        0x2867_0000,
        0x0000_0000,
    ];
    let mut core: Core<S> = started(setting, &program, &[])?;
    let first = ended(&mut core, &program);
    let resumed = core.resume(5);
    let second = ended(&mut core, &program);
    let mut registers = [0; 16];
    registers[1] = 3;
    registers[2] = 5;
    let report = stopped(Cause::Fault(Fault::DivideByZero), 2, 2);
    let before = (report, (registers, 0));
    registers[6] = 9;
    registers[7] = 25;
    registers[8] = 34;
    let after = (stopped(Cause::Fault(Fault::Stop), 8, 3), (registers, 0));
    assert_eq!(rt; (first, resumed, second), (before, Ok(()), after));
    Ok(())
}

#[test]
fn nothing_is_left_after_a_fault(rt: HostRuntime) -> Result<(), Fail> {
    under_each_scheme!(nothing_is_left(&rt)?);
    Ok(())
}
