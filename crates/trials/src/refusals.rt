// Calls that are declined: with which refusal, and that they change nothing.
use crate::bench::{BLANK, SETTING, Setting, load, started, stopped, under_each_scheme};
use isa::fault::{Cause, Fault};
use isa::refusal::Refusal;
use pickcore::record::CycleRecord;
use pickcore::state::Core;
use recovery::Recovery;
use std::process::Abort;
use std::test::Fail;

// Delays, capacity and lengths that a stopped core does not take, and the refusal: the first that fits, in the order
// of delay, capacity, program and data.
const UNFIT: [([u32; 4], u32, u32, u32, Refusal); 14] = [
    ([0, 4, 5, 3], 4, 4, 4, Refusal::Delay),
    ([17, 4, 5, 3], 4, 4, 4, Refusal::Delay),
    ([2, 0, 5, 3], 4, 4, 4, Refusal::Delay),
    ([2, 17, 5, 3], 4, 4, 4, Refusal::Delay),
    ([2, 4, 0, 3], 4, 4, 4, Refusal::Delay),
    ([2, 4, 17, 3], 4, 4, 4, Refusal::Delay),
    ([2, 4, 5, 0], 4, 4, 4, Refusal::Delay),
    ([2, 4, 5, 17], 0, 0, 4097, Refusal::Delay),
    ([2, 4, 5, 3], 0, 4, 4, Refusal::Capacity),
    ([2, 4, 5, 3], 17, 0, 4097, Refusal::Capacity),
    ([2, 4, 5, 3], 4, 0, 4, Refusal::Program),
    ([2, 4, 5, 3], 4, 4097, 4097, Refusal::Program),
    ([2, 4, 5, 3], 4, 4, 4097, Refusal::Data),
    ([2, 4, 5, 3], 4, 4, 0xffff_ffff, Refusal::Data),
];

// A record that no cycle has.
const FILLER: CycleRecord = CycleRecord {
    retired: Some(77),
    issued: Some(99),
    hold: None,
    cause: None,
};

// Why a step and a run, with a list and with an empty one, are declined, if each is for the same reason and the list
// stays.
fn refusal_to_move<S: Recovery>(
    core: &mut Core<S>,
    program: &[u32],
    data: &mut [u32],
) -> Option<Refusal> {
    let mut records = [FILLER; 3];
    let step = core.step(program, data).err();
    let run = core.run(program, data, &mut records).err();
    let empty = core.run(program, data, &mut []).err();
    if (run, empty, records) == (step, step, [FILLER; 3]) {
        step
    } else {
        None
    }
}

// The same with too short a program, too many data words, both, and too few data words; the words stay.
fn refusals_to_move<S: Recovery>(
    rt: &impl Abort,
    core: &mut Core<S>,
    program: &[u32],
) -> [Option<Refusal>; 4] {
    let mut data = [1, 2, 3, 4];
    let mut longer = [1, 2, 3, 4, 5];
    let refusals = [
        refusal_to_move(core, &[], &mut data),
        refusal_to_move(core, program, &mut longer),
        refusal_to_move(core, &[], &mut longer),
        refusal_to_move(core, program, &mut []),
    ];
    assert_eq!(rt; (data, longer), ([1, 2, 3, 4], [1, 2, 3, 4, 5]));
    refusals
}

// Loads that no core takes.
fn declines_to_load<S: Recovery>(rt: &impl Abort, core: &mut Core<S>, running: bool) {
    for (delays, capacity, program_length, data_length, refusal) in UNFIT {
        let setting = Setting { delays, capacity };
        let answer = load(core, setting, program_length, data_length);
        assert_eq!(rt;
            answer,
            Err(if running { Refusal::Running } else { refusal })
        );
    }
}

// What only a running core declines.
fn declines_running<S: Recovery>(rt: &impl Abort, core: &mut Core<S>) {
    let running = Err(Refusal::Running);
    let answers = (load(core, SETTING, 7, 4), core.resume(0));
    assert_eq!(rt; answers, (running, running));
    assert_eq!(rt;
        (core.report(), core.registers()),
        (Err(Refusal::Running), ([0; 16], 6))
    );
}

// What a core declines that was loaded with this program and 4 data words, or never: the length of a step is looked at
// only while it runs.
fn declines<S: Recovery>(rt: &impl Abort, core: &mut Core<S>, program: &[u32]) {
    let running = core.report().is_err();
    declines_to_load(rt, core, running);
    if running {
        declines_running(rt, core);
    }
    let (resume, step) = if running {
        (Refusal::Running, Refusal::Length)
    } else {
        (Refusal::Counter, Refusal::Stopped)
    };
    assert_eq!(rt; core.resume(65536), Err(resume));
    assert_eq!(rt; refusals_to_move(rt, core, program), [Some(step); 4]);
}

// A core, and the data words that it works on.
#[derive(Drop)]
struct Worker<S: Recovery> {
    core: Core<S>,
    data: [u32; 4],
}

impl<S: Recovery> Worker<S> {
    fn new() -> Worker<S> {
        Worker {
            core: Core::new(),
            data: [1, 2, 3, 4],
        }
    }
}

// Two cores go on alike for a few cycles.
fn go_on_alike<S: Recovery>(
    rt: &impl Abort,
    one: &mut Worker<S>,
    other: &mut Worker<S>,
    program: &[u32],
) {
    let mut records = [FILLER; 3];
    let mut other_records = records;
    let ran = one.core.run(program, &mut one.data, &mut records);
    let other_ran = other.core.run(program, &mut other.data, &mut other_records);
    assert_eq!(rt;
        (other_ran, other_records, other.data),
        (ran, records, one.data)
    );
    let answers = (one.core.report(), one.core.registers());
    assert_eq!(rt; (other.core.report(), other.core.registers()), answers);
}

// Two cores are resumed and go on alike, where one is asked, before and after each few cycles, what it declines.
fn resume_alike<S: Recovery>(
    rt: &impl Abort,
    asked: &mut Worker<S>,
    unasked: &mut Worker<S>,
    program: &[u32],
    counter: u32,
) {
    declines(rt, &mut asked.core, program);
    let resumes = (asked.core.resume(counter), unasked.core.resume(counter));
    assert_eq!(rt; resumes, (Ok(()), Ok(())));
    for _ in 0..8 {
        declines(rt, &mut asked.core, program);
        go_on_alike(rt, asked, unasked, program);
    }
}

// Declined calls change nothing: a core that makes many goes on as one that makes none.
fn declined_calls_change_nothing<S: Recovery + Drop>(rt: &impl Abort) {
    // set R1 7, store R1 to word 0, load R2 from it, multiply R3 of R1 and R2, divide R4 by R0, set R3 9, stop
    let program = [
        0x1100_0007,
        0x9001_0000,
        0x8200_0000,
        0x5312_0000,
        0x6410_0000,
        0x1300_0009,
        0x0000_0000,
    ];
    let mut asked: Worker<S> = Worker::new();
    let mut unasked: Worker<S> = Worker::new();
    declines(rt, &mut asked.core, &program);
    let loads = (
        load(&mut asked.core, SETTING, 7, 4),
        load(&mut unasked.core, SETTING, 7, 4),
    );
    assert_eq!(rt; loads, (Ok(()), Ok(())));
    resume_alike(rt, &mut asked, &mut unasked, &program, 0);
    // past the divide, which stopped the cores
    resume_alike(rt, &mut asked, &mut unasked, &program, 5);
    let stopped = refusal_to_move(&mut asked.core, &program, &mut asked.data);
    let mut registers = [0; 16];
    registers[1] = 7;
    registers[2] = 7;
    registers[3] = 9;
    assert_eq!(rt;
        (stopped, asked.core.registers(), asked.data),
        (Some(Refusal::Stopped), (registers, 0), [7, 2, 3, 4])
    );
}

#[test]
fn declined_calls(rt: HostRuntime) {
    under_each_scheme!(declined_calls_change_nothing(&rt));
}

// The ends of what a load and a resume take.
fn takes_the_ends<S: Recovery + Drop>(rt: &impl Abort) {
    let most = Setting {
        delays: [16; 4],
        capacity: 16,
    };
    let least = Setting {
        delays: [1; 4],
        capacity: 1,
    };
    let mut core: Core<S> = Core::new();
    let loads = (
        load(&mut core, most, 4096, 4096),
        load(&mut core, least, 1, 0),
    );
    let resumed = core.resume(65535);
    let stepped = core.step(&[0], &mut []).is_ok();
    assert_eq!(rt; (loads, resumed, stepped), ((Ok(()), Ok(())), Ok(()), true));
    assert_eq!(rt;
        core.report(),
        stopped(Cause::Fault(Fault::PastEnd), 65535, 0)
    );
}

#[test]
fn ends_are_taken(rt: HostRuntime) {
    under_each_scheme!(takes_the_ends(&rt));
}

// Fills the list so many times.
fn fill_often<S: Recovery>(
    rt: &impl Abort,
    core: &mut Core<S>,
    program: &[u32],
    records: &mut [CycleRecord],
    times: u32,
) {
    let many = records.len();
    for _ in 0..times {
        assert_eq!(rt; core.run(program, &mut [], records), Ok(many));
    }
}

// The one cycle that is left, in which a branch to itself retires and issues.
fn last_cycle<S: Recovery>(rt: &impl Abort, core: &mut Core<S>, program: &[u32]) {
    let turn = CycleRecord {
        retired: Some(0),
        issued: Some(0),
        hold: None,
        cause: None,
    };
    let mut records = [FILLER; 3];
    let ran = core.run(program, &mut [], &mut records);
    assert_eq!(rt; (ran, records), (Ok(1), [turn, FILLER, FILLER]));
    let declined = (
        refusal_to_move(core, program, &mut []),
        refusal_to_move(core, &[], &mut []),
        core.report(),
    );
    let expected = (
        Some(Refusal::Stretch),
        Some(Refusal::Length),
        Err(Refusal::Running),
    );
    assert_eq!(rt; declined, expected);
}

// The millionth cycle since a resume is the last: here of a branch to itself.
fn stretch<S: Recovery + Drop>(rt: &impl Abort) -> Result<(), Fail> {
    let setting = Setting {
        delays: [1; 4],
        capacity: 4,
    };
    let program = [0xa000_0000];
    let mut core: Core<S> = started(setting, &program, &[])?;
    fill_often(rt, &mut core, &program, &mut [BLANK; 999], 1001);
    last_cycle(rt, &mut core, &program);
    Ok(())
}

#[test]
fn stretches(rt: HostRuntime) -> Result<(), Fail> {
    under_each_scheme!(stretch(&rt)?);
    Ok(())
}
