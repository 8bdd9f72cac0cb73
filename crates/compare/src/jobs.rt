// What a job is made of: a setup, a program, data words, and the orders that the two models are given.
use crate::seed::Seed;
use pickcore::setup::Setup;
use second::{Delays, Setting};
use std::alloc::{AllocError, Global};

// A setup as the second model takes it.
pub fn second_setting(setup: Setup) -> Setting {
    let [short, multiply, divide, memory] = setup.delays;
    Setting {
        delays: Delays {
            short,
            multiply,
            divide,
            memory,
        },
        capacity: setup.capacity,
        program_length: setup.program_length,
        data_length: setup.data_length,
    }
}

// What a step or a run is lent: what was loaded, or a list of another length in its place.
#[derive(Clone, Copy)]
pub enum Lent {
    All,
    NoProgram,
    OtherData,
}

impl Lent {
    pub fn program(self, loaded: &[u32]) -> &[u32] {
        match self {
            Lent::NoProgram => &[],
            Lent::All | Lent::OtherData => loaded,
        }
    }

    pub fn data<'a>(self, loaded: &'a mut [u32], other: &'a mut [u32]) -> &'a mut [u32] {
        match self {
            Lent::OtherData => other,
            Lent::All | Lent::NoProgram => loaded,
        }
    }
}

#[derive(Clone, Copy)]
pub enum Order {
    Load(Setup),
    Resume(u32),
    Amend(u32, u32),
    Step(Lent),
    Run(Lent),
    Request,
    Cut,
    WriteShortImage,
}

// Small delays and capacities come more often: there more happens in few cycles.
fn one_to_sixteen(seed: &mut Seed) -> u32 {
    let most = if seed.one_in(2) { 4 } else { 16 };
    seed.below(most).wrapping_add(1)
}

// A setup of these lengths.
pub fn setup_of(seed: &mut Seed, program_length: u32, data_length: u32) -> Setup {
    Setup {
        delays: [
            one_to_sixteen(seed),
            one_to_sixteen(seed),
            one_to_sixteen(seed),
            one_to_sixteen(seed),
        ],
        capacity: one_to_sixteen(seed),
        program_length,
        data_length,
    }
}

// A job's setup: mostly small, and now and then as long as a core takes.
pub fn job_setup(seed: &mut Seed) -> Setup {
    if seed.one_in(32) {
        return setup_of(seed, 4096, 4096);
    }
    let program_length = seed.below(24).wrapping_add(1);
    let data_length = seed.below(9);
    setup_of(seed, program_length, data_length)
}

// Few registers, so that instructions wait for each other.
fn register(seed: &mut Seed) -> u32 {
    if seed.one_in(8) {
        seed.below(16)
    } else {
        seed.below(5)
    }
}

// An instruction of any kind but stop, with none of the bits that its kind does not use.
fn instruction(seed: &mut Seed, setup: Setup) -> u32 {
    let kind = seed.below(11).wrapping_add(1);
    let d = register(seed) << 24;
    let a = register(seed) << 20;
    let b = register(seed) << 16;
    let fields = match kind {
        1 => d | (seed.word() & 0xffff),
        8 => d | a | seed.below(setup.data_length.wrapping_add(1)),
        9 => a | b | seed.below(setup.data_length.wrapping_add(1)),
        10 | 11 => a | b | seed.below(setup.program_length.wrapping_add(1)),
        _ => d | a | b,
    };
    kind << 28 | fields
}

// A word of a program: now and then a stop, any word, or one with a bit turned that may be unused.
fn program_word(seed: &mut Seed, setup: Setup) -> u32 {
    match seed.below(40) {
        0 => 0,
        1 => seed.word(),
        2 => instruction(seed, setup) ^ (1 << (seed.word() % 28)),
        _ => instruction(seed, setup),
    }
}

pub fn program_words(alloc: Global, seed: &mut Seed, setup: Setup) -> Result<Vec<u32>, AllocError> {
    (0..setup.program_length)
        .map(|_| program_word(seed, setup))
        .collect(alloc)
}

pub fn data_words(alloc: Global, mut seed: Seed, length: u32) -> Result<Vec<u32>, AllocError> {
    (0..length).map(|_| seed.operand()).collect(alloc)
}

// A load with one part out of range.
fn unfit_load(seed: &mut Seed, setup: Setup) -> Order {
    let mut unfit = setup;
    let place = (seed.word() >> 30) as usize;
    match seed.below(7) {
        0 => unfit.delays[place] = 0,
        1 => unfit.delays[place] = 17,
        2 => unfit.capacity = 0,
        3 => unfit.capacity = 17,
        4 => unfit.program_length = 0,
        5 => unfit.program_length = 4097,
        _ => unfit.data_length = 4097,
    }
    Order::Load(unfit)
}

// An order that is declined, either always or while the core is running or stopped.
fn unfit_order(seed: &mut Seed, setup: Setup) -> Order {
    match seed.below(16) {
        0 => Order::Amend(16, 1),
        1 => Order::Resume(65536),
        2 => Order::Step(Lent::NoProgram),
        3 => Order::Step(Lent::OtherData),
        4 => Order::Run(Lent::NoProgram),
        5 => Order::Run(Lent::OtherData),
        6 => Order::WriteShortImage,
        7 => Order::Load(setup),
        8 => Order::Resume(0),
        9 => Order::Amend(1, 1),
        10 => Order::Step(Lent::All),
        11 => Order::Run(Lent::All),
        12 => Order::Request,
        13 => Order::Cut,
        _ => unfit_load(seed, setup),
    }
}

// The next order: mostly one that does something in the state that the core is in.
pub fn next_order(seed: &mut Seed, running: bool, setup: Setup) -> Order {
    if seed.one_in(10) {
        return unfit_order(seed, setup);
    }
    if running {
        return match seed.below(24) {
            0 => Order::Request,
            1 => Order::Cut,
            2 | 3 => Order::Run(Lent::All),
            _ => Order::Step(Lent::All),
        };
    }
    match seed.below(16) {
        0 => Order::Load(setup_of(seed, setup.program_length, setup.data_length)),
        1 => Order::Resume(65535),
        2 | 3 | 4 | 5 | 6 => Order::Amend(register(seed), seed.operand()),
        _ => Order::Resume(seed.below(setup.program_length)),
    }
}
