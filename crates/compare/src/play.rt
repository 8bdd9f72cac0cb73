// One job on the core and on the second model, with the plain machine beside them.
use crate::covered::Call;
use crate::findings::{Findings, What};
use crate::jobs::{Lent, Order, data_words, job_setup, next_order, program_words, second_setting};
use crate::seed::Seed;
use future::FutureFile;
use history::HistoryBuffer;
use isa::fault::{Cause, Fault};
use isa::refusal::Refusal;
use pickcore::record::CycleRecord;
use pickcore::setup::Setup;
use pickcore::state::Core;
use recovery::Recovery;
use reorder::{BypassBuffer, ReorderBuffer};
use second::{Record, Second, Simple};
use std::alloc::{AllocError, Global};

// How many cycles a run asks for.
const RUN: usize = 5;

// What images are written over.
const GUARD: u32 = 0x600d_600d;

const ORDERS: u32 = 48;

// The kind of a store's word.
const STORE: u32 = 9;

// Data words of a length that no job has.
const OTHER_DATA: [u32; 9] = [7; 9];

// A scheme, with the number by which the second model knows it.
pub trait Scheme: Recovery + Drop {
    const NUMBER: u32;
}

impl Scheme for ReorderBuffer {
    const NUMBER: u32 = 1;
}

impl Scheme for BypassBuffer {
    const NUMBER: u32 = 2;
}

impl Scheme for HistoryBuffer {
    const NUMBER: u32 = 3;
}

impl Scheme for FutureFile {
    const NUMBER: u32 = 4;
}

#[derive(Drop)]
struct Pair<S: Scheme> {
    core: Core<S>,
    second: Second,
    plain: Simple,
    program: Vec<u32>,
    core_data: Vec<u32>,
    second_data: Vec<u32>,
    plain_data: Vec<u32>,
    // how many issued and did not retire, by the records
    in_flight: u32,
    // the last stop took back two or more, whose tags the next run uses again
    took_back: bool,
}

impl<S: Scheme> Pair<S> {
    // New models with a program and data words from the seed, never loaded.
    fn new(alloc: Global, seed: &mut Seed, setup: Setup) -> Result<Pair<S>, AllocError> {
        let program = program_words(alloc, seed, setup)?;
        let length = setup.data_length;
        Ok(Pair {
            core: Core::new(),
            second: Second::new(S::NUMBER),
            plain: Simple::new(),
            program,
            core_data: data_words(alloc, *seed, length)?,
            second_data: data_words(alloc, *seed, length)?,
            plain_data: data_words(alloc, *seed, length)?,
            in_flight: 0,
            took_back: false,
        })
    }

    fn load(&mut self, setup: Setup, findings: &mut Findings) {
        let core = self.core.load(setup);
        let second = self.second.load(second_setting(setup));
        findings.answer(Call::Load, core.err(), second.err());
        if core.is_ok() {
            findings.covered.load(setup);
            self.plain = Simple::new();
            self.took_back = false;
        }
    }

    fn resume(&mut self, counter: u32, findings: &mut Findings) {
        let core = self.core.resume(counter);
        let second = self.second.resume(counter);
        findings.answer(Call::Resume, core.err(), second.err());
        if core.is_ok() {
            self.plain.counter = counter as usize;
            if self.took_back {
                findings.covered.resumes_after_backing_out.add_one();
            }
        }
    }

    fn amend(&mut self, register: u32, word: u32, findings: &mut Findings) {
        let core = self.core.amend(register, word);
        let second = self.second.amend(register, word);
        findings.answer(Call::Amend, core.err(), second.err());
        if core.is_ok() {
            if let Some(place) = self.plain.registers.get_mut(register as usize) {
                *place = word;
            }
        }
    }

    fn cut(&mut self, findings: &mut Findings) {
        let core = self.core.cut();
        let second = self.second.cut();
        findings.answer(Call::Cut, core.err(), second.err());
        if core.is_ok() {
            if self.in_flight >= 2 {
                findings.covered.cuts_in_flight.add_one();
            }
            self.stop(Cause::Cut, findings);
        }
    }

    fn request(&mut self, findings: &mut Findings) {
        let core = self.core.request();
        let second = self.second.request();
        findings.answer(Call::Request, core.err(), second.err());
    }

    fn step(&mut self, lent: Lent, findings: &mut Findings) {
        let mut other_data = OTHER_DATA;
        let program = lent.program(self.program.as_slice());
        let core_data = lent.data(self.core_data.as_mut_slice(), &mut other_data);
        let core = self.core.step(program, core_data);
        let second_data = lent.data(self.second_data.as_mut_slice(), &mut other_data);
        let second = self.second.step(program, second_data);
        findings.words(What::Guard, &other_data, &OTHER_DATA);
        findings.answer(Call::Step, core.err(), second.err());
        if core == Err(Refusal::Stretch) {
            findings.covered.used_up_stretches.add_one();
        }
        if let (Ok(record), Ok(other)) = (core, second) {
            findings.record(record, other);
            self.note(record, findings);
        }
    }

    fn run(&mut self, lent: Lent, findings: &mut Findings) {
        let mut records = [CycleRecord::default(); RUN];
        let mut others = [Record::default(); RUN];
        let mut other_data = OTHER_DATA;
        let program = lent.program(self.program.as_slice());
        let core_data = lent.data(self.core_data.as_mut_slice(), &mut other_data);
        let core = self.core.run(program, core_data, &mut records);
        let second_data = lent.data(self.second_data.as_mut_slice(), &mut other_data);
        let second = self.second.run(program, second_data, &mut others);
        findings.words(What::Guard, &other_data, &OTHER_DATA);
        findings.answer(Call::Run, core.err(), second.err());
        let many = core.unwrap_or(0);
        if many != second.unwrap_or(0) {
            findings.compare(What::Records, 0, 1);
        }
        // places past the last record stay blank in both
        for (place, (record, other)) in records.iter().zip(others.iter()).enumerate() {
            findings.record(*record, *other);
            if place < many {
                self.note(*record, findings);
            }
        }
    }

    // Follows a cycle by its record.
    fn note(&mut self, record: CycleRecord, findings: &mut Findings) {
        findings.covered.cycle(record);
        if record.retired.is_some() {
            self.in_flight = self.in_flight.saturating_sub(1);
        }
        if let Some(counter) = record.issued {
            let word = self.program.as_slice().get(counter as usize).copied();
            let kind = word.unwrap_or(0) >> 28;
            findings.covered.issue(kind);
            // a store is done at once, and is never in flight
            if kind != STORE {
                self.in_flight = self.in_flight.saturating_add(1);
            }
        }
        if let Some(cause) = record.cause {
            self.stop(cause, findings);
        }
    }

    // Follows a stop: the plain machine comes to the same state, by as many steps as were counted.
    fn stop(&mut self, cause: Cause, findings: &mut Findings) {
        findings.covered.stop(cause);
        self.took_back = self.in_flight >= 2;
        self.in_flight = 0;
        let Ok(report) = self.core.report() else {
            findings.compare(What::Cause, 0, u32::from(cause));
            return;
        };
        for _ in 0..report.count {
            self.plain_step(None, findings);
        }
        let counter = u32::try_from(self.plain.counter).unwrap_or(u32::MAX);
        findings.compare(What::PlainCounter, u32::from(report.counter), counter);
        if let Cause::Fault(fault) = cause {
            self.plain_step(Some(fault), findings);
        }
        let (registers, _) = self.core.registers();
        findings.words(What::PlainRegister, &registers, &self.plain.registers);
        findings.words(
            What::PlainData,
            self.core_data.as_slice(),
            self.plain_data.as_slice(),
        );
    }

    // A step of the plain machine where the core had this fault, or none.
    fn plain_step(&mut self, fault: Option<Fault>, findings: &mut Findings) {
        findings.covered.plain_steps.add_one();
        let step = self
            .plain
            .step(self.program.as_slice(), self.plain_data.as_mut_slice());
        findings.plain_fault(fault, step.err());
    }

    fn compare_reports(&self, findings: &mut Findings) {
        let core = self.core.report();
        let second = self.second.report();
        findings.answer(Call::Report, core.err(), second.err());
        if let (Ok(report), Ok(other)) = (core, second) {
            findings.report(report, other);
        }
    }

    fn compare_words(&self, findings: &mut Findings) {
        let (registers, number) = self.core.registers();
        let second = self.second.registers();
        findings.answer_numbers(Call::Registers, number, second.err().map_or(0, u32::from));
        // a core that runs answers zeros
        findings.words(What::Register, &registers, &second.unwrap_or([0; 16]));
        findings.words(
            What::Data,
            self.core_data.as_slice(),
            self.second_data.as_slice(),
        );
    }

    // Writes the models' images into these buffers; whether the core wrote one.
    fn write_images(&self, image: &mut [u32], other: &mut [u32], findings: &mut Findings) -> bool {
        let core = self.core.write_image(image);
        let second = self.second.write_image(other);
        findings.answer(Call::WriteImage, core.err(), second.err());
        core.is_ok()
    }

    // Buffers of 37 words, of which the last stays.
    fn compare_images(&self, findings: &mut Findings) {
        let mut image = [GUARD; 37];
        let mut other = [GUARD; 37];
        let written = self.write_images(&mut image, &mut other, findings);
        findings.words(What::Image, &image, &other);
        findings.compare(What::Guard, image[36], GUARD);
        if !written {
            findings.words(What::Guard, &image, &[GUARD; 37]);
        }
    }

    // A buffer of 35 words is too short, and stays.
    fn write_short_image(&self, findings: &mut Findings) {
        let mut image = [GUARD; 35];
        let mut other = [GUARD; 35];
        self.write_images(&mut image, &mut other, findings);
        findings.words(What::Guard, &image, &[GUARD; 35]);
        findings.words(What::Guard, &other, &[GUARD; 35]);
    }

    // Does as ordered, and compares all that can be asked after it.
    fn follow(&mut self, order: Order, findings: &mut Findings) {
        match order {
            Order::Load(setup) => self.load(setup, findings),
            Order::Resume(counter) => self.resume(counter, findings),
            Order::Amend(register, word) => self.amend(register, word, findings),
            Order::Step(lent) => self.step(lent, findings),
            Order::Run(lent) => self.run(lent, findings),
            Order::Request => self.request(findings),
            Order::Cut => self.cut(findings),
            Order::WriteShortImage => self.write_short_image(findings),
        }
        self.compare_reports(findings);
        self.compare_words(findings);
        self.compare_images(findings);
    }
}

// The job of a number: loaded, with words in the registers that its program uses most, and then orders by chance.
pub fn play<S: Scheme>(
    alloc: Global,
    number: u32,
    findings: &mut Findings,
) -> Result<(), AllocError> {
    findings.begin_job(S::NUMBER);
    let mut seed = Seed::new(number);
    let setup = job_setup(&mut seed);
    let mut pair: Pair<S> = Pair::new(alloc, &mut seed, setup)?;
    pair.follow(Order::Load(setup), findings);
    for register in 0..5 {
        pair.follow(Order::Amend(register, seed.operand()), findings);
    }
    pair.follow(Order::Resume(0), findings);
    for _ in 0..ORDERS {
        let running = pair.core.report().is_err();
        let order = next_order(&mut seed, running, setup);
        pair.follow(order, findings);
    }
    Ok(())
}

// A job that uses up a stretch: its program is a loop, and the step after the millionth is declined.
pub fn play_stretch<S: Scheme>(alloc: Global, findings: &mut Findings) -> Result<(), AllocError> {
    findings.begin_job(S::NUMBER);
    let setup = Setup {
        delays: [2, 3, 4, 2],
        capacity: 4,
        program_length: 4,
        data_length: 2,
    };
    let mut seed = Seed::new(S::NUMBER);
    let mut pair: Pair<S> = Pair::new(alloc, &mut seed, setup)?;
    // add R1 to R2, multiply R3 of R2 and R1, load R4, branch to the first
    pair.program = vec![in alloc; 0x2221_0000, 0x5321_0000, 0x8400_0001, 0xa000_0000]?;
    pair.follow(Order::Load(setup), findings);
    pair.follow(Order::Amend(1, 0x8000_0001), findings);
    pair.follow(Order::Resume(0), findings);
    for _ in 0..1_000_000u32 {
        pair.step(Lent::All, findings);
    }
    pair.follow(Order::Step(Lent::All), findings);
    pair.follow(Order::Run(Lent::All), findings);
    pair.follow(Order::Request, findings);
    pair.follow(Order::Cut, findings);
    pair.follow(Order::Resume(0), findings);
    pair.follow(Order::Step(Lent::All), findings);
    Ok(())
}
