// The calls on a core. A declined call changes nothing.
ghost use Rattle.std.specs.Prelude.{◌≡◌, ◌+◌, ◌<◌, ◌≤◌, Bool, true, false, length, is_ok, is_err, Ok};
ghost use Rattle.pickcore.specs.Limits.{one_to_sixteen, delays_fit};
ghost use Rattle.pickcore.specs.Calls.{accepted, unloaded, load_refusal, load_leaves, resume_refusal, resume_leaves, step_refusal, still_marked, Steps, amend_refusal, amend_leaves, stopped_refusal, request_leaves, cut_leaves, Ran, Runs, report_answer, registers_answer, imaged, image_answer, image_leaves, between, placed_from, take_up_refusal, take_up_leaves};
ghost use Rattle.images.specs.Image.{write_leaves, image_words, read_words};
ghost use Rattle.pickcore.specs.Core.{machine_of};

use crate::pipeline::Pipeline;
use crate::record::{CycleRecord, Ending, Report};
use crate::setup::Setup;
use crate::stages::Stages;
use crate::state::Core;
use images::read::read_image;
use images::state::State;
use images::write::write_image;
use isa::fault::Cause;
use isa::refusal::Refusal;
use isa::unit::UNITS;
use recovery::Recovery;
use std::array;

// Whether every delay is from 1 to 16.
fn delays_fit(delays: &[u32]) -> bool
    ensures { result ≡ delays_fit delays.now }
{
    delays.iter().all(|delay| one_to_sixteen(*delay))
}

fn one_to_sixteen(n: u32) -> bool
    ensures { result ≡ one_to_sixteen n }
{
    (1..=16).contains(&n)
}

// Whether a request stays marked past a stop: only one that is met is cleared.
fn still_marked(marked: bool, cause: Cause) -> bool
    ensures { result ≡ still_marked marked cause }
{
    match cause {
        Cause::Request => false,
        _ => marked,
    }
}

// Puts a word into each register, from the first on.
fn place_registers<S: Recovery>(scheme: &mut S, words: &[u32])
    requires { length words.now ≡ 16 }
    ensures { S.meaning scheme.new ≡ placed_from (S.meaning scheme.old) 0 words.now }
{
    for (register, word) in words.iter().enumerate() {
        let _ = scheme.place(register as u8, *word);
    }
}

impl<S: Recovery> Core<S> {
    // A core never loaded: stopped, with delays, capacity and program length 1, no data words and zeros elsewhere.
    pub fn new() -> Core<S>
        ensures { machine_of S.meaning result ≡ unloaded }
    {
        Core {
            pipe: Pipeline {
                scheme: S::fresh(),
                stages: Stages::empty(),
                next: 0,
                count: 0,
            },
            delays: [1; UNITS],
            program_length: 1,
            data_length: 0,
            cycles: 0,
            running: false,
            requested: false,
            cause: None,
        }
    }

    // Takes the delays of the units, the capacity, and the lengths of program and data; the core is then stopped, all
    // zero and unrequested.
    pub fn load(&mut self, setup: Setup) -> Result<(), Refusal>
        ensures answer { result ≡ accepted (load_refusal (machine_of S.meaning self.old) setup.delays setup.capacity setup.program_length setup.data_length) }
        ensures leaves { machine_of S.meaning self.new ≡ load_leaves (machine_of S.meaning self.old) setup.delays setup.capacity setup.program_length setup.data_length }
        ensures same { is_err result ≡ true → self.new ≡ self.old }
    {
        if self.running {
            return Err(Refusal::Running);
        }
        if !delays_fit(&setup.delays) {
            return Err(Refusal::Delay);
        }
        if !one_to_sixteen(setup.capacity) {
            return Err(Refusal::Capacity);
        }
        if !(1..=4096).contains(&setup.program_length) {
            return Err(Refusal::Program);
        }
        if setup.data_length > 4096 {
            return Err(Refusal::Data);
        }
        let _ = self.pipe.scheme.start(setup.capacity);
        self.pipe.stages = Stages::empty();
        self.pipe.next = 0;
        self.pipe.count = 0;
        self.delays = setup.delays;
        self.program_length = setup.program_length;
        self.data_length = setup.data_length;
        self.cycles = 0;
        self.requested = false;
        self.cause = None;
        Ok(())
    }

    // Starts at a counter; count and cycles become 0.
    pub fn resume(&mut self, counter: u32) -> Result<(), Refusal>
        ensures answer { result ≡ accepted (resume_refusal (machine_of S.meaning self.old) counter) }
        ensures leaves { machine_of S.meaning self.new ≡ resume_leaves (machine_of S.meaning self.old) counter }
        ensures same { is_err result ≡ true → self.new ≡ self.old }
    {
        if self.running {
            return Err(Refusal::Running);
        }
        if counter > 65535 {
            return Err(Refusal::Counter);
        }
        self.pipe.next = counter as u16;
        self.pipe.count = 0;
        self.cycles = 0;
        self.running = true;
        Ok(())
    }

    // Why the core stopped, at which counter, after how many instructions.
    pub fn report(&self) -> Result<Report, Refusal>
        ensures { result ≡ report_answer (machine_of S.meaning self.now) }
    {
        if self.running {
            return Err(Refusal::Running);
        }
        Ok(Report {
            cause: self.cause,
            counter: self.pipe.next,
            count: self.pipe.count,
        })
    }

    // Whether a step is accepted, for lists of these lengths.
    fn may_step(&self, program_length: usize, data_length: usize) -> Result<(), Refusal>
        ensures { result ≡ accepted (step_refusal (machine_of S.meaning self.now) program_length data_length) }
    {
        if !self.running {
            return Err(Refusal::Stopped);
        }
        if program_length != self.program_length as usize
            || data_length != self.data_length as usize
        {
            return Err(Refusal::Length);
        }
        if self.cycles >= 1000000 {
            return Err(Refusal::Stretch);
        }
        Ok(())
    }

    // Moves the core by one cycle, and tells what it did.
    pub fn step(&mut self, program: &[u32], data: &mut [u32]) -> Result<CycleRecord, Refusal>
        ensures steps { Steps S.MARK (machine_of S.meaning self.old) program.now «data».old (record { answer = result; machine = machine_of S.meaning self.new; words = «data».new }) }
        ensures same { is_err result ≡ true → self.new ≡ self.old }
    {
        self.may_step(program.len(), data.len())?;
        let (retired, ending) = self.pipe.cycle(&self.delays, self.requested, program, data);
        let record = CycleRecord::new(retired, ending);
        self.cycles += 1;
        if let Ending::Stopped(cause) = ending {
            self.running = false;
            self.requested = still_marked(self.requested, cause);
            self.cause = Some(cause);
        }
        Ok(record)
    }

    // Puts a word into a register of a stopped core.
    pub fn amend(&mut self, register: u32, word: u32) -> Result<(), Refusal>
        ensures answer { result ≡ accepted (amend_refusal (machine_of S.meaning self.old) register) }
        ensures leaves { machine_of S.meaning self.new ≡ amend_leaves (machine_of S.meaning self.old) register word }
        ensures same { is_err result ≡ true → self.new ≡ self.old }
    {
        if self.running {
            return Err(Refusal::Running);
        }
        if register > 15 {
            return Err(Refusal::Register);
        }
        let _ = self.pipe.scheme.place(register as u8, word);
        Ok(())
    }

    // Marks a request: the core stops once nothing is in flight.
    pub fn request(&mut self) -> Result<(), Refusal>
        ensures answer { result ≡ accepted (stopped_refusal (machine_of S.meaning self.old)) }
        ensures leaves { machine_of S.meaning self.new ≡ request_leaves (machine_of S.meaning self.old) }
        ensures same { is_err result ≡ true → self.new ≡ self.old }
    {
        if !self.running {
            return Err(Refusal::Stopped);
        }
        self.requested = true;
        Ok(())
    }

    // Stops at once: what is in flight is taken back, and the counter is the oldest entry's, or the next one if nothing
    // is in flight.
    pub fn cut(&mut self) -> Result<(), Refusal>
        ensures answer { result ≡ accepted (stopped_refusal (machine_of S.meaning self.old)) }
        ensures leaves { machine_of S.meaning self.new ≡ cut_leaves (machine_of S.meaning self.old) }
        ensures same { is_err result ≡ true → self.new ≡ self.old }
    {
        if !self.running {
            return Err(Refusal::Stopped);
        }
        let counter = self.pipe.scheme.oldest().unwrap_or(self.pipe.next);
        self.pipe.empty(counter);
        self.running = false;
        self.cause = Some(Cause::Cut);
        Ok(())
    }

    // Steps until a step is declined, as every one is after a report, or the list is full: one record for each step,
    // from the front of the list. It answers how many; later places stay.
    pub fn run(
        &mut self,
        program: &[u32],
        data: &mut [u32],
        records: &mut [CycleRecord],
    ) -> Result<usize, Refusal>
        ensures runs { Runs S.MARK program.now (machine_of S.meaning self.old) «data».old records.old result records.new (machine_of S.meaning self.new) «data».new }
        ensures same { is_err result ≡ true → self.new ≡ self.old }
    {
        self.may_step(program.len(), data.len())?;
        Ok(self.fill(program, data, records))
    }

    // The steps of a run that is accepted.
    fn fill(&mut self, program: &[u32], data: &mut [u32], records: &mut [CycleRecord]) -> usize
        ensures { Ran S.MARK program.now (machine_of S.meaning self.old) «data».old records.old result records.new (machine_of S.meaning self.new) «data».new }
    {
        for (done, place) in records.iter_mut().enumerate() {
            let Ok(record) = self.step(program, data) else {
                return done;
            };
            *place = record;
        }
        records.len()
    }

    // All sixteen words with number 0, or sixteen zeros with a refusal's number.
    // A pair, and no Result: those who call it fixed this form, the words by value with a number beside them.
    pub fn registers(&self) -> ([u32; 16], u32)
        ensures value { result ≡ registers_answer S.MARK (machine_of S.meaning self.now) }
        ensures settled { self.now.running ≡ false → result ≡ ((S.meaning self.now.pipe.scheme).settled, 0) }
    {
        if self.running {
            return ([0; 16], u32::from(Refusal::Running));
        }
        let words = array::from_fn(|register| {
            self.pipe.scheme.look(register as u8).unwrap_or(0)
        });
        (words, 0)
    }

    // Writes the image of a stopped core to the front of a buffer; later words stay.
    pub fn write_image(&self, buffer: &mut [u32]) -> Result<(), Refusal>
        ensures answer { result ≡ image_answer (machine_of S.meaning self.now) buffer.old }
        ensures leaves { buffer.new ≡ image_leaves S.MARK (machine_of S.meaning self.now) buffer.old }
        ensures settled { self.now.running ≡ false → buffer.new ≡ write_leaves (between (machine_of S.meaning self.now)) buffer.old }
        ensures reads { is_ok result ≡ true → read_words (image_words (imaged S.MARK (machine_of S.meaning self.now))) ≡ Ok (imaged S.MARK (machine_of S.meaning self.now)) }
    {
        if self.running {
            return Err(Refusal::Running);
        }
        let (registers, _) = self.registers();
        let count = self.pipe.count;
        let state = State {
            registers,
            counter: self.pipe.next,
            cause: self.cause,
            count,
        };
        write_image(&state, buffer)
    }

    // Takes up an image: registers, counter, cause and count become those that it holds.
    pub fn take_up(&mut self, image: &[u32]) -> Result<(), Refusal>
        ensures answer { result ≡ accepted (take_up_refusal (machine_of S.meaning self.old) image.now) }
        ensures leaves { machine_of S.meaning self.new ≡ take_up_leaves (machine_of S.meaning self.old) image.now }
        ensures same { is_err result ≡ true → self.new ≡ self.old }
        ensures held { is_ok result ≡ true → read_words image.now ≡ Ok (between (machine_of S.meaning self.new)) }
        ensures again { is_ok result ≡ true → image_words (between (machine_of S.meaning self.new)) ≡ image.now }
    {
        if self.running {
            return Err(Refusal::Running);
        }
        let state = read_image(image)?;
        place_registers(&mut self.pipe.scheme, &state.registers);
        self.pipe.next = state.counter;
        self.pipe.count = state.count;
        self.cause = state.cause;
        Ok(())
    }
}
