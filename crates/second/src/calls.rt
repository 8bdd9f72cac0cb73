//! The core and the calls on it.

ghost use Rattle.std.specs.Prelude.{◌≤◌, length, IfOk};

use crate::flight::{Flight, Flying};
use crate::instruction::{Instruction, Unit, fetch, put, store, word_of};
use crate::reasons::{Cause, Fault, Hold, Refusal};

/// How many cycles may follow a resume.
const STRETCH: u32 = 1_000_000;

/// How many cycles each unit takes.
#[derive(Clone, Copy)]
pub struct Delays {
    pub short: u32,
    pub multiply: u32,
    pub divide: u32,
    pub memory: u32,
}

impl Delays {
    fn of(&self, unit: Unit) -> u32 {
        match unit {
            Unit::Short => self.short,
            Unit::Multiply => self.multiply,
            Unit::Divide => self.divide,
            Unit::Memory => self.memory,
        }
    }

    fn are_good(&self) -> bool {
        [self.short, self.multiply, self.divide, self.memory]
            .iter()
            .all(|delay| from_1_to_16(*delay))
    }
}

fn from_1_to_16(number: u32) -> bool {
    (1..=16).contains(&number)
}

/// What a core is loaded with.
#[derive(Clone, Copy)]
pub struct Setting {
    pub delays: Delays,
    pub capacity: u32,
    pub program_length: u32,
    pub data_length: u32,
}

impl Setting {
    /// The setting of a core never loaded.
    fn least() -> Setting {
        Setting {
            delays: Delays {
                short: 1,
                multiply: 1,
                divide: 1,
                memory: 1,
            },
            capacity: 1,
            program_length: 1,
            data_length: 0,
        }
    }

    fn must_be_good(&self) -> Result<(), Refusal> {
        if !self.delays.are_good() {
            return Err(Refusal::Delay);
        }
        if !from_1_to_16(self.capacity) {
            return Err(Refusal::Capacity);
        }
        if !(1..=4096).contains(&self.program_length) {
            return Err(Refusal::ProgramLength);
        }
        if self.data_length > 4096 {
            return Err(Refusal::DataLength);
        }
        Ok(())
    }
}

/// What happened in a cycle.
#[derive(Clone, Copy, PartialEq, Eq, Debug, Default)]
pub struct Record {
    pub retired: Option<u32>,
    pub issued: Option<u32>,
    pub hold: Option<Hold>,
    pub cause: Option<Cause>,
}

/// Why the core stopped, where, and after how many instructions. There is no cause before the first stop.
#[derive(Clone, Copy, PartialEq, Eq, Debug)]
pub struct Report {
    pub cause: Option<Cause>,
    pub counter: u32,
    pub count: u32,
}

/// Why a cycle issued nothing.
#[derive(Clone, Copy)]
enum Unissued {
    Held(Hold),
    Stopped(Cause),
}

impl From<Hold> for Unissued {
    fn from(hold: Hold) -> Unissued {
        Unissued::Held(hold)
    }
}

impl From<Fault> for Unissued {
    fn from(fault: Fault) -> Unissued {
        Unissued::Stopped(Cause::Fault(fault))
    }
}

/// A core.
#[derive(Clone, Copy)]
pub struct Second {
    /// A source may be read as soon as its word has come, and not only once it is settled.
    early: bool,
    setting: Setting,
    /// The words as of the last instruction that retired.
    pub(crate) registers: [u32; 16],
    flight: Flight,
    pub(crate) running: bool,
    requested: bool,
    pub(crate) counter: u32,
    pub(crate) cause: Option<Cause>,
    pub(crate) count: u32,
    cycles: u32,
}

impl Second {
    /// A core never loaded, of a scheme from 1 to 4; any other number counts as 1.
    // A number, and no enum: here the four schemes differ in one thing, so that an enum would be matched to be two again.
    pub fn new(scheme: u32) -> Second {
        Second::at_rest((2..=4).contains(&scheme), Setting::least())
    }

    /// A stopped core, all zero.
    fn at_rest(early: bool, setting: Setting) -> Second {
        Second {
            early,
            setting,
            registers: [0; 16],
            flight: Flight::empty(),
            running: false,
            requested: false,
            counter: 0,
            cause: None,
            count: 0,
            cycles: 0,
        }
    }

    /// Makes the core all zero, with this setting.
    pub fn load(&mut self, setting: Setting) -> Result<(), Refusal> {
        self.must_be_stopped()?;
        setting.must_be_good()?;
        *self = Second::at_rest(self.early, setting);
        Ok(())
    }

    /// Gives a register a word.
    pub fn amend(&mut self, register: u32, word: u32) -> Result<(), Refusal> {
        self.must_be_stopped()?;
        let place = self
            .registers
            .get_mut(register as usize)
            .ok_or(Refusal::Register)?;
        *place = word;
        Ok(())
    }

    /// Starts the core at a counter.
    pub fn resume(&mut self, counter: u32) -> Result<(), Refusal> {
        self.must_be_stopped()?;
        if counter > 65_535 {
            return Err(Refusal::Counter);
        }
        self.running = true;
        self.counter = counter;
        self.count = 0;
        self.cycles = 0;
        Ok(())
    }

    /// Asks the core to stop once nothing is in flight.
    pub fn request(&mut self) -> Result<(), Refusal> {
        self.must_run()?;
        self.requested = true;
        Ok(())
    }

    /// Stops the core at once, and takes back what is in flight.
    pub fn cut(&mut self) -> Result<(), Refusal> {
        self.must_run()?;
        if let Some(oldest) = self.flight.oldest() {
            self.counter = oldest.counter;
        }
        self.stop(Cause::Cut);
        Ok(())
    }

    /// Moves the core by one cycle.
    pub fn step(&mut self, program: &[u32], data: &mut [u32]) -> Result<Record, Refusal> {
        self.may_step(program.len(), data.len())?;
        self.cycles = self.cycles.saturating_add(1);
        match self.retire() {
            Ok(retired) => Ok(self.advance(retired, program, data)),
            Err(fault) => {
                let cause = Cause::Fault(fault);
                self.stop(cause);
                Ok(Record {
                    cause: Some(cause),
                    ..Record::default()
                })
            }
        }
    }

    /// Steps until the core stops or may not step, or the list is full. Answers how many records it made.
    pub fn run(
        &mut self,
        program: &[u32],
        data: &mut [u32],
        records: &mut [Record],
    ) -> Result<usize, Refusal>
        ensures { IfOk result (λ n. n ≤ length records.old) }
    {
        self.may_step(program.len(), data.len())?;
        let room = records.len();
        for (place, slot) in records.iter_mut().enumerate() {
            match self.step(program, data) {
                Ok(record) => *slot = record,
                Err(_) => return Ok(place),
            }
        }
        Ok(room)
    }

    /// How the core stopped last.
    pub fn report(&self) -> Result<Report, Refusal> {
        self.must_be_stopped()?;
        Ok(Report {
            cause: self.cause,
            counter: self.counter,
            count: self.count,
        })
    }

    /// The words of a stopped core.
    pub fn registers(&self) -> Result<[u32; 16], Refusal> {
        self.must_be_stopped()?;
        Ok(self.registers)
    }

    pub(crate) fn must_be_stopped(&self) -> Result<(), Refusal> {
        if self.running {
            Err(Refusal::Running)
        } else {
            Ok(())
        }
    }

    fn must_run(&self) -> Result<(), Refusal> {
        if self.running {
            Ok(())
        } else {
            Err(Refusal::Stopped)
        }
    }

    fn may_step(&self, program_length: usize, data_length: usize) -> Result<(), Refusal> {
        self.must_run()?;
        let lengths = (
            self.setting.program_length as usize,
            self.setting.data_length as usize,
        );
        if (program_length, data_length) != lengths {
            return Err(Refusal::LentLength);
        }
        if self.cycles >= STRETCH {
            return Err(Refusal::Stretch);
        }
        Ok(())
    }

    /// Stops at the counter that stands.
    fn stop(&mut self, cause: Cause) {
        self.flight = Flight::empty();
        self.running = false;
        self.cause = Some(cause);
    }

    /// Settles the oldest instruction if its word has come, and answers its counter. Where its fault has come, goes back
    /// to its counter and answers the fault.
    fn retire(&mut self) -> Result<Option<u32>, Fault> {
        let Some(oldest) = self.flight.oldest() else {
            return Ok(None);
        };
        if oldest.due > self.cycles {
            return Ok(None);
        }
        match oldest.result {
            Ok(word) => {
                if let Some(register) = oldest.destination {
                    put(&mut self.registers, register, word);
                }
                self.flight.leave();
                self.count = self.count.saturating_add(1);
                Ok(Some(oldest.counter))
            }
            Err(fault) => {
                self.counter = oldest.counter;
                Err(fault)
            }
        }
    }

    /// The rest of a cycle in which this retired, and the cycle's record.
    fn advance(&mut self, retired: Option<u32>, program: &[u32], data: &mut [u32]) -> Record {
        let mut record = Record {
            retired,
            ..Record::default()
        };
        let counter = self.counter;
        match self.attempt(program, data) {
            Ok(()) => record.issued = Some(counter),
            Err(Unissued::Held(hold)) => record.hold = Some(hold),
            Err(Unissued::Stopped(cause)) => {
                self.stop(cause);
                record.cause = Some(cause);
            }
        }
        record
    }

    /// Tries to issue the next instruction.
    fn attempt(&mut self, program: &[u32], data: &mut [u32]) -> Result<(), Unissued> {
        if self.requested {
            self.must_be_alone(Hold::Request)?;
            self.requested = false;
            return Err(Unissued::Stopped(Cause::Request));
        }
        match fetch(program, self.counter as usize) {
            Ok(Instruction::Store { a, b, n }) => {
                self.must_be_alone(Hold::Flight)?;
                self.store(data, a, b, n)?;
            }
            Ok(instruction) => self.issue(instruction, data)?,
            Err(fault) => {
                self.must_be_alone(Hold::Flight)?;
                return Err(fault.into());
            }
        }
        Ok(())
    }

    /// Holds what waits until nothing is in flight.
    fn must_be_alone(&self, hold: Hold) -> Result<(), Hold> {
        if self.flight.is_empty() {
            Ok(())
        } else {
            Err(hold)
        }
    }

    /// Runs a store, with nothing in flight.
    fn store(&mut self, data: &mut [u32], a: u32, b: u32, n: u32) -> Result<(), Fault> {
        let address = word_of(&self.registers, a).wrapping_add(n);
        store(data, address, word_of(&self.registers, b))?;
        self.count = self.count.saturating_add(1);
        self.counter = self.counter.saturating_add(1);
        Ok(())
    }

    /// Issues any other instruction, unless it is held.
    fn issue(&mut self, instruction: Instruction, data: &[u32]) -> Result<(), Hold> {
        let (a, b) = instruction.sources();
        let x = self.operand(a).ok_or(Hold::Source)?;
        let y = self.operand(b).ok_or(Hold::Source)?;
        // What no unit works on is done as it issues.
        let mut due = self.cycles;
        if let Some(unit) = instruction.unit() {
            due = due.saturating_add(self.setting.delays.of(unit));
            if self.flight.expects(due) {
                return Err(Hold::Stage);
            }
        }
        let destination = instruction.destination();
        if self.is_awaited(destination) {
            return Err(Hold::Destination);
        }
        if self.flight.size() >= self.setting.capacity as usize {
            return Err(Hold::Capacity);
        }
        let counter = self.counter;
        self.flight.join(Flying {
            counter,
            destination,
            result: instruction.result(x, y, data),
            due,
        });
        self.counter = match instruction.jump(x, y) {
            Some(target) => target,
            None => counter.saturating_add(1),
        };
        Ok(())
    }

    /// The word of a source, 0 where there is none to read, or none while the source is awaited.
    fn operand(&self, source: Option<u32>) -> Option<u32> {
        let Some(register) = source else {
            return Some(0);
        };
        match self.flight.writer(register) {
            None => Some(word_of(&self.registers, register)),
            Some(writer) if self.early => writer.word_by(self.cycles),
            Some(_) => None,
        }
    }

    /// Whether the youngest instruction that writes the destination has yet to bring its word.
    fn is_awaited(&self, destination: Option<u32>) -> bool {
        destination
            .and_then(|register| self.flight.writer(register))
            .is_some_and(|writer| writer.word_by(self.cycles).is_none())
    }
}
