// One cycle, by its seven rules.
ghost use Rattle.std.specs.Prelude.{◌≡◌, ◌+◌, ◌<◌, ◌≤◌, Bool, true, [], ◌∷◌, length};
ghost use Rattle.isa.specs.Table.{fetched, sources_of, computes, stores, target};
ghost use Rattle.isa.specs.declared.fault.Cause.TheVariants as cause;
ghost use Rattle.recovery.specs.Meaning.{oldest_answer, retire_answer};
ghost use Rattle.pickcore.specs.Cycle.{arrived, moved, emptied, drains, putting, working, jumping, looks, dispatch, front, cycle, retires, flight_at_admission, Move, Turn, Chosen};
ghost use Rattle.pickcore.specs.Record.{issued_or_held};
ghost use Rattle.pickcore.specs.Model.{pipe_of, operands, setting};

use crate::pipeline::Pipeline;
use crate::record::{Ending, Hold};
use crate::stages::{Stage, Stages};
use isa::compute::{branch_taken, compute, unit_of};
use isa::fault::{Cause, Fault};
use isa::fetch::fetch;
use isa::memory::store_word;
use isa::unit::UNITS;
use isa::words::Kind;
use recovery::{Recovery, Trap};

// Program and data words are passed one by one: a struct would hold a `&mut`, and each clause speak of its loan.
// The bounds on program and count are clauses, no invariants: the one is lent, the other may rise twice within a cycle.
impl<S: Recovery> Pipeline<S> {
    // One cycle: the counter that retired, and how it ended. A hold or a stop ends it.
    pub(crate) fn cycle(
        &mut self,
        delays: &[u32; UNITS],
        requested: bool,
        program: &[u32],
        data: &mut [u32],
    ) -> (Option<u16>, Ending)
        requires { (length program.now ≤ 4096) × (self.old.count < 3999999999) }
        ensures retired { result.0 ≡ retires (pipe_of S.meaning self.old) }
        ensures turn { Chosen (λ t. cycle (setting S.MARK delays.now program.now) requested t (pipe_of S.meaning self.old) «data».old) (flight_at_admission (pipe_of S.meaning self.old)) result.1 (record { ending = result.1; pipe = pipe_of S.meaning self.new; words = «data».new }) }
    {
        // rules 1 and 2
        self.deliver_first();
        self.stages.shift();
        // rule 3, and then the others
        match self.scheme.retire() {
            Ok(None) => (None, self.front(delays, requested, program, data)),
            Ok(Some(counter)) => {
                self.count += 1;
                (Some(counter), self.front(delays, requested, program, data))
            }
            Err(Trap { counter, fault }) => {
                self.empty(counter);
                (None, Ending::Stopped(Cause::Fault(fault)))
            }
        }
    }

    // Rule 1: the first stage, if taken, is delivered and emptied.
    fn deliver_first(&mut self)
        ensures { pipe_of S.meaning self.new ≡ arrived (pipe_of S.meaning self.old) }
    {
        if let Some(stage) = self.stages.take_first() {
            let _ = self.scheme.deliver(stage.tag, stage.result);
        }
    }

    // Backs out the flight and empties the stages, with the counter that the core stops at.
    pub(crate) fn empty(&mut self, counter: u16)
        ensures { pipe_of S.meaning self.new ≡ emptied (pipe_of S.meaning self.old) counter }
    {
        self.scheme.back_out();
        self.stages = Stages::empty();
        self.next = counter;
    }

    // Rules 4 to 7: a request that is marked comes before the next instruction.
    fn front(
        &mut self,
        delays: &[u32; UNITS],
        requested: bool,
        program: &[u32],
        data: &mut [u32],
    ) -> Ending
        requires { (length program.now ≤ 4096) × (self.old.count < 4000000000) }
        ensures { Chosen (λ t. front (setting S.MARK delays.now program.now) requested t (pipe_of S.meaning self.old) «data».old) (S.meaning self.old.scheme).flight result (record { ending = result; pipe = pipe_of S.meaning self.new; words = «data».new }) }
    {
        if requested {
            return self.drain(Hold::Request, Cause::Request);
        }
        self.issue(delays, program, data)
    }

    // Rules 4 and 5: a stop at the next counter, once nothing is in flight; until then a hold.
    fn drain(&mut self, hold: Hold, cause: Cause) -> Ending
        ensures { record { ending = result; pipe = pipe_of S.meaning self.new } ≡ drains (pipe_of S.meaning self.old) hold cause }
    {
        if self.scheme.oldest().is_some() {
            return Ending::Held(hold);
        }
        self.empty(self.next);
        Ending::Stopped(cause)
    }

    // Rules 5 to 7, by the next instruction.
    fn issue(&mut self, delays: &[u32; UNITS], program: &[u32], data: &mut [u32]) -> Ending
        requires { (length program.now ≤ 4096) × (self.old.count < 4000000000) }
        ensures { Chosen (λ t. dispatch (setting S.MARK delays.now program.now) t (pipe_of S.meaning self.old) «data».old (fetched program.now self.old.next)) (S.meaning self.old.scheme).flight result (record { ending = result; pipe = pipe_of S.meaning self.new; words = «data».new }) }
    {
        let (kind, d, a, b, n) = match fetch(program, self.next as usize) {
            Ok(word) => word,
            Err(fault) => return self.drain(Hold::Flight, Cause::Fault(fault)),
        };
        match unit_of(kind) {
            Some(unit) => {
                let delay = delays[usize::from(unit)];
                Ending::from(self.work(kind, d, a, b, n, delay, data))
            }
            None => match kind {
                Kind::Stop => self.drain(Hold::Flight, Cause::Fault(Fault::Stop)),
                Kind::Store => self.store(a, b, n, data),
                _ => Ending::from(self.branch(kind, a, b, n)),
            },
        }
    }

    // Rule 5 for a store: with nothing in flight it is written at once, and never enters the flight.
    fn store(&mut self, a: u8, b: u8, n: u16, data: &mut [u32]) -> Ending
        requires { (a < 16) × (b < 16) × (self.old.next < 65535) × (self.old.count < 4000000000) }
        ensures { record { ending = result; pipe = pipe_of S.meaning self.new; words = «data».new } ≡ putting (pipe_of S.meaning self.old) «data».old (a ∷ b ∷ []) (stores n) (oldest_answer (S.meaning self.old.scheme)) }
    {
        if self.scheme.oldest().is_some() {
            return Ending::Held(Hold::Flight);
        }
        let (Some(x), Some(y)) = (self.scheme.look(a), self.scheme.look(b)) else {
            unreachable()
        };
        let at = self.next;
        match store_word(data, x, n, y) {
            Ok(()) => {
                self.count += 1;
                self.next = at + 1;
                Ending::Stored(at)
            }
            Err(fault) => {
                self.empty(at);
                Ending::Stopped(Cause::Fault(fault))
            }
        }
    }

    // Rules 6 and 7 for an instruction with a result, on a unit of this delay: the counter that issues.
    fn work(
        &mut self,
        kind: Kind,
        d: u8,
        a: u8,
        b: u8,
        n: u16,
        delay: u32,
        data: &[u32],
    ) -> Result<u16, Hold>
        requires { self.old.next < 65535 }
        ensures { Chosen (λ t. working t (pipe_of S.meaning self.old) «data».now delay d (computes kind n) (looks S.MARK (S.meaning self.old.scheme) (sources_of kind a b))) (S.meaning self.old.scheme).flight (issued_or_held result) (record { ending = issued_or_held result; pipe = pipe_of S.meaning self.new }) }
    {
        let (x, y) = self.operands(kind, a, b).ok_or(Hold::Source)?;
        if self.stages.is_taken(delay) {
            return Err(Hold::Stage);
        }
        let at = self.next;
        let tag = self.scheme.admit(at, Some(d))?;
        let result = compute(kind, n, x, y, data);
        self.stages.enter(delay, Stage { tag, result });
        self.next = at + 1;
        Ok(at)
    }

    // Rules 6 and 7 for a branch: it takes no stage, and moves the counter as it issues.
    fn branch(&mut self, kind: Kind, a: u8, b: u8, n: u16) -> Result<u16, Hold>
        requires { self.old.next < 65535 }
        ensures { Chosen (λ t. jumping t (pipe_of S.meaning self.old) (target kind n) (looks S.MARK (S.meaning self.old.scheme) (sources_of kind a b))) (S.meaning self.old.scheme).flight (issued_or_held result) (record { ending = issued_or_held result; pipe = pipe_of S.meaning self.new }) }
    {
        let (x, y) = self.operands(kind, a, b).ok_or(Hold::Source)?;
        let at = self.next;
        let _ = self.scheme.admit(at, None)?;
        self.next = if branch_taken(kind, x, y) { n } else { at + 1 };
        Ok(at)
    }

    // The words of an instruction's sources; none where one of them is awaited.
    fn operands(&self, kind: Kind, a: u8, b: u8) -> Option<(u32, u32)>
        ensures { result ≡ operands (looks S.MARK (S.meaning self.now.scheme) (sources_of kind a b)) }
    {
        match kind {
            Kind::Stop | Kind::Set => Some((0, 0)),
            Kind::Load => Some((self.scheme.look(a)?, 0)),
            _ => Some((self.scheme.look(a)?, self.scheme.look(b)?)),
        }
    }
}
