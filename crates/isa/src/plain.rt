// The plain machine: what a program means, one instruction at a time.
ghost use Rattle.std.specs.Prelude.{◌≡◌, ℕ, List};
ghost use Rattle.isa.specs.Plain.{stepped, ran, at_zero};
ghost use Rattle.isa.specs.State.{plain_of};
ghost use Rattle.isa.specs.Table.{verdict, value_or};

use crate::compute::{branch_taken, compute};
use crate::fault::Fault;
use crate::fetch::fetch;
use crate::memory::store_word;
use crate::words::Kind;

// Sixteen registers and the counter; program and data words are lent to each step.
#[derive(Clone, Copy, PartialEq, Eq, Debug)]
pub struct PlainMachine {
    pub registers: [u32; 16],
    pub counter: usize,
}

impl PlainMachine {
    // All registers and the counter at zero.
    pub fn new() -> PlainMachine
        ensures { (ws : List ℕ) → plain_of result ws ≡ at_zero ws }
    {
        PlainMachine {
            registers: [0; 16],
            counter: 0,
        }
    }

    // One instruction. Its faults are tried in this order: no word at the counter, an illegal word, and the
    // instruction's own; a fault leaves everything as it was.
    pub fn step(&mut self, program: &[u32], data: &mut [u32]) -> Result<(), Fault>
        ensures answer { result ≡ verdict (stepped program.now (plain_of self.old «data».old)) }
        ensures leaves { plain_of self.new «data».new ≡ value_or (plain_of self.old «data».old) (stepped program.now (plain_of self.old «data».old)) }
    {
        let at = self.counter;
        let (kind, d, a, b, n) = fetch(program, at)?;
        let x = self.registers[a as usize];
        let y = self.registers[b as usize];
        match kind {
            Kind::Stop => Err(Fault::Stop),
            Kind::Store => {
                store_word(data, x, n, y)?;
                self.counter = at + 1;
                Ok(())
            }
            Kind::BranchEqual | Kind::BranchUnequal => {
                self.counter = if branch_taken(kind, x, y) {
                    n as usize
                } else {
                    at + 1
                };
                Ok(())
            }
            _ => {
                let word = compute(kind, n, x, y, data)?;
                self.registers[d as usize] = word;
                self.counter = at + 1;
                Ok(())
            }
        }
    }

    // At most so many steps, up to the first with a fault: how many were taken, and that fault.
    pub fn run(&mut self, program: &[u32], data: &mut [u32], most: u32) -> (u32, Result<(), Fault>)
        ensures { record { taken = result.0; last = plain_of self.new «data».new; fault = result.1 } ≡ ran program.now most (plain_of self.old «data».old) }
    {
        for taken in 0..most {
            if let Err(fault) = self.step(program, data) {
                return (taken, Err(fault));
            }
        }
        (most, Ok(()))
    }
}
