//! The plain machine: one instruction at a time.

use crate::instruction::{Instruction, fetch, put, store, word_of};
use crate::reasons::Fault;

#[derive(Clone, Copy)]
pub struct Simple {
    pub registers: [u32; 16],
    pub counter: usize,
}

impl Simple {
    /// A machine that is all zero.
    pub fn new() -> Simple {
        Simple {
            registers: [0; 16],
            counter: 0,
        }
    }

    /// Runs the instruction at the counter, or answers its fault and changes nothing.
    pub fn step(&mut self, program: &[u32], data: &mut [u32]) -> Result<(), Fault> {
        let instruction = fetch(program, self.counter)?;
        let (a, b) = instruction.sources();
        let x = self.operand(a);
        let y = self.operand(b);
        if let Instruction::Store { n, .. } = instruction {
            store(data, x.wrapping_add(n), y)?;
        }
        let word = instruction.result(x, y, data)?;
        if let Some(d) = instruction.destination() {
            put(&mut self.registers, d, word);
        }
        self.counter = match instruction.jump(x, y) {
            Some(target) => target as usize,
            None => self.counter.wrapping_add(1),
        };
        Ok(())
    }

    fn operand(&self, register: Option<u32>) -> u32 {
        register.map_or(0, |r| word_of(&self.registers, r))
    }
}
