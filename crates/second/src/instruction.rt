//! The instructions: what a program's word asks for, and what it computes.

use crate::reasons::Fault;

/// The fields that are of no use to a kind, as the bits that must be zero.
const UNUSED: [u32; 12] = [
    0x0FFF_FFFF,
    0x00FF_0000,
    0x0000_FFFF,
    0x0000_FFFF,
    0x0000_FFFF,
    0x0000_FFFF,
    0x0000_FFFF,
    0x0000_FFFF,
    0x000F_0000,
    0x0F00_0000,
    0x0F00_0000,
    0x0F00_0000,
];

/// What is computed from two words.
#[derive(Clone, Copy)]
pub enum Operation {
    Add,
    Subtract,
    ExclusiveOr,
    Multiply,
    Divide,
    CheckedAdd,
}

/// The units, each with a delay of its own.
#[derive(Clone, Copy)]
pub enum Unit {
    Short,
    Multiply,
    Divide,
    Memory,
}

/// An instruction that does something. A stop is none: it is a fault of the word.
#[derive(Clone, Copy)]
pub enum Instruction {
    Set {
        d: u32,
        n: u32,
    },
    Compute {
        operation: Operation,
        d: u32,
        a: u32,
        b: u32,
    },
    Load {
        d: u32,
        a: u32,
        n: u32,
    },
    Store {
        a: u32,
        b: u32,
        n: u32,
    },
    Branch {
        if_equal: bool,
        a: u32,
        b: u32,
        n: u32,
    },
}

/// The instruction that stands at a counter, or the fault that stands there: past the end, at a word that is no
/// instruction, or at a stop.
pub fn fetch(program: &[u32], counter: usize) -> Result<Instruction, Fault> {
    let word = program.get(counter).ok_or(Fault::PastEnd)?;
    decode(*word)
}

fn decode(word: u32) -> Result<Instruction, Fault> {
    let kind = word >> 28;
    let unused = UNUSED.get(kind as usize).ok_or(Fault::Illegal)?;
    if word & *unused != 0 {
        return Err(Fault::Illegal);
    }
    let d = (word >> 24) & 15;
    let a = (word >> 20) & 15;
    let b = (word >> 16) & 15;
    let n = word & 0xFFFF;
    let operation = match kind {
        0 => return Err(Fault::Stop),
        1 => return Ok(Instruction::Set { d, n }),
        2 => Operation::Add,
        3 => Operation::Subtract,
        4 => Operation::ExclusiveOr,
        5 => Operation::Multiply,
        6 => Operation::Divide,
        7 => Operation::CheckedAdd,
        8 => return Ok(Instruction::Load { d, a, n }),
        9 => return Ok(Instruction::Store { a, b, n }),
        10 => return Ok(Instruction::Branch {
            if_equal: true,
            a,
            b,
            n,
        }),
        _ => return Ok(Instruction::Branch {
            if_equal: false,
            a,
            b,
            n,
        }),
    };
    Ok(Instruction::Compute { operation, d, a, b })
}

impl Operation {
    /// The word, or the fault.
    pub fn apply(self, x: u32, y: u32) -> Result<u32, Fault> {
        match self {
            Operation::Add => Ok(x.wrapping_add(y)),
            Operation::Subtract => Ok(x.wrapping_sub(y)),
            Operation::ExclusiveOr => Ok(x ^ y),
            Operation::Multiply => Ok(x.wrapping_mul(y)),
            Operation::Divide => x.checked_div(y).ok_or(Fault::DivideByZero),
            Operation::CheckedAdd => signed_sum(x, y).ok_or(Fault::Overflow),
        }
    }

    fn unit(self) -> Unit {
        match self {
            Operation::Multiply => Unit::Multiply,
            Operation::Divide => Unit::Divide,
            _ => Unit::Short,
        }
    }
}

/// The sum of two words as signed numbers, unless it overflows.
fn signed_sum(x: u32, y: u32) -> Option<u32> {
    let sum = x.cast_signed().checked_add(y.cast_signed())?;
    Some(sum.cast_unsigned())
}

impl Instruction {
    /// The unit that works on it, or none.
    pub fn unit(self) -> Option<Unit> {
        match self {
            Instruction::Set { .. } => Some(Unit::Short),
            Instruction::Compute { operation, .. } => Some(operation.unit()),
            Instruction::Load { .. } => Some(Unit::Memory),
            Instruction::Store { .. } | Instruction::Branch { .. } => None,
        }
    }

    /// The register that it writes, or none.
    pub fn destination(self) -> Option<u32> {
        match self {
            Instruction::Set { d, .. }
            | Instruction::Compute { d, .. }
            | Instruction::Load { d, .. } => Some(d),
            Instruction::Store { .. } | Instruction::Branch { .. } => None,
        }
    }

    /// The registers that it reads.
    pub fn sources(self) -> (Option<u32>, Option<u32>) {
        match self {
            Instruction::Set { .. } => (None, None),
            Instruction::Load { a, .. } => (Some(a), None),
            Instruction::Compute { a, b, .. }
            | Instruction::Store { a, b, .. }
            | Instruction::Branch { a, b, .. } => (Some(a), Some(b)),
        }
    }

    /// The word that it makes of its two operands, or its fault. What writes no register makes 0.
    pub fn result(self, x: u32, y: u32, data: &[u32]) -> Result<u32, Fault> {
        match self {
            Instruction::Set { n, .. } => Ok(n),
            Instruction::Compute { operation, .. } => operation.apply(x, y),
            Instruction::Load { n, .. } => load(data, x.wrapping_add(n)),
            Instruction::Store { .. } | Instruction::Branch { .. } => Ok(0),
        }
    }

    /// Where a branch goes that is taken, or none.
    pub fn jump(self, x: u32, y: u32) -> Option<u32> {
        match self {
            Instruction::Branch { if_equal, n, .. } if (x == y) == if_equal => Some(n),
            _ => None,
        }
    }
}

fn load(data: &[u32], address: u32) -> Result<u32, Fault> {
    data.get(address as usize).copied().ok_or(Fault::Address)
}

/// Puts the word at the address, or answers the fault and changes nothing.
pub fn store(data: &mut [u32], address: u32, word: u32) -> Result<(), Fault> {
    let place = data.get_mut(address as usize).ok_or(Fault::Address)?;
    *place = word;
    Ok(())
}

/// A register's word; 0 for a register that there is not.
pub fn word_of(registers: &[u32; 16], register: u32) -> u32 {
    registers.get(register as usize).copied().unwrap_or(0)
}

/// Gives a register a word, and does nothing to a register that there is not.
pub fn put(registers: &mut [u32; 16], register: u32, word: u32) {
    if let Some(place) = registers.get_mut(register as usize) {
        *place = word;
    }
}
