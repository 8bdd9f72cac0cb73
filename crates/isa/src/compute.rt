// What the rows of the instruction table say: the unit of an instruction, its result, and whether a branch is taken.
ghost use Rattle.std.specs.Prelude.{◌≡◌};
ghost use Rattle.isa.specs.Table.{overflows, unit_of, computed, branches};

use crate::fault::Fault;
use crate::memory::load_word;
use crate::unit::ExecUnit;
use crate::words::Kind;

// The unit that computes the result of a kind; none for a kind without a result.
pub fn unit_of(kind: Kind) -> Option<ExecUnit>
    ensures { result ≡ unit_of kind }
{
    match kind {
        Kind::Stop | Kind::Store | Kind::BranchEqual | Kind::BranchUnequal => None,
        Kind::Multiply => Some(ExecUnit::Multiply),
        Kind::Divide => Some(ExecUnit::Divide),
        Kind::Load => Some(ExecUnit::Memory),
        Kind::Set | Kind::Add | Kind::Subtract | Kind::ExclusiveOr | Kind::CheckedAdd => Some(
            ExecUnit::Short,
        ),
    }
}

// Whether the sum of two words, in two's complement, leaves the range of a word.
fn overflow(x: u32, y: u32) -> bool
    ensures { result ≡ overflows x y }
{
    let top = 0x8000_0000;
    let sum = x.wrapping_add(y);
    (x >= top) == (y >= top) && (sum >= top) != (x >= top)
}

// The result of an instruction with the field n, where Ra is x and Rb is y.
pub fn compute(kind: Kind, n: u16, x: u32, y: u32, data: &[u32]) -> Result<u32, Fault>
    ensures { result ≡ computed kind n x y «data».now }
{
    match kind {
        Kind::Set => Ok(n as u32),
        Kind::Add => Ok(x.wrapping_add(y)),
        Kind::Subtract => Ok(x.wrapping_sub(y)),
        Kind::ExclusiveOr => Ok(x ^ y),
        Kind::Multiply => Ok(x.wrapping_mul(y)),
        Kind::Divide if y == 0 => Err(Fault::DivideByZero),
        Kind::Divide => Ok(x / y),
        Kind::CheckedAdd if overflow(x, y) => Err(Fault::Overflow),
        Kind::CheckedAdd => Ok(x.wrapping_add(y)),
        Kind::Load => load_word(data, x, n),
        Kind::Stop => Err(Fault::Stop),
        Kind::Store | Kind::BranchEqual | Kind::BranchUnequal => Err(Fault::Illegal),
    }
}

// Whether a branch is taken, where Ra is x and Rb is y.
pub fn branch_taken(kind: Kind, x: u32, y: u32) -> bool
    ensures { result ≡ branches kind x y }
{
    match kind {
        Kind::BranchEqual => x == y,
        Kind::BranchUnequal => x != y,
        _ => false,
    }
}
