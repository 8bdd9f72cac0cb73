// Instruction words: reading one and writing one.
ghost use Rattle.std.specs.Prelude.{◌≡◌};
ghost use Rattle.isa.specs.Laws.{ReadThenWrite, WriteThenRead};
ghost use Rattle.isa.specs.Numbers.{kind_number};
ghost use Rattle.isa.specs.Words.{decoded, encoded, unused_zero, kind_bits, d_bits, a_bits, b_bits, n_bits};

use crate::refusal::Refusal;

#[derive(Clone, Copy, PartialEq, Eq, Debug)]
pub enum Kind {
    Stop,
    Set,
    Add,
    Subtract,
    ExclusiveOr,
    Multiply,
    Divide,
    CheckedAdd,
    Load,
    Store,
    BranchEqual,
    BranchUnequal,
}

impl From<Kind> for u32 {
    ghost from_gives = { λ kind number. number ≡ kind_number kind };

    fn from(kind: Kind) -> u32 {
        kind as u32
    }
}

// The five fields of any word: the number of its kind, d, a, b and n.
fn fields(word: u32) -> (u8, u8, u8, u8, u16)
    ensures { result ≡ (kind_bits word, d_bits word, a_bits word, b_bits word, n_bits word) }
{
    let d = ((word >> 24) & 15) as u8;
    let a = ((word >> 20) & 15) as u8;
    let b = ((word >> 16) & 15) as u8;
    let n = (word & 0xffff) as u16;
    ((word >> 28) as u8, d, a, b, n)
}

// The kind of a word and its fields d, a, b and n; a word whose kind is above 11, or that has another bit than its
// kind uses, is no instruction.
// A tuple, and no struct: those who call it fixed this form, the kind and its four fields together.
pub fn read_word(word: u32) -> Result<(Kind, u8, u8, u8, u16), Refusal>
    ensures { result ≡ decoded word }
{
    let (kind, d, a, b, n) = fields(word);
    match kind {
        0 if d == 0 && a == 0 && b == 0 && n == 0 => Ok((Kind::Stop, d, a, b, n)),
        1 if a == 0 && b == 0 => Ok((Kind::Set, d, a, b, n)),
        2 if n == 0 => Ok((Kind::Add, d, a, b, n)),
        3 if n == 0 => Ok((Kind::Subtract, d, a, b, n)),
        4 if n == 0 => Ok((Kind::ExclusiveOr, d, a, b, n)),
        5 if n == 0 => Ok((Kind::Multiply, d, a, b, n)),
        6 if n == 0 => Ok((Kind::Divide, d, a, b, n)),
        7 if n == 0 => Ok((Kind::CheckedAdd, d, a, b, n)),
        8 if b == 0 => Ok((Kind::Load, d, a, b, n)),
        9 if d == 0 => Ok((Kind::Store, d, a, b, n)),
        10 if d == 0 => Ok((Kind::BranchEqual, d, a, b, n)),
        11 if d == 0 => Ok((Kind::BranchUnequal, d, a, b, n)),
        _ => Err(Refusal::NotAnInstruction),
    }
}

// Whether every field that the kind does not use is zero.
fn unused_zero(kind: Kind, d: u8, a: u8, b: u8, n: u16) -> bool
    ensures { result ≡ unused_zero kind d a b n }
{
    match kind {
        Kind::Stop => d == 0 && a == 0 && b == 0 && n == 0,
        Kind::Set => a == 0 && b == 0,
        Kind::Add
        | Kind::Subtract
        | Kind::ExclusiveOr
        | Kind::Multiply
        | Kind::Divide
        | Kind::CheckedAdd => n == 0,
        Kind::Load => b == 0,
        Kind::Store | Kind::BranchEqual | Kind::BranchUnequal => d == 0,
    }
}

// The word of a kind and its fields; what no word holds, a register above 15 or a field that the kind does not use,
// is no instruction.
pub fn write_word(kind: Kind, d: u8, a: u8, b: u8, n: u16) -> Result<u32, Refusal>
    ensures { result ≡ encoded kind d a b n }
{
    if d > 15 || a > 15 || b > 15 || !unused_zero(kind, d, a, b, n) {
        return Err(Refusal::NotAnInstruction);
    }
    Ok(
        (u32::from(kind) << 28)
            + ((d as u32) << 24)
            + ((a as u32) << 20)
            + ((b as u32) << 16)
            + n as u32,
    )
}

// Each legal word means one instruction: what is read writes the same word, and what is written reads the same.
pub fn words_round_trip()
    ensures there { ReadThenWrite }
    ensures back { WriteThenRead }
{}
