// Reading an image, from its front: words, then registers of two words each, then the whole.
ghost use Rattle.std.specs.Prelude.{◌≡◌, ◌+◌, ◌*◌, ◌<◌, ◌≤◌, length, IfOk};
ghost use Rattle.isa.specs.declared.refusal.Refusal.TheVariants.{ImageWord};
ghost use Rattle.images.specs.Causes.{cause_of};
ghost use Rattle.images.specs.Kinds.{word_kind_number};
ghost use Rattle.images.specs.Words.{value_read, half_read, register_read};
ghost use Rattle.images.specs.Image.{onto, with_registers, registers_read, cause_read, tail_read, read_words};
ghost use Rattle.images.specs.State.{snapshots};

use crate::layout::{
    CAUSE_AT, COUNT_AT, COUNTER_AT, END_AT, END_WORD, IMAGE_WORDS, MOST_COUNT, MOST_HALF,
    REGISTER_WORDS, WordKind,
};
use crate::state::State;
use isa::fault::Cause;
use isa::refusal::Refusal;

// A word that breaks its rule, by its place in the image.
#[derive(Clone, Copy, PartialEq, Eq, Debug)]
struct BadWord {
    index: usize,
}

impl From<BadWord> for Refusal {
    ghost from_gives = { λ bad r. r ≡ ImageWord bad.index };

    fn from(bad: BadWord) -> Refusal {
        Refusal::ImageWord(bad.index)
    }
}

// The value in a word of a kind and a register, which is at most `most`.
fn read_value(
    word: u32,
    kind: WordKind,
    register: u32,
    most: u32,
    index: usize,
) -> Result<u32, BadWord>
    requires { register < 16 }
    ensures answer { result ≡ value_read word (word_kind_number kind) register most index }
    ensures within { IfOk result (λ v. v ≤ most) }
{
    let value = word & 0xff_ffff;
    if word >> 24 == u32::from(kind) * 16 + register && value <= most {
        Ok(value)
    } else {
        Err(BadWord { index })
    }
}

// A value of 16 bits: half a register, the counter or the number of a cause.
fn read_half(word: u32, kind: WordKind, register: u32, index: usize) -> Result<u16, BadWord>
    requires { register < 16 }
    ensures { result ≡ half_read word (word_kind_number kind) register index }
{
    let half = read_value(word, kind, register, MOST_HALF, index)?;
    Ok(half as u16)
}

fn read_register(low: u32, high: u32, register: u32) -> Result<u32, BadWord>
    requires { register < 16 }
    ensures { result ≡ register_read low high register }
{
    let at = register as usize * 2;
    let low = read_half(low, WordKind::LowHalf, register, at)?;
    let high = read_half(high, WordKind::HighHalf, register, at + 1)?;
    Ok(((high as u32) << 16) + low as u32)
}

// The registers from `register` on, two words for each.
// By recursion, and no loop over pairs: those who use images fixed this form, the front of what is left.
fn read_registers(words: &[u32], register: u32, registers: &mut [u32]) -> Result<(), BadWord>
    requires { (length registers.old ≡ 16) × (length words.now + 2 * register ≡ 32) }
    ensures { with_registers registers.new result ≡ onto registers.old register (registers_read register words.now) }
{
    match words {
        [low, high, rest @ ..] => {
            registers[register as usize] = read_register(*low, *high, register)?;
            read_registers(rest, register + 1, registers)
        }
        _ => Ok(()),
    }
}

// The cause of a number: 0 stands for none, and no cause has a number above 8.
pub fn cause_from_number(number: u32) -> Option<Option<Cause>>
    ensures { result ≡ cause_of number }
{
    if number == 0 {
        return Some(None);
    }
    match Cause::try_from(number) {
        Ok(cause) => Some(Some(cause)),
        Err(_) => None,
    }
}

// The cause in the word of the causes.
fn read_cause(word: u32) -> Result<Option<Cause>, BadWord>
    ensures { result ≡ cause_read word }
{
    let number = read_half(word, WordKind::Cause, 0, CAUSE_AT)?;
    cause_from_number(u32::from(number)).ok_or(BadWord { index: CAUSE_AT })
}

// The counter, the cause and the count, from the four words after the registers.
fn read_tail(
    counter: u32,
    cause: u32,
    count: u32,
    last: u32,
) -> Result<(u16, Option<Cause>, u32), BadWord>
    ensures answer { result ≡ tail_read counter cause count last }
    ensures few { IfOk result (λ t. t.2 ≤ 1000000) }
{
    let counter = read_half(counter, WordKind::Counter, 0, COUNTER_AT)?;
    let cause = read_cause(cause)?;
    let count = read_value(count, WordKind::Count, 0, MOST_COUNT, COUNT_AT)?;
    if last != END_WORD {
        return Err(BadWord { index: END_AT });
    }
    Ok((counter, cause, count))
}

// A function, and no TryFrom: `State::try_from(words)` would not say that an image is read, as its twin `write_image` does.
// The state of an image. Words of another number than 36 are refused first, then the first word that breaks its rule.
pub fn read_image(words: &[u32]) -> Result<State, Refusal>
    ensures { snapshots result ≡ read_words words.now }
{
    if words.len() != IMAGE_WORDS {
        return Err(Refusal::ImageLength);
    }
    let mut registers = [0; 16];
    read_registers(&words[0..REGISTER_WORDS], 0, &mut registers)?;
    let (counter, cause, count) = read_tail(
        words[COUNTER_AT],
        words[CAUSE_AT],
        words[COUNT_AT],
        words[END_AT],
    )?;
    Ok(State {
        registers,
        counter,
        cause,
        count,
    })
}
