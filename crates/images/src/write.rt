// Writing an image.
ghost use Rattle.std.specs.Prelude.{◌≡◌, ◌^◌, ◌<◌, ◌≤◌, true, ◌++◌, length, drop, is_ok, Ok};
ghost use Rattle.images.specs.Kinds.{word_kind_number};
ghost use Rattle.images.specs.Words.{word_of};
ghost use Rattle.std.specs.List.{AllByRecursion};
ghost use Rattle.images.specs.Image.{register_words, image_words, read_words, write_answer, write_leaves};
ghost use Rattle.images.specs.State.{snapshot_of};

use crate::layout::{
    CAUSE_AT, COUNT_AT, COUNTER_AT, END_AT, END_WORD, IMAGE_WORDS, MOST_HALF, WordKind,
};
use crate::state::State;
use isa::number::number_or_0;
use isa::refusal::Refusal;

// The word of a kind, a register and a value.
fn word_of(kind: WordKind, register: u32, value: u32) -> u32
    requires { (register < 16) × (value < 2 ^ 24) }
    ensures { result ≡ word_of (word_kind_number kind) register value }
{
    (u32::from(kind) << 28) + (register << 24) + value
}

// Two words for each register, its low half before its high half.
fn write_registers(registers: &[u32], buffer: &mut [u32])
    requires { (length registers.now ≡ 16) × (32 ≤ length buffer.old) }
    ensures words { buffer.new ≡ register_words 0 registers.now ++ drop 32 buffer.old }
    ensures fit { AllByRecursion (λ x. x < 2 ^ 32) registers.now }
{
    // By index, and no zip with pairs of words: the index is the register's number, which both words hold.
    for (register, value) in registers.iter().enumerate() {
        let number = register as u32;
        buffer[2 * register] = word_of(WordKind::LowHalf, number, *value & MOST_HALF);
        buffer[2 * register + 1] = word_of(WordKind::HighHalf, number, *value >> 16);
    }
}

// Writes the image of a state to the front of a buffer and leaves the words after it; a buffer without room stays as it
// is.
pub fn write_image(state: &State, buffer: &mut [u32]) -> Result<(), Refusal>
    ensures answer { result ≡ write_answer buffer.old }
    ensures leaves { buffer.new ≡ write_leaves (snapshot_of state.now) buffer.old }
    ensures reads { is_ok result ≡ true → read_words (image_words (snapshot_of state.now)) ≡ Ok (snapshot_of state.now) }
{
    if buffer.len() < IMAGE_WORDS {
        return Err(Refusal::Buffer);
    }
    write_registers(&state.registers, buffer);
    buffer[COUNTER_AT] = word_of(WordKind::Counter, 0, state.counter as u32);
    buffer[CAUSE_AT] = word_of(WordKind::Cause, 0, number_or_0(state.cause));
    buffer[COUNT_AT] = word_of(WordKind::Count, 0, state.count);
    buffer[END_AT] = END_WORD;
    Ok(())
}
