// One call of a list: its answer, and what it writes into the lists that the calls were lent.
ghost use Rattle.std.specs.Prelude.{◌≡◌, ◌-◌, ◌≤◌, true, length, take, is_ok, Ok};
ghost use Rattle.images.specs.Image.{image_words, read_words};
ghost use Rattle.pickcore.specs.Calls.{imaged, accepted, take_up_refusal, take_up_leaves};
ghost use Rattle.pickcore.specs.Core.{machine_of};
ghost use Rattle.jobs.specs.Play.{RanInto, MadeInto, image_of, registers_of, words_known, Filled};

use crate::call::{Answer, Call};
use images::layout::IMAGE_WORDS;
use isa::refusal::Refusal;
use pickcore::record::CycleRecord;
use pickcore::state::Core;
use recovery::Recovery;

// The image of a core as words.
pub(crate) fn image<S: Recovery>(core: &Core<S>) -> Result<[u32; IMAGE_WORDS], Refusal>
    ensures value { result ≡ image_of S.MARK (machine_of S.meaning core.now) }
    ensures reads { is_ok result ≡ true → read_words (image_words (imaged S.MARK (machine_of S.meaning core.now))) ≡ Ok (imaged S.MARK (machine_of S.meaning core.now)) }
{
    let mut words = [0; IMAGE_WORDS];
    core.write_image(&mut words)?;
    Ok(words)
}

// The registers of a stopped core.
fn registers<S: Recovery>(core: &Core<S>) -> Result<[u32; 16], Refusal>
    ensures { result ≡ registers_of S.MARK (machine_of S.meaning core.now) }
{
    match core.registers() {
        (words, 0) => Ok(words),
        _ => Err(Refusal::Running),
    }
}

// Copies as many data words as there is room for, and tells how many.
fn copy_words(data: &[u32], words: &mut [u32]) -> usize
    ensures answer { result ≡ length (take (length words.old) «data».now) }
    ensures filled { Filled words.old (take (length words.old) «data».now) words.new }
{
    let many = data.len().min(words.len());
    words[..many].copy_from_slice(&data[..many]);
    many
}

// Takes up the last image, or no words where there is none.
fn take_up_last<S: Recovery>(
    core: &mut Core<S>,
    last: &Option<[u32; IMAGE_WORDS]>,
) -> Result<(), Refusal>
    ensures answer { result ≡ accepted (take_up_refusal (machine_of S.meaning core.old) (words_known last.now)) }
    ensures leaves { machine_of S.meaning core.new ≡ take_up_leaves (machine_of S.meaning core.old) (words_known last.now) }
{
    match last {
        Some(words) => core.take_up(words),
        None => core.take_up(&[]),
    }
}

// A run of at most so many cycles, and no more than there are places.
fn run<S: Recovery>(
    core: &mut Core<S>,
    limit: usize,
    program: &[u32],
    data: &mut [u32],
    records: &mut [CycleRecord],
) -> Result<usize, Refusal>
    ensures { RanInto S.MARK program.now records.old limit (machine_of S.meaning core.old) «data».old result records.new (machine_of S.meaning core.new) «data».new }
{
    let most = limit.min(records.len());
    core.run(program, data, &mut records[..most])
}

// One call of a list, lent the program, the data words, and what is left of the lists.
pub(crate) fn make<S: Recovery>(
    core: &mut Core<S>,
    call: &Call,
    last: &Option<[u32; IMAGE_WORDS]>,
    program: &[u32],
    data: &mut [u32],
    records: &mut [CycleRecord],
    copies: &mut [u32],
) -> Answer
    ensures { MadeInto S.MARK program.now (words_known last.now) records.old copies.old (machine_of S.meaning core.old) «data».old call.now result records.new copies.new (machine_of S.meaning core.new) «data».new }
{
    match call {
        Call::Step => Answer::Stepped(core.step(program, data)),
        Call::Run(limit) => Answer::Ran(run(core, *limit, program, data, records)),
        Call::Request => Answer::Done(core.request()),
        Call::Cut => Answer::Done(core.cut()),
        Call::Amend(register, word) => Answer::Done(core.amend(*register, *word)),
        Call::TakeUp(image) => Answer::Done(core.take_up(image.as_slice())),
        Call::TakeUpImage => Answer::Done(take_up_last(core, last)),
        Call::Resume(counter) => Answer::Done(core.resume(*counter)),
        Call::Report => Answer::Reported(core.report()),
        Call::Registers => Answer::Registers(registers(core)),
        Call::Image => Answer::Imaged(image(core)),
        Call::Data => Answer::Data(copy_words(data, copies)),
    }
}
