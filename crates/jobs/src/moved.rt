// A job moved from a scanner that stopped to a spare one.
ghost use Rattle.std.specs.Prelude.{◌≡◌, Bool, true, is_err};
ghost use Rattle.pickcore.specs.Core.{machine_of};
ghost use Rattle.pickcore.specs.Setup.{setup_for};
ghost use Rattle.jobs.specs.Move.{Moving};

use crate::make::image;
use images::layout::IMAGE_WORDS;
use isa::refusal::Refusal;
use isa::unit::UNITS;
use pickcore::record::CycleRecord;
use pickcore::setup::Setup;
use pickcore::state::Core;
use recovery::Recovery;

// The image that moved, and the cycles that the spare ran.
#[derive(Clone, Copy, PartialEq, Eq, Debug)]
pub struct Moved {
    pub image: [u32; IMAGE_WORDS],
    pub cycles: usize,
}

// Moves an open job: a spare core, loaded with delays and a capacity of its own, takes up the image of a stopped scanner
// and resumes at its counter, lent the program and the data words that the scanner left. It runs until its report; where
// the list of records is full or the stretch used up before, it is cut.
//
// The plain machine that ran beside the scanner goes on beside the spare, and the two counts add up to its steps.
pub fn move_job<A: Recovery, B: Recovery>(
    scanner: &Core<A>,
    spare: &mut Core<B>,
    delays: [u32; UNITS],
    capacity: u32,
    program: &[u32],
    data: &mut [u32],
    records: &mut [CycleRecord],
) -> Result<Moved, Refusal>
    ensures moving { Moving A.MARK B.MARK program.now (setup_for delays capacity program.now «data».old) (machine_of A.meaning scanner.now) (machine_of B.meaning spare.old) «data».old records.old result (machine_of B.meaning spare.new) «data».new records.new }
    ensures same { is_err result ≡ true → spare.new ≡ spare.old }
{
    let report = scanner.report()?;
    let Ok(image) = image(scanner) else {
        unreachable()
    };
    let setup = Setup::new(delays, capacity, program, data);
    spare.load(setup)?;
    // a core just loaded declines none of these
    let Ok(()) = spare.take_up(&image) else {
        unreachable()
    };
    let Ok(()) = spare.resume(report.counter as u32) else {
        unreachable()
    };
    let Ok(cycles) = spare.run(program, data, records) else {
        unreachable()
    };
    let _ = spare.cut();
    Ok(Moved { image, cycles })
}
