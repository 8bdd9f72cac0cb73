// A core, over any recovery scheme.
ghost use Rattle.std.specs.Prelude.{◌≡◌, length};
ghost use Rattle.pickcore.specs.Model.{pipe_of};
ghost use Rattle.pickcore.specs.Sound.{Sound, Tied-prop};
ghost use Rattle.std.proofs.Props.{props};

use crate::pipeline::Pipeline;
use isa::fault::Cause;
use isa::unit::UNITS;
use recovery::Recovery;

#[derive(Drop)]
pub struct Core<S: Recovery> {
    pub(crate) pipe: Pipeline<S>,
    pub(crate) delays: [u32; UNITS],
    pub(crate) program_length: u32,
    pub(crate) data_length: u32,
    // accepted steps since the resume
    pub(crate) cycles: u32,
    pub(crate) running: bool,
    // a request is marked: the core stops once nothing is in flight
    pub(crate) requested: bool,
    pub(crate) cause: Option<Cause>,
    ghost units: { length delays ≡ 4 },
    // what holds of every core, whatever calls were made on it
    ghost sound: { Sound (record { pipe = pipe_of S.meaning pipe; delays = delays; program_length = program_length; data_length = data_length; cycles = cycles; running = running; requested = requested; cause = cause }) } by { Prim.hlevel (props, Tied-prop) },
}
