// What a cycle moves: the recovery scheme, the stages, the next counter and the count of instructions retired.
use crate::stages::Stages;
use recovery::Recovery;

#[derive(Drop)]
pub struct Pipeline<S: Recovery> {
    pub(crate) scheme: S,
    pub(crate) stages: Stages,
    pub(crate) next: u16,
    pub(crate) count: u32,
}
