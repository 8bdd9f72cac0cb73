// Jobs: lists of calls on a core with all their answers, and a job moved from one core to another.
#![tactic(auto)]

pub mod call;
mod make;
pub mod moved;
pub mod play;
