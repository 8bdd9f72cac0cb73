// The core: results wait in sixteen stages, a cycle goes by seven rules, and callers load, resume, step and run it.
#![tactic(auto)]

pub mod calls;
mod pipeline;
pub mod record;
mod rules;
pub mod setup;
mod stages;
pub mod state;
