// The lines that the desk and the cradle print.
#![tactic(auto)]

pub mod answers;
pub mod calls;
pub mod cradle;
pub mod desk;
pub mod device;
pub mod examples;
pub mod parts;
