// A job as a file holds it: reading it and writing it, and the lines that the programs print.
#![tactic(auto)]

pub mod bytes;
pub mod job;
pub mod lines;
pub mod order;
pub mod scheme;
pub mod setting;
