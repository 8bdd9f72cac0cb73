// The instruction set: words, kinds, faults, causes and refusals, the instruction table, and the plain machine that
// runs one instruction at a time. Everything above this crate means by an instruction what is said here.
#![tactic(auto)]

pub mod compute;
pub mod fault;
pub mod fetch;
pub mod memory;
pub mod number;
pub mod plain;
pub mod refusal;
pub mod unit;
pub mod words;
