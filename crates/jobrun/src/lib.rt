// A job from the bytes that hold it to the text to print: on the core, and on the plain machine.
#![tactic(auto)]

pub mod pick;
pub mod plain;
