// A desk script from its text to the text to print.
#![tactic(auto)]

pub mod desk;
mod lists;
