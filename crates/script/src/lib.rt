// The text of a desk script and of a cradle job: from bytes to values, and from answers to lines.
#![tactic(auto)]

pub mod calls;
pub mod cradle;
pub mod desk;
pub mod error;
pub mod examples;
pub mod keyword;
pub mod lines;
pub mod numbers;
pub mod numeral;
pub mod reader;
pub mod tokens;
