// Trials on examples: instruction words, the plain machine, the core over each of the four recovery schemes, and what
// the programs print.
#![tactic(auto)]

#[cfg(test)]
mod arithmetic;
#[cfg(test)]
mod backing_out;
#[cfg(test)]
mod bench;
#[cfg(test)]
mod cycles;
#[cfg(test)]
mod programs;
#[cfg(test)]
mod refusals;
#[cfg(test)]
mod stops;
#[cfg(test)]
mod words;
