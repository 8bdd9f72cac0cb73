// Plays jobs made from fixed numbers on the core and on the second model, and prints what was compared and how much of
// it differs.
#![tactic(auto)]

mod covered;
mod findings;
mod jobs;
mod play;
mod seed;

use findings::Findings;
use future::FutureFile;
use history::HistoryBuffer;
use play::{play, play_stretch};
use reorder::{BypassBuffer, ReorderBuffer};
use std::alloc::{AllocError, Global};
use std::io;

// Each is played under every scheme.
const JOBS: u32 = 1000;

// Plays something under each of the four schemes, by number.
macro_rules! under_each_scheme {
    ($play:ident($($argument:expr),*)) => {
        $play::<ReorderBuffer>($($argument),*)?;
        $play::<BypassBuffer>($($argument),*)?;
        $play::<HistoryBuffer>($($argument),*)?;
        $play::<FutureFile>($($argument),*)?;
    };
}

fn play_all(alloc: Global) -> Result<Findings, AllocError> {
    let mut findings = Findings::new();
    for number in 0..JOBS {
        under_each_scheme!(play(alloc, number, &mut findings));
    }
    under_each_scheme!(play_stretch(alloc, &mut findings));
    Ok(findings)
}

fn main(rt: HostRuntime) -> io::Result<()> {
    let findings = play_all(rt.alloc())?;
    print!(rt; "{findings}")
}
