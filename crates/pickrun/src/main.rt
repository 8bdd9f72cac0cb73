// Reads a job on standard input, runs it on the core, and prints what each cycle did and how the run ended.
#![tactic(auto)]

use jobrun::pick::pickrun;
use std::io;
use std::io::Read;

// Five lines as in the other programs: a shared function would bring input and output into a library that has none.
fn main(rt: HostRuntime) -> io::Result<()> {
    let mut bytes = Vec::new(rt.alloc());
    let _many = rt.stdin().read_to_end(&mut bytes)?;
    let text = pickrun(rt.alloc(), bytes.as_slice())?;
    print!(rt; "{text}")
}
