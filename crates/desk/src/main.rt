// Reads a script on standard input, makes its calls on a core, and prints their answers.
#![tactic(auto)]

use deskrun::desk::desk;
use std::io;
use std::io::Read;

// Five lines as in the other programs: a shared function would bring input and output into a library that has none.
fn main(rt: HostRuntime) -> io::Result<()> {
    let mut input = Vec::new(rt.alloc());
    let _many = rt.stdin().read_to_end(&mut input)?;
    let text = desk(rt.alloc(), input.as_slice())?;
    print!(rt; "{text}")
}
