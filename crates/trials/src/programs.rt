// What pickrun and plainrun print for inputs of every sort.
use jobfile::bytes::push_words;
use jobrun::pick::pickrun;
use jobrun::plain::plainrun;
use std::alloc::{AllocError, Global};
use std::process::Abort;
use std::test::Fail;

// The bytes of some words, and one byte more where asked.
fn input(alloc: Global, words: &[u32], odd: bool) -> Result<Vec<u8>, AllocError> {
    let mut bytes = Vec::new(alloc);
    push_words(&mut bytes, words)?;
    if odd {
        bytes.push(0)?;
    }
    Ok(bytes)
}

fn prints(
    rt: &impl Abort,
    alloc: Global,
    words: &[u32],
    odd: bool,
    text: &str,
) -> Result<(), Fail> {
    let bytes = input(alloc, words, odd)?;
    assert!(rt; pickrun(alloc, bytes.as_slice())?.as_str() == text);
    assert!(rt; plainrun(alloc, bytes.as_slice())?.as_str() == text);
    Ok(())
}

// Where the input holds no job, both say so and no more.
#[test]
fn inputs_without_a_job(rt: HostRuntime) -> Result<(), Fail> {
    let alloc = rt.alloc();
    prints(&rt, alloc, &[], false, "input\n")?;
    prints(&rt, alloc, &[], true, "input\n")?;
    prints(&rt, alloc, &[2, 1, 1, 1, 1, 1, 1, 0, 1], false, "input\n")?;
    prints(&rt, alloc, &[2, 1, 1, 1, 1, 1, 1, 0, 1, 0], true, "input\n")?;
    for header in [
        // no such scheme
        [0, 1, 1, 1, 1, 1, 1, 0, 1, 0],
        [5, 1, 1, 1, 1, 1, 1, 0, 1, 0],
        // no cycles, too many
        [2, 1, 1, 1, 1, 1, 1, 0, 0, 0],
        [2, 1, 1, 1, 1, 1, 1, 0, 1025, 0],
        // lengths that are not the input's, some near 2^32
        [2, 1, 1, 1, 1, 1, 2, 0, 1, 0],
        [2, 1, 1, 1, 1, 1, 1, 1, 1, 0],
        [2, 1, 1, 1, 1, 1, 0xffff_ffff, 2, 1, 0],
        [2, 1, 1, 1, 1, 1, 0x4000_0001, 0, 1, 0],
        [2, 1, 1, 1, 1, 1, 0x8000_0000, 0x8000_0001, 1, 0],
    ] {
        prints(&rt, alloc, &header, false, "input\n")?;
    }
    Ok(())
}

// Where load declines the job, both give its number.
#[test]
fn jobs_that_are_declined(rt: HostRuntime) -> Result<(), Fail> {
    let alloc = rt.alloc();
    prints(
        &rt,
        alloc,
        &[2, 1, 1, 0, 1, 0, 1, 0, 1, 0],
        false,
        "declined 1\n",
    )?;
    prints(
        &rt,
        alloc,
        &[2, 1, 1, 1, 1, 17, 1, 0, 1, 0],
        false,
        "declined 2\n",
    )?;
    prints(
        &rt,
        alloc,
        &[2, 1, 1, 1, 1, 1, 0, 0, 1],
        false,
        "declined 3\n",
    )
}

// A core that is not done after its cycles is running, and the plain machine stands somewhere.
#[test]
fn jobs_that_go_on(rt: HostRuntime) -> Result<(), Fail> {
    let alloc = rt.alloc();
    // branch to itself
    let bytes = input(alloc, &[1, 1, 1, 1, 1, 1, 1, 0, 2, 0xa000_0000], false)?;
    assert!(rt; pickrun(alloc, bytes.as_slice())?.as_str() == "1 - 0 0\n2 0 0 0\nrunning\n");
    assert!(rt; plainrun(alloc, bytes.as_slice())?.as_str() == "steps 2\nat 0\n");
    Ok(())
}
