// Requests, cuts, amends and images.
use crate::bench::{BLANK, EXAMPLE, SETTING, started, stopped, under_each_scheme};
use isa::fault::{Cause, Fault};
use isa::refusal::Refusal;
use pickcore::record::Hold;
use pickcore::state::Core;
use recovery::Recovery;
use std::process::Abort;
use std::test::Fail;

// A cut takes back what is in flight; the mark of a request before it still stands at the next resume.
fn cut_in_flight<S: Recovery + Drop>(rt: &impl Abort) -> Result<(), Fail> {
    let mut core: Core<S> = started(SETTING, &EXAMPLE, &[])?;
    let _ = core.step(&EXAMPLE, &mut []);
    assert_eq!(rt; core.request(), Ok(()));
    assert_eq!(rt; core.cut(), Ok(()));
    assert_eq!(rt; core.report(), stopped(Cause::Cut, 0, 0));
    assert_eq!(rt; core.cut(), Err(Refusal::Stopped));
    assert_eq!(rt; core.request(), Err(Refusal::Stopped));
    assert_eq!(rt; core.report(), stopped(Cause::Cut, 0, 0));
    core.resume(0)?;
    let _ = core.step(&EXAMPLE, &mut []);
    assert_eq!(rt; core.report(), stopped(Cause::Request, 0, 0));
    Ok(())
}

#[test]
fn cuts(rt: HostRuntime) -> Result<(), Fail> {
    under_each_scheme!(cut_in_flight(&rt)?);
    Ok(())
}

// A request holds the next instruction until nothing is in flight, and is then no longer marked.
fn request_in_flight<S: Recovery + Drop>(rt: &impl Abort) -> Result<(), Fail> {
    let mut core: Core<S> = started(SETTING, &EXAMPLE, &[])?;
    let mut records = [BLANK; 8];
    let _ = core.step(&EXAMPLE, &mut []);
    core.request()?;
    assert_eq!(rt; core.run(&EXAMPLE, &mut [], &mut records), Ok(2));
    assert_eq!(rt; records[0].hold, Some(Hold::Request));
    assert_eq!(rt; core.report(), stopped(Cause::Request, 1, 1));
    core.resume(1)?;
    let _ = core.run(&EXAMPLE, &mut [], &mut records);
    assert_eq!(rt;
        core.report(),
        stopped(Cause::Fault(Fault::DivideByZero), 1, 0)
    );
    Ok(())
}

#[test]
fn requests(rt: HostRuntime) -> Result<(), Fail> {
    under_each_scheme!(request_in_flight(&rt)?);
    Ok(())
}

// A divide by zero is mended by an amend and resumed at the faulting instruction.
fn mended<S: Recovery + Drop>(rt: &impl Abort) -> Result<(), Fail> {
    let mut core: Core<S> = started(SETTING, &EXAMPLE, &[])?;
    assert_eq!(rt; core.amend(2, 7), Err(Refusal::Running));
    let _ = core.run(&EXAMPLE, &mut [], &mut [BLANK; 32]);
    assert_eq!(rt;
        core.report(),
        stopped(Cause::Fault(Fault::DivideByZero), 1, 1)
    );
    assert_eq!(rt; core.amend(16, 7), Err(Refusal::Register));
    assert_eq!(rt; core.amend(2, 7), Ok(()));
    core.resume(1)?;
    let _ = core.run(&EXAMPLE, &mut [], &mut [BLANK; 32]);
    assert_eq!(rt; core.report(), stopped(Cause::Fault(Fault::Stop), 3, 2));
    let (registers, number) = core.registers();
    assert_eq!(rt;
        (registers[1], registers[2], registers[3], number),
        (14, 7, 1, 0)
    );
    Ok(())
}

#[test]
fn amends(rt: HostRuntime) -> Result<(), Fail> {
    under_each_scheme!(mended(&rt)?);
    Ok(())
}

// A core has an image once it is stopped: the words that hold the example's R1, counter, cause and count, and the end
// word. A refused call leaves the buffer, and an accepted one the word behind the image.
fn imaged<S: Recovery + Drop>(rt: &impl Abort) -> Result<(), Fail> {
    let mut core: Core<S> = started(SETTING, &EXAMPLE, &[])?;
    let mut buffer = [9; 37];
    assert_eq!(rt; core.write_image(&mut buffer), Err(Refusal::Running));
    assert_eq!(rt; buffer, [9; 37]);
    let mut records = [BLANK; 10];
    assert_eq!(rt; core.run(&EXAMPLE, &mut [], &mut records), Ok(8));
    let mut short = [9; 35];
    assert_eq!(rt; core.write_image(&mut short), Err(Refusal::Buffer));
    assert_eq!(rt; short, [9; 35]);
    assert_eq!(rt; core.write_image(&mut buffer), Ok(()));
    assert_eq!(rt;
        (buffer[2], buffer[32], buffer[33], buffer[36]),
        (0x1100_0007, 0x3000_0001, 0x4000_0001, 9)
    );
    Ok(())
}

#[test]
fn images(rt: HostRuntime) -> Result<(), Fail> {
    under_each_scheme!(imaged(&rt)?);
    Ok(())
}
