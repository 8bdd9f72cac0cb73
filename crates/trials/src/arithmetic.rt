// Results, faults and addresses: the plain machine and the core under each scheme agree on them.
use crate::bench::{SETTING, agreed};
use isa::fault::{Cause, Fault};
use std::test::Fail;

// An instruction that sets R3, the words of R1 and R2 before it, and the word or the fault that it comes to.
const SUMS: [(u32, u32, u32, Result<u32, Fault>); 23] = [
    // set
    (0x1300_ffff, 0, 0, Ok(65535)),
    // add
    (0x2312_0000, 0xffff_ffff, 1, Ok(0)),
    (0x2312_0000, 0x8000_0000, 0x8000_0001, Ok(1)),
    // subtract
    (0x3312_0000, 0, 1, Ok(0xffff_ffff)),
    (0x3312_0000, 5, 3, Ok(2)),
    // exclusive or
    (0x4312_0000, 0xff00_ff00, 0x0ff0_0ff0, Ok(0xf0f0_f0f0)),
    // multiply
    (0x5312_0000, 0x0001_0001, 0x0001_0000, Ok(0x0001_0000)),
    (0x5312_0000, 0xffff_ffff, 0xffff_ffff, Ok(1)),
    // divide
    (0x6312_0000, 0xffff_ffff, 2, Ok(0x7fff_ffff)),
    (0x6312_0000, 7, 8, Ok(0)),
    (0x6312_0000, 7, 0, Err(Fault::DivideByZero)),
    (0x6312_0000, 0, 0, Err(Fault::DivideByZero)),
    // checked add
    (0x7312_0000, 0x7fff_ffff, 0, Ok(0x7fff_ffff)),
    (0x7312_0000, 0x7fff_ffff, 1, Err(Fault::Overflow)),
    (0x7312_0000, 1, 0x7fff_ffff, Err(Fault::Overflow)),
    (0x7312_0000, 0x8000_0000, 0xffff_ffff, Err(Fault::Overflow)),
    (0x7312_0000, 0x8000_0000, 0x8000_0000, Err(Fault::Overflow)),
    (0x7312_0000, 0xffff_ffff, 0xffff_ffff, Ok(0xffff_fffe)),
    (0x7312_0000, 0x8000_0000, 0x7fff_ffff, Ok(0xffff_ffff)),
    (0x7312_0000, 0xffff_ffff, 1, Ok(0)),
    // illegal words, and a stop
    (0x6312_0001, 7, 1, Err(Fault::Illegal)),
    (0xc000_0000, 7, 1, Err(Fault::Illegal)),
    (0x0000_0000, 7, 1, Err(Fault::Stop)),
];

// Sums wrap at 2^32, and each fault stops the run at its instruction, which leaves R3 as it was.
#[test]
fn results_and_faults(rt: HostRuntime) -> Result<(), Fail> {
    for (word, x, y, comes_to) in SUMS {
        // load R1 from word 0, load R2 from word 1, the sum, stop
        let program = [0x8100_0000, 0x8200_0001, word, 0];
        let end = agreed(&rt, SETTING, &program, [x, y, 0, 0])?;
        let (cause, counter, left) = match comes_to {
            Ok(result) => (Fault::Stop, 3, result),
            Err(fault) => (fault, 2, 0),
        };
        let words = (end.registers[1], end.registers[2], end.registers[3]);
        let stop = (end.cause, end.counter, words);
        assert_eq!(rt;
            stop,
            (Some(Cause::Fault(cause)), counter, (x, y, left)),
            "{}",
            word
        );
    }
    Ok(())
}

// Past the last word, or where a branch goes there, is a fault; a branch that is not taken goes on.
#[test]
fn past_the_end(rt: HostRuntime) -> Result<(), Fail> {
    // set R1 7; a branch; set R2 9
    let past = Some(Cause::Fault(Fault::PastEnd));
    for (branch, counter, count, word) in [
        (0xa001_0009, 3, 3, 9),
        (0xb001_0009, 9, 2, 0),
        (0xa011_ffff, 65535, 2, 0),
        (0xb011_ffff, 3, 3, 9),
        (0xb001_0003, 3, 2, 0),
    ] {
        let end = agreed(&rt, SETTING, &[0x1100_0007, branch, 0x1200_0009], [0; 4])?;
        let stop = (end.cause, end.counter, end.count, end.registers[2]);
        assert_eq!(rt; stop, (past, counter, count, word), "{}", branch);
    }
    Ok(())
}

// An instruction that sets R1, a load to R2 or a store of R5 by it, why the run stops, and what R2 and the data words
// then are.
const ACCESSES: [(u32, u32, Fault, u32, [u32; 4]); 10] = [
    // address 3, by the register and by n; address 4
    (0x1100_0003, 0x8210_0000, Fault::Stop, 40, [10, 20, 30, 40]),
    (0x1100_0001, 0x8210_0002, Fault::Stop, 40, [10, 20, 30, 40]),
    (
        0x1100_0004,
        0x8210_0000,
        Fault::Address,
        0,
        [10, 20, 30, 40],
    ),
    (
        0x1100_0001,
        0x8210_0003,
        Fault::Address,
        0,
        [10, 20, 30, 40],
    ),
    (0x1100_0003, 0x9015_0000, Fault::Stop, 0, [10, 20, 30, 99]),
    (
        0x1100_0004,
        0x9015_0000,
        Fault::Address,
        0,
        [10, 20, 30, 40],
    ),
    // R1 is 0 - 1, so that n = 1 reaches word 0, and n = 0 none
    (0x3104_0000, 0x8210_0001, Fault::Stop, 10, [10, 20, 30, 40]),
    (
        0x3104_0000,
        0x8210_0000,
        Fault::Address,
        0,
        [10, 20, 30, 40],
    ),
    (0x3104_0000, 0x9015_0001, Fault::Stop, 0, [99, 20, 30, 40]),
    (
        0x3104_0000,
        0x9015_0000,
        Fault::Address,
        0,
        [10, 20, 30, 40],
    ),
];

// Addresses count modulo 2^32, and one below the number of data words passes.
#[test]
fn addresses(rt: HostRuntime) -> Result<(), Fail> {
    for (base, word, cause, loaded, data) in ACCESSES {
        // set R4 1, set R5 99, the base, the access, stop
        let program = [0x1400_0001, 0x1500_0063, base, word, 0];
        let end = agreed(&rt, SETTING, &program, [10, 20, 30, 40])?;
        let stop = (end.cause, end.registers[2], end.data);
        assert_eq!(rt; stop, (Some(Cause::Fault(cause)), loaded, data), "{}", word);
    }
    Ok(())
}

// The faults and the causes have these numbers.
#[test]
fn numbers(rt: HostRuntime) {
    for (fault, number) in [
        (Fault::DivideByZero, 1),
        (Fault::Overflow, 2),
        (Fault::Address, 3),
        (Fault::Illegal, 4),
        (Fault::PastEnd, 5),
        (Fault::Stop, 6),
    ] {
        assert_eq!(rt;
            (u32::from(fault), u32::from(Cause::Fault(fault))),
            (number, number)
        );
    }
    assert_eq!(rt; (u32::from(Cause::Request), u32::from(Cause::Cut)), (7, 8));
}
