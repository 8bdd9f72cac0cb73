//! A processor core as a calendar: an instruction in flight knows its result from the cycle in which it issued, and the
//! number of the cycle from which on that result counts.
#![tactic(auto)]

mod calls;
mod flight;
mod image;
mod instruction;
mod reasons;
mod simple;

pub use calls::{Delays, Record, Report, Second, Setting};
pub use reasons::{Cause, Fault, Hold, NoCause, Refusal};
pub use simple::Simple;

#[cfg(test)]
mod tests {
    use super::*;
    use std::test::Fail;

    // A set, a divide by zero, an add behind it and a stop.
    #[test]
    fn fault_behind_which_an_add_is_done(rt: HostRuntime) -> Result<(), Fail> {
        let program = [0x1100_0007, 0x6312_0000, 0x2111_0000, 0];
        let blank = Record::default();
        let issues = |retired, counter| Record {
            retired,
            issued: Some(counter),
            ..Record::default()
        };
        let holds = |hold| Record {
            hold: Some(hold),
            ..Record::default()
        };
        let cause = Some(Cause::Fault(Fault::DivideByZero));
        let mut records = [blank; 10];
        let mut core = Second::new(2);
        core.load(Setting {
            delays: Delays {
                short: 2,
                multiply: 4,
                divide: 5,
                memory: 3,
            },
            capacity: 4,
            program_length: 4,
            data_length: 0,
        })?;
        core.resume(0)?;
        assert_eq!(rt; core.run(&program, &mut [], &mut records)?, 8);
        let expected = [
            issues(None, 0),
            holds(Hold::Source),
            issues(Some(0), 1),
            issues(None, 2),
            holds(Hold::Flight),
            holds(Hold::Flight),
            holds(Hold::Flight),
            Record {
                cause,
                ..Record::default()
            },
            blank,
            blank,
        ];
        assert_eq!(rt; records, expected);
        assert_eq!(rt;
            core.report()?,
            Report {
                cause,
                counter: 1,
                count: 1,
            }
        );
        let mut image = [0; 36];
        core.write_image(&mut image)?;
        assert!(rt;
            image[2] == 0x1100_0007 && image[32] == 0x3000_0001 && image[33] == 0x4000_0001
        );
        let mut other = Second::new(1);
        assert_eq!(rt; other.take_up(&image), Ok(()));
        assert_eq!(rt; other.registers()?[1], 7);
        Ok(())
    }
}
