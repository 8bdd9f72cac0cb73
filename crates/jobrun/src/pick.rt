// A job run on the core, and what `pickrun` prints of it.
ghost use Rattle.std.specs.Prelude.{◌≡◌, true, ◌++◌, is_ok, IfOk, string_bytes};
ghost use Rattle.jobrun.specs.Runs.{cycle_lines, last_line, PrintsBy, PrintsJob, Prints, refused};
ghost use Rattle.jobfile.specs.Held.{held};

use future::FutureFile;
use history::HistoryBuffer;
use isa::refusal::Refusal;
use jobfile::job::read_job;
use jobfile::lines::{CycleLine, DeclinedLine, StopLine};
use jobfile::order::Job;
use jobfile::scheme::Scheme;
use pickcore::record::{CycleRecord, Report};
use pickcore::state::Core;
use recovery::Recovery;
use reorder::{BypassBuffer, ReorderBuffer};
use std::alloc::{AllocError, Global};

// Appends the lines of some cycles, numbered from 1.
fn push_cycles(text: &mut String, records: &[CycleRecord]) -> Result<(), AllocError>
    ensures { is_ok result ≡ true → string_bytes text.new ≡ string_bytes text.old ++ cycle_lines records.now }
{
    for (i, cycle) in records.iter().enumerate() {
        let line = CycleLine {
            number: i + 1,
            cycle: *cycle,
        };
        write!(text, "{line}")?;
    }
    Ok(())
}

// Appends how the run ended.
fn push_last(text: &mut String, report: Result<Report, Refusal>) -> Result<(), AllocError>
    ensures { is_ok result ≡ true → string_bytes text.new ≡ string_bytes text.old ++ last_line report }
{
    match report {
        Ok(report) => write!(text, "{}", StopLine(report)),
        Err(_) => writeln!(text, "running"),
    }
}

// Runs a job's cycles on a core over one scheme, and tells what each did and how it ended.
fn run_on<S: Recovery + Drop>(alloc: Global, job: Job) -> Result<String, AllocError>
    ensures { IfOk result (λ s. PrintsBy S.MARK (held job) (refused (held job)) (string_bytes s)) }
{
    let setup = job.setup();
    let Job {
        setting: _,
        program,
        mut words,
        cycles,
    } = job;
    let program = program.as_slice();
    let data = words.as_mut_slice();
    let mut core: Core<S> = Core::new();
    let loaded = core.load(setup);
    if let Err(refusal) = loaded {
        return DeclinedLine(refusal).to_string(alloc);
    }
    let _ = core.resume(0);
    let mut records = vec![in alloc; CycleRecord::default(); cycles as usize]?;
    let Ok(done) = core.run(program, data, records.as_mut_slice()) else {
        unreachable()
    };
    let mut text = String::new(alloc);
    push_cycles(&mut text, &records[0..done])?;
    push_last(&mut text, core.report())?;
    Ok(text)
}

// Runs a job under its scheme.
// A match: each arm is another type, and a trait for what is run over any scheme would be longer than this and `deskrun`'s.
fn run_job(alloc: Global, job: Job) -> Result<String, AllocError>
    ensures { IfOk result (λ s. PrintsJob (held job) (string_bytes s)) }
{
    match job.setting.scheme {
        Scheme::ReorderBuffer => run_on::<ReorderBuffer>(alloc, job),
        Scheme::BypassBuffer => run_on::<BypassBuffer>(alloc, job),
        Scheme::HistoryBuffer => run_on::<HistoryBuffer>(alloc, job),
        Scheme::FutureFile => run_on::<FutureFile>(alloc, job),
    }
}

// What `pickrun` prints for its input: `input` where that holds no job, `declined` where the core does not load it, or
// one line for each cycle and how the run ended.
pub fn pickrun(alloc: Global, bytes: &[u8]) -> Result<String, AllocError>
    ensures { IfOk result (λ s. Prints bytes.now (string_bytes s)) }
{
    match read_job(alloc, bytes)? {
        Some(job) => run_job(alloc, job),
        None => String::from_str(alloc, "input\n"),
    }
}
