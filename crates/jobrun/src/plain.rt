// A job run on the plain machine, and what `plainrun` prints of it.
ghost use Rattle.std.specs.Prelude.{◌≡◌, true, ◌++◌, is_ok, IfOk, string_bytes};
ghost use Rattle.isa.specs.Plain.{ran, at_zero};
ghost use Rattle.jobfile.specs.Held.{held};
ghost use Rattle.jobfile.specs.Lines.{numbered};
ghost use Rattle.jobrun.specs.Runs.{register_line, end_line, plain_lines, plain_by, plain_text, refused};

use isa::fault::Fault;
use isa::plain::PlainMachine;
use jobfile::job::read_job;
use jobfile::lines::{DeclinedLine, HexWord};
use jobfile::order::Job;
use pickcore::state::Core;
use reorder::BypassBuffer;
use std::alloc::{AllocError, Global};

// Appends the line of a register, if it is not zero.
fn push_register(text: &mut String, number: usize, word: u32) -> Result<(), AllocError>
    ensures { is_ok result ≡ true → string_bytes text.new ≡ string_bytes text.old ++ register_line number word }
{
    if word == 0 {
        return Ok(());
    }
    writeln!(text, "r{number} {}", HexWord(word))
}

// Appends the lines of the registers that are not zero.
fn push_registers(text: &mut String, registers: &[u32]) -> Result<(), AllocError>
    ensures { is_ok result ≡ true → string_bytes text.new ≡ string_bytes text.old ++ numbered register_line 0 registers.now }
{
    for (number, word) in registers.iter().enumerate() {
        push_register(text, number, *word)?;
    }
    Ok(())
}

// Appends where the plain machine stands, or the fault of its next step and where.
fn push_end(text: &mut String, fault: Result<(), Fault>, counter: usize) -> Result<(), AllocError>
    ensures { is_ok result ≡ true → string_bytes text.new ≡ string_bytes text.old ++ end_line fault counter }
{
    match fault {
        Ok(()) => writeln!(text, "at {counter}"),
        Err(fault) => {
            let cause = u32::from(fault);
            writeln!(text, "fault {cause} {counter}")
        }
    }
}

// What the plain machine does with a job: at most as many steps as it has cycles, where it stands then, and its
// registers.
fn run_plain(
    alloc: Global,
    program: &[u32],
    data: &mut [u32],
    most: u32,
) -> Result<String, AllocError>
    ensures { IfOk result (λ s. string_bytes s ≡ plain_lines (ran program.now most (at_zero «data».old))) }
{
    let mut machine = PlainMachine::new();
    let (steps, fault) = machine.run(program, data, most);
    let mut text = format!(in alloc; "steps {steps}\n")?;
    push_end(&mut text, fault, machine.counter)?;
    push_registers(&mut text, &machine.registers)?;
    Ok(text)
}

// Runs a job that a core would load on the plain machine.
fn plain_job(alloc: Global, job: Job) -> Result<String, AllocError>
    ensures { IfOk result (λ s. string_bytes s ≡ plain_by (held job) (refused (held job))) }
{
    let setup = job.setup();
    let Job {
        setting: _,
        program,
        mut words,
        cycles,
    } = job;
    let mut core: Core<BypassBuffer> = Core::new();
    let loaded = core.load(setup);
    if let Err(refusal) = loaded {
        return DeclinedLine(refusal).to_string(alloc);
    }
    run_plain(alloc, program.as_slice(), words.as_mut_slice(), cycles)
}

// What `plainrun` prints for its input: `input` and `declined` as `pickrun` does, or the steps that the plain machine
// took, where it stands or its fault, and the registers that are not zero.
pub fn plainrun(alloc: Global, bytes: &[u8]) -> Result<String, AllocError>
    ensures { IfOk result (λ s. string_bytes s ≡ plain_text bytes.now) }
{
    match read_job(alloc, bytes)? {
        Some(job) => plain_job(alloc, job),
        None => String::from_str(alloc, "input\n"),
    }
}
