// The lines of a job that the cradle moves.
ghost use Rattle.std.specs.Prelude.{◌≡◌, true, ◌++◌, is_ok, string_bytes, codes};
ghost use Rattle.printing.specs.Lines.{device_name, refused_line, stop_line, count_line, plain_line};

use crate::device::Device;
use crate::parts::Declined;
use isa::refusal::Refusal;
use jobfile::lines::Stop;
use pickcore::record::Report;
use std::alloc::AllocError;

// Appends that a core of the cradle declined its load.
pub fn push_device_declined(
    text: &mut String,
    device: Device,
    refusal: Refusal,
) -> Result<(), AllocError>
    ensures { is_ok result ≡ true → string_bytes text.new ≡ string_bytes text.old ++ refused_line (device_name device) refusal }
{
    writeln!(text, "{device} {}", Declined(refusal))
}

// Appends why, where and after how many instructions and cycles a core of the cradle stopped.
pub fn push_stop(
    text: &mut String,
    device: Device,
    report: Report,
    cycles: u64,
) -> Result<(), AllocError>
    ensures { is_ok result ≡ true → string_bytes text.new ≡ string_bytes text.old ++ stop_line device report cycles }
{
    writeln!(text, "{device} stop {} cycles {cycles}", Stop(report))
}

// Appends the instructions that both cores ran.
pub fn push_instructions(text: &mut String, total: u64) -> Result<(), AllocError>
    ensures { is_ok result ≡ true → string_bytes text.new ≡ string_bytes text.old ++ count_line (codes "instructions") total }
{
    writeln!(text, "instructions {total}")
}

// Appends the instructions that the plain machine ran, and whether it agrees.
pub fn push_plain(text: &mut String, total: u64, agrees: bool) -> Result<(), AllocError>
    ensures { is_ok result ≡ true → string_bytes text.new ≡ string_bytes text.old ++ plain_line total agrees }
{
    let verdict = if agrees { "agrees" } else { "differs" };
    writeln!(text, "plain {total} {verdict}")
}
