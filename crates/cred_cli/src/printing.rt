//! The output of the program: one line, or the cause of its end on `faults`.

ghost use Rattle.std.specs.Prelude.{◌≡◌};
ghost use Rattle.cred_cli.specs.{Commands.Prints, Statuses.status_number, Statuses.status_of, Watched.Basis, Watched.TakesAsContracted, Watched.writing_on};

use crate::answer::write_whole;
use crate::exit_status::ExitStatus;
use crate::fault::ScriptFault;
use crate::refusal::Refusal;
use crate::watched::Watched;
use std::io::Write;

/// Writes the whole line, and returns the status `good`.
pub(crate) fn print<W: Write, F: Write>(
    writer: &mut Watched<W>,
    faults: &mut F,
    line: &[u8],
    good: ExitStatus,
) -> ExitStatus
    ensures prints { (basis : Basis) → Prints line.now good
        (writing_on basis W.contents writer.old writer.new) (status_number result) }
    ensures takes { TakesAsContracted W.contents writer.old writer.new }
{
    match write_whole(writer, line) {
        Ok(()) => good,
        Err(fault) => failed(faults, fault),
    }
}

/// Writes the fault to `faults`, and returns its status.
pub(crate) fn failed<F: Write>(faults: &mut F, fault: ScriptFault) -> ExitStatus
    ensures { result ≡ status_of fault }
{
    let _ = writeln!(faults, "credbook: {}", fault.word());
    match fault {
        ScriptFault::Read | ScriptFault::Write | ScriptFault::TooLong => ExitStatus::Failed,
        ScriptFault::Memory => ExitStatus::OutOfMemory,
    }
}

/// Writes to `faults` why a value is refused.
pub(crate) fn refused<F: Write>(faults: &mut F, why: Refusal) -> ExitStatus
    ensures { result ≡ ExitStatus.Refused }
{
    let _ = writeln!(faults, "credbook: {} {}", why.number(), why.word());
    ExitStatus::Refused
}
