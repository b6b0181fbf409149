//! The end of a command.

ghost use Rattle.std.specs.Prelude.{◌≡◌};
ghost use Rattle.cred_cli.specs.Watched.{Basis, writing_on};
ghost use Rattle.cred_keep.specs.BookCommands.{EndsImport, command_end, status_of_command_result, status_of_failure};

use crate::import::Imported;
use cred_admin::{Fault, ImportFault, Status, tell};
use cred_cli::Watched;
use std::io::Write;

/// The result of a command.
#[derive(Debug, Drop)]
pub enum CommandResult {
    /// A command on one account, or a list, ended with this status.
    Answered(Status),
    /// An import made these changes, or would make them.
    Imported(Imported),
}

impl CommandResult {
    /// Returns the exit status of the result.
    pub fn status(&self) -> Status
        ensures { result ≡ status_of_command_result self.now }
    {
        match self {
            CommandResult::Answered(status) => *status,
            CommandResult::Imported(_) => Status::Done,
        }
    }
}

/// The fault of a command that failed.
#[derive(Debug, Drop)]
pub enum Failure {
    /// A command on one account, a list or an export met this fault.
    Command(Fault),
    /// An import met this fault.
    Import(ImportFault),
    /// The database failed. The book's `lost` is the change that was under way.
    Database,
}

impl Failure {
    /// Returns the exit status of the fault.
    pub fn status(&self) -> Status
        ensures { result ≡ status_of_failure self.now }
    {
        match self {
            Failure::Command(fault) => fault.status(),
            Failure::Import(ImportFault::Read) => Status::Io,
            Failure::Import(ImportFault::Memory) => Status::Memory,
            Failure::Import(ImportFault::Full | ImportFault::Lines(_)) => Status::Data,
            Failure::Database => Status::Database,
        }
    }
}

/// Turns an end in `cred_admin` into that of a command.
pub(crate) fn command_end(ended: Result<Status, Fault>) -> Result<CommandResult, Failure>
    ensures { result ≡ command_end ended }
{
    match ended {
        Ok(status) => Ok(CommandResult::Answered(status)),
        Err(fault) => Err(Failure::Command(fault)),
    }
}

/// Writes the counts of an import, and thus ends the command.
pub(crate) fn import_end<W: Write>(
    ended: Result<Imported, ImportFault>,
    writer: &mut Watched<W>,
) -> Result<CommandResult, Failure>
    ensures { (basis : Basis) → EndsImport ended
        (writing_on basis W.contents writer.old writer.new) result }
{
    match ended {
        Ok(made) => match tell(&made.text, Status::Done, writer) {
            Ok(_) => Ok(CommandResult::Imported(made)),
            Err(fault) => Err(Failure::Command(fault)),
        },
        Err(fault) => Err(Failure::Import(fault)),
    }
}
