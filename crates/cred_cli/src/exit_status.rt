//! The exit status of the program.

ghost use Rattle.std.specs.Prelude.{◌≡◌};
ghost use Rattle.cred_cli.specs.Statuses.{status_number};

/// The end of the program.
#[derive(Clone, Copy)]
pub(crate) enum ExitStatus {
    /// The program did everything, or the checked record is the password's.
    Done,
    /// The words, or a setting, a record or a password among them, were refused.
    Refused,
    /// A read or a write failed, or a script was too long.
    Failed,
    /// Memory ran out.
    OutOfMemory,
    /// The checked record isn't the password's.
    No,
}

impl ExitStatus {
    /// Returns the exit status: 0 to 4, in their order.
    pub(crate) fn number(self) -> u8
        ensures { result ≡ status_number self }
    {
        match self {
            ExitStatus::Done => 0,
            ExitStatus::Refused => 1,
            ExitStatus::Failed => 2,
            ExitStatus::OutOfMemory => 3,
            ExitStatus::No => 4,
        }
    }
}
