//! Faults that end a script before its last line is answered.

ghost use Rattle.std.specs.Prelude.{◌≡◌};
ghost use Rattle.cred_cli.specs.{Faults.error_number, Faults.error_word, declared.fault.ScriptFault.TheVariants.Memory as OutOfMemory};

use std::alloc::AllocError;
use thiserror::Error;

/// The fault that ended a script.
#[derive(Clone, Copy, Debug, PartialEq, Eq, Error)]
pub enum ScriptFault {
    /// The reader failed.
    #[error("the reader failed")]
    Read,
    /// The writer failed, or took no byte.
    #[error("the writer failed, or took no byte")]
    Write,
    /// Memory ran out.
    #[error("out of memory")]
    Memory,
    /// The script has over 1048576 bytes.
    #[error("the script has over 1048576 bytes")]
    TooLong,
}

impl From<AllocError> for ScriptFault {
    ghost from_gives = { λ _ e. e ≡ OutOfMemory };

    fn from(_error: AllocError) -> Self {
        ScriptFault::Memory
    }
}

impl ScriptFault {
    /// Returns the number of the error, from 1 to 4.
    pub fn number(self) -> u8
        ensures { result ≡ error_number self }
    {
        match self {
            ScriptFault::Read => 1,
            ScriptFault::Write => 2,
            ScriptFault::Memory => 3,
            ScriptFault::TooLong => 4,
        }
    }

    /// Returns the name of the error in lower case, as `toolong`.
    pub fn word(self) -> &'static str
        ensures { result.now ≡ error_word self }
    {
        match self {
            ScriptFault::Read => "read",
            ScriptFault::Write => "write",
            ScriptFault::Memory => "memory",
            ScriptFault::TooLong => "toolong",
        }
    }
}
