//! The errors of calls on a desk, a committer or a session.

ghost use Rattle.std.specs.Prelude.{◌≡◌};
ghost use Rattle.cred_desk.specs.{Refusals.refusal_number, Refusals.refusal_word, declared.error.DeskError.TheVariants.Memory as OutOfMemory};

use std::alloc::AllocError;
use thiserror::Error;

/// The reason why a call returns no desk, committer or session, or doesn't do what it is asked.
#[derive(Clone, Copy, Debug, PartialEq, Eq, Error)]
pub enum DeskError {
    /// No memory.
    #[error("out of memory")]
    Memory,
    /// Too few or too many sessions.
    #[error("the number of sessions is outside its range")]
    Sessions,
    /// Missing sessions.
    #[error("sessions of the desk are missing")]
    Session,
    /// No book to read.
    #[error("the reader got no place, or there is no book to read")]
    Reader,
    /// Unknown name.
    #[error("the name isn't there")]
    NoAccount,
    /// A book older than what the session knows. This never occurs.
    #[error("the book that was read is older than what is known")]
    Older,
}

impl From<AllocError> for DeskError {
    ghost from_gives = { λ _ e. e ≡ OutOfMemory };

    fn from(_error: AllocError) -> Self {
        DeskError::Memory
    }
}

impl DeskError {
    /// Returns the number of the refusal, from 1 to 6.
    pub fn number(self) -> u8
        ensures { result ≡ refusal_number self }
    {
        match self {
            DeskError::Memory => 1,
            DeskError::Sessions => 2,
            DeskError::Session => 3,
            DeskError::Reader => 4,
            DeskError::NoAccount => 5,
            DeskError::Older => 6,
        }
    }

    /// Returns the name of the refusal in lower case, such as `noaccount`.
    pub fn word(self) -> &'static str
        ensures { result.now ≡ refusal_word self }
    {
        match self {
            DeskError::Memory => "memory",
            DeskError::Sessions => "sessions",
            DeskError::Session => "session",
            DeskError::Reader => "reader",
            DeskError::NoAccount => "noaccount",
            DeskError::Older => "older",
        }
    }
}
