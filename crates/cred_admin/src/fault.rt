//! Faults that end a command without its answer.

ghost use Rattle.std.specs.Prelude.{◌≡◌};
ghost use Rattle.cred_admin.specs.{Statuses.fault_of_book, Statuses.status_of_fault, declared.fault.Fault.TheVariants.Memory as OutOfMemory};

use crate::status::Status;
use cred_book::BookError;
use cred_phc::TagError;
use std::alloc::AllocError;
use thiserror::Error;

/// The fault that ended a command.
#[derive(Clone, Copy, Debug, PartialEq, Eq, Error)]
pub enum Fault {
    #[error("reading failed")]
    Read,
    #[error("writing failed")]
    Write,
    #[error("out of memory")]
    Memory,
    #[error("the password has over 256 bytes")]
    Password,
    #[error("no password on standard input")]
    NoPassword,
    #[error("the new password is missing")]
    NoNewPassword,
    #[error("the password is empty")]
    Empty,
    #[error("the book has no room for another account")]
    Full,
}

impl Fault {
    /// Returns the exit status of the fault.
    pub fn status(&self) -> Status
        ensures { result ≡ status_of_fault self.now }
    {
        match self {
            Fault::Read | Fault::Write => Status::Io,
            Fault::Memory => Status::Memory,
            Fault::Password
            | Fault::NoPassword
            | Fault::NoNewPassword
            | Fault::Empty
            | Fault::Full => Status::Data,
        }
    }
}

impl From<AllocError> for Fault {
    ghost from_gives = { λ _ e. e ≡ OutOfMemory };

    fn from(_error: AllocError) -> Self {
        Fault::Memory
    }
}

impl From<TagError> for Fault {
    ghost from_gives = { λ _ e. e ≡ OutOfMemory };

    fn from(_error: TagError) -> Self {
        Fault::Memory
    }
}

/// Commands ask a book only for possible changes, so the book refuses a change only for want of
/// room or memory.
impl From<BookError> for Fault {
    ghost from_gives = { λ why e. e ≡ fault_of_book why };

    fn from(why: BookError) -> Self {
        match why {
            BookError::Full => Fault::Full,
            _ => Fault::Memory,
        }
    }
}
