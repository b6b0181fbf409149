//! The errors of calls on a book.

ghost use Rattle.std.specs.Prelude.{◌≡◌};
ghost use Rattle.cred_book.specs.{Errors.error_number, Errors.error_word, declared.error.BookError.TheVariants.Memory as OutOfMemory};

use std::alloc::AllocError;
use thiserror::Error;

/// The reason why bytes are no name, or why a book refuses a call.
#[derive(Clone, Copy, Debug, PartialEq, Eq, Error)]
pub enum BookError {
    /// The book has the name already.
    #[error("the name is there already")]
    Exists,
    /// The book has 4096 names.
    #[error("the book has 4096 names")]
    Full,
    /// The bytes are not a name.
    #[error("the bytes are not a name")]
    Name,
    /// Out of memory.
    #[error("out of memory")]
    Memory,
    /// The book doesn't have the name.
    #[error("the name is not there")]
    NoAccount,
}

impl BookError {
    /// Returns the number of the error, from 1 to 5.
    pub fn number(self) -> u8
        ensures { result ≡ error_number self }
    {
        match self {
            BookError::Exists => 1,
            BookError::Full => 2,
            BookError::Name => 3,
            BookError::Memory => 4,
            BookError::NoAccount => 5,
        }
    }

    /// Returns the name of the error in lower case, such as `noaccount`.
    pub fn word(self) -> &'static str
        ensures { result.now ≡ error_word self }
    {
        match self {
            BookError::Exists => "exists",
            BookError::Full => "full",
            BookError::Name => "name",
            BookError::Memory => "memory",
            BookError::NoAccount => "noaccount",
        }
    }
}

impl From<AllocError> for BookError {
    ghost from_gives = { λ _ e. e ≡ OutOfMemory };

    fn from(_error: AllocError) -> Self {
        BookError::Memory
    }
}
