//! The errors of this crate's calls.

ghost use Rattle.std.specs.Prelude.{◌≡◌};
ghost use Rattle.cred_argon.specs.{Errors.error_number, Errors.error_word, declared.error.ArgonError.TheVariants.Memory as OutOfMemory};

use std::alloc::AllocError;
use thiserror::Error;

/// The reason why a call refused parameters or inputs, or that memory ran out.
#[derive(Clone, Copy, Debug, PartialEq, Eq, Error)]
pub enum ArgonError {
    /// The number of lanes isn't 1 to 255.
    #[error("the number of lanes is not 1 to 255")]
    Lanes,
    /// The memory isn't 8 KiB a lane to 2 GiB.
    #[error("the memory is not 8 KiB a lane to 2 GiB")]
    Cost,
    /// There is no pass.
    #[error("there is no pass")]
    Passes,
    /// The tag isn't 4 to 64 bytes long.
    #[error("the tag is not 4 to 64 bytes long")]
    TagLen,
    /// An input has 2^32 bytes or more.
    #[error("an input is too long")]
    InputLen,
    /// Memory for the blocks or the tag ran out.
    #[error("out of memory")]
    Memory,
}

impl ArgonError {
    /// Returns the number of the error, from 1 to 6.
    pub fn number(self) -> u8
        ensures { result ≡ error_number self }
    {
        match self {
            ArgonError::Lanes => 1,
            ArgonError::Cost => 2,
            ArgonError::Passes => 3,
            ArgonError::TagLen => 4,
            ArgonError::InputLen => 5,
            ArgonError::Memory => 6,
        }
    }

    /// Returns the name of the error in lower case, such as `taglen`.
    pub fn word(self) -> &'static str
        ensures { result.now ≡ error_word self }
    {
        match self {
            ArgonError::Lanes => "lanes",
            ArgonError::Cost => "cost",
            ArgonError::Passes => "passes",
            ArgonError::TagLen => "taglen",
            ArgonError::InputLen => "inputlen",
            ArgonError::Memory => "memory",
        }
    }
}

impl From<AllocError> for ArgonError {
    ghost from_gives = { λ _ e. e ≡ OutOfMemory };

    fn from(_error: AllocError) -> Self {
        ArgonError::Memory
    }
}
