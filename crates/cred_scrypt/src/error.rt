//! The errors of this crate's calls.

ghost use Rattle.std.specs.Prelude.{◌≡◌};
ghost use Rattle.cred_scrypt.specs.{Errors.error_number, Errors.error_word, declared.error.ScryptError.TheVariants.Memory as OutOfMemory};

use std::alloc::{AllocError, AllocFailed};
use thiserror::Error;

/// The reason why a call refused parameters, or that memory ran out.
#[derive(Clone, Copy, Debug, PartialEq, Eq, Error)]
pub enum ScryptError {
    /// The cost is out of range, too high for the block size, or its table would exceed 2 GiB.
    #[error("the cost is out of range, or too high for the block size or for a table of 2 GiB")]
    Cost,
    /// The block size is 0.
    #[error("the block size is 0")]
    BlockSize,
    /// The number of pieces, p, is 0.
    #[error("the parallelization is 0")]
    Blocks,
    /// The length of the key is not 4 to 64 bytes.
    #[error("the key is not 4 to 64 bytes long")]
    Len,
    /// There was not enough memory for the pieces, a table or the key.
    #[error("out of memory")]
    Memory,
}

impl ScryptError {
    /// Returns the number of the error, from 1 to 5.
    pub fn number(self) -> u8
        ensures { result ≡ error_number self }
    {
        match self {
            ScryptError::Cost => 1,
            ScryptError::BlockSize => 2,
            ScryptError::Blocks => 3,
            ScryptError::Len => 4,
            ScryptError::Memory => 5,
        }
    }

    /// Returns the name of the error in lower case, such as `blocksize`.
    pub fn word(self) -> &'static str
        ensures { result.now ≡ error_word self }
    {
        match self {
            ScryptError::Cost => "cost",
            ScryptError::BlockSize => "blocksize",
            ScryptError::Blocks => "blocks",
            ScryptError::Len => "len",
            ScryptError::Memory => "memory",
        }
    }
}

impl From<AllocError> for ScryptError {
    ghost from_gives = { λ _ e. e ≡ OutOfMemory };

    fn from(_error: AllocError) -> Self {
        ScryptError::Memory
    }
}

impl<T: Drop> From<AllocFailed<T>> for ScryptError {
    ghost from_gives = { λ _ e. e ≡ OutOfMemory };

    fn from(_error: AllocFailed<T>) -> Self {
        ScryptError::Memory
    }
}
