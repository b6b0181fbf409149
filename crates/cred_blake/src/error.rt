//! The errors of this crate's calls.

ghost use Rattle.std.specs.Prelude.{◌≡◌};
ghost use Rattle.cred_blake.specs.{Errors.error_number, Errors.error_word, declared.error.BlakeError.TheVariants.Memory as OutOfMemory};

use std::alloc::AllocError;
use thiserror::Error;

/// The reason why a call made no hasher or no hash.
#[derive(Clone, Copy, Debug, PartialEq, Eq, Error)]
pub enum BlakeError {
    /// The length of the digest is not 1 to 64 bytes, or that of H' is 0.
    #[error("the length of the digest is out of range")]
    OutLen,
    /// The key is longer than 64 bytes.
    #[error("the key is longer than 64 bytes")]
    KeyLen,
    /// There was not enough memory for the result.
    #[error("out of memory")]
    Memory,
}

impl BlakeError {
    /// Returns the number of the error, from 1 to 3.
    pub fn number(self) -> u8
        ensures { result ≡ error_number self }
    {
        match self {
            BlakeError::OutLen => 1,
            BlakeError::KeyLen => 2,
            BlakeError::Memory => 3,
        }
    }

    /// Returns the name of the error in lower case, such as `outlen`.
    pub fn word(self) -> &'static str
        ensures { result.now ≡ error_word self }
    {
        match self {
            BlakeError::OutLen => "outlen",
            BlakeError::KeyLen => "keylen",
            BlakeError::Memory => "memory",
        }
    }
}

impl From<AllocError> for BlakeError {
    ghost from_gives = { λ _ e. e ≡ OutOfMemory };

    fn from(_error: AllocError) -> Self {
        BlakeError::Memory
    }
}
