//! Faults of texts that are no setting or record, and errors of calls that make or write these
//! values.

ghost use Rattle.std.specs.Prelude.{◌≡◌};
ghost use Rattle.cred_phc.specs.{Errors.error_number, Errors.error_word, declared.error.PhcError.TheVariants.Memory as OutOfMemory};

use std::alloc::AllocError;
use thiserror::Error;

/// The fault of a text or of a value's parts: the first from the left, if there are several.
#[derive(Clone, Copy, Debug, PartialEq, Eq, Error)]
pub enum PhcError {
    /// A field is missing, or there is one too many.
    #[error("a field is missing, or there is one too many")]
    Shape,
    /// The scheme is none of argon2d, argon2i, argon2id and scrypt.
    #[error("the scheme is none of argon2d, argon2i, argon2id and scrypt")]
    Scheme,
    /// This crate doesn't read the version.
    #[error("the version is not one that can be read here")]
    Version,
    /// The numbers aren't written in the form of the scheme.
    #[error("the numbers are not written in the form of the scheme")]
    Params,
    /// A number is outside its range.
    #[error("a number is outside its range")]
    Range,
    /// The salt isn't base64, or has a length outside its range.
    #[error("the salt is not base64, or has a length outside its range")]
    Salt,
    /// The tag isn't base64, or has a length outside its range.
    #[error("the tag is not base64, or has a length outside its range")]
    Tag,
    /// There was no memory for the value or its text.
    #[error("out of memory")]
    Memory,
    /// The text has over 512 bytes.
    #[error("the text has over 512 bytes")]
    TooLong,
}

impl PhcError {
    /// Returns the number of the error, from 1 to 9.
    pub fn number(self) -> u8
        ensures { result ≡ error_number self }
    {
        match self {
            PhcError::Shape => 1,
            PhcError::Scheme => 2,
            PhcError::Version => 3,
            PhcError::Params => 4,
            PhcError::Range => 5,
            PhcError::Salt => 6,
            PhcError::Tag => 7,
            PhcError::Memory => 8,
            PhcError::TooLong => 9,
        }
    }

    /// Returns the name of the error in lower case, such as `toolong`.
    pub fn word(self) -> &'static str
        ensures { result.now ≡ error_word self }
    {
        match self {
            PhcError::Shape => "shape",
            PhcError::Scheme => "scheme",
            PhcError::Version => "version",
            PhcError::Params => "params",
            PhcError::Range => "range",
            PhcError::Salt => "salt",
            PhcError::Tag => "tag",
            PhcError::Memory => "memory",
            PhcError::TooLong => "toolong",
        }
    }
}

impl From<AllocError> for PhcError {
    ghost from_gives = { λ _ e. e ≡ OutOfMemory };

    fn from(_error: AllocError) -> Self {
        PhcError::Memory
    }
}
