//! Why a part of the work isn't done.
ghost use Rattle.std.specs.Prelude.{◌≡◌};
ghost use Rattle.cred_c.specs.Lanes.{part_fault_number};

use crate::numbers::{NO_KIND, NO_PLACE, NO_VERSION, argon_number};
use cred_argon::ArgonError;
use cred_phc::PhcError;

/// The reason why a part of the work on a tag isn't done.
#[derive(Clone, Copy, PartialEq, Eq)]
pub enum PartFault {
    /// The number names no kind.
    NoKind,
    /// The number names no version.
    NoVersion,
    /// Argon2 refuses the parameters or the inputs, or is out of memory.
    Argon(ArgonError),
    /// The blocks, the segment or the tag aren't those of the numbers.
    Place,
    /// The text is one of scrypt, which has no lanes.
    Scrypt,
}

impl PartFault {
    /// Returns the number of the fault.
    pub(crate) fn number(self) -> u8
        ensures { result ≡ part_fault_number self }
    {
        match self {
            PartFault::NoKind => NO_KIND,
            PartFault::NoVersion => NO_VERSION,
            PartFault::Argon(error) => argon_number(error),
            PartFault::Place => NO_PLACE,
            PartFault::Scrypt => PhcError::Scheme.number(),
        }
    }
}
