//! The numbers of a tag: those of Argon2, and also its length if the tag is worked in parts.
ghost use Rattle.std.specs.Prelude.{◌≡◌, ◌↔◌, Ok, Err};
ghost use Rattle.cred_argon.specs.Parameters.{Parameters, IsRaw};
ghost use Rattle.cred_c.specs.{Lanes.IsNumbersFault, Lanes.StandFor, declared.part_fault.PartFault.PartFault};

use crate::numbers::{kind_of, version_of};
use crate::part_fault::PartFault;
use cred_argon::Params;

/// The numbers of Argon2 (RFC 9106, section 3.1), as in a record.
#[repr(C)]
#[derive(Clone, Copy, Debug, PartialEq, Eq)]
pub struct Argon2Numbers {
    /// 0, 1 and 2 stand for argon2d, argon2i and argon2id.
    pub kind: u32,
    /// The version, 16 or 19.
    pub version: u32,
    /// The memory in KiB.
    pub memory: u32,
    pub passes: u32,
    pub lanes: u32,
}

/// The numbers of an Argon2 tag (RFC 9106, section 3.1).
#[repr(C)]
#[derive(Clone, Copy, Debug, PartialEq, Eq)]
pub struct TagNumbers {
    /// 0, 1 and 2 stand for argon2d, argon2i and argon2id.
    pub kind: u32,
    /// The version, 16 or 19.
    pub version: u32,
    /// The memory in KiB.
    pub memory: u32,
    pub passes: u32,
    pub lanes: u32,
    /// The length of the tag in bytes.
    pub tag_len: u32,
}

/// Returns the parameters that the numbers stand for, or the fault of the numbers.
pub(crate) fn params_of(numbers: &TagNumbers) -> Result<Params, PartFault>
    ensures ok { (a : Parameters) → (result ≡ Ok a) ↔ StandFor numbers.now a }
    ensures err { (f : PartFault) → (result ≡ Err f) ↔ IsNumbersFault numbers.now f }
{
    let Some(kind) = kind_of(numbers.kind) else {
        return Err(PartFault::NoKind);
    };
    let Some(version) = version_of(numbers.version) else {
        return Err(PartFault::NoVersion);
    };
    match Params::raw(
        version,
        kind,
        numbers.memory,
        numbers.passes,
        numbers.lanes,
        numbers.tag_len,
    ) {
        Ok(params) => Ok(params),
        Err(error) => Err(PartFault::Argon(error)),
    }
}

/// Returns the numbers of parameters.
pub(crate) fn numbers_of(params: &Params) -> TagNumbers
    requires { IsRaw params.now }
    ensures { StandFor result params.now }
{
    TagNumbers {
        kind: params.kind().number(),
        version: params.version().number(),
        memory: params.memory(),
        passes: params.passes(),
        lanes: params.lanes(),
        tag_len: params.tag_len(),
    }
}
