//! The numbers that the exports answer, and those that they receive.
ghost use Rattle.std.specs.Prelude.{◌≡◌, ◌<◌, ◌≤◌, ◌↔◌, IfSome, None, Some};
ghost use Rattle.cred_argon.specs.{Numbers.kind_number, Numbers.version_number, declared.kind.Kind.Kind, declared.kind.Version.Version};
ghost use Rattle.cred_c.specs.{Answers.argon_number, Answers.scrypt_number, Inputs.IsVersion, Parts.variant_number};
ghost use Rattle.cred_phc.specs.declared.setting.Variant.{Variant};

use cred_argon::{ArgonError, Kind, Version};
use cred_phc::Variant;
use cred_scrypt::ScryptError;

/// The call did its work.
pub(crate) const DONE: u8 = 0;

/// The record is of another password.
pub(crate) const WRONG: u8 = 10;

/// The buffer has too little room for the text.
pub(crate) const NO_ROOM: u8 = 11;

/// The number names no kind of Argon2.
pub(crate) const NO_KIND: u8 = 12;

/// The number names no version of Argon2.
pub(crate) const NO_VERSION: u8 = 13;

/// The blocks, the segment or the tag aren't those of the numbers.
pub(crate) const NO_PLACE: u8 = 27;

/// The number names no operation.
pub(crate) const NO_OPERATION: u8 = 23;

/// Returns the number of an error of Argon2: 14 to 18, and 8 if memory runs out.
pub(crate) fn argon_number(error: ArgonError) -> u8
    ensures { result ≡ argon_number error }
{
    match error {
        ArgonError::Lanes => 14,
        ArgonError::Cost => 15,
        ArgonError::Passes => 16,
        ArgonError::TagLen => 17,
        ArgonError::InputLen => 18,
        ArgonError::Memory => 8,
    }
}

/// Returns the number of an error of scrypt: 19 to 22, and 8 if memory runs out.
pub(crate) fn scrypt_number(error: ScryptError) -> u8
    ensures { result ≡ scrypt_number error }
{
    match error {
        ScryptError::Cost => 19,
        ScryptError::BlockSize => 20,
        ScryptError::Blocks => 21,
        ScryptError::Len => 22,
        ScryptError::Memory => 8,
    }
}

/// Returns the kind with this number.
pub(crate) fn kind_of(number: u32) -> Option<Kind>
    ensures found { (k : Kind) → number ≡ kind_number k → result ≡ Some k }
    ensures only { IfSome result (λ k. number ≡ kind_number k) }
    ensures none { (result ≡ None) ↔ (2 < number) }
{
    match number {
        0 => Some(Kind::D),
        1 => Some(Kind::I),
        2 => Some(Kind::Id),
        _ => None,
    }
}

/// Returns the variant with this number.
pub(crate) fn variant_of(number: u32) -> Option<Variant>
    ensures found { (x : Variant) → number ≡ variant_number x → result ≡ Some x }
    ensures only { IfSome result (λ x. number ≡ variant_number x) }
    ensures none { (result ≡ None) ↔ (2 < number) }
{
    match number {
        0 => Some(Variant::D),
        1 => Some(Variant::I),
        2 => Some(Variant::Id),
        _ => None,
    }
}

/// Returns the version with this number.
pub(crate) fn version_of(number: u32) -> Option<Version>
    ensures found { (v : Version) → number ≡ version_number v → result ≡ Some v }
    ensures only { IfSome result (λ v. number ≡ version_number v) }
    ensures none { (result ≡ None) ↔ (IsVersion number → ⊥) }
{
    match number {
        0x10 => Some(Version::V10),
        0x13 => Some(Version::V13),
        _ => None,
    }
}

/// Returns the number as a byte, or 0 for a number over a byte: both are equally wrong.
pub(crate) fn byte_of(number: u32) -> u8
    ensures small { number ≤ 255 → result ≡ number }
    ensures large { 255 < number → result ≡ 0 }
{
    u8::try_from(number).unwrap_or(0)
}
