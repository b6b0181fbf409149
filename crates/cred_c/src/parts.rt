//! The fault of a text, and the numbers in a record's text.
ghost use Rattle.std.specs.Prelude.{◌≡◌, None, Some};
ghost use Rattle.cred_c.specs.Parts.{parts_of, variant_number};
ghost use Rattle.cred_phc.specs.{Errors.error_number, Faults.record_fault, Faults.setting_fault, Text.IsRecordText, Values.IsRecord, Values.RecordValue};
ghost use Rattle.cred_phc.specs.declared.error.PhcError.{PhcError};

use crate::numbers::DONE;
use cred_phc::{Record, Scheme, Variant, parse_record, parse_setting};

/// The scheme of a record, its numbers, and the lengths of its salt and tag in bytes.
#[repr(C)]
#[derive(Clone, Copy, Debug, PartialEq, Eq)]
pub struct Parts {
    /// 0, 1 and 2 stand for argon2d, argon2i and argon2id, and 3 for scrypt.
    pub scheme: u32,
    /// 16 or 19, but 0 for scrypt.
    pub version: u32,
    /// The memory in KiB, but for scrypt the logarithm of the cost.
    pub memory: u32,
    /// The passes, but for scrypt the block size.
    pub passes: u32,
    /// The lanes, but for scrypt the parallelization.
    pub lanes: u32,
    pub salt_len: u32,
    pub tag_len: u32,
}

/// Returns the number of the first fault of a setting's text, or 0 if the text stands for a
/// setting.
#[unsafe(no_mangle)]
pub extern "C" fn cred_setting_fault(text: &[u8]) -> u8
    ensures fault { (e : PhcError) → setting_fault text.now ≡ Some e → result ≡ error_number e }
    ensures none { setting_fault text.now ≡ None → result ≡ 0 }
{
    match parse_setting(text) {
        Ok(_) => DONE,
        Err(fault) => fault.number(),
    }
}

/// Returns the number of the first fault of a record's text, or 0 if the text stands for a record.
#[unsafe(no_mangle)]
pub extern "C" fn cred_record_fault(text: &[u8]) -> u8
    ensures fault { (e : PhcError) → record_fault text.now ≡ Some e → result ≡ error_number e }
    ensures none { record_fault text.now ≡ None → result ≡ 0 }
{
    match parse_record(text) {
        Ok(_) => DONE,
        Err(fault) => fault.number(),
    }
}

/// Writes the scheme, the numbers and the lengths of a record's text into `parts`, so that the
/// caller can see whether the record needs a rehash.
///
/// Answers 0, or the number of the text's fault.
#[unsafe(no_mangle)]
pub extern "C" fn cred_record_parts(text: &[u8], parts: &mut Parts) -> u8
    ensures fault { (e : PhcError) → record_fault text.now ≡ Some e → result ≡ error_number e }
    ensures read { record_fault text.now ≡ None → (result ≡ 0) × ((v : RecordValue) × IsRecord v
        × IsRecordText text.now v × (parts.new ≡ parts_of v)) }
    ensures kept { (result ≡ 0 → ⊥) → parts.new ≡ parts.old }
{
    match parse_record(text) {
        Ok(stored) => {
            *parts = parts_of(&stored);
            DONE
        }
        Err(fault) => fault.number(),
    }
}

/// Returns the parts of a record.
fn parts_of(stored: &Record) -> Parts
    ensures value { result ≡ parts_of stored.now }
    ensures ranges { IsRecord stored.now }
{
    let setting = stored.setting();
    let salt_len = setting.salt().len() as u32;
    let tag_len = stored.tag().bytes().len() as u32;
    match setting.scheme() {
        Scheme::Argon2 {
            version,
            variant,
            m,
            t,
            p,
        } => Parts {
            scheme: variant_number(variant),
            version: version.number(),
            memory: m,
            passes: t,
            lanes: u32::from(p),
            salt_len,
            tag_len,
        },
        Scheme::Scrypt { ln, r, p } => Parts {
            scheme: 3,
            version: 0,
            memory: u32::from(ln),
            passes: u32::from(r),
            lanes: u32::from(p),
            salt_len,
            tag_len,
        },
    }
}

/// Returns the number of a variant.
fn variant_number(variant: Variant) -> u32
    ensures { result ≡ variant_number variant }
{
    match variant {
        Variant::D => 0,
        Variant::I => 1,
        Variant::Id => 2,
    }
}
