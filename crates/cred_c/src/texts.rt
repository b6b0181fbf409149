//! The texts of records, written into buffers of the caller's.
ghost use Rattle.std.specs.Prelude.{◌≡◌, ◌<◌, ◌↔◌, drop};
ghost use Rattle.cred_argon.specs.declared.kind.Version.{Version};
ghost use Rattle.cred_c.specs.{Answers.IsWritten, Answers.output, Inputs.AreOf, Inputs.IsKind, Inputs.IsVersion, Inputs.record_of_parts, Inputs.record_scheme};
ghost use Rattle.cred_phc.specs.{Errors.error_number, Tags.argon_kind, Text.record_text, Values.RecordValue, declared.error.PhcError.PhcError};
ghost use Rattle.cred_phc.specs.declared.setting.Variant.{Variant};

use crate::numbers::{DONE, NO_KIND, NO_ROOM, NO_VERSION, byte_of, variant_of, version_of};
use crate::tag_numbers::Argon2Numbers;
use cred_phc::{PhcError, Record, Scheme, Setting, write_record};
use std::alloc::Global;

/// Writes the text of an Argon2 record of these parts over the front of `out`, and its length into
/// `len`. The salt has 8 to 48 bytes and the tag 4 to 64. The call computes no hash.
///
/// Answers 0, or the first of these faults: 12 for a wrong kind, 13 for a wrong version, 5 if
/// another number is outside its range, 6 if the salt's length is and 7 if the tag's is, and last 8
/// if memory is short or 11 if `out` has too little room.
#[unsafe(no_mangle)]
pub extern "C" fn cred_write(
    alloc: Global,
    numbers: &Argon2Numbers,
    salt: &[u8],
    tag: &[u8],
    out: &mut [u8],
    len: &mut usize,
) -> u8
    ensures kind { (result ≡ 12) ↔ (2 < numbers.now.kind) }
    ensures version { (result ≡ 13)
        ↔ (IsKind numbers.now.kind × (IsVersion numbers.now.version → ⊥)) }
    ensures fault { (x : Variant) (v : Version) (e : PhcError)
        → AreOf numbers.now (argon_kind x) v
        → record_of_parts (record_scheme numbers.now x v) salt.now tag.now ≡ Err e
        → result ≡ error_number e }
    ensures written { (x : Variant) (v : Version) (r : RecordValue)
        → AreOf numbers.now (argon_kind x) v
        → record_of_parts (record_scheme numbers.now x v) salt.now tag.now ≡ Ok r
        → IsWritten (record_text r) (output result out.old out.new len.new) }
    ensures kept { (result ≡ 0 → ⊥) → (len.new ≡ 0) × (out.new ≡ out.old) }
    ensures rest { drop len.new out.new ≡ drop len.new out.old }
{
    *len = 0;
    let Some(variant) = variant_of(numbers.kind) else {
        return NO_KIND;
    };
    let Some(version) = version_of(numbers.version) else {
        return NO_VERSION;
    };
    let scheme = Scheme::Argon2 {
        version,
        variant,
        m: numbers.memory,
        t: numbers.passes,
        p: byte_of(numbers.lanes),
    };
    match record_of_parts(scheme, salt, tag) {
        Ok(made) => put_record(alloc, &made, out, len),
        Err(fault) => fault.number(),
    }
}

/// Builds the record of these parts.
fn record_of_parts(scheme: Scheme, salt: &[u8], tag: &[u8]) -> Result<Record, PhcError>
    ensures { result ≡ record_of_parts scheme salt.now tag.now }
{
    Record::new(Setting::new(scheme, salt)?, tag)
}

/// Writes the text of a record over the front of `out`, and its length into `len`.
pub(crate) fn put_record(alloc: Global, stored: &Record, out: &mut [u8], len: &mut usize) -> u8
    requires { len.old ≡ 0 }
    ensures written { IsWritten (record_text stored.now)
        (output result out.old out.new len.new) }
    ensures kept { (result ≡ 0 → ⊥) → (len.new ≡ 0) × (out.new ≡ out.old) }
    ensures rest { drop len.new out.new ≡ drop len.new out.old }
{
    match write_record(alloc, stored) {
        Ok(text) => put(&text, out, len),
        Err(fault) => fault.number(),
    }
}

/// Writes a text over the front of `out`, and its length into `len`.
fn put(text: &[u8], out: &mut [u8], len: &mut usize) -> u8
    requires { len.old ≡ 0 }
    ensures written { IsWritten text.now (output result out.old out.new len.new) }
    ensures kept { (result ≡ 0 → ⊥) → (len.new ≡ 0) × (out.new ≡ out.old) }
    ensures rest { drop len.new out.new ≡ drop len.new out.old }
{
    if text.len() > out.len() {
        return NO_ROOM;
    }
    *len = text.len();
    out[..text.len()].copy_from_slice(text);
    DONE
}
