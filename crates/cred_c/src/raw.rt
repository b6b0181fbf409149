//! Raw tags and keys of the hash functions.
ghost use Rattle.std.specs.Prelude.{◌≡◌, ◌<◌, ◌≤◌, ◌^◌, ◌⊎◌, ◌↔◌, IfOk, length};
ghost use Rattle.cred_argon.specs.{Argon.argon, Faults.IsFirstRawFault, Parameters.IsRaw, Tags.IsAnyTooLong, declared.error.ArgonError.ArgonError};
ghost use Rattle.cred_argon.specs.{declared.kind.Kind.Kind, declared.kind.Version.Version};
ghost use Rattle.cred_c.specs.{Answers.argon_number, Inputs.AreOf, Inputs.HasBytes, Inputs.IsKind, Inputs.IsPositiveByte, Inputs.IsVersion, Inputs.tag_parameters};
ghost use Rattle.cred_scrypt.specs.{Params.IsCostly, Scrypt.scrypt};

use crate::numbers::{
    DONE, NO_KIND, NO_VERSION, argon_number, byte_of, kind_of, scrypt_number, version_of,
};
use crate::tag_numbers::Argon2Numbers;
use cred_argon::{ArgonError, ArgonScratch, Inputs, Params, argon2_in};
use cred_pool::NoGate;
use cred_scrypt::{ScryptError, ScryptParams, ScryptScratch, scrypt_in};
use std::alloc::Global;

/// Writes the Argon2 tag (RFC 9106) of the inputs over `out`, whose length is the tag's: 4 bytes or
/// more.
///
/// Answers 0, or the first of these faults: 12 for a wrong kind, 13 for a wrong version, 17 if
/// `out` has 2^32 bytes or more, 14 for the lanes, 15 for the memory, 16 for the passes, 17 for the
/// length of `out`, 18 if an input has 2^32 bytes or more, and 8 if memory is short.
#[unsafe(no_mangle)]
pub extern "C" fn cred_argon2(
    alloc: Global,
    numbers: &Argon2Numbers,
    inputs: &Inputs<'_>,
    out: &mut [u8],
) -> u8
    ensures made { (k : Kind) (v : Version) → AreOf numbers.now k v → result ≡ 0 → out.new
        ≡ argon (tag_parameters numbers.now k v (length out.old))
        inputs.now.pw.now inputs.now.salt.now inputs.now.secret.now inputs.now.assoc.now }
    ensures kept { (result ≡ 0 → ⊥) → out.new ≡ out.old }
    ensures kind { (result ≡ 12) ↔ (2 < numbers.now.kind) }
    ensures version { (result ≡ 13)
        ↔ (IsKind numbers.now.kind × (IsVersion numbers.now.version → ⊥)) }
    ensures long { IsKind numbers.now.kind → IsVersion numbers.now.version
        → 2 ^ 32 ≤ length out.old → result ≡ 17 }
    ensures params { (k : Kind) (v : Version) (e : ArgonError) → AreOf numbers.now k v
        → length out.old < 2 ^ 32
        → IsFirstRawFault (tag_parameters numbers.now k v (length out.old)) e
        → result ≡ argon_number e }
    ensures inputs { (k : Kind) (v : Version) → AreOf numbers.now k v
        → IsRaw (tag_parameters numbers.now k v (length out.old))
        → (result ≡ 18) ↔ IsAnyTooLong
        inputs.now.pw.now inputs.now.salt.now inputs.now.secret.now inputs.now.assoc.now }
    ensures fine { (k : Kind) (v : Version) → AreOf numbers.now k v
        → IsRaw (tag_parameters numbers.now k v (length out.old))
        → (result ≡ 0) ⊎ (result ≡ 8) ⊎ (result ≡ 18) }
{
    let Some(kind) = kind_of(numbers.kind) else {
        return NO_KIND;
    };
    let Some(version) = version_of(numbers.version) else {
        return NO_VERSION;
    };
    let Ok(len) = u32::try_from(out.len()) else {
        return argon_number(ArgonError::TagLen);
    };
    let params = match Params::raw(
        version,
        kind,
        numbers.memory,
        numbers.passes,
        numbers.lanes,
        len,
    ) {
        Ok(params) => params,
        Err(error) => return argon_number(error),
    };
    let mut none = ArgonScratch::new(alloc, 0);
    match argon2_in(&mut none, alloc, &NoGate, &params, inputs) {
        Ok(tag) => {
            out.copy_from_slice(&tag);
            DONE
        }
        Err(error) => argon_number(error),
    }
}

/// The numbers of scrypt (RFC 7914, section 2), as in a record.
#[repr(C)]
#[derive(Clone, Copy, Debug, PartialEq, Eq)]
pub struct ScryptNumbers {
    /// The cost N is 2 to the power of `ln`.
    pub ln: u32,
    pub r: u32,
    pub p: u32,
}

/// Writes the scrypt key (RFC 7914) of the inputs over `out`, whose length is the key's: 1 byte or
/// more.
///
/// Answers 0, or the first of these faults: 22 if `out` has 2^32 bytes or more, 20 if `r` isn't 1
/// to 255, 21 if `p` isn't, 19 if the cost is out of its range or too high for `r` or for 2 GiB, 22
/// if `out` is empty, and 8 if memory is short.
#[unsafe(no_mangle)]
pub extern "C" fn cred_scrypt(
    alloc: Global,
    numbers: &ScryptNumbers,
    pw: &[u8],
    salt: &[u8],
    out: &mut [u8],
) -> u8
    ensures made { result ≡ 0 → out.new ≡ scrypt numbers.now.ln numbers.now.r numbers.now.p
        (length out.old) pw.now salt.now }
    ensures kept { (result ≡ 0 → ⊥) → out.new ≡ out.old }
    ensures long { 2 ^ 32 ≤ length out.old → result ≡ 22 }
    ensures block_size { length out.old < 2 ^ 32
        → (result ≡ 20) ↔ (IsPositiveByte numbers.now.r → ⊥) }
    ensures blocks { length out.old < 2 ^ 32 → (result ≡ 21)
        ↔ (IsPositiveByte numbers.now.r × (IsPositiveByte numbers.now.p → ⊥)) }
    ensures cost { length out.old < 2 ^ 32 → (result ≡ 19)
        ↔ (HasBytes numbers.now × IsCostly numbers.now.ln numbers.now.r) }
    ensures empty { length out.old < 2 ^ 32 → (result ≡ 22) ↔ (HasBytes numbers.now
        × (IsCostly numbers.now.ln numbers.now.r → ⊥) × (length out.old ≡ 0)) }
    ensures fine { HasBytes numbers.now → (IsCostly numbers.now.ln numbers.now.r → ⊥)
        → 1 ≤ length out.old → length out.old < 2 ^ 32 → (result ≡ 0) ⊎ (result ≡ 8) }
{
    let Ok(len) = u32::try_from(out.len()) else {
        return scrypt_number(ScryptError::Len);
    };
    let mut none = ScryptScratch::new(alloc, 0);
    match scrypt_params(*numbers, len) {
        Ok(params) => match scrypt_in(&mut none, alloc, &NoGate, &params, pw, salt) {
            Ok(key) => {
                out.copy_from_slice(&key);
                DONE
            }
            Err(error) => scrypt_number(error),
        },
        Err(error) => scrypt_number(error),
    }
}

/// Returns scrypt's parameters, of which r and p must be 1 to 255.
fn scrypt_params(numbers: ScryptNumbers, len: u32) -> Result<ScryptParams, ScryptError>
    ensures block_size { (result ≡ Err ScryptError.BlockSize) ↔ (IsPositiveByte numbers.r → ⊥) }
    ensures blocks { (result ≡ Err ScryptError.Blocks)
        ↔ (IsPositiveByte numbers.r × (IsPositiveByte numbers.p → ⊥)) }
    ensures cost { (result ≡ Err ScryptError.Cost)
        ↔ (HasBytes numbers × IsCostly numbers.ln numbers.r) }
    ensures len { (result ≡ Err ScryptError.Len)
        ↔ (HasBytes numbers × (IsCostly numbers.ln numbers.r → ⊥) × (len ≡ 0)) }
    ensures memory { result ≡ Err ScryptError.Memory → ⊥ }
    ensures ok { IfOk result (λ made. (made.ln ≡ numbers.ln) × (made.r ≡ numbers.r)
        × (made.p ≡ numbers.p) × (made.len ≡ len)) }
{
    let ScryptNumbers { ln, r, p } = numbers;
    ScryptParams::raw(byte_of(ln), byte_of(r), byte_of(p), len)
}
