//! The tag of a password under a setting.

ghost use Rattle.std.specs.Prelude.{◌≡◌, ◌<◌, ◌≤◌, ◌^◌, List, ℕ, codes, length, IfOk, IfSome, IsTrue};
ghost use Rattle.cred_argon.specs.Parameters.{IsRaw, parameters};
ghost use Rattle.cred_phc.specs.{Functions.key, Functions.key_len, Ranges.argon_fits, Ranges.scrypt_fits, Tags.argon_kind, Tags.argon_parameters, Tags.tag};
ghost use Rattle.cred_phc.specs.Values.{IsTag};

use crate::password::Password;
use crate::record::{MAX_TAG, Tag};
use crate::scratch::Scratch;
use crate::setting::{Scheme, Setting, Variant};
use cred_argon::{Inputs, Kind, Params, Version, argon2, argon2_in};
use cred_pool::Gate;
use cred_scrypt::{ScryptParams, scrypt, scrypt_in};
use std::alloc::Global;
use std::marker::Sync;
use std::thread::Threads;
use thiserror::Error;

/// The error of a password's tag.
#[derive(Clone, Copy, Debug, PartialEq, Eq, Error)]
pub enum TagError {
    /// There was no memory for the work or the tag.
    #[error("out of memory")]
    Memory,
}

impl TagError {
    /// Returns the number of the error: 1.
    pub fn number(self) -> u8
        ensures { result ≡ 1 }
    {
        match self {
            TagError::Memory => 1,
        }
    }

    /// Returns the name of the error in lower case: `memory`.
    pub fn word(self) -> &'static str
        ensures { result.now ≡ codes "memory" }
    {
        match self {
            TagError::Memory => "memory",
        }
    }
}

/// Computes the tag of `len` bytes, 4 to 64, that the setting gives the password. The function is
/// Argon2 with no secret and no associated data (RFC 9106, section 3.1), or scrypt (RFC 7914,
/// section 6). At most `workers` threads do the work, behind the gate. The tag is the same for any
/// number of workers.
///
/// Errors: `Memory` if there is too little for the setting.
pub fn tag_of<R: Threads + Sync, G: Gate + Sync>(
    rt: &R,
    alloc: Global,
    workers: u8,
    gate: &G,
    setting: &Setting,
    len: u8,
    pw: &Password,
) -> Result<Tag, TagError>
    requires low { 4 ≤ len }
    requires high { len ≤ 64 }
    ensures made { IfOk result (λ t. t ≡ tag setting.now len pw.now) }
    ensures ranges { IfOk result IsTag }
{
    let salt = setting.salt();
    match Function::of(setting, len) {
        Function::Argon2(params) => tag_made(argon2(
            rt,
            alloc,
            workers,
            gate,
            &params,
            pw.bytes(),
            salt,
            b"",
            b"",
        )),
        Function::Scrypt(params) => tag_made(scrypt(
            rt,
            alloc,
            workers,
            gate,
            &params,
            pw.bytes(),
            salt,
        )),
    }
}

/// Computes the same tag on the caller's thread, without a runtime, of a password of any length
/// that Argon2 accepts. The scratch keeps its memory from tag to tag, up to its bound. So the
/// memory doesn't go back to the system after each of many tags. A tag never depends on what an
/// earlier tag left in the memory.
///
/// Errors: `Memory` if there is too little for the setting. The scratch is still good for the next
/// tag.
pub fn tag_in<G: Gate>(
    scratch: &mut Scratch,
    alloc: Global,
    gate: &G,
    setting: &Setting,
    len: u8,
    pw: &[u8],
) -> Result<Tag, TagError>
    requires low { 4 ≤ len }
    requires high { len ≤ 64 }
    requires password { length pw.now < 2 ^ 32 }
    ensures made { IfOk result (λ t. t ≡ tag setting.now len pw.now) }
    ensures ranges { IfOk result IsTag }
    ensures most { scratch.new ≡ scratch.old }
{
    let salt = setting.salt();
    match Function::of(setting, len) {
        Function::Argon2(params) => {
            let mut kept = scratch.take_argon2(alloc);
            let (secret, assoc) = (b"", b"");
            let inputs = Inputs {
                pw,
                salt,
                secret,
                assoc,
            };
            let made = argon2_in(&mut kept, alloc, gate, &params, &inputs);
            scratch.keep_argon2(kept);
            tag_made(made)
        }
        Function::Scrypt(params) => {
            let mut kept = scratch.take_scrypt(alloc);
            let made = scrypt_in(&mut kept, alloc, gate, &params, pw, salt);
            scratch.keep_scrypt(kept);
            tag_made(made)
        }
    }
}

/// Returns the setting's parameters of Argon2 for a tag of `len` bytes, 4 to 64, or `None` for a
/// setting of scrypt.
pub fn argon2_params(setting: &Setting, len: u8) -> Option<Params>
    requires low { 4 ≤ len }
    requires high { len ≤ 64 }
    ensures value { result ≡ argon_parameters setting.now.scheme len }
    ensures ranges { IfSome result IsRaw }
{
    match setting.scheme() {
        Scheme::Argon2 {
            version,
            variant,
            m,
            t,
            p,
        } => Some(argon_params(version, variant, m, t, p, len)),
        Scheme::Scrypt { .. } => None,
    }
}

/// The function that a setting asks for, with all its numbers.
enum Function {
    Argon2(Params),
    Scrypt(ScryptParams),
}

impl Function {
    /// Returns the setting's function, for a tag of `len` bytes.
    #[tactic(auto, unfolding(crate::specs::Tags::tag))]
    fn of(setting: &Setting, len: u8) -> Function
        requires low { 4 ≤ len }
        requires high { len ≤ 64 }
        ensures tag { (pw : List ℕ) → key result pw setting.now.salt ≡ tag setting.now len pw }
        ensures len { key_len result ≡ len }
    {
        match setting.scheme() {
            Scheme::Argon2 {
                version,
                variant,
                m,
                t,
                p,
            } => Function::Argon2(argon_params(version, variant, m, t, p, len)),
            Scheme::Scrypt { ln, r, p } => Function::Scrypt(scrypt_params(ln, r, p, len)),
        }
    }
}

/// Returns the tag of the bytes that a function computed. A function refuses no input of a setting,
/// so only want of memory leaves it without bytes.
fn tag_made<E: Drop>(made: Result<Vec<u8>, E>) -> Result<Tag, TagError>
    requires low { IfOk made (λ v. 4 ≤ length v.items) }
    requires high { IfOk made (λ v. length v.items ≤ 64) }
    ensures made { (tag : List ℕ) → IfOk made (λ v. v.items ≡ tag) → IfOk result (λ t. t ≡ tag) }
    ensures ranges { IfOk result IsTag }
{
    match made {
        Ok(bytes) => Ok(tag_from(&bytes)),
        Err(_) => Err(TagError::Memory),
    }
}

fn tag_from(bytes: &[u8]) -> Tag
    requires low { 4 ≤ length bytes.now }
    requires high { length bytes.now ≤ 64 }
    ensures made { result ≡ bytes.now }
    ensures ranges { IsTag result }
{
    match Tag::new(bytes) {
        Some(tag) => {
            // The length of a tag is in its range, as its accessor says.
            prove!(tag.bytes().len() <= MAX_TAG);
            tag
        }
        None => unreachable!(),
    }
}

fn argon_params(version: Version, variant: Variant, m: u32, t: u32, p: u8, len: u8) -> Params
    requires fits { IsTrue (argon_fits m t p) }
    requires low { 4 ≤ len }
    requires high { len ≤ 64 }
    ensures value { result ≡ parameters version (argon_kind variant) m t p len }
    ensures ranges { IsRaw result }
{
    match Params::with_version(
        version,
        argon_kind(variant),
        m,
        t,
        u32::from(p),
        u32::from(len),
    ) {
        Ok(params) => params,
        Err(_) => unreachable!(),
    }
}

fn argon_kind(variant: Variant) -> Kind
    ensures { result ≡ argon_kind variant }
{
    match variant {
        Variant::D => Kind::D,
        Variant::I => Kind::I,
        Variant::Id => Kind::Id,
    }
}

fn scrypt_params(ln: u8, r: u8, p: u8, len: u8) -> ScryptParams
    requires fits { IsTrue (scrypt_fits ln r p) }
    requires low { 4 ≤ len }
    requires high { len ≤ 64 }
    ensures cost { (result.ln ≡ ln) × (result.r ≡ r) × (result.p ≡ p) }
    ensures len { result.len ≡ len }
{
    match ScryptParams::new(ln, r, p, u32::from(len)) {
        Ok(params) => params,
        Err(_) => unreachable!(),
    }
}
