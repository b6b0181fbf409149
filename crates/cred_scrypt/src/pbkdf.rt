//! PBKDF2 with HMAC-SHA-256 (RFC 8018, section 5.2).
ghost use Rattle.std.specs.Prelude.{◌≡◌, ℕ, ◌+◌, ◌-◌, ◌≤◌, List, IfOk, length};
ghost use Rattle.cred_scrypt.specs.{Pbkdf2.pbkdf2, Pbkdf2.iteration, Pbkdf2.xor_of_iterations, Keyed.IsKeyed};

use crate::error::ScryptError;
use crate::hmac::Hmac;
use crate::xor::xor_bytes;
use sha2::Digest;
use std::alloc::Global;

/// The length of an HMAC in bytes.
const MAC: usize = 32;

/// Computes PBKDF2 (RFC 8018, section 5.2) with HMAC-SHA-256: a key of `len` bytes by `c`
/// iterations, at least one. Password and salt may have any length.
///
/// Errors: `Memory` if there is not enough for the key.
pub fn pbkdf2(
    alloc: Global,
    pw: &[u8],
    salt: &[u8],
    c: u32,
    len: u32,
) -> Result<Vec<u8>, ScryptError>
    requires { 1 ≤ c }
    ensures memory { (e : _) → result ≡ Err e → e ≡ ScryptError.Memory }
    ensures ok { IfOk result (λ key. key.items ≡ pbkdf2 pw.now salt.now c len) }
    ensures size { IfOk result (λ key. length key.items ≡ len) }
{
    let mac = Hmac::new(pw);
    let len = len as usize;
    let mut key = Vec::with_capacity(alloc, len)?;
    'macs: for i in 0..len.div_ceil(MAC) {
        let block = derived_block(&mac, salt, c, i as u32 + 1);
        let width = (len - MAC * i).min(MAC);
        key.extend_from_slice(&block[..width])?;
    }
    Ok(key)
}

/// Computes T_i, block i of the key: the XOR of `c` iterations.
fn derived_block(mac: &Hmac, salt: &[u8], c: u32, i: u32) -> [u8; 32]
    requires { 1 ≤ c }
    ensures { (pw : List ℕ) → IsKeyed pw mac.now
        → result ≡ xor_of_iterations pw salt.now i (c - 1) }
{
    let mut last = first_iteration(mac, salt, i);
    let mut all = last;
    'iterations: for _iteration in 1..c {
        last = next_iteration(mac, &last);
        xor_bytes(&mut all, &last);
    }
    all
}

/// Computes U_1 from the salt and the number of the block.
fn first_iteration(mac: &Hmac, salt: &[u8], i: u32) -> [u8; 32]
    ensures { (pw : List ℕ) → IsKeyed pw mac.now → result ≡ iteration pw salt.now i 0 }
{
    let mut hasher = mac.begin();
    hasher.update(salt);
    hasher.update(&i.to_be_bytes());
    mac.finish(hasher)
}

/// Computes the next iteration from the last one.
fn next_iteration(mac: &Hmac, last: &[u8; 32]) -> [u8; 32]
    ensures { (pw salt : List ℕ) (i n : ℕ) → IsKeyed pw mac.now → last.now ≡ iteration pw salt i n
        → result ≡ iteration pw salt i (n + 1) }
{
    let mut hasher = mac.begin();
    hasher.update(last);
    mac.finish(hasher)
}
