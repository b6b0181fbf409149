//! H', the hash of any length that Argon2 builds from BLAKE2b (RFC 9106, section 3.3).

ghost use Rattle.std.specs.Prelude.{◌≡◌, ◌↔◌, ◌+◌, ◌^◌, ◌<◌, ◌≤◌, [], ◌++◌, length, take, vec_len, IfOk};
ghost use Rattle.cred_blake.specs.{Blake2b.blake, HashPrime.hash_prime};

use crate::digest::{Digest, MAX_LEN};
use crate::error::BlakeError;
use crate::hasher::Blake2b;
use std::alloc::Global;

/// The number of bytes of each hash in the chain that go into a longer output: its first half.
const HALF_LEN: usize = MAX_LEN / 2;

/// Returns the hash of two pieces, without a key.
fn hash(out_len: usize, first: &[u8], second: &[u8]) -> Digest
    requires { (1 ≤ out_len) × (out_len ≤ 64) }
    ensures value { result ≡ blake out_len [] (first.now ++ second.now) }
    ensures len { length result ≡ out_len }
{
    let mut hasher = Blake2b::new(out_len, &[]).unwrap();
    hasher.update(first);
    hasher.update(second);
    hasher.finalize()
}

/// Returns the half of a 64-byte digest that goes into H'.
fn first_half(digest: &Digest) -> &[u8]
    requires { length digest.now ≡ 64 }
    ensures value { result.now ≡ take 32 digest.now }
    ensures len { length result.now ≡ 32 }
{
    let bytes = digest.bytes();
    &bytes[..HALF_LEN]
}

/// Writes `piece` into `out`, starting at byte `at`.
fn put(out: &mut [u8], at: usize, piece: &[u8])
    requires { at + length piece.now ≤ length out.old }
    ensures { take (at + length piece.now) out.new ≡ take at out.old ++ piece.now }
{
    out[at..at + piece.len()].copy_from_slice(piece);
}

/// Fills `out` with H' of `out`'s length.
fn write_hash_prime(out: &mut [u8], input: &[u8])
    requires low { 1 ≤ length out.old }
    requires high { length out.old < 2 ^ 32 }
    ensures { out.new ≡ hash_prime (length out.old) input.now }
{
    let len = out.len();
    let prefix = (len as u32).to_le_bytes();
    if len <= MAX_LEN {
        put(out, 0, hash(len, &prefix, input).bytes());
        return;
    }
    let half_count = len.div_ceil(HALF_LEN) - 2;
    let mut v = hash(MAX_LEN, &prefix, input);
    put(out, 0, first_half(&v));
    for i in 1..half_count {
        v = hash(MAX_LEN, v.bytes(), &[]);
        put(out, HALF_LEN * i, first_half(&v));
    }
    let last = hash(len - HALF_LEN * half_count, v.bytes(), &[]);
    put(out, HALF_LEN * half_count, last.bytes());
}

/// Returns H' of `input`, `len` bytes long.
///
/// Errors: `OutLen` if `len` is 0; `Memory` if there is not enough for the result.
pub fn hprime(alloc: Global, len: u32, input: &[u8]) -> Result<Vec<u8>, BlakeError>
    ensures out_len { (result ≡ Err BlakeError.OutLen) ↔ (len ≡ 0) }
    ensures no_other { (result ≡ Err BlakeError.KeyLen) → ⊥ }
    ensures value { IfOk result (λ v. v.items ≡ hash_prime len input.now) }
    ensures len { IfOk result (λ v. vec_len v ≡ len) }
{
    if len == 0 {
        return Err(BlakeError::OutLen);
    }
    let mut out = vec![in alloc; 0; len as usize]?;
    write_hash_prime(&mut out, input);
    Ok(out)
}

/// Returns H' of `input`, 1024 bytes long: a block of Argon2. The call allocates no memory.
pub fn hprime_block(input: &[u8]) -> [u8; 1024]
    ensures { result ≡ hash_prime 1024 input.now }
{
    let mut out = [0; 1024];
    write_hash_prime(&mut out, input);
    out
}
