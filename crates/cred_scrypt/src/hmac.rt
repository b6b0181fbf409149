//! HMAC-SHA-256 (RFC 2104, section 2). An `Hmac` keeps a key's hashers, so the code processes the
//! key once for many messages.
ghost use Rattle.std.specs.Prelude.{◌≡◌, ℕ, ◌≤◌, ◌++◌, List, length, drop};
ghost use Rattle.sha2.specs.Hashers.{Holds256};
ghost use Rattle.cred_scrypt.specs.Hmac.{hmac, inner_pad, key_block, xor_with_byte};

use crate::xor::xor_bytes;
use sha2::{Digest, Sha256};

/// The length of a block of SHA-256 in bytes.
const BLOCK: usize = 64;

/// The masks of the key in the inner and the outer hash, ipad and opad (RFC 2104, section 2).
const INNER: u8 = 0x36;

const OUTER: u8 = 0x5c;

/// Computes HMAC-SHA-256 (RFC 2104, section 2) of `msg` under `key`: 32 bytes. Key and message may
/// have any length.
pub fn hmac_sha256(key: &[u8], msg: &[u8]) -> [u8; 32]
    ensures { result ≡ hmac key.now msg.now }
{
    let mac = Hmac::new(key);
    let mut hasher = mac.begin();
    hasher.update(msg);
    mac.finish(hasher)
}

/// The inner and outer hasher of a key, each after its first block.
#[derive(Drop)]
pub(crate) struct Hmac {
    inner: Sha256,
    outer: Sha256,
}

impl Hmac {
    ghost use Rattle.cred_scrypt.specs.Keyed.{IsKeyed};

    /// Returns the hashers of `key`.
    pub(crate) fn new(key: &[u8]) -> Hmac
        ensures { IsKeyed key.now result }
    {
        let block = key_block(key);
        Hmac {
            inner: hasher_of(&masked(&block, INNER)),
            outer: hasher_of(&masked(&block, OUTER)),
        }
    }

    /// Returns a hasher for a message. Feed it the message, and then hand it to `finish`.
    pub(crate) fn begin(&self) -> Sha256
        ensures { (key : List ℕ) → IsKeyed key self.now → Holds256 result (inner_pad key) }
    {
        copy_of(&self.inner)
    }

    /// Returns the HMAC of the message that the caller fed to `hasher` after `begin`.
    pub(crate) fn finish(&self, hasher: Sha256) -> [u8; 32]
        ensures { (key message : List ℕ) → IsKeyed key self.now
            → Holds256 hasher (inner_pad key ++ message)
            → result ≡ hmac key message }
    {
        let mut outer = copy_of(&self.outer);
        outer.update(&hasher.finalize());
        outer.finalize()
    }
}

/// Returns the key, or its digest if the key is longer than a block, padded with zeros.
fn key_block(key: &[u8]) -> [u8; 64]
    ensures { result ≡ key_block key.now }
{
    let mut block = [0; BLOCK];
    if key.len() > BLOCK {
        put(&mut block, &Sha256::digest(key));
    } else {
        put(&mut block, key);
    }
    block
}

/// Writes `piece` over the start of a block.
fn put(block: &mut [u8; 64], piece: &[u8])
    requires { length piece.now ≤ 64 }
    ensures { block.new ≡ piece.now ++ drop (length piece.now) block.old }
{
    block[..piece.len()].copy_from_slice(piece);
}

/// Returns each byte of `block` XOR `mask`.
fn masked(block: &[u8; 64], mask: u8) -> [u8; 64]
    ensures { result ≡ xor_with_byte mask block.now }
{
    let mut out = *block;
    xor_bytes(&mut out, &[mask; BLOCK]);
    out
}

/// Returns a hasher after `message`.
fn hasher_of(message: &[u8]) -> Sha256
    ensures { Holds256 result message.now }
{
    Sha256::new_with_prefix(message)
}

/// Copies a hasher. The copy allocates no memory, so it can't fail.
fn copy_of(hasher: &Sha256) -> Sha256
    ensures { result ≡ hasher.now }
{
    match hasher.clone() {
        Ok(copy) => copy,
        Err(_) => unreachable!(),
    }
}
