//! The digest of a message (RFC 7693, section 3.3).

ghost use Rattle.std.specs.Prelude.{◌≡◌, ◌≤◌, List, ℕ, take};
ghost use Rattle.cred_blake.specs.Words.{bytes_of};

use std::marker::Model;

/// The maximum length of a digest and of a key, in bytes (RFC 7693, section 2.1).
pub(crate) const MAX_LEN: usize = 64;

/// The digest of a message, 1 to 64 bytes.
#[derive(Drop)]
pub struct Digest {
    bytes: [u8; MAX_LEN],
    len: usize,
}

impl Model for Digest {
    ghost Value = { List ℕ };

    ghost view = { λ d. take d.len d.bytes };

    ghost invariant = { λ d. d.len ≤ 64 };
}

impl Digest {
    /// Returns the first `len` bytes of a state.
    #[tactic(auto, unfolding(crate::specs::Words::bytes_of))]
    pub(crate) fn of_state(h: &[u64; 8], len: usize) -> Digest
        requires { len ≤ MAX_LEN }
        ensures { result ≡ take len (bytes_of h.now) }
    {
        let mut bytes = [0; MAX_LEN];
        for i in 0..8 {
            bytes[8 * i..8 * i + 8].copy_from_slice(&h[i].to_le_bytes());
        }
        Digest { bytes, len }
    }

    /// Returns the bytes of the digest, as many as `Blake2b::new` was asked for.
    pub fn bytes(&self) -> &[u8]
        ensures { result.now ≡ self.now }
    {
        &self.bytes[..self.len]
    }
}
