//! A block of a message that is being filled.

ghost use Rattle.std.specs.Prelude.{◌≡◌, ◌+◌, ◌≤◌, List, [], ◌++◌, ℕ, length, take};
ghost use Rattle.cred_blake.specs.Blake2b.{padded_block};

use crate::compress::BLOCK_LEN;
use std::marker::Model;

const ZEROS: [u8; BLOCK_LEN] = [0; BLOCK_LEN];

/// The bytes of a block so far, at most 128.
#[derive(Drop)]
pub(crate) struct Buffer {
    bytes: [u8; BLOCK_LEN],
    len: usize,
}

impl Model for Buffer {
    ghost Value = { List ℕ };

    ghost view = { λ b. take b.len b.bytes };

    ghost invariant = { λ b. b.len ≤ 128 };
}

impl Buffer {
    /// Returns a buffer with no bytes.
    pub(crate) fn new() -> Buffer
        ensures { result ≡ [] }
    {
        Buffer {
            bytes: ZEROS,
            len: 0,
        }
    }

    /// Returns the number of bytes.
    pub(crate) fn len(&self) -> usize
        ensures exact { result ≡ length self.now }
        ensures fits { result ≤ BLOCK_LEN }
    {
        self.len
    }

    /// Returns the bytes so far.
    pub(crate) fn bytes(&self) -> &[u8]
        ensures { result.now ≡ self.now }
    {
        &self.bytes[..self.len]
    }

    /// Empties the block.
    pub(crate) fn clear(&mut self)
        ensures { self.new ≡ [] }
    {
        self.len = 0;
    }

    /// Appends `input`, which has to fit.
    pub(crate) fn extend(&mut self, input: &[u8])
        requires { length self.old + length input.now ≤ BLOCK_LEN }
        ensures { self.new ≡ self.old ++ input.now }
    {
        let end = self.len + input.len();
        self.bytes[self.len..end].copy_from_slice(input);
        self.len = end;
    }

    /// Pads the block with zeros.
    pub(crate) fn pad(&mut self)
        ensures { self.new ≡ padded_block self.old }
    {
        let room = BLOCK_LEN - self.len();
        self.extend(&ZEROS[..room]);
    }
}
