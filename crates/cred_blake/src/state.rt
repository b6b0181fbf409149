//! The state of BLAKE2b between the blocks of a message (RFC 7693, section 3.3).

ghost use Rattle.std.specs.Prelude.{◌≡◌, ◌+◌, ◌^◌, ◌%◌, ◌≤◌, length, true, false};
ghost use Rattle.cred_blake.specs.Blake2b.{compress, initial_state};

use crate::compress::{BLOCK_LEN, IV, compress};

/// The fanout and the depth in the parameter block, both 1: sequential mode, no tree (RFC 7693,
/// section 2.5).
const SEQUENTIAL: u64 = 0x01010000;

/// The state after the blocks so far, and the number of bytes of those blocks.
#[derive(Drop)]
pub(crate) struct State {
    pub(crate) h: [u64; 8],
    pub(crate) counter: u128,
}

impl State {
    /// Returns the state before the first block, for a digest and a key of these lengths, in bytes.
    #[tactic(auto, unfolding(crate::specs::Blake2b::initial_state))]
    pub(crate) fn new(out_len: usize, key_len: usize) -> State
        requires { key_len ≤ 64 }
        ensures h { result.h ≡ initial_state out_len key_len }
        ensures counter { result.counter ≡ 0 }
    {
        let mut h = IV;
        h[0] ^= SEQUENTIAL ^ ((key_len as u64) << 8) ^ out_len as u64;
        State { h, counter: 0 }
    }

    /// Absorbs a block that is not the last.
    pub(crate) fn absorb(&mut self, block: &[u8])
        requires { length block.now ≡ BLOCK_LEN }
        ensures h { self.new.h ≡ compress self.old.h block.now self.new.counter false }
        ensures counter { self.new.counter ≡ (self.old.counter + 128) % 2 ^ 128 }
    {
        self.counter = self.counter.wrapping_add(BLOCK_LEN as u128);
        compress(&mut self.h, block, self.counter, false);
    }

    /// Absorbs the last block. Its first `len` bytes are the message's; the rest are padding.
    pub(crate) fn absorb_last(&mut self, block: &[u8], len: usize)
        requires { length block.now ≡ BLOCK_LEN }
        ensures { self.new.h
            ≡ compress self.old.h block.now ((self.old.counter + len) % 2 ^ 128) true }
    {
        let counter = self.counter.wrapping_add(len as u128);
        compress(&mut self.h, block, counter, true);
    }
}
