//! Memory that is kept from hash to hash.
ghost use Rattle.std.specs.Prelude.{◌≡◌, ◌≤◌, IfOk, IfSome, vec_len, vec_capacity};
ghost use Rattle.cred_argon.specs.Scratches.{IsWiped};

use crate::block::Block;
use crate::segment::Segment;
use std::alloc::{AllocError, Global};
use std::marker::Model;

/// Memory for hashes that [`argon2_in`](crate::argon2_in) computes one after another. The scratch
/// keeps the memory from hash to hash, up to a bound, with zeros in its whole room.
#[derive(Drop)]
pub struct ArgonScratch {
    /// The most blocks that are kept. A block is one KiB.
    most: usize,
    /// The number of blocks for which the spare buffers have room.
    kept: usize,
    spare: Vec<Vec<Block>>,
}

impl Model for ArgonScratch {
    ghost use Rattle.std.specs.Prelude.{ℕ};
    ghost use Rattle.cred_argon.specs.Scratches.{IsScratch};

    ghost Value = { ℕ };

    ghost view = { λ s. s.most };

    ghost invariant = { λ s. IsScratch s.most s.kept s.spare.items };
}

impl ArgonScratch {
    /// Returns a scratch without memory. Between two hashes it keeps at most `most` KiB: a hash
    /// that uses more frees the rest.
    pub fn new(alloc: Global, most: u32) -> ArgonScratch
        ensures { result ≡ most }
    {
        ArgonScratch {
            most: most as usize,
            kept: 0,
            spare: Vec::new(alloc),
        }
    }

    /// Returns the number of KiB that are kept now.
    pub fn kept(&self) -> usize
        ensures { result ≤ self.now }
    {
        self.kept
    }

    /// Returns an empty buffer with room for so many blocks, and uses a spare one if possible.
    pub(crate) fn take(&mut self, alloc: Global, len: usize) -> Result<Vec<Block>, AllocError>
        ensures most { self.new ≡ self.old }
        ensures none { IfOk result (λ blocks. vec_len blocks ≡ 0) }
        ensures room { IfOk result (λ blocks. len ≤ vec_capacity blocks) }
    {
        let mut blocks = match self.spare.pop() {
            Some(spare) => spare,
            None => Vec::new(alloc),
        };
        self.kept -= blocks.capacity();
        blocks.clear();
        blocks.reserve_exact(len)?;
        Ok(blocks)
    }

    /// Keeps the blocks of a slice.
    pub(crate) fn keep_slice(&mut self, slice: Vec<Segment>)
        ensures { self.new ≡ self.old }
    {
        'segments: for segment in slice {
            self.keep(segment.blocks);
        }
    }

    /// Keeps a buffer, wiped, if the bound has room for it. Otherwise frees the buffer.
    fn keep(&mut self, blocks: Vec<Block>)
        ensures { self.new ≡ self.old }
    {
        let most = self.most - self.kept;
        if blocks.capacity() > most {
            return;
        }
        let Some(blocks) = wiped(blocks) else {
            return;
        };
        let room = blocks.capacity();
        if room <= most && self.spare.push(blocks).is_ok() {
            self.kept += room;
        }
    }
}

/// Returns the buffer with zeros in its whole room. The zeros stay in the buffer, so the compiler
/// can't leave them out. A resize within the room moves nothing, but no clause says so: if it moved
/// the buffer, the function would return none.
fn wiped(mut blocks: Vec<Block>) -> Option<Vec<Block>>
    ensures { IfSome result (λ blocks. IsWiped blocks) }
{
    blocks.clear();
    let room = blocks.capacity();
    blocks.resize(room, Block::ZERO).ok()?;
    if blocks.capacity() > room {
        return None;
    }
    Some(blocks)
}
