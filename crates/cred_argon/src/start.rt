//! The memory before it is filled: room for all blocks, and the first two blocks of each lane (RFC
//! 9106, section 3.2, steps 2 to 4).
ghost use Rattle.std.specs.Prelude.{◌≡◌, ℕ, ◌+◌, ◌<◌, ◌≤◌, List, [], ◌∷◌, ◌++◌, length, slice_index_or, vec_len, vec_capacity, IfOk};
ghost use Rattle.cred_argon.specs.{declared.block.Block.Block, declared.segment.Segment.Segment, Parameters.segment_len, Segments.IsSlice};
ghost use Rattle.cred_argon.specs.{Slices.IsMemory, Slices.MemoryHolds, Slices.IsEmptySlice, Slices.IsBegun, Cells.first_cell};

use crate::inputs::first_block;
use crate::memory::Memory;
use crate::params::Params;
use crate::scratch::ArgonScratch;
use crate::segment::{Segment, Shared};
use crate::turn::Turn;
use std::alloc::{AllocError, Global};

/// Returns the memory with the first two blocks of each lane, from the first hash. The function
/// uses the memory that the scratch has kept.
pub(crate) fn start(
    alloc: Global,
    scratch: &mut ArgonScratch,
    params: &Params,
    hash: &[u8],
) -> Result<Memory, AllocError>
    requires { length hash.now ≡ 64 }
    ensures most { scratch.new ≡ scratch.old }
    ensures params { IfOk result (λ m. m.shared.turn.params ≡ params.now) }
    ensures shape { IfOk result (λ m. IsMemory 0 m) }
    ensures holds { IfOk result (λ m. MemoryHolds hash.now 0 m) }
{
    let lanes = params.lanes();
    let segment_len = params.segment_len();
    let mut current = empty_slice(alloc, scratch, lanes, segment_len)?;
    let shared = Shared {
        turn: Turn {
            params: *params,
            pass: 0,
            slice: 0,
        },
        oldest: empty_slice(alloc, scratch, lanes, segment_len)?,
        middle: empty_slice(alloc, scratch, lanes, segment_len)?,
        newest: empty_slice(alloc, scratch, lanes, segment_len)?,
    };
    begin_segments(params, &mut current, hash);
    Ok(Memory { current, shared })
}

/// Returns a segment for each lane, with room for its blocks.
fn empty_slice(
    alloc: Global,
    scratch: &mut ArgonScratch,
    lanes: u32,
    segment_len: u32,
) -> Result<Vec<Segment>, AllocError>
    ensures most { scratch.new ≡ scratch.old }
    ensures made { IfOk result (λ v. IsEmptySlice segment_len lanes v.items) }
{
    let mut segments = Vec::with_capacity(alloc, lanes as usize)?;
    'lanes: for lane in 0..lanes {
        let blocks = scratch.take(alloc, segment_len as usize)?;
        segments.push(Segment { lane, blocks })?;
    }
    Ok(segments)
}

/// Computes the first two blocks of each lane.
fn begin_segments(params: &Params, segments: &mut [Segment], hash: &[u8])
    requires hash { length hash.now ≡ 64 }
    requires some { 2 ≤ segment_len params.now }
    requires empty { IsEmptySlice (segment_len params.now) params.now.lanes segments.old }
    ensures { IsBegun params.now hash.now params.now.lanes segments.new }
{
    'lanes: for lane in 0..params.lanes() {
        begin(&mut segments[lane as usize], hash);
    }
}

/// Computes the first two blocks of a lane.
fn begin(segment: &mut Segment, hash: &[u8])
    requires hash { length hash.now ≡ 64 }
    requires empty { vec_len segment.old.blocks ≡ 0 }
    requires room { 2 ≤ vec_capacity segment.old.blocks }
    ensures lane { segment.new.lane ≡ segment.old.lane }
    ensures len { vec_len segment.new.blocks ≡ 2 }
    ensures room { vec_capacity segment.old.blocks ≤ vec_capacity segment.new.blocks }
    ensures first { (i : ℕ) (d : Block) → i < 2
        → (slice_index_or segment.new.blocks.items i d).0 ≡ first_cell hash.now segment.old.lane i }
{
    let first = first_block(hash, segment.lane, 0);
    let second = first_block(hash, segment.lane, 1);
    segment.blocks.push_reserved(first);
    segment.blocks.push_reserved(second);
}
