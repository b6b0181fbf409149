//! The block that a lane's next block refers to, which is prefetched while G computes the one
//! before (RFC 9106, section 3.4).
ghost use Rattle.std.specs.Prelude.{ℕ, ◌<◌, ◌≤◌};
ghost use Rattle.cred_argon.specs.{Parameters.segment_len, Turns.first_offset, Turns.IsReadable, Segments.IsShaped};

use crate::address::AddressBlock;
use crate::block::{Block, Prefetch, prefetch_block};
use crate::earlier::{earlier_block, slice_and_offset};
use crate::position::Reference;
use crate::reference_block::reference_from;
use crate::segment::{Shared, halves};
use crate::slice::Slice;

/// The size in KiB up to which the code assumes that the memory stays in a processor's second-level
/// cache. In that cache, finding the next reference takes longer than its prefetch saves.
const CACHED_MEMORY: u32 = 1024;

/// The reference of the block that follows the one at an offset.
#[derive(Clone, Copy, Drop)]
pub(crate) struct NextReference<'a, S> {
    pub(crate) shared: &'a Shared<S>,
    pub(crate) lane: u32,
    pub(crate) offset: u32,
    pub(crate) done: &'a [Block],
    pub(crate) addresses: &'a Option<AddressBlock>,
}

impl<'a, S: Slice> Prefetch for NextReference<'a, S> {
    ghost can_prefetch = { λ next. IsShaped S.is_full next.shared.now
        × (2 ≤ segment_len next.shared.now.turn.params)
        × (next.lane < next.shared.now.turn.params.lanes)
        × (first_offset next.shared.now.turn ≤ next.offset) };

    fn prefetch(&self, first_word: u64) {
        if self.shared.turn.params.memory() > CACHED_MEMORY {
            if self.offset < self.shared.turn.params.segment_len() - 1 {
                let offset = self.offset + 1;
                let position = self.shared.turn.position(self.lane, offset);
                let (j1, j2) = halves(reference_word(first_word, self.addresses, offset));
                let reference = reference_from(&self.shared.turn.params, &position, j1, j2);
                prefetch_reference(self.shared, self.lane, offset, self.done, &reference);
            }
        }
    }
}

/// Returns the word that names the reference of an offset: a word of the block before, or of the
/// addresses. At the first offset of the next address block the function returns another word, and
/// the caller prefetches another block.
fn reference_word(first_word: u64, addresses: &Option<AddressBlock>, offset: u32) -> u64 {
    match addresses {
        Some(kept) => kept.block.0[offset as usize % 128],
        None => first_word,
    }
}

/// Prefetches the block that the one at an offset refers to, if that block is already computed.
fn prefetch_reference<S: Slice>(
    shared: &Shared<S>,
    lane: u32,
    offset: u32,
    done: &[Block],
    reference: &Reference,
)
    requires shaped { IsShaped S.is_full shared.now }
    requires offset { offset < segment_len shared.now.turn.params }
    requires readable { IsReadable shared.now.turn lane offset reference.now }
{
    let segment_len = shared.turn.params.segment_len();
    let (slice, place) = slice_and_offset(reference.column, segment_len);
    let back = (shared.turn.slice + 4 - slice) % 4;
    if back == 0 {
        if (place as usize) < done.len() {
            prefetch_block(&done[place as usize]);
        }
    } else {
        prefetch_block(earlier_block(shared, slice, back, reference.lane, place));
    }
}
