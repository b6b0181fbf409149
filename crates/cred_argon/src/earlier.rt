//! The blocks that the work on a lane's segment reads: the one before in the lane, and any of the
//! slices before (RFC 9106, section 3.4).
ghost use Rattle.std.specs.Prelude.{◌≡◌, ℕ, ◌+◌, ◌-◌, ◌*◌, ◌/◌, ◌%◌, ◌<◌, ◌≤◌, List, length};
ghost use Rattle.cred_argon.specs.{declared.block.Block.Block, declared.place.Place.Place};
ghost use Rattle.cred_argon.specs.declared.params.TheConstants.{MAX_MEMORY};
ghost use Rattle.cred_argon.specs.{Parameters.segment_len, Places.place, Times.IsBefore, Cells.cell, Cells.previous};
ghost use Rattle.cred_argon.specs.Turns.{first_offset, number, place_in, DoneHolds, IsReadable};
ghost use Rattle.cred_argon.specs.Segments.{IsShaped, SharedHolds};

use crate::block::Block;
use crate::position::Reference;
use crate::segment::Shared;
use crate::slice::Slice;

/// Returns the block before the due one in its lane.
pub(crate) fn block_before<'a, S: Slice>(
    shared: &'a Shared<S>,
    lane: u32,
    done: &'a [Block],
) -> &'a Block
    requires shaped { IsShaped S.is_full shared.now }
    requires lane { lane < shared.now.turn.params.lanes }
    requires computed { first_offset shared.now.turn ≤ length done.now }
    ensures { (h : List ℕ) → SharedHolds S.holds h shared.now
        → DoneHolds h shared.now.turn lane done.now
        → result.now.0 ≡ cell shared.now.turn.params h
        (previous (segment_len shared.now.turn.params)
        (place_in shared.now.turn lane (length done.now))) }
{
    if done.is_empty() {
        let last = shared.turn.params.segment_len() - 1;
        shared.newest.block_of(&shared.turn.params, lane, last)
    } else {
        &done[done.len() - 1]
    }
}

/// Returns the slice of a column, and the column's offset in that slice: a division by few
/// comparisons.
pub(crate) fn slice_and_offset(column: u32, segment_len: u32) -> (u32, u32)
    requires some { 0 < segment_len }
    requires column { column < 4 * segment_len }
    requires fits { 4 * segment_len ≤ MAX_MEMORY }
    ensures few { result.0 < 4 }
    ensures slice { result.0 ≡ column / segment_len }
    ensures offset { result.1 ≡ column % segment_len }
{
    let (pairs, rest) = past(column, 2 * segment_len);
    let (more, offset) = past(rest, segment_len);
    (2 * pairs + more, offset)
}

/// Returns 1 if a number below two bounds has reached the bound, otherwise 0, and the rest above
/// the bound.
fn past(x: u32, bound: u32) -> (u32, u32)
    requires { x < 2 * bound }
    ensures few { result.0 ≤ 1 }
    ensures below { result.1 < bound }
    ensures sum { result.0 * bound + result.1 ≡ x }
{
    if x < bound { (0, x) } else { (1, x - bound) }
}

/// Returns the block that the due one refers to.
pub(crate) fn block_at<'a, S: Slice>(
    shared: &'a Shared<S>,
    lane: u32,
    done: &'a [Block],
    reference: &Reference,
) -> &'a Block
    requires shaped { IsShaped S.is_full shared.now }
    requires offset { length done.now < segment_len shared.now.turn.params }
    requires readable { IsReadable shared.now.turn lane (length done.now) reference.now }
    ensures { (p : Place)
        → IsBefore (segment_len shared.now.turn.params) shared.now.turn.params.lanes
        (place_in shared.now.turn lane (length done.now)) p
        → p.lane ≡ reference.now.lane → p.column ≡ reference.now.column
        → (h : List ℕ) → SharedHolds S.holds h shared.now
        → DoneHolds h shared.now.turn lane done.now
        → result.now.0 ≡ cell shared.now.turn.params h p }
{
    let segment_len = shared.turn.params.segment_len();
    let (slice, offset) = slice_and_offset(reference.column, segment_len);
    let back = (shared.turn.slice + 4 - slice) % 4;
    if back == 0 {
        &done[offset as usize]
    } else {
        earlier_block(shared, slice, back, reference.lane, offset)
    }
}

/// Returns a block of another slice, so many slices back.
pub(crate) fn earlier_block<S: Slice>(
    shared: &Shared<S>,
    slice: u32,
    back: u32,
    lane: u32,
    offset: u32,
) -> &Block
    requires shaped { IsShaped S.is_full shared.now }
    requires lane { lane < shared.now.turn.params.lanes }
    requires offset { offset < segment_len shared.now.turn.params }
    requires slice { slice < 4 }
    requires back { back ≡ (shared.now.turn.slice + 4 - slice) % 4 }
    requires some { 0 < back }
    requires worked { back ≤ number shared.now.turn }
    ensures { (h : List ℕ) → SharedHolds S.holds h shared.now
        → result.now.0 ≡ cell shared.now.turn.params h
        (place ((number shared.now.turn - back) / 4) lane
        ((number shared.now.turn - back) % 4 * segment_len shared.now.turn.params + offset)) }
{
    earlier_slice(shared, slice, back).block_of(&shared.turn.params, lane, offset)
}

/// Returns the slice itself, by comparisons with numbers that the compiler doesn't know. The
/// compiler would turn a `match` on `back` into a jump, which a processor predicts wrong three
/// times of four.
fn earlier_slice<S: Slice>(shared: &Shared<S>, slice: u32, back: u32) -> &S
    requires shaped { IsShaped S.is_full shared.now }
    requires slice { slice < 4 }
    requires back { back ≡ (shared.now.turn.slice + 4 - slice) % 4 }
    requires some { 0 < back }
    requires worked { back ≤ number shared.now.turn }
    ensures full { S.is_full shared.now.turn.params result.now }
    ensures holds { (h : List ℕ) → SharedHolds S.holds h shared.now
        → S.holds shared.now.turn.params h (number shared.now.turn - back) result.now }
{
    if slice == (shared.turn.slice + 3) % 4 {
        &shared.newest
    } else if slice == (shared.turn.slice + 2) % 4 {
        &shared.middle
    } else {
        &shared.oldest
    }
}
