//! The work on a lane's segment, which reads the three slices before, and the segments of a slice
//! as parts that threads work (RFC 9106, section 3.4).
ghost use Rattle.std.specs.Prelude.{◌≡◌, ℕ, ◌+◌, ◌-◌, ◌*◌, ◌/◌, ◌%◌, ◌^◌, ◌<◌, ◌≤◌, List, length, slice_index_or, vec_len, vec_capacity};
ghost use Rattle.cred_argon.specs.{declared.block.Block.Block, declared.segment.Segment.Segment};
ghost use Rattle.cred_argon.specs.Parameters.{segment_len};
ghost use Rattle.cred_argon.specs.Cells.{cell, older};
ghost use Rattle.cred_argon.specs.{Addresses.KeepsAddresses, Addresses.ServesOffset, Addresses.word_from};
ghost use Rattle.cred_argon.specs.SegmentWork.{CanWork, Works, VecIsFull, IsWorking, IsWorkingAll};
ghost use Rattle.cred_argon.specs.Turns.{first_offset, place_in, position_in, OwnHolds, DoneHolds};
ghost use Rattle.cred_argon.specs.Segments.{IsFull, HoldsSlice, IsShaped, SharedHolds};

use crate::address::AddressBlock;
use crate::block::{Block, compress_onto, compress_over};
use crate::earlier::{block_at, block_before};
use crate::next_reference::NextReference;
use crate::params::Params;
use crate::position::Position;
use crate::reference_block::reference_from;
use crate::slice::Slice;
use crate::turn::Turn;
use cred_pool::Part;

/// The blocks of one lane in one slice. A segment has room for all of them from the start; on the
/// first pass they come one by one.
#[derive(Drop)]
pub(crate) struct Segment {
    pub(crate) lane: u32,
    pub(crate) blocks: Vec<Block>,
}

/// The values that the lanes of a slice share while it is worked: its place in the run, and the
/// three slices before.
#[derive(Drop)]
pub(crate) struct Shared<S> {
    pub(crate) turn: Turn,
    pub(crate) oldest: S,
    pub(crate) middle: S,
    pub(crate) newest: S,
}

impl Part<Shared<Vec<Segment>>> for Segment {
    ghost can_work = { CanWork };

    ghost works = { Works };

    fn work(&mut self, shared: &Shared<Vec<Segment>>) {
        let segment_len = shared.turn.params.segment_len();
        let mut addresses = None;
        'columns: for offset in shared.turn.first_offset()..segment_len {
            work_column(shared, offset, &mut addresses, self);
        }
    }
}

/// Works the segments of two lanes interleaved, a block of each in turn. While the thread computes
/// one lane's block, the memory brings the block that the other lane's next one refers to.
pub(crate) fn work_interleaved(
    shared: &Shared<Vec<Segment>>,
    first: &mut Segment,
    second: &mut Segment,
)
    requires first { CanWork shared.now first.old }
    requires second { CanWork shared.now second.old }
    ensures first { Works shared.now first.old first.new }
    ensures second { Works shared.now second.old second.new }
{
    let segment_len = shared.turn.params.segment_len();
    let mut of_first = None;
    let mut of_second = None;
    'columns: for offset in shared.turn.first_offset()..segment_len {
        work_column(shared, offset, &mut of_first, first);
        work_column(shared, offset, &mut of_second, second);
    }
}

/// Works the block of a column that is due in a segment.
fn work_column(
    shared: &Shared<Vec<Segment>>,
    offset: u32,
    addresses: &mut Option<AddressBlock>,
    segment: &mut Segment,
)
    requires shaped { IsShaped VecIsFull shared.now }
    requires some { 2 ≤ segment_len shared.now.turn.params }
    requires lane { segment.old.lane < shared.now.turn.params.lanes }
    requires offset { offset < segment_len shared.now.turn.params }
    requires computed { first_offset shared.now.turn ≤ offset }
    requires room { segment_len shared.now.turn.params ≤ vec_capacity segment.old.blocks }
    requires first { shared.now.turn.pass ≡ 0 → vec_len segment.old.blocks ≡ offset }
    requires later { 0 < shared.now.turn.pass
        → vec_len segment.old.blocks ≡ segment_len shared.now.turn.params }
    ensures { (start : Segment) (s : ℕ)
        → IsWorking shared.now start segment.old addresses.old s offset
        → IsWorking shared.now start segment.new addresses.new s (offset + 1) }
{
    extend(&shared.turn, &mut segment.blocks);
    refresh(&shared.turn, segment.lane, offset, addresses);
    work_offset(shared, segment.lane, offset, addresses, &mut segment.blocks);
}

impl Slice for Vec<Segment> {
    ghost is_full = { λ a slice. IsFull a slice.items };

    ghost holds = { λ a h g slice. HoldsSlice a h g slice.items };

    fn block_of(&self, _params: &Params, lane: u32, offset: u32) -> &Block {
        let segment = &self[lane as usize];
        &segment.blocks[offset as usize]
    }
}

/// Works a lane's segment that has all its blocks, on the first pass in any state.
pub(crate) fn work_segment<S: Slice>(shared: &Shared<S>, lane: u32, blocks: &mut [Block])
    requires shaped { IsShaped S.is_full shared.now }
    requires lane { lane < shared.now.turn.params.lanes }
    requires there { length blocks.old ≡ segment_len shared.now.turn.params }
    ensures { (h : List ℕ) → SharedHolds S.holds h shared.now
        → OwnHolds h shared.now.turn lane (first_offset shared.now.turn) blocks.old
        → OwnHolds h shared.now.turn lane (segment_len shared.now.turn.params) blocks.new }
{
    let segment_len = shared.turn.params.segment_len();
    let mut addresses = None;
    'columns: for offset in shared.turn.first_offset()..segment_len {
        work_next(shared, lane, offset, &mut addresses, blocks);
    }
}

/// Works the segments of a lane and of the next one interleaved, a block of each in turn.
pub(crate) fn work_segments<S: Slice>(
    shared: &Shared<S>,
    lane: u32,
    first: &mut [Block],
    second: &mut [Block],
)
    requires shaped { IsShaped S.is_full shared.now }
    requires lane { lane + 1 < shared.now.turn.params.lanes }
    requires first { length first.old ≡ segment_len shared.now.turn.params }
    requires second { length second.old ≡ segment_len shared.now.turn.params }
    ensures first { (h : List ℕ) → SharedHolds S.holds h shared.now
        → OwnHolds h shared.now.turn lane (first_offset shared.now.turn) first.old
        → OwnHolds h shared.now.turn lane (segment_len shared.now.turn.params) first.new }
    ensures second { (h : List ℕ) → SharedHolds S.holds h shared.now
        → OwnHolds h shared.now.turn (lane + 1) (first_offset shared.now.turn) second.old
        → OwnHolds h shared.now.turn (lane + 1) (segment_len shared.now.turn.params) second.new }
{
    let segment_len = shared.turn.params.segment_len();
    let mut of_first = None;
    let mut of_second = None;
    'columns: for offset in shared.turn.first_offset()..segment_len {
        work_next(shared, lane, offset, &mut of_first, first);
        work_next(shared, lane + 1, offset, &mut of_second, second);
    }
}

/// Works the block that is due in a lane's segment that has all its blocks.
fn work_next<S: Slice>(
    shared: &Shared<S>,
    lane: u32,
    offset: u32,
    addresses: &mut Option<AddressBlock>,
    blocks: &mut [Block],
)
    requires shaped { IsShaped S.is_full shared.now }
    requires some { 2 ≤ segment_len shared.now.turn.params }
    requires lane { lane < shared.now.turn.params.lanes }
    requires offset { offset < segment_len shared.now.turn.params }
    requires computed { first_offset shared.now.turn ≤ offset }
    requires there { length blocks.old ≡ segment_len shared.now.turn.params }
    ensures { (start : List Block) (s : ℕ)
        → IsWorkingAll S.holds shared.now lane start blocks.old addresses.old s offset
        → IsWorkingAll S.holds shared.now lane start blocks.new addresses.new s (offset + 1) }
{
    refresh(&shared.turn, lane, offset, addresses);
    work_offset(shared, lane, offset, addresses, blocks);
}

/// Adds a block to a segment's blocks on the first pass; they have room for it.
fn extend(turn: &Turn, blocks: &mut Vec<Block>)
    requires { turn.now.pass ≡ 0 → vec_len blocks.old < vec_capacity blocks.old }
    ensures items { (i : ℕ) (d : Block) → i < vec_len blocks.old
        → slice_index_or blocks.new.items i d ≡ slice_index_or blocks.old.items i d }
    ensures first { turn.now.pass ≡ 0 → vec_len blocks.new ≡ vec_len blocks.old + 1 }
    ensures later { 0 < turn.now.pass → vec_len blocks.new ≡ vec_len blocks.old }
    ensures capacity { vec_capacity blocks.old ≤ vec_capacity blocks.new }
{
    if turn.pass == 0 {
        blocks.push_reserved(Block::ZERO);
    }
}

/// Computes the address block of an offset if the words that name references come from the place
/// alone, unless `addresses` has it.
fn refresh(turn: &Turn, lane: u32, offset: u32, addresses: &mut Option<AddressBlock>)
    ensures keeps { KeepsAddresses turn.now lane addresses.old
        → KeepsAddresses turn.now lane addresses.new }
    ensures here { KeepsAddresses turn.now lane addresses.old
        → ServesOffset turn.now lane offset addresses.new }
{
    if turn.is_dependent() {
        return;
    }
    let position = turn.position(lane, offset);
    let is_there = match addresses {
        Some(kept) => kept.is_of(&position),
        None => false,
    };
    if !is_there {
        *addresses = Some(AddressBlock::at(&turn.params, &position));
    }
}

/// Works the block at an offset of a lane's segment.
fn work_offset<S: Slice>(
    shared: &Shared<S>,
    lane: u32,
    offset: u32,
    addresses: &Option<AddressBlock>,
    blocks: &mut [Block],
)
    requires shaped { IsShaped S.is_full shared.now }
    requires some { 2 ≤ segment_len shared.now.turn.params }
    requires lane { lane < shared.now.turn.params.lanes }
    requires offset { offset < segment_len shared.now.turn.params }
    requires computed { first_offset shared.now.turn ≤ offset }
    requires there { offset < length blocks.old }
    ensures { (h : List ℕ) → SharedHolds S.holds h shared.now
        → ServesOffset shared.now.turn lane offset addresses.now
        → OwnHolds h shared.now.turn lane offset blocks.old
        → OwnHolds h shared.now.turn lane (offset + 1) blocks.new }
{
    let position = shared.turn.position(lane, offset);
    let (done, rest) = blocks.split_at_mut(offset as usize);
    work_block(shared, &position, done, addresses, &mut rest[0]);
}

/// Works the block that is due, after those of its segment that are done.
fn work_block<S: Slice>(
    shared: &Shared<S>,
    position: &Position,
    done: &[Block],
    addresses: &Option<AddressBlock>,
    due: &mut Block,
)
    requires shaped { IsShaped S.is_full shared.now }
    requires some { 2 ≤ segment_len shared.now.turn.params }
    requires here { position.now ≡ position_in shared.now.turn position.now.lane (length done.now) }
    requires lane { position.now.lane < shared.now.turn.params.lanes }
    requires offset { length done.now < segment_len shared.now.turn.params }
    requires computed { first_offset shared.now.turn ≤ length done.now }
    ensures { let lane = position.now.lane in let offset = length done.now in
        (h : List ℕ) → SharedHolds S.holds h shared.now → DoneHolds h shared.now.turn lane done.now
        → ServesOffset shared.now.turn lane offset addresses.now
        → (0 < shared.now.turn.pass
        → due.old.0 ≡ cell shared.now.turn.params h (older (place_in shared.now.turn lane offset)))
        → due.new.0 ≡ cell shared.now.turn.params h (place_in shared.now.turn lane offset) }
{
    let before = block_before(shared, position.lane, done);
    let word = word_at(before, addresses, position.offset);
    let (j1, j2) = halves(word);
    let reference = reference_from(&shared.turn.params, position, j1, j2);
    let other = block_at(shared, position.lane, done, &reference);
    let next = NextReference {
        shared,
        lane: position.lane,
        offset: position.offset,
        done,
        addresses,
    };
    if shared.turn.is_fresh() {
        compress_over(before, other, due, &next);
    } else {
        compress_onto(before, other, due, &next);
    }
}

/// Returns the word that names a block's reference.
fn word_at(before: &Block, addresses: &Option<AddressBlock>, offset: u32) -> u64
    ensures { result ≡ word_from addresses.now before.now.0 (offset % 128) }
{
    match addresses {
        Some(kept) => kept.block.0[offset as usize % 128],
        None => before.0[0],
    }
}

/// Returns the low and the high half of a word.
pub(crate) fn halves(word: u64) -> (u32, u32)
    ensures low { result.0 ≡ word % 2 ^ 32 }
    ensures high { result.1 ≡ word / 2 ^ 32 }
{
    ((word & 0xffff_ffff) as u32, (word >> 32) as u32)
}
