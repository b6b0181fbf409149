//! Argon2 in parts, for a caller who works the lanes in threads of its own (RFC 9106, section 3.4).
//! The memory is four slices of blocks, each with the segments of its lanes one after another.
ghost use Rattle.std.specs.Prelude.{◌≡◌, ℕ, ◌+◌, ◌-◌, ◌*◌, ◌<◌, ◌≤◌, ◌↔◌, List, IfOk, IfErr, length, slice_index_or, take, drop};
ghost use Rattle.cred_argon.specs.{declared.block.Block.Block, Parameters.Parameters, Parameters.segment_len, Argon.argon, Argon.first_hash, Tags.IsAnyTooLong};
ghost use Rattle.cred_argon.specs.Lanes.{HoldsBlocks, HoldsFirstBlocks, WorksSegment};

use crate::block::Block;
use crate::error::ArgonError;
use crate::flat_slice::{FlatSlice, segment_start};
use crate::inputs::{Inputs, first_block, first_hash, is_any_too_long};
use crate::params::Params;
use crate::segment::{Shared, work_segment, work_segments};
use crate::tag::tag_of;
use crate::turn::Turn;
use std::alloc::Global;

/// The pass, the slice (0 to 3) and the lane of a segment. All three are counted from 0.
#[repr(C)]
#[derive(Clone, Copy, Debug, PartialEq, Eq)]
pub struct SegmentIndex {
    pub pass: u32,
    pub slice: u32,
    pub lane: u32,
}

/// The three slices before the current one: `newest` is the slice before it, and `oldest` the slice
/// after it, as the pass before left that slice. On the first pass no call reads the slices that
/// haven't been worked yet.
#[derive(Clone, Copy, Drop)]
pub struct EarlierSlices<'a> {
    pub oldest: &'a [Block],
    pub middle: &'a [Block],
    pub newest: &'a [Block],
}

/// Writes the first two blocks of each lane into the first slice (RFC 9106, section 3.2, steps 1 to
/// 4). The slice's other blocks may be anything.
///
/// Errors: `InputLen` if an input has 2^32 bytes or more; `first` then stays as it was.
pub fn begin_lanes(
    params: &Params,
    inputs: &Inputs<'_>,
    first: &mut [Block],
) -> Result<(), ArgonError>
    requires { length first.old ≡ params.now.lanes * segment_len params.now }
    ensures made { IfOk result (λ _. HoldsFirstBlocks params.now (first_hash params.now
        inputs.now.pw.now inputs.now.salt.now inputs.now.secret.now inputs.now.assoc.now)
        params.now.lanes first.new) }
    ensures input_len { (result ≡ Err ArgonError.InputLen) ↔ IsAnyTooLong
        inputs.now.pw.now inputs.now.salt.now inputs.now.secret.now inputs.now.assoc.now }
    ensures err { IfErr result (λ e. (e ≡ ArgonError.InputLen) × (first.new ≡ first.old)) }
{
    if is_any_too_long(inputs) {
        return Err(ArgonError::InputLen);
    }
    let hash = first_hash(params, inputs);
    write_first_blocks(params, hash.bytes(), first);
    Ok(())
}

/// Writes the first two blocks of each lane from the first hash.
fn write_first_blocks(params: &Params, hash: &[u8], first: &mut [Block])
    requires hash { length hash.now ≡ 64 }
    requires room { length first.old ≡ params.now.lanes * segment_len params.now }
    ensures { HoldsFirstBlocks params.now hash.now params.now.lanes first.new }
{
    'lanes: for lane in 0..params.lanes() {
        let start = segment_start(params, lane);
        first[start] = first_block(hash, lane, 0);
        first[start + 1] = first_block(hash, lane, 1);
    }
}

/// Works a segment (RFC 9106, section 3.2, steps 5 and 6). `own` are the segment's blocks. On the
/// first pass these may be anything, but for the first two of a lane. On a later pass they are the
/// blocks of the pass before.
///
/// If the earlier slices have been worked, the blocks are the standard's after the call. Segments
/// of one slice read nothing of each other, so threads may work them at the same time.
pub fn work_lane(
    params: &Params,
    index: SegmentIndex,
    earlier: &EarlierSlices<'_>,
    own: &mut [Block],
)
    requires slice { index.slice < 4 }
    requires lane { index.lane < params.now.lanes }
    requires oldest { length earlier.now.oldest.now ≡ params.now.lanes * segment_len params.now }
    requires middle { length earlier.now.middle.now ≡ params.now.lanes * segment_len params.now }
    requires newest { length earlier.now.newest.now ≡ params.now.lanes * segment_len params.now }
    requires own { length own.old ≡ segment_len params.now }
    ensures { (h : List ℕ)
        → WorksSegment params.now h (4 * index.pass + index.slice) index.lane
        earlier.now.oldest.now earlier.now.middle.now earlier.now.newest.now own.old own.new }
{
    let shared = shared_by_lanes(params, index, earlier);
    work_segment(&shared, index.lane, own);
}

/// Works the segment of an index, and that of the next lane, a block of each in turn. While the
/// thread computes one lane's block, the memory brings the block that the other lane's next one
/// refers to. `own` are the blocks of both, one segment behind the other. The call works each
/// segment as `work_lane` does.
pub fn work_two_lanes(
    params: &Params,
    index: SegmentIndex,
    earlier: &EarlierSlices<'_>,
    own: &mut [Block],
)
    requires slice { index.slice < 4 }
    requires lane { index.lane + 1 < params.now.lanes }
    requires oldest { length earlier.now.oldest.now ≡ params.now.lanes * segment_len params.now }
    requires middle { length earlier.now.middle.now ≡ params.now.lanes * segment_len params.now }
    requires newest { length earlier.now.newest.now ≡ params.now.lanes * segment_len params.now }
    requires own { length own.old ≡ 2 * segment_len params.now }
    ensures first { (h : List ℕ)
        → WorksSegment params.now h (4 * index.pass + index.slice) index.lane
        earlier.now.oldest.now earlier.now.middle.now earlier.now.newest.now
        (take (segment_len params.now) own.old) (take (segment_len params.now) own.new) }
    ensures second { (h : List ℕ)
        → WorksSegment params.now h (4 * index.pass + index.slice) (index.lane + 1)
        earlier.now.oldest.now earlier.now.middle.now earlier.now.newest.now
        (drop (segment_len params.now) own.old) (drop (segment_len params.now) own.new) }
{
    let shared = shared_by_lanes(params, index, earlier);
    let (first, second) = own.split_at_mut(params.segment_len() as usize);
    work_segments(&shared, index.lane, first, second);
}

/// Returns the values that the lanes of a slice share while it is worked.
fn shared_by_lanes<'a>(
    params: &Params,
    index: SegmentIndex,
    earlier: &EarlierSlices<'a>,
) -> Shared<FlatSlice<'a>>
    ensures params { result.turn.params ≡ params.now }
    ensures pass { result.turn.pass ≡ index.pass }
    ensures slice { result.turn.slice ≡ index.slice }
    ensures oldest { result.oldest.blocks.now ≡ earlier.now.oldest.now }
    ensures middle { result.middle.blocks.now ≡ earlier.now.middle.now }
    ensures newest { result.newest.blocks.now ≡ earlier.now.newest.now }
{
    Shared {
        turn: Turn {
            params: *params,
            pass: index.pass,
            slice: index.slice,
        },
        oldest: FlatSlice {
            blocks: earlier.oldest,
        },
        middle: FlatSlice {
            blocks: earlier.middle,
        },
        newest: FlatSlice {
            blocks: earlier.newest,
        },
    }
}

/// Returns the tag, if `last` is the last slice after the last pass (RFC 9106, section 3.2, steps 7
/// and 8).
///
/// Errors: `Memory` if memory for the tag runs out.
pub fn tag_of_lanes(alloc: Global, params: &Params, last: &[Block]) -> Result<Vec<u8>, ArgonError>
    requires { length last.now ≡ params.now.lanes * segment_len params.now }
    ensures ok { (pw salt secret assoc : List ℕ)
        → HoldsBlocks params.now (first_hash params.now pw salt secret assoc)
        (4 * params.now.passes - 1) last.now
        → IfOk result (λ tag. tag.items ≡ argon params.now pw salt secret assoc) }
    ensures size { IfOk result (λ tag. length tag.items ≡ params.now.tag_len) }
    ensures err { IfErr result (λ e. e ≡ ArgonError.Memory) }
{
    tag_of(alloc, params, &FlatSlice { blocks: last })
}
