//! An Argon2 tag in parts, for a caller who works the lanes in threads of its own. The memory is
//! four slices of blocks, each with the segments of its lanes one after another. Segment g of a
//! lane, counted over all passes, belongs to pass g / 4 and slice g % 4. The caller works this
//! segment once, after all segments of slice g - 1.
ghost use Rattle.std.specs.Prelude.{◌≡◌, ℕ, ◌+◌, ◌*◌, ◌<◌, ◌≤◌, ◌↔◌, ◌⊎◌, List, length, take, drop, IsTrue};
ghost use Rattle.cred_argon.specs.{Argon.argon, Lanes.WorksSegment, Parameters.Parameters, Parameters.segment_len};
ghost use Rattle.cred_c.specs.Lanes.{AreSlices, AreTwoSegments, IsBegun, IsFilled, IsNumbersFault, IsSegment, IsSlice, StandFor, TagInputs, part_fault_number, slices_before, tag_inputs};
ghost use Rattle.cred_c.specs.declared.part_fault.PartFault.{PartFault};

use crate::numbers::{DONE, NO_PLACE, argon_number};
use crate::tag_numbers::{TagNumbers, params_of};
use cred_argon::{
    Block, EarlierSlices, Inputs, Params, SegmentIndex, begin_lanes, tag_of_lanes, work_lane,
    work_two_lanes,
};
use std::alloc::Global;

/// Writes the number of blocks of a segment into `segment`. A slice has as many blocks for each
/// lane, and the memory has four slices.
///
/// Answers 0, or the first of these faults: 12 for a wrong kind, 13 for a wrong version, 14 for
/// `lanes`, 15 for `memory`, 16 for `passes` and 17 for `tag_len`.
#[unsafe(no_mangle)]
pub extern "C" fn cred_argon2_segment_len(numbers: &TagNumbers, segment: &mut u32) -> u8
    ensures len { (a : Parameters) → StandFor numbers.now a
        → (result ≡ 0) × (segment.new ≡ segment_len a) }
    ensures fault { (f : PartFault) → IsNumbersFault numbers.now f
        → result ≡ part_fault_number f }
    ensures kept { (result ≡ 0 → ⊥) → segment.new ≡ segment.old }
{
    match params_of(numbers) {
        Ok(params) => {
            *segment = params.segment_len();
            DONE
        }
        Err(fault) => fault.number(),
    }
}

/// Writes the first two blocks of each lane into the first slice, whose other blocks may be
/// anything.
///
/// Answers 0, or the first of these faults: 12 to 17 as above, 27 if `first` isn't a slice, and 18
/// if an input has 2^32 bytes or more.
#[unsafe(no_mangle)]
pub extern "C" fn cred_argon2_begin(
    numbers: &TagNumbers,
    inputs: &Inputs<'_>,
    first: &mut [Block],
) -> u8
    ensures begun { (a : Parameters) → StandFor numbers.now a
        → IsBegun a (tag_inputs inputs.now) result first.old first.new }
    ensures fault { (f : PartFault) → IsNumbersFault numbers.now f
        → result ≡ part_fault_number f }
    ensures kept { (result ≡ 0 → ⊥) → first.new ≡ first.old }
{
    match params_of(numbers) {
        Ok(params) => begin(&params, inputs, first),
        Err(fault) => fault.number(),
    }
}

/// Writes these blocks for parameters.
pub(crate) fn begin(params: &Params, inputs: &Inputs<'_>, first: &mut [Block]) -> u8
    ensures { IsBegun params.now (tag_inputs inputs.now) result first.old first.new }
{
    if !is_slice(params, first) {
        return NO_PLACE;
    }
    match begin_lanes(params, inputs, first) {
        Ok(()) => DONE,
        Err(error) => argon_number(error),
    }
}

/// Works a segment. `own` are its blocks. On the first pass these may be anything, except the first
/// two of a lane, and on later passes they are those of the pass before. `newest`, `middle` and
/// `oldest` are the slices one, two and three before the segment. Blocks that nobody has worked yet
/// may be anything.
///
/// Answers 0, or the first of these faults: 12 to 17 as above, and 27 if there is no such slice or
/// lane, or the blocks aren't those of three slices and a segment.
#[unsafe(no_mangle)]
pub extern "C" fn cred_argon2_segment(
    numbers: &TagNumbers,
    index: &SegmentIndex,
    oldest: &[Block],
    middle: &[Block],
    newest: &[Block],
    own: &mut [Block],
) -> u8
    ensures worked { (a : Parameters) → StandFor numbers.now a
        → IsSegment a index.now (slices_before oldest.now middle.now newest.now) own.old
        → (result ≡ 0) × ((h : List ℕ)
        → WorksSegment a h (4 * index.now.pass + index.now.slice) index.now.lane
        oldest.now middle.now newest.now own.old own.new) }
    ensures place { (a : Parameters) → StandFor numbers.now a
        → (IsSegment a index.now (slices_before oldest.now middle.now newest.now) own.old → ⊥)
        → result ≡ 27 }
    ensures fault { (f : PartFault) → IsNumbersFault numbers.now f
        → result ≡ part_fault_number f }
    ensures kept { (result ≡ 0 → ⊥) → own.new ≡ own.old }
{
    match params_of(numbers) {
        Ok(params) => {
            let earlier = EarlierSlices {
                oldest,
                middle,
                newest,
            };
            if !is_segment(&params, index, &earlier, own) {
                return NO_PLACE;
            }
            work_lane(&params, *index, &earlier, own);
            DONE
        }
        Err(fault) => fault.number(),
    }
}

/// Works the segment of the index and the segment of the next lane, a block of each in turn. `own`
/// are the blocks of both, one segment behind the other. All else is as for one segment.
///
/// Answers 0, or the first of these faults: 12 to 17 as above, and 27 if there is no such slice or
/// no lane behind the index's, or the blocks aren't those of three slices and two segments.
#[unsafe(no_mangle)]
pub extern "C" fn cred_argon2_two_segments(
    numbers: &TagNumbers,
    index: &SegmentIndex,
    oldest: &[Block],
    middle: &[Block],
    newest: &[Block],
    own: &mut [Block],
) -> u8
    ensures worked { (a : Parameters) → StandFor numbers.now a
        → AreTwoSegments a index.now (slices_before oldest.now middle.now newest.now) own.old
        → (result ≡ 0) × ((h : List ℕ)
        → WorksSegment a h (4 * index.now.pass + index.now.slice) index.now.lane
        oldest.now middle.now newest.now
        (take (segment_len a) own.old) (take (segment_len a) own.new)
        × WorksSegment a h (4 * index.now.pass + index.now.slice) (index.now.lane + 1)
        oldest.now middle.now newest.now
        (drop (segment_len a) own.old) (drop (segment_len a) own.new)) }
    ensures place { (a : Parameters) → StandFor numbers.now a
        → (AreTwoSegments a index.now (slices_before oldest.now middle.now newest.now) own.old → ⊥)
        → result ≡ 27 }
    ensures fault { (f : PartFault) → IsNumbersFault numbers.now f
        → result ≡ part_fault_number f }
    ensures kept { (result ≡ 0 → ⊥) → own.new ≡ own.old }
{
    match params_of(numbers) {
        Ok(params) => {
            let earlier = EarlierSlices {
                oldest,
                middle,
                newest,
            };
            if !are_two_segments(&params, index, &earlier, own) {
                return NO_PLACE;
            }
            work_two_lanes(&params, *index, &earlier, own);
            DONE
        }
        Err(fault) => fault.number(),
    }
}

/// Writes the tag over `out`, if `last` is the last slice after the last pass.
///
/// Answers 0, or the first of these faults: 12 to 17 as above, 27 if `last` isn't a slice or `out`
/// hasn't the tag's length, and 8 if there is too little memory.
#[unsafe(no_mangle)]
pub extern "C" fn cred_argon2_end(
    alloc: Global,
    numbers: &TagNumbers,
    last: &[Block],
    out: &mut [u8],
) -> u8
    ensures made { (a : Parameters) → StandFor numbers.now a
        → IsSlice a last.now → length out.old ≡ a.tag_len → result ≡ 0
        → (i : TagInputs) → IsFilled a i last.now
        → out.new ≡ argon a i.pw i.salt i.secret i.assoc }
    ensures one_of { (a : Parameters) → StandFor numbers.now a
        → IsSlice a last.now → length out.old ≡ a.tag_len → (result ≡ 0) ⊎ (result ≡ 8) }
    ensures place { (a : Parameters) → StandFor numbers.now a
        → (IsSlice a last.now × (length out.old ≡ a.tag_len) → ⊥) → result ≡ 27 }
    ensures fault { (f : PartFault) → IsNumbersFault numbers.now f
        → result ≡ part_fault_number f }
    ensures kept { (result ≡ 0 → ⊥) → out.new ≡ out.old }
{
    match params_of(numbers) {
        Ok(params) => {
            if !is_slice(&params, last) || out.len() != params.tag_len() as usize {
                return NO_PLACE;
            }
            match tag_of_lanes(alloc, &params, last) {
                Ok(tag) => {
                    out.copy_from_slice(&tag);
                    DONE
                }
                Err(error) => argon_number(error),
            }
        }
        Err(fault) => fault.number(),
    }
}

/// Whether these are as many blocks as a slice has.
pub(crate) fn is_slice(params: &Params, blocks: &[Block]) -> bool
    ensures { IsTrue result ↔ IsSlice params.now blocks.now }
{
    blocks.len() == params.lanes() as usize * params.segment_len() as usize
}

/// Whether each of the three has as many blocks as a slice.
fn are_slices(params: &Params, earlier: &EarlierSlices<'_>) -> bool
    ensures { IsTrue result ↔ AreSlices params.now
        (slices_before earlier.now.oldest.now earlier.now.middle.now earlier.now.newest.now) }
{
    is_slice(params, earlier.oldest)
        && is_slice(params, earlier.middle)
        && is_slice(params, earlier.newest)
}

/// Whether there is such a segment, and the blocks are those of three slices and of a segment.
fn is_segment(
    params: &Params,
    index: &SegmentIndex,
    earlier: &EarlierSlices<'_>,
    own: &[Block],
) -> bool
    ensures { IsTrue result ↔ IsSegment params.now index.now
        (slices_before earlier.now.oldest.now earlier.now.middle.now earlier.now.newest.now)
        own.now }
{
    index.slice < 4
        && index.lane < params.lanes()
        && are_slices(params, earlier)
        && own.len() == params.segment_len() as usize
}

/// Whether there is such a segment and one of the next lane, and the blocks are those of three
/// slices and of both.
fn are_two_segments(
    params: &Params,
    index: &SegmentIndex,
    earlier: &EarlierSlices<'_>,
    own: &[Block],
) -> bool
    ensures { IsTrue result ↔ AreTwoSegments params.now index.now
        (slices_before earlier.now.oldest.now earlier.now.middle.now earlier.now.newest.now)
        own.now }
{
    index.slice < 4
        && 2 <= params.lanes()
        && index.lane <= params.lanes() - 2
        && are_slices(params, earlier)
        && own.len() == 2 * params.segment_len() as usize
}
