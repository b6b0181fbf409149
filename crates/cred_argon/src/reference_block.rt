//! The block that a place refers to (RFC 9106, section 3.4.2). The finished blocks that the place
//! may refer to are one stretch of a lane, so a start and a count stand for their list.
ghost use Rattle.std.specs.Prelude.{◌≡◌, ◌+◌, ◌-◌, ◌*◌, ◌/◌, ◌%◌, ◌<◌, ◌≤◌, min, if◌then◌else◌, ◌==◌};
ghost use Rattle.cred_argon.specs.{declared.params.TheConstants.MAX_MEMORY, Parameters.segment_len};
ghost use Rattle.cred_argon.specs.{Places.IsComputed, Places.pick, Places.place_of, Places.reference_place, Times.reference_count};

use crate::params::Params;
use crate::place::Place;
use crate::position::{Position, Reference};

/// Returns the lane and the column of the block that the words `j1` and `j2` name at a place (RFC
/// 9106, section 3.4.2). The place lies in the memory, and isn't in one of the first two columns on
/// the first pass.
pub fn reference(params: &Params, place: &Place, j1: u32, j2: u32) -> (u32, u32)
    requires { IsComputed (segment_len params.now) params.now.lanes place.now }
    ensures lane { result.0
        ≡ (reference_place (segment_len params.now) params.now.lanes place.now j1 j2).lane }
    ensures column { result.1
        ≡ (reference_place (segment_len params.now) params.now.lanes place.now j1 j2).column }
    ensures lane_below { result.0 < params.now.lanes }
    ensures column_below { result.1 < 4 * segment_len params.now }
{
    let position = Position {
        pass: place.pass,
        lane: place.lane,
        slice: place.column / params.segment_len(),
        offset: place.column % params.segment_len(),
    };
    let reference = reference_from(params, &position, j1, j2);
    (reference.lane, reference.column)
}

/// Returns the lane and the column of the block that the words name at a position that is worked.
pub(crate) fn reference_from(params: &Params, position: &Position, j1: u32, j2: u32) -> Reference
    requires computed { IsComputed (segment_len params.now) params.now.lanes
        (place_of (segment_len params.now) position.now) }
    requires offset { position.now.offset < segment_len params.now }
    ensures lane { result.lane ≡ (reference_place (segment_len params.now) params.now.lanes
        (place_of (segment_len params.now) position.now) j1 j2).lane }
    ensures column { result.column ≡ (reference_place (segment_len params.now) params.now.lanes
        (place_of (segment_len params.now) position.now) j1 j2).column }
    ensures lane_below { result.lane < params.now.lanes }
    ensures column_below { result.column < 4 * segment_len params.now }
{
    let segment_len = params.segment_len();
    let lane = lane_for(params.lanes(), position, j2);
    let count = count(segment_len, position, lane);
    let start = start(segment_len, position);
    let column = wrapped(start + picked(count, j1), 4 * segment_len);
    Reference { lane, column }
}

/// Returns the lane that the word `j2` names: in the very first segment, the place's own lane. A
/// processor needs some 26 cycles to divide, but none to divide by the constants in this function.
fn lane_for(lanes: u32, position: &Position, j2: u32) -> u32
    requires lane { position.now.lane < lanes }
    ensures value { result ≡ (if 4 * position.now.pass + position.now.slice == 0
        then position.now.lane else j2 % lanes) }
    ensures below { result < lanes }
{
    if position.pass == 0 && position.slice == 0 {
        position.lane
    } else if lanes == 1 {
        0
    } else if lanes == 2 {
        j2 % 2
    } else if lanes == 4 {
        j2 % 4
    } else {
        j2 % lanes
    }
}

/// Returns the number of blocks of this lane that the position may refer to. These are the blocks
/// of three segments, or of as many as come before, and in the own lane those of the segment so
/// far. The block before doesn't count, nor does the last one of another lane at a segment's start.
fn count(segment_len: u32, position: &Position, lane: u32) -> u32
    requires slice { position.now.slice < 4 }
    requires offset { position.now.offset < segment_len }
    requires fits { 4 * segment_len ≤ MAX_MEMORY }
    requires some { 0 < reference_count segment_len (4 * position.now.pass + position.now.slice)
        position.now.offset (lane == position.now.lane) }
    ensures { result ≡ reference_count segment_len (4 * position.now.pass + position.now.slice)
        position.now.offset (lane == position.now.lane) }
{
    let segments = if position.pass == 0 {
        position.slice.min(3)
    } else {
        3
    };
    let finished = segments * segment_len;
    if lane == position.lane {
        finished + position.offset - 1
    } else if position.offset == 0 {
        finished - 1
    } else {
        finished
    }
}

/// Returns the column of the first of these blocks.
fn start(segment_len: u32, position: &Position) -> u32
    requires slice { position.now.slice < 4 }
    requires some { 0 < segment_len }
    requires fits { 4 * segment_len ≤ MAX_MEMORY }
    ensures value { result ≡ (4 * position.now.pass + position.now.slice - 3) * segment_len
        % (4 * segment_len) }
    ensures below { result < 4 * segment_len }
{
    if position.pass == 0 {
        0
    } else {
        (position.slice + 1) % 4 * segment_len
    }
}

/// Returns which of `count` blocks the word `j1` picks: the later ones more often.
fn picked(count: u32, j1: u32) -> u32
    requires { 0 < count }
    ensures value { result ≡ pick count j1 }
    ensures below { result < count }
{
    let square = (u64::from(j1) * u64::from(j1)) >> 32;
    let back = (u64::from(count) * square) >> 32;
    count - 1 - back as u32
}

/// Returns the column of a count from a lane's start that may have gone past the lane's end once.
fn wrapped(column: u32, columns: u32) -> u32
    requires { column < 2 * columns }
    ensures value { result ≡ column % columns }
    ensures below { result < columns }
{
    if column < columns {
        column
    } else {
        column - columns
    }
}
