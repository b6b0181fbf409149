//! Argon2, the memory-hard function of RFC 9106: kinds d, i and id, version 0x13 and the older
//! 0x10.
//!
//! [`argon2`] computes a tag from a password, a salt and [`Params`], and threads work its lanes.
//! [`argon2_in`] computes the tag on the caller's thread, in memory that an [`ArgonScratch`] keeps
//! from hash to hash. [`begin_lanes`], [`work_lane`], [`work_two_lanes`] and [`tag_of_lanes`] are
//! the parts of Argon2, for a caller who has threads and memory of its own. [`compress`] and
//! [`reference`] are the two functions that fill the memory; look at them alone if you like.
#![tactic(auto)]

mod address;
mod argon;
mod block;
mod bytes;
mod earlier;
mod error;
mod flat_slice;
mod inputs;
mod interleaved;
mod kind;
mod lanes;
mod laws;
mod memory;
mod next_reference;
mod params;
mod permutation;
mod place;
mod position;
mod reference_block;
mod rows_columns;
mod scratch;
mod segment;
mod slice;
mod start;
mod tag;
mod turn;

pub use argon::{argon2, argon2_in};
pub use block::{Block, compress};
pub use error::ArgonError;
pub use inputs::Inputs;
pub use kind::{Kind, Version};
pub use lanes::{
    EarlierSlices, SegmentIndex, begin_lanes, tag_of_lanes, work_lane, work_two_lanes,
};
pub use laws::{cells_meet_their_equation, lanes_in_turn_fill_the_memory};
pub use params::{
    MAX_LANES, MAX_MEMORY, MAX_PASSES, MAX_RAW_TAG, MAX_TAG, MIN_TAG, Params,
    ranges_are_these_numbers,
};
pub use place::Place;
pub use reference_block::reference;
pub use scratch::ArgonScratch;
