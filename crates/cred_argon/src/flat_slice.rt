//! A slice in the caller's memory: the segments of its lanes one after another.
ghost use Rattle.std.specs.Prelude.{◌≡◌, ◌+◌, ◌*◌, ◌^◌, ◌<◌, ◌≤◌, length};
ghost use Rattle.cred_argon.specs.{Parameters.segment_len, Lanes.HoldsBlocks};

use crate::block::Block;
use crate::params::Params;
use crate::slice::Slice;

/// A slice as blocks that lie lane after lane.
#[derive(Clone, Copy, Drop)]
pub(crate) struct FlatSlice<'a> {
    pub(crate) blocks: &'a [Block],
}

impl<'a> Slice for FlatSlice<'a> {
    ghost is_full = { λ a slice. length slice.blocks.now ≡ a.lanes * segment_len a };

    ghost holds = { λ a h g slice. HoldsBlocks a h g slice.blocks.now };

    fn block_of(&self, params: &Params, lane: u32, offset: u32) -> &Block {
        &self.blocks[segment_start(params, lane) + offset as usize]
    }
}

/// Returns the index in a slice at which a lane's segment begins.
pub(crate) fn segment_start(params: &Params, lane: u32) -> usize
    requires { lane < params.now.lanes }
    ensures value { result ≡ lane * segment_len params.now }
    ensures inside { result + segment_len params.now ≤ params.now.lanes * segment_len params.now }
    ensures some { 2 ≤ segment_len params.now }
    ensures small { result < 2 ^ 32 }
{
    (lane * params.segment_len()) as usize
}
