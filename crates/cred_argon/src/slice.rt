//! A slice of the memory as the work on a later one reads it.
ghost use Rattle.std.specs.Prelude.{◌≡◌, ℕ, ◌+◌, ◌*◌, ◌/◌, ◌%◌, ◌<◌, List};
ghost use Rattle.cred_argon.specs.{Parameters.Parameters, Parameters.segment_len, Places.place, Cells.cell};

use crate::block::Block;
use crate::params::Params;

/// A slice whose segments have all been worked. Each form of memory says when a slice has all its
/// blocks, and when they are the cells of a segment. Segments are counted over all passes.
pub(crate) trait Slice {
    ghost is_full: { Parameters → Self → Type 0 };

    ghost holds: { Parameters → List ℕ → ℕ → Self → Type 0 };

    /// Returns the block of a lane at an offset.
    fn block_of(&self, params: &Params, lane: u32, offset: u32) -> &Block
        requires full { is_full params.now self.now }
        requires lane { lane < params.now.lanes }
        requires offset { offset < segment_len params.now }
        ensures { (h : List ℕ) (g : ℕ) → holds params.now h g self.now
            → result.now.0 ≡ cell params.now h
            (place (g / 4) lane (g % 4 * segment_len params.now + offset)) };
}
