//! The laws of the definitions that the contracts of `argon2` and of its parts rest on.
ghost use Rattle.std.specs.Prelude.{◌≡◌, List, ℕ, ◌*◌, ◌-◌};
ghost use Rattle.cred_argon.specs.{Parameters.Parameters, Parameters.IsRaw, Parameters.IsUpTo, Parameters.segment_len, Places.IsPlace};
ghost use Rattle.cred_argon.specs.{Cells.cell, Cells.cell_by, declared.place.Place.Place, declared.block.Block.Block, Lanes.HoldsBlocks, Lanes.IsRun};

/// Each block of the memory is what its equation says of the blocks that it names (RFC 9106,
/// section 3.2): the blocks of the first two columns are hashes. Every other block is computed from
/// the block before, a reference and, from the second pass on, the old block at its place. The call
/// does nothing: its contract is the law.
#[tactic(auto, using(crate::proofs::CellLaw::cell_is))]
pub fn cells_meet_their_equation()
    ensures { (most : ℕ) (a : Parameters) (h : List ℕ) (p : Place)
        → IsUpTo most a → IsPlace (segment_len a) a.lanes p
        → cell a h p ≡ cell_by a h (cell a h) p }
{}

/// If [`work_lane`](crate::work_lane) works each segment once, after the three slices before it, or
/// [`work_two_lanes`](crate::work_two_lanes) works two of them, the last slice comes to hold its
/// cells, and [`tag_of_lanes`](crate::tag_of_lanes) computes the tag from it. The call does
/// nothing: its contract is the law.
pub fn lanes_in_turn_fill_the_memory()
    ensures { (a : Parameters) (h : List ℕ) (fresh worked : ℕ → List Block)
        → IsRaw a → IsRun a h fresh worked
        → HoldsBlocks a h (4 * a.passes - 1) (worked (4 * a.passes - 1)) }
{}
