//! The Salsa20/8 core, from which BlockMix is built (RFC 7914, section 3).
ghost use Rattle.std.specs.{Prelude.◌≡◌, Prelude.ℕ, Prelude.◌<◌, Prelude.slice_index, Int.w32, Int.rotate_left};
ghost use Rattle.cred_scrypt.specs.Diagonals.{block_of};
ghost use Rattle.cred_scrypt.specs.Salsa.{quarter_step, quarter_round, column_round, row_round, double_rounds, salsa20_8};

use crate::diagonals::{added, block_of, diagonals_of, sum, transposed, xor};
use std::simd::u32x4;

/// Rotates each word to the left by `by` bits.
#[inline(always)]
#[tactic(auto, using(crate::proofs::Lanes::lanes_rotate))]
fn rotate(x: u32x4, by: u32) -> u32x4
    requires some { 0 < by }
    requires few { by < 32 }
    ensures { (j : ℕ) → j < 4 → slice_index result j ≡ rotate_left w32 (slice_index x j) by }
{
    (x << u32x4::splat(by)) | (x >> u32x4::splat(32 - by))
}

/// Does a step of four quarter rounds: x ^ ((y + z) <<< n), word by word.
#[inline(always)]
fn quarter_step(x: u32x4, y: u32x4, z: u32x4, n: u32) -> u32x4
    requires some { 0 < n }
    requires few { n < 32 }
    ensures { (j : ℕ) → j < 4
        → slice_index result j ≡ quarter_step (slice_index x j) (slice_index y j) (slice_index z j) n }
{
    xor(x, rotate(sum(y, z), n))
}

/// Does four quarter rounds side by side.
#[inline(always)]
#[tactic(auto, unfolding(crate::specs::Salsa::quarter_round))]
fn quarter_round(a: u32x4, b: u32x4, c: u32x4, d: u32x4) -> (u32x4, u32x4, u32x4, u32x4)
    ensures { (j : ℕ) → j < 4
        → (
          slice_index result.0 j,
          slice_index result.1 j,
          slice_index result.2 j,
          slice_index result.3 j,
        )
        ≡ quarter_round (slice_index a j) (slice_index b j) (slice_index c j) (slice_index d j) }
{
    let b1 = quarter_step(b, a, d, 7);
    let c1 = quarter_step(c, b1, a, 9);
    let d1 = quarter_step(d, c1, b1, 13);
    let a1 = quarter_step(a, d1, c1, 18);
    (a1, b1, c1, d1)
}

/// Does quarter rounds on the columns of the four by four words.
#[inline(always)]
#[tactic(auto, unfolding(crate::specs::Salsa::column_round))]
fn column_round(x: [u32x4; 4]) -> [u32x4; 4]
    ensures { block_of result ≡ column_round (block_of x) }
{
    let (a, b, c, d) = quarter_round(x[0], x[1], x[2], x[3]);
    [a, b, c, d]
}

/// Does quarter rounds on the rows.
#[inline(always)]
fn row_round(x: [u32x4; 4]) -> [u32x4; 4]
    ensures { block_of result ≡ row_round (block_of x) }
{
    transposed(column_round(transposed(x)))
}

/// Does a column round and a row round.
#[inline(always)]
fn double_round(x: [u32x4; 4]) -> [u32x4; 4]
    ensures { block_of result ≡ row_round (column_round (block_of x)) }
{
    row_round(column_round(x))
}

/// Does four double rounds.
#[inline(always)]
#[tactic(auto, unfolding(crate::specs::Salsa::double_rounds))]
fn eight_rounds(x: [u32x4; 4]) -> [u32x4; 4]
    ensures { block_of result ≡ double_rounds 4 (block_of x) }
{
    let x = double_round(x);
    let x = double_round(x);
    let x = double_round(x);
    double_round(x)
}

/// Applies the core to the diagonals of a block.
#[inline(always)]
pub(crate) fn mixed(x: [u32x4; 4]) -> [u32x4; 4]
    ensures { block_of result ≡ salsa20_8 (block_of x) }
{
    added(x, eight_rounds(x))
}

/// Applies the Salsa20/8 core (RFC 7914, section 3), in place, to sixteen words: a block of 64
/// bytes, read as little-endian words.
#[inline(always)]
pub fn salsa20_8(x: &mut [u32; 16])
    ensures { x.new ≡ salsa20_8 x.old }
{
    *x = block_of(mixed(diagonals_of(x)));
}
