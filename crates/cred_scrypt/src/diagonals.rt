//! A block of sixteen words in four vectors, each of a diagonal of the square of four rows of four
//! words. So Salsa20/8 does four quarter rounds at once.
ghost use Rattle.std.specs.{Prelude.◌≡◌, Prelude.ℕ, Prelude.◌<◌, Prelude.[], Prelude.◌∷◌, Prelude.bit_xor, Prelude.slice_index, Simd.Lanes.zip2};
ghost use Rattle.cred_scrypt.specs.{Diagonals.block_of, Diagonals.transposed, Salsa.add32, Xor.xor_all};

use std::simd::u32x4;

/// Returns the diagonals of a block.
#[inline(always)]
#[tactic(auto, using(crate::proofs::Lanes::sixteen))]
pub(crate) fn diagonals_of(x: &[u32; 16]) -> [u32x4; 4]
    ensures { block_of result ≡ x.now }
{
    [
        u32x4::from_array([x[0], x[5], x[10], x[15]]),
        u32x4::from_array([x[4], x[9], x[14], x[3]]),
        u32x4::from_array([x[8], x[13], x[2], x[7]]),
        u32x4::from_array([x[12], x[1], x[6], x[11]]),
    ]
}

/// Returns the block of these diagonals.
#[inline(always)]
pub(crate) fn block_of(x: [u32x4; 4]) -> [u32; 16]
    ensures { result ≡ block_of x }
{
    let [a0, a1, a2, a3] = x[0].to_array();
    let [b0, b1, b2, b3] = x[1].to_array();
    let [c0, c1, c2, c3] = x[2].to_array();
    let [d0, d1, d2, d3] = x[3].to_array();
    [
        a0, d1, c2, b3, b0, a1, d2, c3, c0, b1, a2, d3, d0, c1, b2, a3,
    ]
}

/// Exchanges the rows and columns of a block.
#[inline(always)]
#[tactic(auto, unfolding(crate::specs::Diagonals::transposed))]
pub(crate) fn transposed(x: [u32x4; 4]) -> [u32x4; 4]
    ensures { block_of result ≡ transposed (block_of x) }
{
    [
        x[0],
        turned(x[3]),
        turned(turned(x[2])),
        turned(turned(turned(x[1]))),
    ]
}

/// Rotates the words to the left by one place.
#[inline(always)]
fn turned(x: u32x4) -> u32x4
    ensures { result
        ≡ slice_index x 1 ∷ slice_index x 2 ∷ slice_index x 3 ∷ slice_index x 0 ∷ [] }
{
    x.swizzle([1, 2, 3, 0])
}

/// Returns the XOR of two blocks.
#[inline(always)]
pub(crate) fn xored(x: [u32x4; 4], y: [u32x4; 4]) -> [u32x4; 4]
    ensures { block_of result ≡ xor_all (block_of x) (block_of y) }
{
    [
        xor(x[0], y[0]),
        xor(x[1], y[1]),
        xor(x[2], y[2]),
        xor(x[3], y[3]),
    ]
}

/// Returns the sums of the words of two blocks.
#[inline(always)]
pub(crate) fn added(x: [u32x4; 4], y: [u32x4; 4]) -> [u32x4; 4]
    ensures { block_of result ≡ zip2 add32 (block_of x) (block_of y) }
{
    [
        sum(x[0], y[0]),
        sum(x[1], y[1]),
        sum(x[2], y[2]),
        sum(x[3], y[3]),
    ]
}

/// Returns the exclusive or, word by word.
#[inline(always)]
pub(crate) fn xor(x: u32x4, y: u32x4) -> u32x4
    ensures { (j : ℕ) → j < 4 → slice_index result j ≡ bit_xor (slice_index x j) (slice_index y j) }
{
    x ^ y
}

/// Returns the sum, word by word.
#[inline(always)]
pub(crate) fn sum(x: u32x4, y: u32x4) -> u32x4
    ensures { (j : ℕ) → j < 4 → slice_index result j ≡ add32 (slice_index x j) (slice_index y j) }
{
    x + y
}
