//! The permutation P of Argon2 on four lists of sixteen words at once (RFC 9106, section 3.6).
//!
//! A list is four rows of four words. Two lists lie side by side in four vectors of eight words,
//! and two more in another four:
//!
//!     vector          list 0      list 1     vector          list 2      list 3
//!        0   (a)    0  1  2  3  0  1  2  3      4   (e)    0  1  2  3  0  1  2  3
//!        1   (b)    4  5  6  7  4  5  6  7      5   (f)    4  5  6  7  4  5  6  7
//!        2   (c)    8  9 10 11  8  9 10 11      6   (g)    8  9 10 11  8  9 10 11
//!        3   (d)   12 13 14 15 12 13 14 15      7   (h)   12 13 14 15 12 13 14 15
//!
//! So the words of a column are in one slot of four vectors, and P's first half mixes these. For
//! the second half, the code rotates the rows of each list until a slot has the words of a
//! diagonal, and rotates them back afterwards:
//!
//!        a   left by three     3  0  1  2
//!        b   as it is          4  5  6  7
//!        c   left by one       9 10 11  8
//!        d   left by two      14 15 12 13
//!
//! Row b stays, since a mixing ends with b and the next one begins with it: no step waits for a
//! rotation.
ghost use Rattle.std.specs.{Prelude.◌≡◌, Prelude.ℕ, Prelude.◌<◌, Prelude.[], Prelude.◌∷◌, Prelude.bit_xor, Prelude.slice_index, Prelude.slice_index_or, Int.w64, Int.rotate_right};
ghost use Rattle.cred_argon.specs.{Compress.add_product, Compress.mixing, Compress.column_step, Compress.diagonal_step, Compress.permutation, Layout.list_of};

use std::simd::u64x8;

/// Returns the exclusive or, word by word.
#[inline(always)]
pub(crate) fn xor(x: u64x8, y: u64x8) -> u64x8
    ensures { (j : ℕ) → j < 8 → slice_index result j ≡ bit_xor (slice_index x j) (slice_index y j) }
{
    x ^ y
}

/// Returns the sum and twice the product of the low halves, word by word.
#[inline(always)]
#[tactic(auto, using(crate::proofs::LayoutLemmas::slots_add))]
fn add_product(x: u64x8, y: u64x8) -> u64x8
    ensures { (j : ℕ) → j < 8
        → slice_index result j ≡ add_product (slice_index x j) (slice_index y j) }
{
    let low = u64x8::splat(0xffff_ffff);
    let product = (x & low) * (y & low);
    x + y + product + product
}

/// Rotates each word to the right by `by` bits.
#[inline(always)]
#[tactic(auto, using(crate::proofs::LayoutLemmas::slots_rotate))]
fn rotate(x: u64x8, by: u64) -> u64x8
    requires few { by < 64 }
    requires some { 0 < by }
    ensures { (j : ℕ) → j < 8 → slice_index result j ≡ rotate_right w64 (slice_index x j) by }
{
    (x >> u64x8::splat(by)) | (x << u64x8::splat(64 - by))
}

/// Mixes four words (GB of RFC 9106, section 3.6) in each slot of the vectors a to d, and of e to
/// h. The two mixings go on side by side, a step of each. A step waits for the one before, and a
/// processor doesn't look past a whole mixing for other work.
#[inline(always)]
#[tactic(auto, unfolding(crate::specs::Compress::mixing))]
fn mixed(x: [u64x8; 8]) -> [u64x8; 8]
    ensures first { (j : ℕ) → j < 8
        → (
          slice_index (slice_index_or result 0 []) j,
          slice_index (slice_index_or result 1 []) j,
          slice_index (slice_index_or result 2 []) j,
          slice_index (slice_index_or result 3 []) j,
        )
        ≡ mixing (slice_index (slice_index_or x 0 []) j) (slice_index (slice_index_or x 1 []) j)
        (slice_index (slice_index_or x 2 []) j) (slice_index (slice_index_or x 3 []) j) }
    ensures second { (j : ℕ) → j < 8
        → (
          slice_index (slice_index_or result 4 []) j,
          slice_index (slice_index_or result 5 []) j,
          slice_index (slice_index_or result 6 []) j,
          slice_index (slice_index_or result 7 []) j,
        )
        ≡ mixing (slice_index (slice_index_or x 4 []) j) (slice_index (slice_index_or x 5 []) j)
        (slice_index (slice_index_or x 6 []) j) (slice_index (slice_index_or x 7 []) j) }
{
    let [a, b, c, d, e, f, g, h] = x;
    let a1 = add_product(a, b);
    let e1 = add_product(e, f);
    let d1 = rotate(xor(d, a1), 32);
    let h1 = rotate(xor(h, e1), 32);
    let c1 = add_product(c, d1);
    let g1 = add_product(g, h1);
    let b1 = rotate(xor(b, c1), 24);
    let f1 = rotate(xor(f, g1), 24);
    let a2 = add_product(a1, b1);
    let e2 = add_product(e1, f1);
    let d2 = rotate(xor(d1, a2), 16);
    let h2 = rotate(xor(h1, e2), 16);
    let c2 = add_product(c1, d2);
    let g2 = add_product(g1, h2);
    let b2 = rotate(xor(b1, c2), 63);
    let f2 = rotate(xor(f1, g2), 63);
    [a2, b2, c2, d2, e2, f2, g2, h2]
}

/// Rotates a row of each of two lists to the left by one place.
#[inline(always)]
fn left_by_one(x: u64x8) -> u64x8
    ensures { result
        ≡ slice_index x 1 ∷ slice_index x 2 ∷ slice_index x 3 ∷ slice_index x 0
        ∷ slice_index x 5 ∷ slice_index x 6 ∷ slice_index x 7 ∷ slice_index x 4 ∷ [] }
{
    x.swizzle([1, 2, 3, 0, 5, 6, 7, 4])
}

/// Rotates such rows by two places.
#[inline(always)]
fn left_by_two(x: u64x8) -> u64x8
    ensures { result
        ≡ slice_index x 2 ∷ slice_index x 3 ∷ slice_index x 0 ∷ slice_index x 1
        ∷ slice_index x 6 ∷ slice_index x 7 ∷ slice_index x 4 ∷ slice_index x 5 ∷ [] }
{
    x.swizzle([2, 3, 0, 1, 6, 7, 4, 5])
}

/// Rotates such rows by three places.
#[inline(always)]
fn left_by_three(x: u64x8) -> u64x8
    ensures { result
        ≡ slice_index x 3 ∷ slice_index x 0 ∷ slice_index x 1 ∷ slice_index x 2
        ∷ slice_index x 7 ∷ slice_index x 4 ∷ slice_index x 5 ∷ slice_index x 6 ∷ [] }
{
    x.swizzle([3, 0, 1, 2, 7, 4, 5, 6])
}

/// Does the first half of P: mixes the four words of each column of each list.
#[inline(always)]
fn column_step(x: [u64x8; 8]) -> [u64x8; 8]
    ensures { (j : ℕ) → j < 4 → list_of j result ≡ column_step (list_of j x) }
{
    mixed(x)
}

/// Does the second half of P: mixes the four words of each diagonal.
#[inline(always)]
fn diagonal_step(x: [u64x8; 8]) -> [u64x8; 8]
    ensures { (j : ℕ) → j < 4 → list_of j result ≡ diagonal_step (list_of j x) }
{
    let [a, b, c, d, e, f, g, h] = x;
    let [a, b, c, d, e, f, g, h] = mixed([
        left_by_three(a),
        b,
        left_by_one(c),
        left_by_two(d),
        left_by_three(e),
        f,
        left_by_one(g),
        left_by_two(h),
    ]);
    [
        left_by_one(a),
        b,
        left_by_three(c),
        left_by_two(d),
        left_by_one(e),
        f,
        left_by_three(g),
        left_by_two(h),
    ]
}

/// Applies P to each of the four lists.
#[inline(always)]
pub(crate) fn permuted(x: [u64x8; 8]) -> [u64x8; 8]
    ensures { (j : ℕ) → j < 4 → list_of j result ≡ permutation (list_of j x) }
{
    diagonal_step(column_step(x))
}
