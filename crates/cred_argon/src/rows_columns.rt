//! A block's rows and columns as the lists of sixteen words that P takes (RFC 9106, section 3.5).
//!
//! A block has eight rows of sixteen words, and eight columns, each of two words of every row. Two
//! rows r and s lie side by side in four vectors: each vector has four words of both, which are
//! those of two columns. With its inner pairs exchanged these columns lie side by side:
//!
//!     four words of two rows       r0 r1 r2 r3 s0 s1 s2 s3
//!     the same, of two columns     r0 r1 s0 s1 r2 r3 s2 s3
//!
//! After P such vectors, of four columns, become half of row r and half of row s:
//!
//!     of columns 0 and 1     r0 r1 s0 s1 r2 r3 s2 s3     half of r     r0 r1 r2 r3 r4 r5 r6 r7
//!     of columns 2 and 3     r4 r5 s4 s5 r6 r7 s6 s7     half of s     s0 s1 s2 s3 s4 s5 s6 s7
ghost use Rattle.std.specs.Prelude.{◌≡◌, ℕ, ◌<◌, [], ◌∷◌, slice_index};
ghost use Rattle.cred_argon.specs.{Compress.permutation, Layout.list_of, Layout.column_of_rows, Layout.column_of_halves};

use crate::permutation::permuted;
use std::simd::u64x8;

/// Returns the first halves of two vectors side by side, and the second halves.
#[inline(always)]
pub(crate) fn side_by_side(a: u64x8, b: u64x8) -> (u64x8, u64x8)
    ensures first { result.0
        ≡ slice_index a 0 ∷ slice_index a 1 ∷ slice_index a 2 ∷ slice_index a 3
        ∷ slice_index b 0 ∷ slice_index b 1 ∷ slice_index b 2 ∷ slice_index b 3 ∷ [] }
    ensures second { result.1
        ≡ slice_index a 4 ∷ slice_index a 5 ∷ slice_index a 6 ∷ slice_index a 7
        ∷ slice_index b 4 ∷ slice_index b 5 ∷ slice_index b 6 ∷ slice_index b 7 ∷ [] }
{
    (
        a.shuffle(b, [0, 1, 2, 3, 8, 9, 10, 11]),
        a.shuffle(b, [4, 5, 6, 7, 12, 13, 14, 15]),
    )
}

/// Exchanges the inner pairs of words of a vector.
#[inline(always)]
fn inner_pairs_exchanged(x: u64x8) -> u64x8
    ensures { result
        ≡ slice_index x 0 ∷ slice_index x 1 ∷ slice_index x 4 ∷ slice_index x 5
        ∷ slice_index x 2 ∷ slice_index x 3 ∷ slice_index x 6 ∷ slice_index x 7 ∷ [] }
{
    x.swizzle([0, 1, 4, 5, 2, 3, 6, 7])
}

/// Returns four columns, whose words lie in vectors of two rows, as four lists.
#[inline(always)]
fn lists_of_columns(x: [u64x8; 8]) -> [u64x8; 8]
    ensures { (j : ℕ) → j < 4 → list_of j result ≡ column_of_rows j x }
{
    [
        inner_pairs_exchanged(x[0]),
        inner_pairs_exchanged(x[1]),
        inner_pairs_exchanged(x[2]),
        inner_pairs_exchanged(x[3]),
        inner_pairs_exchanged(x[4]),
        inner_pairs_exchanged(x[5]),
        inner_pairs_exchanged(x[6]),
        inner_pairs_exchanged(x[7]),
    ]
}

/// Returns half of a row and half of the next one, from the vectors of four columns.
#[inline(always)]
fn two_half_rows(a: u64x8, b: u64x8) -> (u64x8, u64x8)
    ensures first { result.0
        ≡ slice_index a 0 ∷ slice_index a 1 ∷ slice_index a 4 ∷ slice_index a 5
        ∷ slice_index b 0 ∷ slice_index b 1 ∷ slice_index b 4 ∷ slice_index b 5 ∷ [] }
    ensures second { result.1
        ≡ slice_index a 2 ∷ slice_index a 3 ∷ slice_index a 6 ∷ slice_index a 7
        ∷ slice_index b 2 ∷ slice_index b 3 ∷ slice_index b 6 ∷ slice_index b 7 ∷ [] }
{
    (
        a.shuffle(b, [0, 1, 4, 5, 8, 9, 12, 13]),
        a.shuffle(b, [2, 3, 6, 7, 10, 11, 14, 15]),
    )
}

/// Returns four lists, which are four columns, as half of each row.
#[inline(always)]
fn half_rows_of_lists(w: [u64x8; 8]) -> [u64x8; 8]
    ensures { (j : ℕ) → j < 4 → column_of_halves j result ≡ list_of j w }
{
    let (x0, x1) = two_half_rows(w[0], w[4]);
    let (x2, x3) = two_half_rows(w[1], w[5]);
    let (x4, x5) = two_half_rows(w[2], w[6]);
    let (x6, x7) = two_half_rows(w[3], w[7]);
    [x0, x1, x2, x3, x4, x5, x6, x7]
}

/// Applies P to each of four columns, which come in vectors of two rows, and returns them as half
/// of each row.
#[inline(always)]
pub(crate) fn four_columns(x: [u64x8; 8]) -> [u64x8; 8]
    ensures { (j : ℕ) → j < 4 → column_of_halves j result ≡ permutation (column_of_rows j x) }
{
    half_rows_of_lists(permuted(lists_of_columns(x)))
}
