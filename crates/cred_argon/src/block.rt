//! A block of the memory, and the compression function G (RFC 9106, section 3.5).
ghost use Rattle.std.specs.Prelude.{◌≡◌, ℕ, ◌+◌, ◌*◌, ◌/◌, ◌%◌, ◌<◌, ◌≤◌, ◌⊎◌, List, length, bit_xor, slice_index};
ghost use Rattle.cred_argon.specs.{Compress.compress, Compress.rows, Compress.columns, Compress.xor_words, Layout.half_word, Layout.IsRows, Layout.IsHalf};

use crate::permutation::{permuted, xor};
use crate::rows_columns::{four_columns, side_by_side};
use std::simd::u64x8;

/// A block of 1024 bytes, as 128 words of 64 bits.
#[repr(C)]
#[derive(Clone, Copy, Debug, PartialEq, Eq)]
pub struct Block(pub [u64; 128]);

impl Block {
    /// The block of zeros.
    pub(crate) const ZERO: Block = Block([0; 128]);
}

/// The call that G makes once it has computed the new block's first word, which names the block
/// that the next one refers to. The call may prefetch that block, so that the memory brings the
/// block while G goes on.
pub(crate) trait Prefetch {
    ghost can_prefetch: { Self → Type 0 };

    fn prefetch(&self, first_word: u64)
        requires { can_prefetch self.now };
}

/// Prefetches nothing, as no following block is known.
#[derive(Clone, Copy, Drop)]
struct NoPrefetch;

impl Prefetch for NoPrefetch {
    ghost use Rattle.std.specs.Prelude.{⊤};

    ghost can_prefetch = { λ _. ⊤ };

    fn prefetch(&self, _first_word: u64) {}
}

/// Computes the compression function G of two blocks (RFC 9106, section 3.5).
pub fn compress(x: &Block, y: &Block) -> Block
    ensures { result.0 ≡ compress x.now.0 y.now.0 }
{
    let mut out = Block::ZERO;
    compress_over(x, y, &mut out, &NoPrefetch);
    out
}

/// Writes G of two blocks over a third. The function writes the left half of each row before it
/// begins the columns of the right half. So the block that the next one refers to is known early.
#[inline(always)]
pub(crate) fn compress_over<F: Prefetch>(x: &Block, y: &Block, out: &mut Block, next: &F)
    requires { F.can_prefetch next.now }
    ensures { out.new.0 ≡ compress x.now.0 y.now.0 }
{
    let top = rows_from(&x.0, &y.0, 0);
    let low = rows_from(&x.0, &y.0, 4);
    let left = left_columns(top, low);
    write_half(&x.0, &y.0, &mut out.0, 0, left);
    next.prefetch(out.0[0]);
    let right = right_columns(top, low);
    write_half(&x.0, &y.0, &mut out.0, 8, right);
}

/// Adds G of two blocks to a third by XOR.
#[inline(always)]
pub(crate) fn compress_onto<F: Prefetch>(x: &Block, y: &Block, out: &mut Block, next: &F)
    requires { F.can_prefetch next.now }
    ensures { out.new.0 ≡ xor_words out.old.0 (compress x.now.0 y.now.0) }
{
    let top = rows_from(&x.0, &y.0, 0);
    let low = rows_from(&x.0, &y.0, 4);
    let left = left_columns(top, low);
    add_half(&x.0, &y.0, &mut out.0, 0, left);
    next.prefetch(out.0[0]);
    let right = right_columns(top, low);
    add_half(&x.0, &y.0, &mut out.0, 8, right);
}

/// Applies P to the columns that make the left half of each row.
#[inline(always)]
fn left_columns(top: [u64x8; 8], low: [u64x8; 8]) -> [u64x8; 8]
    ensures { (v : List ℕ) → IsRows v 0 top → IsRows v 4 low → IsHalf (columns v) 0 result }
{
    four_columns([
        top[0], top[4], low[0], low[4], top[1], top[5], low[1], low[5],
    ])
}

/// Applies P to the columns that make the right half of each row.
#[inline(always)]
fn right_columns(top: [u64x8; 8], low: [u64x8; 8]) -> [u64x8; 8]
    ensures { (v : List ℕ) → IsRows v 0 top → IsRows v 4 low → IsHalf (columns v) 8 result }
{
    four_columns([
        top[2], top[6], low[2], low[6], top[3], top[7], low[3], low[7],
    ])
}

/// Returns four rows of the XOR of two blocks, with P applied to each.
#[inline(always)]
fn rows_from(x: &[u64; 128], y: &[u64; 128], row: usize) -> [u64x8; 8]
    requires { row + 4 ≤ 8 }
    ensures { IsRows (rows (xor_words x.now y.now)) row result }
{
    let (a, b) = two_rows(x, y, 16 * row + 0);
    let (c, d) = two_rows(x, y, 16 * row + 8);
    let (e, f) = two_rows(x, y, 16 * row + 32);
    let (g, h) = two_rows(x, y, 16 * row + 40);
    permuted([a, b, c, d, e, f, g, h])
}

/// Returns eight words of a row of the XOR of two blocks, and those of the next row. One vector has
/// the first four words of both rows, the other vector the last four.
#[inline(always)]
fn two_rows(x: &[u64; 128], y: &[u64; 128], at: usize) -> (u64x8, u64x8)
    requires { at + 24 ≤ 128 }
    ensures first { (e : ℕ) → e < 8
        → slice_index result.0 e
        ≡ bit_xor (slice_index x.now (at + 0 + 16 * (e / 4) + e % 4))
        (slice_index y.now (at + 0 + 16 * (e / 4) + e % 4)) }
    ensures second { (e : ℕ) → e < 8
        → slice_index result.1 e
        ≡ bit_xor (slice_index x.now (at + 4 + 16 * (e / 4) + e % 4))
        (slice_index y.now (at + 4 + 16 * (e / 4) + e % 4)) }
{
    side_by_side(xored(x, y, at), xored(x, y, at + 16))
}

/// Writes the XOR of three blocks over half of each row of a block. Of the third block, the
/// function gets this half, in vectors. The rows aren't in a loop: behind a loop, LLVM would order
/// the steps of P list by list, and no longer mix the lists side by side.
#[inline(always)]
fn write_half(x: &[u64; 128], y: &[u64; 128], out: &mut [u64; 128], at: usize, half: [u64x8; 8])
    requires { at ≤ 8 }
    ensures len { length out.new ≡ 128 }
    ensures written { (i : ℕ) → i < 8 → (e : ℕ) → e < 8
        → slice_index out.new (16 * i + at + e) ≡ half_word x.now y.now half at i e }
    ensures kept { (i : ℕ) → i < 8 → (r : ℕ) → r < 16 → (r < at) ⊎ (at + 8 ≤ r)
        → slice_index out.new (16 * i + r) ≡ slice_index out.old (16 * i + r) }
{
    write_row(x, y, out, 16 * 0 + at, half[0]);
    write_row(x, y, out, 16 * 1 + at, half[1]);
    write_row(x, y, out, 16 * 2 + at, half[2]);
    write_row(x, y, out, 16 * 3 + at, half[3]);
    write_row(x, y, out, 16 * 4 + at, half[4]);
    write_row(x, y, out, 16 * 5 + at, half[5]);
    write_row(x, y, out, 16 * 6 + at, half[6]);
    write_row(x, y, out, 16 * 7 + at, half[7]);
}

/// Adds the XOR of three such blocks to half of each row of a block by XOR. The rows aren't in a
/// loop for the same reason.
#[inline(always)]
fn add_half(x: &[u64; 128], y: &[u64; 128], out: &mut [u64; 128], at: usize, half: [u64x8; 8])
    requires { at ≤ 8 }
    ensures len { length out.new ≡ 128 }
    ensures added { (i : ℕ) → i < 8 → (e : ℕ) → e < 8
        → slice_index out.new (16 * i + at + e)
        ≡ bit_xor (slice_index out.old (16 * i + at + e)) (half_word x.now y.now half at i e) }
    ensures kept { (i : ℕ) → i < 8 → (r : ℕ) → r < 16 → (r < at) ⊎ (at + 8 ≤ r)
        → slice_index out.new (16 * i + r) ≡ slice_index out.old (16 * i + r) }
{
    add_row(x, y, out, 16 * 0 + at, half[0]);
    add_row(x, y, out, 16 * 1 + at, half[1]);
    add_row(x, y, out, 16 * 2 + at, half[2]);
    add_row(x, y, out, 16 * 3 + at, half[3]);
    add_row(x, y, out, 16 * 4 + at, half[4]);
    add_row(x, y, out, 16 * 5 + at, half[5]);
    add_row(x, y, out, 16 * 6 + at, half[6]);
    add_row(x, y, out, 16 * 7 + at, half[7]);
}

/// Writes the XOR of eight words of three blocks over those of a block. The words of the third
/// block come as a vector.
#[inline(always)]
fn write_row(x: &[u64; 128], y: &[u64; 128], out: &mut [u64; 128], start: usize, words: u64x8)
    requires { start + 8 ≤ 128 }
    ensures len { length out.new ≡ 128 }
    ensures written { (e : ℕ) → e < 8
        → slice_index out.new (start + e)
        ≡ bit_xor (bit_xor (slice_index x.now (start + e)) (slice_index y.now (start + e)))
        (slice_index words e) }
    ensures kept { (n : ℕ) → (n < start) ⊎ (start + 8 ≤ n)
        → slice_index out.new n ≡ slice_index out.old n }
{
    write(out, start, xor(xored(x, y, start), words));
}

/// Adds the XOR of eight words of three blocks to those of a block by XOR.
#[inline(always)]
fn add_row(x: &[u64; 128], y: &[u64; 128], out: &mut [u64; 128], start: usize, words: u64x8)
    requires { start + 8 ≤ 128 }
    ensures len { length out.new ≡ 128 }
    ensures added { (e : ℕ) → e < 8
        → slice_index out.new (start + e)
        ≡ bit_xor (slice_index out.old (start + e))
        (bit_xor (bit_xor (slice_index x.now (start + e)) (slice_index y.now (start + e)))
        (slice_index words e)) }
    ensures kept { (n : ℕ) → (n < start) ⊎ (start + 8 ≤ n)
        → slice_index out.new n ≡ slice_index out.old n }
{
    add(out, start, xor(xored(x, y, start), words));
}

/// Returns the XOR of eight words of each of two blocks.
#[inline(always)]
fn xored(x: &[u64; 128], y: &[u64; 128], at: usize) -> u64x8
    requires { at + 8 ≤ 128 }
    ensures { (j : ℕ) → j < 8
        → slice_index result j ≡ bit_xor (slice_index x.now (at + j)) (slice_index y.now (at + j)) }
{
    xor(eight_words(x, at), eight_words(y, at))
}

/// Returns eight words of a block. If the code added the words before it gathered them, it wouldn't
/// read them as one vector.
#[inline(always)]
fn eight_words(x: &[u64; 128], at: usize) -> u64x8
    requires { at + 8 ≤ 128 }
    ensures { (j : ℕ) → j < 8 → slice_index result j ≡ slice_index x.now (at + j) }
{
    u64x8::from_array([
        x[at],
        x[at + 1],
        x[at + 2],
        x[at + 3],
        x[at + 4],
        x[at + 5],
        x[at + 6],
        x[at + 7],
    ])
}

/// Writes eight words into a block.
#[inline(always)]
fn write(out: &mut [u64; 128], at: usize, words: u64x8)
    requires { at + 8 ≤ 128 }
    ensures len { length out.new ≡ 128 }
    ensures written { (j : ℕ) → j < 8 → slice_index out.new (at + j) ≡ slice_index words j }
    ensures kept { (n : ℕ) → (n < at) ⊎ (at + 8 ≤ n)
        → slice_index out.new n ≡ slice_index out.old n }
{
    let [w0, w1, w2, w3, w4, w5, w6, w7] = words.to_array();
    out[at] = w0;
    out[at + 1] = w1;
    out[at + 2] = w2;
    out[at + 3] = w3;
    out[at + 4] = w4;
    out[at + 5] = w5;
    out[at + 6] = w6;
    out[at + 7] = w7;
}

/// Adds eight words to those of a block by XOR.
#[inline(always)]
fn add(out: &mut [u64; 128], at: usize, words: u64x8)
    requires { at + 8 ≤ 128 }
    ensures len { length out.new ≡ 128 }
    ensures added { (j : ℕ) → j < 8
        → slice_index out.new (at + j)
        ≡ bit_xor (slice_index out.old (at + j)) (slice_index words j) }
    ensures kept { (n : ℕ) → (n < at) ⊎ (at + 8 ≤ n)
        → slice_index out.new n ≡ slice_index out.old n }
{
    let sum = xor(eight_words(out, at), words);
    write(out, at, sum);
}

/// Prefetches a block. Rattle has no such instruction, so the body is empty.
/// tools/compile_proved.py replaces this body by the processor's prefetches, which change no value.
#[inline(never)]
pub(crate) fn prefetch_block(_block: &Block) {}

/// Adds a block to another by XOR.
pub(crate) fn add_onto(x: &Block, out: &mut Block)
    ensures { out.new.0 ≡ xor_words out.old.0 x.now.0 }
{
    'words: for i in 0..128 {
        out.0[i] ^= x.0[i];
    }
}
