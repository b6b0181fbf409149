//! BlockMix, which mixes 2r blocks by a chain of Salsa20/8 (RFC 7914, section 4).
ghost use Rattle.std.specs.Prelude.{◌≡◌, ◌+◌, ◌*◌, ◌/◌, ◌%◌, ◌<◌, ◌≤◌, ◌++◌, length, take};
ghost use Rattle.cred_scrypt.specs.{Diagonals.block_of, Mixing.block_at, Mixing.block_mix, Salsa.salsa20_8, Xor.xor_all};

use crate::diagonals::{block_of, diagonals_of, xored};
use crate::salsa::mixed;
use std::simd::u32x4;

/// The number of words of a block of 64 bytes.
const BLOCK: usize = 16;

/// Writes BlockMix (RFC 7914, section 4) of `from` into `into`. Both have 2r blocks of sixteen
/// words, for one r of at least 1.
#[inline(always)]
pub fn block_mix(from: &[u32], into: &mut [u32])
    requires whole { length from.now % 32 ≡ 0 }
    requires some { 0 < length from.now }
    requires same { length into.old ≡ length from.now }
    ensures { into.new ≡ block_mix (length from.now / 32) from.now }
{
    let r = from.len() / (2 * BLOCK);
    let mut x = block(from, 2 * r - 1);
    let (even, odd) = into.split_at_mut(BLOCK * r);
    'pairs: for i in 0..r {
        chain(&mut x, from, 2 * i);
        put(even, i, &x);
        chain(&mut x, from, 2 * i + 1);
        put(odd, i, &x);
    }
}

/// Returns block `i` of sixteen words.
#[inline(always)]
fn block(from: &[u32], i: usize) -> [u32x4; 4]
    requires { 16 * i + 16 ≤ length from.now }
    ensures { block_of result ≡ block_at from.now i }
{
    let mut x = [0; BLOCK];
    x.copy_from_slice(&from[BLOCK * i..BLOCK * i + BLOCK]);
    diagonals_of(&x)
}

/// Computes the next X of the chain, from block `i`.
#[inline(always)]
fn chain(x: &mut [u32x4; 4], from: &[u32], i: usize)
    requires { 16 * i + 16 ≤ length from.now }
    ensures { block_of x.new ≡ salsa20_8 (xor_all (block_of x.old) (block_at from.now i)) }
{
    *x = mixed(xored(*x, block(from, i)));
}

/// Writes a block at place `i`, after those already written.
#[inline(always)]
fn put(into: &mut [u32], i: usize, x: &[u32x4; 4])
    requires { 16 * i + 16 ≤ length into.old }
    ensures { take (16 * (i + 1)) into.new ≡ take (16 * i) into.old ++ block_of x.now }
{
    into[BLOCK * i..BLOCK * i + BLOCK].copy_from_slice(&block_of(*x));
}
