//! ROMix, with its table of rows (RFC 7914, section 5).
ghost use Rattle.std.specs.Prelude.{◌≡◌, ℕ, ◌+◌, ◌*◌, ◌^◌, ◌%◌, ◌<◌, ◌≤◌, List, [], length, OnOk, OnErr, vec_capacity};
ghost use Rattle.cred_scrypt.specs.declared.params.TheConstants.{MAX_LN, MAX_ROWS};
ghost use Rattle.cred_scrypt.specs.{Mixing.block_mix, Mixing.integerify, Mixing.mixes, Mixing.ro_mix, Table.IsTable, Table.row_at, Xor.xor_all};

use crate::blockmix::block_mix;
use crate::error::ScryptError;
use crate::scratch::ScryptScratch;
use crate::xor::xor_words;
use std::alloc::Global;
use std::mem;

/// Applies ROMix (RFC 7914, section 5) with N = 2^`ln`, in place, to `block`: 2r blocks of sixteen
/// 32-bit words. `r` is at least 1, `ln` at most 24, and `r * N` at most
/// [`MAX_ROWS`](crate::MAX_ROWS). So the table has at most 2 GiB.
///
/// Errors: `Memory` if there is not enough for the table and two more pieces; `block` is then
/// unchanged.
pub fn ro_mix(alloc: Global, r: u8, ln: u8, block: &mut [u32]) -> Result<(), ScryptError>
    requires block_size { 1 ≤ r }
    requires cost { ln ≤ MAX_LN }
    requires room { r * 2 ^ ln ≤ MAX_ROWS }
    requires size { length block.old ≡ 32 * r }
    ensures memory { (e : _) → result ≡ Err e → e ≡ ScryptError.Memory }
    ensures ok { OnOk result (block.new ≡ ro_mix r (2 ^ ln) block.old) }
    ensures unchanged { OnErr result (block.new ≡ block.old) }
{
    ro_mix_in(&mut ScryptScratch::new(alloc, 0), alloc, r, ln, block)
}

/// Applies ROMix with a table that the scratch keeps.
pub(crate) fn ro_mix_in(
    scratch: &mut ScryptScratch,
    alloc: Global,
    r: u8,
    ln: u8,
    block: &mut [u32],
) -> Result<(), ScryptError>
    requires block_size { 1 ≤ r }
    requires cost { ln ≤ MAX_LN }
    requires room { r * 2 ^ ln ≤ MAX_ROWS }
    requires size { length block.old ≡ 32 * r }
    ensures memory { (e : _) → result ≡ Err e → e ≡ ScryptError.Memory }
    ensures ok { OnOk result (block.new ≡ ro_mix r (2 ^ ln) block.old) }
    ensures unchanged { OnErr result (block.new ≡ block.old) }
    ensures most { scratch.new ≡ scratch.old }
{
    let mut x = Vec::from_slice(alloc, block)?;
    let mut y = Vec::from_slice(alloc, block)?;
    let r = usize::from(r);
    let n = rows_of(ln);
    let mut table = scratch.take(alloc, 32 * r * n)?;
    fill(&mut table, r, n, &mut x, &mut y);
    walk(r, ln, &table, &mut x, &mut y);
    scratch.keep(table);
    block.copy_from_slice(&x);
    Ok(())
}

/// Returns N, the number of rows in the table.
fn rows_of(ln: u8) -> usize
    requires { ln ≤ MAX_LN }
    ensures value { result ≡ 2 ^ ln }
    ensures below { result ≤ MAX_ROWS }
{
    1 << ln
}

/// Fills an empty table with the values that `x` has as it is mixed `n` times.
fn fill(table: &mut Vec<u32>, r: usize, n: usize, x: &mut Vec<u32>, y: &mut Vec<u32>)
    requires block_size { 1 ≤ r }
    requires empty { table.old.items ≡ [] }
    requires room { 32 * r * n ≤ vec_capacity table.old }
    requires size { length x.old.items ≡ 32 * r }
    requires same { length y.old.items ≡ 32 * r }
    ensures table { IsTable r x.old.items table.new.items n }
    ensures mixed { x.new.items ≡ mixes r x.old.items n }
    ensures size { length x.new.items ≡ 32 * r }
    ensures same { length y.new.items ≡ 32 * r }
{
    'rows: for _row in 0..n {
        match table.extend_from_slice(x) {
            Ok(()) => advance(r, x, y),
            Err(_) => unreachable!(),
        }
    }
}

/// Mixes `x` 2^`ln` times, each time after XOR with the row of the table that `x` itself selects.
fn walk(r: usize, ln: u8, table: &[u32], x: &mut Vec<u32>, y: &mut Vec<u32>)
    requires block_size { 1 ≤ r }
    requires cost { ln ≤ MAX_LN }
    requires room { length table.now ≡ 32 * r * 2 ^ ln }
    requires size { length x.old.items ≡ 32 * r }
    requires same { length y.old.items ≡ 32 * r }
    ensures mixed { (b : List ℕ) → IsTable r b table.now (2 ^ ln) → x.old.items ≡ mixes r b (2 ^ ln)
        → x.new.items ≡ ro_mix r (2 ^ ln) b }
    ensures size { length x.new.items ≡ 32 * r }
{
    'steps: for _step in 0..rows_of(ln) {
        let j = named_row(r, ln, x);
        absorb(r, x, table, j);
        advance(r, x, y);
    }
}

/// Returns the row that `x` selects, Integerify mod N. N is a power of two that fits into a word,
/// so the low word of the last block is enough.
#[tactic(auto, using(crate::proofs::TableRows::integerify_low_word))]
fn named_row(r: usize, ln: u8, x: &[u32]) -> usize
    requires block_size { 1 ≤ r }
    requires cost { ln ≤ MAX_LN }
    requires size { length x.now ≡ 32 * r }
    ensures value { result ≡ integerify r x.now % 2 ^ ln }
    ensures below { result < 2 ^ ln }
{
    x[32 * r - 16] as usize % rows_of(ln)
}

/// XORs row `j` of the table into `x`.
fn absorb(r: usize, x: &mut Vec<u32>, table: &[u32], j: usize)
    requires size { length x.old.items ≡ 32 * r }
    requires row { 32 * r * j + 32 * r ≤ length table.now }
    ensures mixed { x.new.items ≡ xor_all x.old.items (row_at r table.now j) }
    ensures size { length x.new.items ≡ 32 * r }
{
    xor_words(x, &table[32 * r * j..32 * r * j + 32 * r]);
}

/// Mixes `x` by way of `y`, and swaps the two.
fn advance(r: usize, x: &mut Vec<u32>, y: &mut Vec<u32>)
    requires block_size { 1 ≤ r }
    requires size { length x.old.items ≡ 32 * r }
    requires same { length y.old.items ≡ 32 * r }
    ensures mixed { x.new.items ≡ block_mix r x.old.items }
    ensures size { length x.new.items ≡ 32 * r }
    ensures same { length y.new.items ≡ 32 * r }
{
    block_mix(x, y);
    mem::swap(x, y);
}
