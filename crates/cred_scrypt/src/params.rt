//! scrypt's parameters, each in its range (RFC 7914, section 2).
ghost use Rattle.std.specs.Prelude.{◌≡◌, ◌<◌, ◌≤◌, ◌*◌, ◌^◌, ◌↔◌, IsTrue, IfOk};
ghost use Rattle.cred_scrypt.specs.declared.params.TheConstants.{MAX_BLOCK_SIZE, MAX_BLOCKS, MAX_LEN, MAX_LN, MAX_ROWS, MIN_LEN};
ghost use Rattle.cred_scrypt.specs.Params.{IsBadLen, IsCostly};

use crate::error::ScryptError;

/// The maximum of r * N. A table takes 128 bytes for each unit of it, so at most 2 GiB.
pub const MAX_ROWS: u64 = 16_777_216;

/// The maximum of ln, at which the table takes 2 GiB with the smallest block size.
pub const MAX_LN: u8 = 24;

/// The maximum block size, which is kept in a byte.
pub const MAX_BLOCK_SIZE: u8 = 255;

/// The maximum number of pieces, which is kept in a byte.
pub const MAX_BLOCKS: u8 = 255;

/// The shortest key in bytes that a record can hold.
pub const MIN_LEN: u32 = 4;

/// The longest key in bytes that a record can hold.
pub const MAX_LEN: u32 = 64;

/// States a law: the ranges that definitions take from the constants above are these numbers.
pub fn ranges_are_these_numbers()
    ensures rows { MAX_ROWS ≡ 16777216 }
    ensures ln { MAX_LN ≡ 24 }
    ensures block_size { MAX_BLOCK_SIZE ≡ 255 }
    ensures blocks { MAX_BLOCKS ≡ 255 }
    ensures shortest_key { MIN_LEN ≡ 4 }
    ensures longest_key { MAX_LEN ≡ 64 }
{}

/// scrypt's parameters (RFC 7914, section 2), with a table of at most 2 GiB.
#[derive(Clone, Copy, Debug, PartialEq, Eq)]
pub struct ScryptParams {
    /// The cost as a power of two: N is 2 to the power of `ln`.
    pub ln: u8,
    /// The block size: BlockMix works on 2r blocks of 64 bytes.
    pub r: u8,
    /// The parallelization: the number of pieces of 128r bytes that scrypt mixes independently.
    pub p: u8,
    /// The length of the key in bytes.
    pub len: u32,
    ghost some_rows: { 1 ≤ ln },
    ghost few_rows: { ln ≤ MAX_LN },
    ghost some_blocks: { 1 ≤ r },
    ghost some_pieces: { 1 ≤ p },
    ghost below_block_size: { ln < 16 * r },
    ghost room: { r * 2 ^ ln ≤ MAX_ROWS },
    ghost some_bytes: { 1 ≤ len },
}

impl ScryptParams {
    /// Returns parameters with N = 2^`ln`, block size `r`, parallelization `p` and a key of `len`
    /// bytes (RFC 7914, section 2).
    ///
    /// Errors: `BlockSize` if `r` is 0; otherwise `Blocks` if `p` is 0; otherwise `Cost` if `ln` is
    /// 0 or isn't below 16r, or if the table would exceed 2 GiB, as with any `ln` over 23;
    /// otherwise `Len` if `len` is not 4 to 64.
    pub fn new(ln: u8, r: u8, p: u8, len: u32) -> Result<ScryptParams, ScryptError>
        ensures block_size { (result ≡ Err ScryptError.BlockSize) ↔ (r ≡ 0) }
        ensures blocks { (result ≡ Err ScryptError.Blocks) ↔ ((1 ≤ r) × (p ≡ 0)) }
        ensures cost { (result ≡ Err ScryptError.Cost) ↔ ((1 ≤ r) × (1 ≤ p) × IsCostly ln r) }
        ensures len { (result ≡ Err ScryptError.Len)
            ↔ ((1 ≤ r) × (1 ≤ p) × (IsCostly ln r → ⊥) × IsBadLen len) }
        ensures memory { result ≡ Err ScryptError.Memory → ⊥ }
        ensures ok { IfOk result (λ made.
            (made.ln ≡ ln) × (made.r ≡ r) × (made.p ≡ p) × (made.len ≡ len)) }
    {
        let params = ScryptParams::raw(ln, r, p, len)?;
        if len < MIN_LEN || len > MAX_LEN {
            return Err(ScryptError::Len);
        }
        Ok(params)
    }

    /// Returns parameters for a key that need not fit into a record: of any length but 0.
    ///
    /// Errors: those of [`new`](ScryptParams::new), except that `Len` comes only if `len` is 0.
    pub fn raw(ln: u8, r: u8, p: u8, len: u32) -> Result<ScryptParams, ScryptError>
        ensures block_size { (result ≡ Err ScryptError.BlockSize) ↔ (r ≡ 0) }
        ensures blocks { (result ≡ Err ScryptError.Blocks) ↔ ((1 ≤ r) × (p ≡ 0)) }
        ensures cost { (result ≡ Err ScryptError.Cost) ↔ ((1 ≤ r) × (1 ≤ p) × IsCostly ln r) }
        ensures len { (result ≡ Err ScryptError.Len)
            ↔ ((1 ≤ r) × (1 ≤ p) × (IsCostly ln r → ⊥) × (len ≡ 0)) }
        ensures memory { result ≡ Err ScryptError.Memory → ⊥ }
        ensures ok { IfOk result (λ made.
            (made.ln ≡ ln) × (made.r ≡ r) × (made.p ≡ p) × (made.len ≡ len)) }
    {
        if r == 0 {
            return Err(ScryptError::BlockSize);
        }
        if p == 0 {
            return Err(ScryptError::Blocks);
        }
        if is_costly(ln, r) {
            return Err(ScryptError::Cost);
        }
        if len == 0 {
            return Err(ScryptError::Len);
        }
        Ok(ScryptParams { ln, r, p, len })
    }
}

/// Whether the cost is out of range, too high for the block size, or its table too large.
fn is_costly(ln: u8, r: u8) -> bool
    ensures { IsTrue result ↔ IsCostly ln r }
{
    if ln == 0 || ln > MAX_LN {
        return true;
    }
    u32::from(ln) >= 16 * u32::from(r) || u64::from(r) << ln > MAX_ROWS
}
