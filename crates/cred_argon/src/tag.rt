//! The tag of a memory that is filled (RFC 9106, section 3.2, steps 7 and 8).
ghost use Rattle.std.specs.Prelude.{◌≡◌, ℕ, ◌-◌, ◌*◌, ◌≤◌, List, IfOk, IfErr, length};
ghost use Rattle.cred_argon.specs.{Parameters.segment_len, Argon.argon, Argon.first_hash, Argon.last_blocks};

use crate::block::{Block, add_onto};
use crate::bytes::bytes_of_block;
use crate::error::ArgonError;
use crate::params::Params;
use crate::slice::Slice;
use cred_blake::hprime;
use std::alloc::Global;

/// Returns the tag, if the newest slice is the last of the last pass.
pub(crate) fn tag_of<S: Slice>(
    alloc: Global,
    params: &Params,
    newest: &S,
) -> Result<Vec<u8>, ArgonError>
    requires { S.is_full params.now newest.now }
    ensures ok { (pw salt secret assoc : List ℕ)
        → S.holds params.now (first_hash params.now pw salt secret assoc)
        (4 * params.now.passes - 1) newest.now
        → IfOk result (λ tag. tag.items ≡ argon params.now pw salt secret assoc) }
    ensures size { IfOk result (λ tag. length tag.items ≡ params.now.tag_len) }
    ensures err { IfErr result (λ e. e ≡ ArgonError.Memory) }
{
    let last = bytes_of_block(&last_blocks(params, newest));
    match hprime(alloc, params.tag_len(), &last) {
        Ok(tag) => Ok(tag),
        Err(_) => Err(ArgonError::Memory),
    }
}

/// Returns the last blocks of all lanes combined by XOR.
fn last_blocks<S: Slice>(params: &Params, newest: &S) -> Block
    requires { S.is_full params.now newest.now }
    ensures { (h : List ℕ) → S.holds params.now h (4 * params.now.passes - 1) newest.now
        → result.0 ≡ last_blocks params.now h params.now.lanes }
{
    let last = params.segment_len() - 1;
    let mut sum = Block::ZERO;
    'lanes: for lane in 0..params.lanes() {
        add_onto(newest.block_of(params, lane, last), &mut sum);
    }
    sum
}
