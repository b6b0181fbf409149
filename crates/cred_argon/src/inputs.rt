//! The first hash of all inputs, and the first two blocks of each lane (RFC 9106, section 3.2,
//! steps 1, 3 and 4).
ghost use Rattle.std.specs.Prelude.{◌≡◌, ℕ, ◌+◌, ◌^◌, ◌<◌, ◌≤◌, ◌↔◌, List, ◌++◌, length, IsTrue, take};
ghost use Rattle.cred_blake.specs.Hasher.{Holds};
ghost use Rattle.cred_argon.specs.{Argon.le32, Argon.first_hash, Cells.first_cell, Tags.IsAnyTooLong};

use crate::block::Block;
use crate::bytes::block_of_bytes;
use crate::params::Params;
use cred_blake::{Blake2b, Digest, hprime_block};

/// The inputs of a tag (RFC 9106, section 3.1): a password and a salt, and a secret and associated
/// data, which may be empty.
#[repr(C)]
#[derive(Clone, Copy, Drop)]
pub struct Inputs<'a> {
    pub pw: &'a [u8],
    pub salt: &'a [u8],
    pub secret: &'a [u8],
    pub assoc: &'a [u8],
}

/// Returns the first hash, of the parameters and the four inputs, each after its length.
pub(crate) fn first_hash(params: &Params, inputs: &Inputs<'_>) -> Digest
    requires pw { length inputs.now.pw.now < 2 ^ 32 }
    requires salt { length inputs.now.salt.now < 2 ^ 32 }
    requires secret { length inputs.now.secret.now < 2 ^ 32 }
    requires assoc { length inputs.now.assoc.now < 2 ^ 32 }
    ensures value { result ≡ first_hash params.now
        inputs.now.pw.now inputs.now.salt.now inputs.now.secret.now inputs.now.assoc.now }
    ensures len { length result ≡ 64 }
{
    let mut hasher = match Blake2b::new(64, &[]) {
        Ok(hasher) => hasher,
        Err(_) => unreachable!(),
    };
    feed_number(&mut hasher, params.lanes());
    feed_number(&mut hasher, params.tag_len());
    feed_number(&mut hasher, params.memory());
    feed_number(&mut hasher, params.passes());
    feed_number(&mut hasher, params.version().number());
    feed_number(&mut hasher, params.kind().number());
    feed_input(&mut hasher, inputs.pw);
    feed_input(&mut hasher, inputs.salt);
    feed_input(&mut hasher, inputs.secret);
    feed_input(&mut hasher, inputs.assoc);
    hasher.finalize()
}

/// Feeds a number as four bytes, low byte first.
fn feed_number(hasher: &mut Blake2b, number: u32)
    ensures { (n : ℕ) → (key m : List ℕ) → Holds n key hasher.old m
        → Holds n key hasher.new (m ++ le32 number) }
{
    hasher.update(&number.to_le_bytes());
}

/// Feeds an input after its length.
fn feed_input(hasher: &mut Blake2b, input: &[u8])
    requires { length input.now < 2 ^ 32 }
    ensures { (n : ℕ) → (key m : List ℕ) → Holds n key hasher.old m
        → Holds n key hasher.new (m ++ le32 (length input.now) ++ input.now) }
{
    feed_number(hasher, input.len() as u32);
    hasher.update(input);
}

/// Returns the block of one of the first two columns of a lane.
pub(crate) fn first_block(hash: &[u8], lane: u32, column: u32) -> Block
    requires { length hash.now ≡ 64 }
    ensures { result.0 ≡ first_cell hash.now lane column }
{
    let mut input = [0; 72];
    put(&mut input, 0, hash);
    put(&mut input, 64, &column.to_le_bytes());
    put(&mut input, 68, &lane.to_le_bytes());
    block_of_bytes(&hprime_block(&input))
}

/// Writes a piece at byte `at`, after the bytes before.
fn put(out: &mut [u8; 72], at: usize, piece: &[u8])
    requires { at + length piece.now ≤ 72 }
    ensures len { length out.new ≡ 72 }
    ensures front { take (at + length piece.now) out.new ≡ take at out.old ++ piece.now }
{
    out[at..at + piece.len()].copy_from_slice(piece);
}

/// Whether one of the inputs is too long.
pub(crate) fn is_any_too_long(inputs: &Inputs<'_>) -> bool
    ensures { IsTrue result ↔ IsAnyTooLong
        inputs.now.pw.now inputs.now.salt.now inputs.now.secret.now inputs.now.assoc.now }
{
    let Inputs {
        pw,
        salt,
        secret,
        assoc,
    } = *inputs;
    is_too_long(pw) || is_too_long(salt) || is_too_long(secret) || is_too_long(assoc)
}

/// Whether an input's length doesn't fit the 32 bits that it is written in.
fn is_too_long(input: &[u8]) -> bool
    ensures { IsTrue result ↔ (2 ^ 32 ≤ length input.now) }
{
    u32::try_from(input.len()).is_err()
}
