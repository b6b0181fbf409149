//! Argon2 as a whole (RFC 9106, section 3.2).
ghost use Rattle.std.specs.Prelude.{◌≡◌, ◌<◌, ℕ, length, slice_index_or};
ghost use Rattle.cred_argon.specs.{SegmentWork.CanWork, SegmentWork.Works, Tags.Hashes, declared.segment.Segment.Segment};
ghost use denote.Param.Send.{IsSync};

use crate::error::ArgonError;
use crate::inputs::{Inputs, first_hash, is_any_too_long};
use crate::interleaved::Interleaved;
use crate::params::Params;
use crate::scratch::ArgonScratch;
use crate::segment::{Segment, Shared};
use crate::start::start;
use crate::tag::tag_of;
use cred_pool::{Crew, CrewFn, Gate, run_parts};
use std::alloc::Global;
use std::marker::Sync;
use std::thread::Threads;

/// Computes the Argon2 tag of a password and a salt, a secret and associated data, which may be
/// empty (RFC 9106, section 3.1). At most `workers` threads work the lanes of a slice, behind the
/// gate. The tag is the same for any number of workers.
///
/// The call allocates at most the memory of the parameters, and some KiB.
///
/// Errors: `InputLen` if an input has 2^32 bytes or more, before the call allocates memory;
/// otherwise `Memory` if memory for the blocks or the tag runs out.
pub fn argon2<R: Threads + Sync, G: Gate + Sync>(
    rt: &R,
    alloc: Global,
    workers: u8,
    gate: &G,
    params: &Params,
    pw: &[u8],
    salt: &[u8],
    secret: &[u8],
    assoc: &[u8],
) -> Result<Vec<u8>, ArgonError>
    ensures { Hashes params.now pw.now salt.now secret.now assoc.now result }
{
    let work_each = |shared: &Shared<Vec<Segment>>, parts: &mut [Segment]|
        requires { IsSync R.row × IsSync G.row
            × ((i : ℕ) (d : Segment) → i < length parts.now
            → CanWork shared.now (slice_index_or parts.now i d)) }
        ensures { (i : ℕ) (d : Segment) → i < length parts.entry.now
            → Works shared.entry.now (slice_index_or parts.entry.now i d)
            (slice_index_or parts.exit.now i d) }
    { run_parts(rt, workers, gate, shared, parts) };
    let inputs = Inputs {
        pw,
        salt,
        secret,
        assoc,
    };
    argon2_by(&CrewFn { work_each }, alloc, params, &inputs)
}

/// Computes the same tag on the caller's thread, without a runtime. The thread works two lanes of a
/// slice at a time, a block of each in turn, between the gate's `enter` and `leave` of both. The
/// scratch keeps its memory from hash to hash, up to its bound. So the memory doesn't go back to
/// the system after each of many hashes. A hash never reads what an earlier hash left in the
/// memory.
///
/// Beside the memory that the scratch keeps, the call allocates at most the memory of the
/// parameters, and some KiB. The errors are the same. The scratch can still serve the next hash.
pub fn argon2_in<G: Gate>(
    scratch: &mut ArgonScratch,
    alloc: Global,
    gate: &G,
    params: &Params,
    inputs: &Inputs<'_>,
) -> Result<Vec<u8>, ArgonError>
    ensures made { Hashes params.now
        inputs.now.pw.now inputs.now.salt.now inputs.now.secret.now inputs.now.assoc.now result }
    ensures most { scratch.new ≡ scratch.old }
{
    argon2_with(scratch, &Interleaved { gate }, alloc, params, inputs)
}

/// Computes the same tag with this crew, and frees the memory.
fn argon2_by<W: Crew<Shared<Vec<Segment>>, Segment>>(
    crew: &W,
    alloc: Global,
    params: &Params,
    inputs: &Inputs<'_>,
) -> Result<Vec<u8>, ArgonError>
    requires { W.ready crew.now }
    ensures { Hashes params.now
        inputs.now.pw.now inputs.now.salt.now inputs.now.secret.now inputs.now.assoc.now result }
{
    argon2_with(
        &mut ArgonScratch::new(alloc, 0),
        crew,
        alloc,
        params,
        inputs,
    )
}

/// Computes the same tag with this crew, in the scratch's memory.
fn argon2_with<W: Crew<Shared<Vec<Segment>>, Segment>>(
    scratch: &mut ArgonScratch,
    crew: &W,
    alloc: Global,
    params: &Params,
    inputs: &Inputs<'_>,
) -> Result<Vec<u8>, ArgonError>
    requires { W.ready crew.now }
    ensures made { Hashes params.now
        inputs.now.pw.now inputs.now.salt.now inputs.now.secret.now inputs.now.assoc.now result }
    ensures most { scratch.new ≡ scratch.old }
{
    if is_any_too_long(inputs) {
        return Err(ArgonError::InputLen);
    }
    let hash = first_hash(params, inputs);
    let mut memory = start(alloc, scratch, params, hash.bytes())?;
    memory.fill(crew);
    let tag = tag_of(alloc, params, &memory.shared.newest);
    memory.give_back(scratch);
    tag
}
