//! Tests of `cred_argon`: the standard's tags, and the result when memory runs out.
//! c/tests/against_libargon2.py compares thousands of tags with the reference library's.

use super::{byte_len, counted, first, is_hex, is_made};
use cred_argon::Kind::{D, I, Id};
use cred_argon::Version::V13;
use cred_argon::{ArgonError, Kind, Params, Version, argon2};
use cred_pool::NoGate;
use std::alloc::Global;
use std::thread::Threads;

/// Kind, version, memory, passes and lanes; the lengths of password, salt, secret and associated
/// data; and their seed and step. The seed grows by 1 from each of these inputs to the next.
struct Case(Kind, Version, [u32; 3], [usize; 4], (u8, u8));

/// A case, and its tag.
type Row = (Case, &'static str);

/// RFC 9106, sections 5.1 to 5.3.
static STANDARD: [Row; 3] = [
    (
        Case(D, V13, [32, 3, 4], [32, 16, 8, 12], (1, 0)),
        "512b391b6f1162975371d30919734294f868e3be3984f3c1a13a4db9fabe4acb",
    ),
    (
        Case(I, V13, [32, 3, 4], [32, 16, 8, 12], (1, 0)),
        "c814d9d1dc7f37aa13f0d77f2494bda1c8de6b016dd388d29952a4c4672b6ce8",
    ),
    (
        Case(Id, V13, [32, 3, 4], [32, 16, 8, 12], (1, 0)),
        "0d640df58d78766c08c037a34a8b53c9d01ef0452d75b65eb52520e96b01e659",
    ),
];

fn tag_of<R: Threads + Sync>(
    rt: &R,
    alloc: Global,
    workers: u8,
    case: &Case,
    len: u32,
) -> Result<Vec<u8>, ArgonError> {
    let Case(kind, version, [memory, passes, lanes], [pw, salt, secret, assoc], (seed, step)) =
        case;
    let params = Params::with_version(*version, *kind, *memory, *passes, *lanes, len)?;
    argon2(
        rt,
        alloc,
        workers,
        &NoGate,
        &params,
        first(&counted(*seed, *step), *pw),
        first(&counted(seed.wrapping_add(1), *step), *salt),
        first(&counted(seed.wrapping_add(2), *step), *secret),
        first(&counted(seed.wrapping_add(3), *step), *assoc),
    )
}

/// Returns the first row with another tag, or none.
fn other_row<R: Threads + Sync>(rt: &R, alloc: Global, workers: u8, rows: &[Row]) -> Option<usize> {
    for (i, (case, tag)) in rows.iter().enumerate() {
        if !is_made(tag_of(rt, alloc, workers, case, byte_len(tag)), tag) {
            return Some(i);
        }
    }
    None
}

#[test]
fn rfc_vectors(rt: HostRuntime) {
    for workers in [1, 2, 3, 4, 9] {
        let other = other_row(&rt, rt.alloc(), workers, &STANDARD);
        assert_eq!(rt; other, None, "{workers} workers");
    }
}

fn is_standard<R: Threads + Sync>(rt: &R, alloc: Global) -> Result<bool, ArgonError> {
    let (case, wanted) = &STANDARD[1];
    let tag = tag_of(rt, alloc, 2, case, 32)?;
    Ok(is_hex(&tag, wanted))
}

/// With ample memory this test is one more vector. Under tools/refuse_memory.py the test shows that
/// each refused request ends in `Memory`, or never occurs.
#[test]
fn refused_memory(rt: HostRuntime) {
    let answer = is_standard(&rt, rt.alloc());
    assert!(rt; answer == Ok(true) || answer == Err(ArgonError::Memory));
}
