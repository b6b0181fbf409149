//! Tests of `cred_blake`: a vector of the authors of BLAKE2, H' by other programs, and the result
//! when memory runs out.

use super::{counted, is_hex, is_made};
use cred_blake::{Blake2b, BlakeError, Digest, hprime};
use std::alloc::Global;

/// The bytes 0 to 254 under the key 0 to 63, the last of the keyed vectors of the BLAKE2 authors.
const KEYED: &str = "142709d62e28fcccd0af97fad0f8465b971e82201dc51070faa0372aa43e9248\
    4be1c1e73ba10906d5d1853db6a4106e0a7bf9800d373d6dee2d46d62ef2a461";

/// H' of `abc` to 1 and to 97 bytes.
const PRIMES: [(u32, &str); 2] = [
    (1, "79"),
    (
        97,
        "c82ccb541fdbecd1ce8090f61f39905cbf4bc03cebd133a002c7babe4ea204fb\
            a111552004c5a5338c62d4c7561af5de2665d24d30de9407b9ba1a6ab372054d\
            3e6fdd0c7aa46b48980189af43f3502d68d007a02b1c4efe04c13b9f39d932f3\
            35",
    ),
];

fn fed(hasher: Blake2b, pieces: &[&[u8]]) -> Digest {
    let mut hasher = hasher;
    for piece in pieces {
        hasher.update(piece);
    }
    hasher.finalize()
}

/// Whether this is the digest of 64 bytes of the pieces, one after the other.
fn is_hash(key: &[u8], pieces: &[&[u8]], want: &str) -> bool {
    match Blake2b::new(64, key) {
        Ok(hasher) => is_hex(fed(hasher, pieces).bytes(), want),
        Err(_) => false,
    }
}

#[test]
fn keyed_in_pieces(rt: HostRuntime) {
    let bytes = counted(0, 1);
    let pieces = [&bytes[..1], b"", &bytes[1..129], &bytes[129..255]];
    assert!(rt; is_hash(&bytes[..64], &pieces, KEYED));
}

#[test]
fn hash_prime_shapes(rt: HostRuntime) {
    for (len, want) in PRIMES {
        assert!(rt;
            is_made(hprime(rt.alloc(), len, b"abc"), want),
            "{len} bytes"
        );
    }
}

/// Returns the length of H' to 97 bytes.
fn length_97(alloc: Global) -> Result<usize, BlakeError> {
    Ok(hprime(alloc, 97, b"abc")?.len())
}

/// Holds whichever request the allocator refuses; tools/refuse_memory.py refuses each in turn.
#[test]
fn refused_memory(rt: HostRuntime) {
    let len = length_97(rt.alloc());
    assert!(rt; len == Ok(97) || len == Err(BlakeError::Memory));
}
