//! Tests of facts that no clause states: values from outside, parts that threads work side by side,
//! faults of texts, and results without memory.
//!
//! Most tests run a table: one function judges each row, and the test asserts once that no row is
//! wrong. The reason: each place that may end early beside a value on the heap costs the prover
//! seconds.

mod argon;
mod blake;
mod gates;
mod pool;
mod scratch;
mod scrypt;
mod strings;

use cred_phc::{Record, parse_record};
use std::process::Abort;

/// The longest input of the tables.
const LONGEST: usize = 300;

/// Returns an input of the tables: byte i is (step * i + seed) mod 256. The first bytes of this
/// input are a shorter input.
fn counted(seed: u8, step: u8) -> [u8; LONGEST] {
    let mut bytes = [0; LONGEST];
    let mut next = seed;
    for byte in &mut bytes {
        *byte = next;
        next = next.wrapping_add(step);
    }
    bytes
}

/// Returns the first bytes of an input.
fn first(input: &[u8; LONGEST], len: usize) -> &[u8] {
    &input[..len.min(LONGEST)]
}

/// Whether these are the digits of the bytes in hexadecimal.
fn is_hex(bytes: &[u8], digits: &str) -> bool {
    let mut read = [0; 1024];
    let Some(read) = read.get_mut(..digits.len() / 2) else {
        return false;
    };
    hex::decode_to_slice(digits, read).is_ok() && &*read == bytes
}

/// Returns the number of bytes that the digits name, at most 1000.
fn byte_len(digits: &str) -> u32 {
    (digits.len() / 2).min(1000) as u32
}

/// Whether the call returned bytes with these digits in hexadecimal.
fn is_made<E: Drop>(made: Result<Vec<u8>, E>, digits: &str) -> bool {
    match made {
        Ok(bytes) => is_hex(&bytes, digits),
        Err(_) => false,
    }
}

fn stored(rt: &impl Abort, text: &str) -> Record {
    parse_record(text.as_bytes()).expect(rt, "a record")
}
