//! Tests of tags that are computed one after another in memory that a scratch keeps.

use super::strings::LARGE;
use cred_phc::{Password, Record, Scratch, TagError, parse_record, tag_in};
use cred_pool::NoGate;
use std::alloc::Global;
use test_samples::{A, B, OLD, SCRYPT};

/// A record, its password, and how many KiB are kept after its tag.
#[derive(Clone, Copy)]
struct Row(&'static str, &'static [u8], usize);

/// Returns a record of `password`.
fn of_password(text: &'static str, kept: usize) -> Row {
    Row(text, b"password", kept)
}

/// Returns a record by OpenSSL, whose table has 2 KiB.
fn small_table(kept: usize) -> Row {
    of_password(
        "$scrypt$ln=4,r=1,p=1$TmFDbA$rsa3SD7SbgiAK0H0AyCGoOiGvnrEj8/ZL/DO+BCXUvQ",
        kept,
    )
}

/// Returns the third vector of RFC 7914, section 12, whose table has 16 MiB.
fn large_table(kept: usize) -> Row {
    Row(
        "$scrypt$ln=14,r=8,p=1$U29kaXVtQ2hsb3JpZGU$\
            cCO9yzr9c0hGHAbNgf046/2o+7qQT44+qbVD9lRdofLVQylVYT8Pz2LUlwUkKpr55h6F3A1lHkDfzwF7RVdYhw",
        b"pleaseletmein",
        kept,
    )
}

/// Returns the record with a tag that the function computes anew.
fn made_again(
    scratch: &mut Scratch,
    alloc: Global,
    stored: &Record,
    pw: &Password,
) -> Result<Record, TagError> {
    let setting = stored.setting();
    let length = stored.tag().bytes().len() as u8;
    let made = tag_in(scratch, alloc, &NoGate, &setting, length, pw.bytes())?;
    Ok(Record::with_tag(setting, made))
}

/// Whether the tag of the row found memory; none if the tag is wrong.
fn is_made(scratch: &mut Scratch, alloc: Global, row: &Row) -> Option<bool> {
    let stored = parse_record(row.0.as_bytes()).ok()?;
    let pw = Password::new(row.1)?;
    match made_again(scratch, alloc, &stored, &pw) {
        Ok(made) if made == stored => Some(true),
        Err(TagError::Memory) => Some(false),
        Ok(_) => None,
    }
}

/// Returns the first row whose tag fails, or after which the scratch keeps other memory, in a
/// scratch that keeps at most so many KiB.
fn other_row(alloc: Global, most: u32, rows: &[Row]) -> Option<usize> {
    let mut scratch = Scratch::new(alloc, most);
    for (i, row) in rows.iter().enumerate() {
        if is_made(&mut scratch, alloc, row) != Some(true) || scratch.kept() != row.2 {
            return Some(i);
        }
    }
    None
}

/// Returns rows of Argon2 on one lane and on two and of scrypt, in turn. The scratch frees the
/// memory of one function before the other begins.
fn in_turn() -> [Row; 6] {
    [
        of_password(A, 256),
        of_password(B, 384),
        of_password(SCRYPT, 1024),
        of_password(OLD, 256),
        of_password(SCRYPT, 1024),
        of_password(A, 256),
    ]
}

#[test]
fn tags_in_one_scratch(rt: HostRuntime) {
    assert_eq!(rt; other_row(rt.alloc(), 1024, &in_turn()), None);
}

/// Tests that a scratch keeps the memory that fits, and that a hash that needs more frees all.
#[test]
fn small_large_small(rt: HostRuntime) {
    let lanes = [
        of_password(A, 256),
        of_password(LARGE, 0),
        of_password(A, 256),
        of_password(B, 288),
        of_password(A, 256),
    ];
    let fits = [small_table(2), large_table(16384), small_table(16384)];
    let is_too_large = [small_table(2), large_table(0), small_table(2)];
    let others = [
        other_row(rt.alloc(), 300, &lanes),
        other_row(rt.alloc(), 16384, &fits),
        other_row(rt.alloc(), 16383, &is_too_large),
        other_row(
            rt.alloc(),
            0,
            &[of_password(B, 0), of_password(A, 0), small_table(0)],
        ),
    ];
    assert_eq!(rt; others, [None; 4]);
}

/// Runs under tools/peak_memory.py too, which tests that the hashes ask for memory once.
#[test]
fn memory_taken_once(rt: HostRuntime) {
    assert_eq!(rt; other_row(rt.alloc(), 256, &[of_password(A, 256); 4]), None);
}

/// Runs under tools/peak_memory.py too, for a table of scrypt.
#[test]
fn table_taken_once(rt: HostRuntime) {
    assert_eq!(rt;
        other_row(rt.alloc(), 16384, &[large_table(16384); 3]),
        None
    );
}

/// Returns the number of rows that found no memory; none if a tag is wrong.
fn refused(alloc: Global, rows: &[Row]) -> Option<u32> {
    let mut scratch = Scratch::new(alloc, 1024);
    let mut count: u32 = 0;
    for row in rows {
        if !is_made(&mut scratch, alloc, row)? {
            count = count.saturating_add(1);
        }
    }
    Some(count)
}

/// Holds whichever request the allocator refuses: tools/refuse_memory.py refuses each in turn.
/// After a refusal the scratch can still serve the next tags.
#[test]
fn refused_memory_leaves_the_scratch(rt: HostRuntime) {
    let count = refused(rt.alloc(), &in_turn());
    assert!(rt; count == Some(0) || count == Some(1), "{count:?}");
}
