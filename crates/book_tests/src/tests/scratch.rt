//! Tests of tickets that are worked one after another in memory that a scratch keeps.
use super::operations::{change, remove, standing};
use super::{enrol, verify};
use cred_book::{Reply, Request, Ticket};
use cred_phc::Scratch;
use cred_pool::NoGate;
use std::alloc::Global;
use std::process::Abort;
use test_samples::{A, A_SETTING, B, B_SETTING, SCRYPT};

/// The record at the copy, the request, the answer, and the number of KiB that are kept then.
type Row = (Option<&'static str>, Request, Reply, usize);

/// Returns operations that hash once, twice or not at all, under Argon2 and scrypt.
fn rows<R: Abort>(rt: &R) -> [Row; 8] {
    let right = "password";
    let changed = change(rt, right, "", B_SETTING);
    let moved = change(rt, right, "", A_SETTING);
    [
        (Some(A), verify(rt, right), Reply::Yes, 256),
        (Some(A), verify(rt, ""), Reply::No, 256),
        (None, enrol(rt, "", A_SETTING), Reply::Enrolled, 256),
        (Some(A), changed, Reply::Replaced, 384),
        (Some(B), remove(rt, right), Reply::Removed, 384),
        (Some(SCRYPT), verify(rt, right), Reply::Yes, 1024),
        (None, verify(rt, right), Reply::Absent, 1024),
        (Some(SCRYPT), moved, Reply::Replaced, 256),
    ]
}

/// Returns the reply of a ticket that is worked in the scratch; none if it comes back.
fn reply<R: Abort>(rt: &R, alloc: Global, scratch: &mut Scratch, row: &Row) -> Option<Reply> {
    let ticket = Ticket::new(row.1, standing(rt, row.0));
    let work = ticket.work_in(scratch, alloc, &NoGate).ok()?;
    Some(work.reply())
}

/// Returns the first row that gets another answer, or after which the scratch keeps other memory.
fn other_row<R: Abort>(rt: &R, alloc: Global, rows: &[Row]) -> Option<usize> {
    let mut scratch = Scratch::new(alloc, 1024);
    for (i, row) in rows.iter().enumerate() {
        let answer = reply(rt, alloc, &mut scratch, row);
        if answer != Some(row.2) || scratch.kept() != row.3 {
            return Some(i);
        }
    }
    None
}

#[test]
fn works_in_one_scratch(rt: HostRuntime) {
    let rows = rows(&rt);
    assert_eq!(rt; other_row(&rt, rt.alloc(), &rows), None);
}
