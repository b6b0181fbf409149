//! Tests of the number of an operation's hashes, and of their setting, by the lanes that enter a
//! gate. One test shows that as many threads as there are workers for work a ticket's lanes.
use super::operations::{change, remove, standing, upgrade};
use super::work::{Entry, begun, book_with};
use super::{enrol, name, verify};
use cred_book::Request;
use std::alloc::Global;
use std::process::Abort;
use std::thread::Threads;
use test_samples::{A, A_SETTING, B_SETTING, Crowd, Visits};

/// Eight lanes, one pass.
const LANES: &str = "$argon2id$v=19$m=64,t=1,p=8$c29tZXNhbHQ";

/// Returns the visits that a gate counts during the work of the request at this account.
fn seen<R: Threads + Sync>(
    rt: &R,
    alloc: Global,
    account: Entry,
    request: Request,
    workers: u8,
    gate: Crowd,
) -> Option<Visits> {
    let book = book_with(alloc, account).ok()?;
    let ticket = begun(&book, request)?;
    let _worked = ticket.work(rt, alloc, workers, &gate).ok()?;
    Some(gate.visits())
}

#[test]
fn each_lane_by_the_workers(rt: HostRuntime) {
    for (workers, at_once) in [(0, 1), (3, 3), (8, 8)] {
        let (account, request) = ((name(&rt, "a"), None), enrol(&rt, "password", LANES));
        let gate = Crowd::new(8, at_once);
        let visits = seen(&rt, rt.alloc(), account, request, workers, gate);
        assert_eq!(rt; visits, Some(Visits::of(at_once, 8, 4)), "{workers}");
    }
}

/// The record there, the request, and how often the first lane and the second enter.
type Row = (Option<&'static str>, Request, [u64; 2]);

fn hold<R: Threads + Sync + Abort>(rt: &R, alloc: Global, table: &[Row]) {
    for (row, (before, request, want)) in table.iter().enumerate() {
        let account = (name(rt, "a"), standing(rt, *before));
        let visits = seen(rt, alloc, account, *request, 1, Crowd::new(1, 1));
        let entered = visits.expect(rt, "work").entered;
        assert_eq!(rt; [entered[0], entered[1]], *want, "row {row}");
    }
}

/// Counts the lanes that enter. A hash has two passes of four slices, and each lane enters once in
/// each slice. `A` has one lane, and the setting of a new record has two. A wrong password costs as
/// many hashes as a right one.
#[test]
fn no_hash_too_many(rt: HostRuntime) {
    let table = [
        (None, enrol(&rt, "password", B_SETTING), [8, 8]),
        (Some(A), enrol(&rt, "password", B_SETTING), [0, 0]),
        (None, verify(&rt, "password"), [0, 0]),
        (Some(A), verify(&rt, "password"), [8, 0]),
        (Some(A), verify(&rt, "other"), [8, 0]),
        (None, change(&rt, "password", "new", B_SETTING), [0, 0]),
        (Some(A), change(&rt, "other", "new", B_SETTING), [16, 8]),
        (Some(A), change(&rt, "password", "new", B_SETTING), [16, 8]),
        (None, upgrade(&rt, "password", B_SETTING), [0, 0]),
        (Some(A), upgrade(&rt, "password", A_SETTING), [8, 0]),
        (Some(A), upgrade(&rt, "other", A_SETTING), [8, 0]),
        (Some(A), upgrade(&rt, "other", B_SETTING), [16, 8]),
        (Some(A), upgrade(&rt, "password", B_SETTING), [16, 8]),
        (None, remove(&rt, "password"), [0, 0]),
        (Some(A), remove(&rt, "other"), [8, 0]),
        (Some(A), remove(&rt, "password"), [8, 0]),
    ];
    hold(&rt, rt.alloc(), &table);
}
