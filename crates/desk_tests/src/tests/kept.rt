//! Tests of a kept desk with one session, which admits and deletes names and loads records beside
//! all other kinds of change. Others test a full book, and a lack of memory.

use super::floor::{Answer, Step};
use super::scene::{DONE, FULL, NO_ACCOUNT, Scene, judge, left_of_act, operates, replied, show};
use super::{
    NONE_STANDS, ONE_STANDS, book_of, change, deletion, enrol, entry, judge_replayed, name, remove,
    stored, upgrade, verify,
};
use cred_book::{Book, Reply};
use std::alloc::Global;
use std::process::Abort;
use test_samples::{A, A_SETTING, B, B_SETTING};

/// The record of `drowssap` under `A_SETTING`, by the reference program of Argon2.
const C: &str =
    "$argon2id$v=19$m=256,t=2,p=1$c29tZXNhbHQ$gDtqOITe98Nz/qtXYCa3i4YhZKLmbzlEcxv5kGzWG0U";

/// The number of names that a book has room for.
const BOOK_CAPACITY: usize = 4096;

/// Makes every kind of change.
#[test]
fn deletions_are_kept(rt: HostRuntime) {
    let book = book_of(&rt, rt.alloc(), NONE_STANDS).expect(&rt, "a book");
    let (a, c) = (name(&rt, "a"), name(&rt, "c"));
    let lines = [
        (0, Step::Admit(c), DONE),
        operates(0, enrol(&rt, "c", A_SETTING), Reply::Enrolled),
        operates(0, change(&rt, "c", A_SETTING), Reply::Replaced),
        (0, Step::Load(a, stored(&rt, A)), DONE),
        operates(0, upgrade(&rt, "a", B_SETTING), Reply::Upgraded),
        operates(0, remove(&rt, "a"), Reply::Removed),
        (0, Step::Delete(a), DONE),
        (0, Step::Delete(a), NO_ACCOUNT),
        (0, Step::Delete(c), DONE),
        (0, Step::Load(c, stored(&rt, A)), NO_ACCOUNT),
    ];
    let left = left_of_act(&rt, rt.alloc(), &book, 1, &lines);
    let journal = [
        entry(&rt, "c", None),
        entry(&rt, "c", Some(A)),
        entry(&rt, "c", Some(C)),
        entry(&rt, "a", Some(A)),
        entry(&rt, "a", Some(B)),
        entry(&rt, "a", None),
        deletion(&rt, "a"),
        deletion(&rt, "c"),
    ];
    judge(&rt, &left, &journal, &[4], &[4]);
    assert_eq!(rt; left.book.len(), 1);
    judge_replayed(&rt, &left);
}

/// Returns a book with as many names as it has room for, all of 32 bytes, of which `LAST` is the
/// last one.
fn full_book<R: Abort>(rt: &R, alloc: Global) -> Option<Book> {
    let mut book = Book::new(alloc).ok()?;
    for place in 0..BOOK_CAPACITY {
        let number = 1_000 + place;
        let text = format!(in alloc; "a-name-of-thirty-two-bytes--{number}").ok()?;
        book.admit(name(rt, text.as_str())).ok()?;
    }
    Some(book)
}

const LAST: &str = "a-name-of-thirty-two-bytes--5095";

/// Tests that a deletion makes room for one name, and that a removal succeeds at a full book.
#[test]
fn full_book_of_long_names(rt: HostRuntime) {
    let book = full_book(&rt, rt.alloc()).expect(&rt, "a book");
    let (a, b, last) = (name(&rt, "a"), name(&rt, "b"), name(&rt, LAST));
    let lines = [
        (0, Step::Admit(a), FULL),
        (0, Step::Load(last, stored(&rt, B)), DONE),
        (0, Step::Load(last, stored(&rt, A)), DONE),
        (1, Step::Hear(0), Ok(Answer::Told(2))),
        (1, Step::Begin(verify(&rt, LAST)), DONE),
        operates(0, remove(&rt, LAST), Reply::Removed),
        (1, Step::Hear(0), Ok(Answer::Told(3))),
        (1, Step::Close, replied(Reply::Changed { now: None })),
        (0, Step::Delete(last), DONE),
        (0, Step::Admit(a), DONE),
        (0, Step::Admit(b), FULL),
        (0, Step::Admit(last), FULL),
    ];
    let left = left_of_act(&rt, rt.alloc(), &book, 2, &lines);
    let journal = [
        entry(&rt, LAST, Some(B)),
        entry(&rt, LAST, Some(A)),
        entry(&rt, LAST, None),
        deletion(&rt, LAST),
        entry(&rt, "a", None),
    ];
    judge(&rt, &left, &journal, &[1, 0], &[4, 0]);
    judge_replayed(&rt, &left);
}

/// Admits and deletes names at a kept desk, and upgrades a record to and fro. Each call runs a
/// second time if it was refused, so this tests that a refused call did nothing. The test holds
/// whichever request for memory is refused: tools/refuse_memory.py refuses each in turn.
#[test]
fn refused_desk(rt: HostRuntime) {
    let Some(book) = book_of(&rt, rt.alloc(), ONE_STANDS) else {
        return;
    };
    let (c, d) = (name(&rt, "c"), name(&rt, "d"));
    let lines = [
        (0, Step::Admit(c), DONE),
        (0, Step::Admit(d), DONE),
        (0, Step::Load(c, stored(&rt, A)), DONE),
        (0, Step::Delete(d), DONE),
        (0, Step::Delete(c), DONE),
        operates(0, upgrade(&rt, "a", B_SETTING), Reply::Upgraded),
        operates(0, upgrade(&rt, "a", A_SETTING), Reply::Upgraded),
        operates(0, upgrade(&rt, "a", B_SETTING), Reply::Upgraded),
    ];
    let journal = [
        entry(&rt, "c", None),
        entry(&rt, "d", None),
        entry(&rt, "c", Some(A)),
        deletion(&rt, "d"),
        deletion(&rt, "c"),
        entry(&rt, "a", Some(B)),
        entry(&rt, "a", Some(A)),
        entry(&rt, "a", Some(B)),
    ];
    let acts = [lines.as_slice()];
    let scene = Scene {
        tries: 2,
        ..Scene::new(1, &acts)
    };
    let Some((left, slip)) = show(&rt, rt.alloc(), &book, &scene) else {
        return;
    };
    if slip.is_none() {
        judge(&rt, &left, &journal, &[3], &[5]);
    } else {
        // There was no memory for the list that one session hands on to others.
        assert_eq!(rt; slip, Some((0, Ok(Answer::Failed))));
    }
}
