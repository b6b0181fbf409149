//! Tests of two sessions of one desk, in one thread and in threads of their own: what one settles,
//! the other reads.
use super::floor::{Answer, Step};
use super::scene::{
    DONE, Outcome, Scene, judge, judge_record, left_of, left_of_act, operates, replied,
};
use super::{BOTH_STAND, ONE_STANDS, book_of, entry, stored, upgrade, verify};
use cred_book::Reply;
use cred_desk::DeskError;
use std::process::Abort;
use test_samples::{B, B_SETTING};

fn copied<R: Abort>(rt: &R, text: &str) -> Outcome {
    Ok(Answer::Copied(Some(stored(rt, text))))
}

/// Has one session settle an upgrade and tell the other, which then reads the upgrade.
#[test]
fn told_and_read(rt: HostRuntime) {
    let one = [operates(0, upgrade(&rt, "a", B_SETTING), Reply::Upgraded)];
    let other = [
        (0, Step::Learn, DONE),
        (0, Step::Begin(verify(&rt, "a")), DONE),
        (0, Step::Read, copied(&rt, B)),
        (0, Step::Close, replied(Reply::Yes)),
    ];
    let book = book_of(&rt, rt.alloc(), ONE_STANDS).expect(&rt, "a book");
    let scene = Scene {
        front: &one,
        back: &other,
        ..Scene::new(2, &[])
    };
    let left = left_of(&rt, rt.alloc(), &book, &scene);
    judge(&rt, &left, &[entry(&rt, "a", Some(B))], &[1, 0], &[0, 0]);
    judge_record(&rt, &left, "a", Some(B));
}

/// Tests that after two threads have settled and ended, each session reads both changes with
/// nothing learned.
#[test]
fn seen_after_settle(rt: HostRuntime) {
    let one = [operates(0, upgrade(&rt, "a", B_SETTING), Reply::Upgraded)];
    let other = [operates(0, upgrade(&rt, "b", B_SETTING), Reply::Upgraded)];
    let after = [
        (0, Step::Begin(verify(&rt, "a")), DONE),
        (0, Step::Read, copied(&rt, B)),
        (0, Step::Begin(verify(&rt, "b")), DONE),
        (0, Step::Read, copied(&rt, B)),
        (1, Step::Begin(verify(&rt, "a")), DONE),
        (1, Step::Read, copied(&rt, B)),
        (1, Step::Begin(verify(&rt, "b")), DONE),
        (1, Step::Read, copied(&rt, B)),
    ];
    let book = book_of(&rt, rt.alloc(), BOTH_STAND).expect(&rt, "a book");
    let acts = [after.as_slice()];
    let scene = Scene {
        front: &one,
        back: &other,
        ..Scene::new(2, &acts)
    };
    let left = left_of(&rt, rt.alloc(), &book, &scene);
    assert_eq!(rt; left.counts.as_slice(), [1, 1].as_slice());
    assert_eq!(rt; left.log.entries.len(), 2);
}

/// Tests that a session that has settled an upgrade reads it with nothing learned, and begins
/// nothing at a name that doesn't exist. A verify that another session began before gets the answer
/// `Changed`.
#[test]
fn own_settle_is_read(rt: HostRuntime) {
    let missing = Ok(Answer::Refused(DeskError::NoAccount));
    let now = Some(stored(&rt, B));
    let lines = [
        (0, Step::Begin(verify(&rt, "zed")), missing),
        (1, Step::Begin(verify(&rt, "a")), DONE),
        operates(0, upgrade(&rt, "a", B_SETTING), Reply::Upgraded),
        (0, Step::Begin(verify(&rt, "a")), DONE),
        (0, Step::Read, copied(&rt, B)),
        (1, Step::Learn, DONE),
        (1, Step::Close, replied(Reply::Changed { now })),
    ];
    let book = book_of(&rt, rt.alloc(), ONE_STANDS).expect(&rt, "a book");
    let left = left_of_act(&rt, rt.alloc(), &book, 2, &lines);
    judge(&rt, &left, &[entry(&rt, "a", Some(B))], &[1, 0], &[0, 0]);
}
