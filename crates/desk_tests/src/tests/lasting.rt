//! Tests of desks that live on or end early: they hand out their journals in pieces, and lose
//! sessions.

use super::ending::Ending;
use super::floor::{Answer, Step};
use super::scene::{DONE, Line, Scene, judge, judge_record, left_of, operates, replied, show};
use super::{
    CHEAP_SETTINGS, NONE_STANDS, ONE_STANDS, book_of, entry, judge_replayed, name, stored, upgrade,
    verify,
};
use cred_book::Reply;
use std::alloc::{AllocError, Global};
use std::process::Abort;
use test_samples::{A, B};

/// Tests the number of sessions that a desk may have: from 1 to 128.
#[test]
fn numbers_of_sessions(rt: HostRuntime) {
    let book = book_of(&rt, rt.alloc(), NONE_STANDS).expect(&rt, "a book");
    for sessions in [0, 1, 128, 129, 255] {
        let left = show(&rt, rt.alloc(), &book, &Scene::new(sessions, &[]));
        let may_be = (1..=128).contains(&sessions);
        assert_eq!(rt; left.is_some(), may_be, "{sessions}");
    }
}

/// Tests desks that lose sessions: the last session made two of four entries, and the one before it
/// made one.
#[test]
fn lasting_desk(rt: HostRuntime) {
    let book = book_of(&rt, rt.alloc(), NONE_STANDS).expect(&rt, "a book");
    let (c, d, e) = (name(&rt, "c"), name(&rt, "d"), name(&rt, "e"));
    let first = [
        (0, Step::Admit(c), DONE),
        (2, Step::Load(c, stored(&rt, A)), DONE),
    ];
    let third = [(2, Step::Admit(d), DONE)];
    let fourth = [
        (1, Step::Hear(0), Ok(Answer::Told(3))),
        (1, Step::Admit(e), DONE),
    ];
    let acts = [first.as_slice(), &[], &third, &fourth];
    let journal = [
        entry(&rt, "c", None),
        entry(&rt, "c", Some(A)),
        entry(&rt, "d", None),
        entry(&rt, "e", None),
    ];
    for (ending, missing) in [
        (Ending::Finish { lost: 0 }, 0),
        (Ending::Finish { lost: 1 }, 2),
        (Ending::Finish { lost: 2 }, 3),
        (Ending::Finish { lost: 3 }, 4),
        (Ending::GiveUp, 0),
        (Ending::End, 0),
    ] {
        let scene = Scene {
            ending,
            ..Scene::new(3, &acts)
        };
        let left = left_of(&rt, rt.alloc(), &book, &scene);
        judge(&rt, &left, &journal, &[0, 0, 0], &[1, 1, 2]);
        assert_eq!(rt; left.journal.pieces.as_slice(), [2, 0, 1, 1].as_slice());
        assert_eq!(rt; left.missing, missing);
        judge_record(&rt, &left, "c", Some(A));
    }
}

/// Adds loads of b by a session.
fn load<R: Abort>(
    rt: &R,
    lines: &mut Vec<Line>,
    session: usize,
    times: u64,
) -> Result<(), AllocError> {
    let (b, record) = (name(rt, "b"), stored(rt, B));
    for _time in 0..times {
        lines.push((session, Step::Load(b, record), DONE))?;
    }
    Ok(())
}

/// Returns lines that make more entries than one allocation has room for: 5,000 loads, 300 upgrades
/// and 300 admissions.
fn thousands<R: Abort>(rt: &R, alloc: Global) -> Result<Vec<Line>, AllocError> {
    let mut lines = Vec::new(alloc);
    load(rt, &mut lines, 0, 3)?;
    lines.push((1, Step::Hear(0), Ok(Answer::Told(3))))?;
    load(rt, &mut lines, 0, 4_997)?;
    for turn in 0..300usize {
        let new = CHEAP_SETTINGS[turn % 2];
        lines.push(operates(0, upgrade(rt, "a", new), Reply::Upgraded))?;
        let text = format!(in alloc; "n{turn}")?;
        lines.push((0, Step::Admit(name(rt, text.as_str())), DONE))?;
    }
    lines.push((1, Step::Hear(0), Ok(Answer::Told(5_600))))?;
    Ok(lines)
}

/// Has a spare session make the last 200 entries, and finishes the desk with no session. Nothing is
/// left then.
#[test]
fn thousands_of_entries(rt: HostRuntime) {
    let book = book_of(&rt, rt.alloc(), ONE_STANDS).expect(&rt, "a book");
    let first = thousands(&rt, rt.alloc()).expect(&rt, "memory");
    let (mut single, mut last) = (Vec::new(rt.alloc()), Vec::new(rt.alloc()));
    load(&rt, &mut single, 0, 1).expect(&rt, "memory");
    load(&rt, &mut last, 1, 200).expect(&rt, "memory");
    let verified = [
        (1, Step::Begin(verify(&rt, "a")), DONE),
        (1, Step::Close, replied(Reply::Yes)),
    ];
    let acts = [first.as_slice(), &[], &single, &last, &verified];
    let scene = Scene {
        ending: Ending::Finish { lost: 2 },
        ..Scene::new(2, &acts)
    };
    let left = left_of(&rt, rt.alloc(), &book, &scene);
    assert_eq!(rt;
        left.journal.pieces.as_slice(),
        [5_600, 0, 1, 200, 0].as_slice()
    );
    assert_eq!(rt; left.counts.as_slice(), [300, 0].as_slice());
    assert_eq!(rt; left.additions.as_slice(), [5_301, 200].as_slice());
    assert_eq!(rt; left.missing, 5_801);
    assert!(rt; left.log.entries == left.journal.entries);
    judge_replayed(&rt, &left);
}
