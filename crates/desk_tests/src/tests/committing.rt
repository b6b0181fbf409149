//! Tests of a committer: what a session reads of its commits, and its end. `script_tests` makes the
//! calls of a keeper on a committer.
ghost use Rattle.std.specs.Prelude.{◌≡◌, true};
ghost use Rattle.cred_desk.specs.Naming.{IsNamed, StartsAt};

use super::floor::{Answer, begin, close, read, worked};
use super::{Accounts, book_of, enrol, name, remove, stored, upgrade, verify};
use cred_book::{Book, Reply, Ticket};
use cred_desk::{Committer, DeskError, Naming, Opened, Session};
use std::alloc::Global;
use std::marker::Brand;
use std::process::Abort;
use std::sync::Wait;
use std::thread::Threads;
use test_samples::{A, B, B_SETTING};

/// The book of the committer.
const A_ALONE: Accounts<'static> = &[("a", Some(A))];

/// Works the ticket and commits it, and has the session learn the list that was told.
fn commit<J: Naming, R: Threads + Wait + Sync>(
    rt: &R,
    alloc: Global,
    committer: &mut Committer<J>,
    session: &mut Session<J>,
    open: &mut Option<Ticket>,
) -> Answer {
    let Some(work) = worked(rt, alloc, open) else {
        return Answer::Failed;
    };
    match committer.commit_told(rt, work) {
        Ok((reply, told)) => {
            session.learn(&told);
            Answer::Replied(reply)
        }
        Err((_, error)) => Answer::Refused(error),
    }
}

/// Returns the answers to a session that reads the committer's changes, and to work from before
/// them.
fn commit_and_read<J: Naming, R: Threads + Wait + Abort + Sync>(
    rt: &R,
    alloc: Global,
    committer: &mut Committer<J>,
    session: &mut Session<J>,
) -> [Answer; 5] {
    let mut early = None;
    begin(session, &mut early, verify(rt, "a"));
    let mut open = None;
    let mut foreign = Some(Ticket::new(enrol(rt, "zed", B_SETTING), None));
    let unknown = commit(rt, alloc, committer, session, &mut foreign);
    begin(session, &mut open, upgrade(rt, "a", B_SETTING));
    let upgraded = commit(rt, alloc, committer, session, &mut open);
    let closed = close(session, worked(rt, alloc, &mut early));
    begin(session, &mut open, remove(rt, "a"));
    let copied = read(&open);
    let removed = commit(rt, alloc, committer, session, &mut open);
    [unknown, upgraded, closed, copied, removed]
}

/// Commits changes and reads them, ends the committer, and begins a request once more. Returns the
/// answers, and what the session reads then.
fn committed<J: Naming, R: Threads + Wait + Abort + Sync>(
    rt: &R,
    alloc: Global,
    opened: Opened,
    book: &Book,
) -> Result<([Answer; 5], [Answer; 2]), DeskError>
    requires name { IsNamed J.Naming opened }
    requires opening { StartsAt J.Naming book.now 1 }
    requires loads { J.loads ≡ true }
{
    let (mut committer, sessions) = Committer::<J>::new(rt, alloc, opened, book, 1)?;
    let mut session = sessions.into_iter().next().expect(rt, "a session");
    let answers = commit_and_read(rt, alloc, &mut committer, &mut session);
    committer.end(rt);
    let mut open = None;
    let late = begin(&mut session, &mut open, verify(rt, "a"));
    Ok((answers, [late, read(&open)]))
}

/// Runs `committed` over a book of its own.
fn committed_alone<R: Threads + Wait + Abort + Sync>(
    rt: &R,
    alloc: Global,
) -> ([Answer; 5], [Answer; 2]) {
    let book = book_of(rt, alloc, A_ALONE).expect(rt, "a book");
    committed::<Brand, _>(rt, alloc, Opened::new(1), &book).expect(rt, "a committer")
}

#[test]
fn committer_is_read_and_ended(rt: HostRuntime) {
    let (answers, late) = committed_alone(&rt, rt.alloc());
    let now = Some(stored(&rt, B));
    let replies = [
        Answer::Replied(Reply::NoAccount),
        Answer::Replied(Reply::Upgraded),
        Answer::Replied(Reply::Changed { now }),
        Answer::Copied(now),
        Answer::Replied(Reply::Removed),
    ];
    assert_eq!(rt; answers, replies);
    let ended = [Answer::Refused(DeskError::Reader), Answer::Failed];
    assert!(rt; late == ended || late == [Answer::Done, Answer::Copied(None)]);
}
