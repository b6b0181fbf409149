//! The same scripts on a committer, which publishes its book.
ghost use Rattle.std.specs.Prelude.{◌≡◌, true};
ghost use Rattle.cred_desk.specs.Naming.{IsNamed, StartsAt};

use super::{Ran, run_in_room};
use cred_book::Book;
use cred_desk::{Committer, Naming, Opened};
use std::alloc::Global;
use std::marker::Brand;
use std::sync::Wait;
use std::thread::Threads;

/// Runs a script on a committer of this book, ends the committer, and returns the result.
fn run_published<J: Naming, R: Threads + Wait + Sync>(
    rt: &R,
    alloc: Global,
    workers: u8,
    opened: Opened,
    book: &Book,
    script: &[u8],
) -> Option<Ran>
    requires name { IsNamed J.Naming opened }
    requires opening { StartsAt J.Naming book.now 0 }
    requires loads { J.loads ≡ true }
{
    let (mut committer, _sessions) = Committer::<J>::new(rt, alloc, opened, book, 0).ok()?;
    let ran = run_in_room(rt, alloc, workers, &mut committer, script);
    committer.end(rt);
    ran
}

/// Runs a script on a committer of an empty book, and returns the result, or none if memory runs
/// out.
pub(super) fn run_on_committer<R: Threads + Wait + Sync>(
    rt: &R,
    alloc: Global,
    workers: u8,
    script: &[u8],
) -> Option<Ran> {
    let book = Book::new(alloc).ok()?;
    run_published::<Brand, R>(rt, alloc, workers, Opened::new(0), &book, script)
}
