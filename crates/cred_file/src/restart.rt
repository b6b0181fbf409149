//! The next run opens the book that a run kept, even after a crash.

ghost use Rattle.std.specs.Prelude.{IfErr, IfOk, IfSome, IsTrue};
ghost use Rattle.cred_file.specs.{Kept.cells, Keeps.IsOrWith, Keeps.MayLeave, Keeps.MayRefuse, Opening.IsForWant};
ghost use Rattle.sqlite.specs.{Held.state, State.HasCleanDisk};
ghost use Rattle.sqlite_trees.specs.View.{IsClean};

use crate::fault::OpenFault;
use crate::file_book::FileBook;
use sqlite::{Alter, Connection};
use sqlite_trees::store::Reopen;
use std::alloc::Global;

/// Stops the machine and opens the book again, over a disk that a test can crash. Proofs about
/// restarts and tests use this. The book is then the kept one, or the kept one with the lost
/// change.
///
/// Returns `None` if the disk failed or memory ran out before the database was open. After that the
/// tables and rows are never a reason to refuse the book.
pub fn crash_and_open<S: Alter + Reopen + Drop>(
    alloc: Global,
    book: FileBook<S>,
) -> Option<Result<FileBook<S>, (OpenFault, Connection<S>)>>
    ensures kept { IfSome result (λ r. IfOk r (λ b. HasCleanDisk (state S.Store b.conn)
        → IsOrWith (cells book) book.lost (cells b))) }
    ensures refused { IfSome result (λ r. IfErr r (λ e. HasCleanDisk (state S.Store e.1)
        → IsForWant e.0)) }
{
    reopen(alloc, book.close().into_store())
}

/// Crashes the machine, and opens the book that its disk then holds. Returns `None` as
/// `crash_and_open` does. A store whose disk always returned the written bytes must come from the
/// store's own `open` or `create`, as the store of a closed book does.
pub fn reopen<S: Alter + Reopen + Drop>(
    alloc: Global,
    mut store: S,
) -> Option<Result<FileBook<S>, (OpenFault, Connection<S>)>>
    requires { IsClean (S.Store.view store) → IsTrue (S.Store.view store).is_numbered }
    ensures found { IfSome result (λ r. IfOk r (λ b. HasCleanDisk (state S.Store b.conn)
        → MayLeave S.Store store (cells b))) }
    ensures refused { IfSome result (λ r. IfErr r (λ e. HasCleanDisk (state S.Store e.1)
        → MayRefuse S.Store store e.0)) }
{
    let Ok(()) = store.crash_and_reopen() else {
        return None;
    };
    let Ok(conn) = Connection::over(alloc, store) else {
        return None;
    };
    Some(FileBook::open(alloc, conn))
}
