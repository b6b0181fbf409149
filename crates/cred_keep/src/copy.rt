//! Reads a book to its end, and copies a book into another database.

ghost use Rattle.std.specs.Prelude.{◌≡◌, false, IfErr, IfOk};
ghost use Rattle.std.specs.FinMap as map;
ghost use Rattle.cred_file.specs.{Cells.Cells, Kept.cells, Keeps.IsTableOf, Opening.IsFound, Opening.IsUnopened};
ghost use Rattle.cred_keep.specs.Copy.{IsUncopied, IsUnwritten};
ghost use Rattle.sqlite.specs.{State.HasCleanDisk, State.Survives, Held.state};

use cred_file::{FileBook, OpenFault};
use sqlite::{Alter, Connection};
use std::alloc::Global;

/// The reason why a book wasn't copied into another database.
#[derive(Clone, Copy, Debug, PartialEq, Eq)]
pub enum CopyFault {
    /// Opening the book of the source failed.
    Source(OpenFault),
    /// Creating the copy in the target failed.
    Target(OpenFault),
}

/// Reads all accounts of the database's book, and returns their number. Changes nothing, and the
/// connection comes back.
///
/// Errors: those of `FileBook::open`.
pub fn count_accounts<S: Alter>(
    alloc: Global,
    conn: Connection<S>,
) -> (Connection<S>, Result<usize, OpenFault>)
    requires autocommit { conn.in_transaction ≡ false }
    ensures found { HasCleanDisk (state S.Store result.0) → IfOk result.1 (λ count.
        (book : Cells) × IsFound (state S.Store conn) (state S.Store result.0) book
        × (count ≡ map.len book)) }
    ensures refused { HasCleanDisk (state S.Store result.0)
        → IfErr result.1 (IsUnopened (state S.Store conn) (state S.Store result.0)) }
    ensures kept { Survives (state S.Store conn) (state S.Store result.0) (λ _. ⊥) }
{
    match FileBook::open(alloc, conn) {
        Ok(book) => {
            let count = book.book().len();
            (book.close(), Ok(count))
        }
        Err((why, conn)) => (conn, Err(why)),
    }
}

/// Copies a database's book and marks into an empty database in one transaction, and returns the
/// number of accounts. The target's table then stands for the source's book, and a crash leaves
/// this book. The source doesn't change. Both connections come back.
///
/// Errors: `Source` with the error of `FileBook::open`; `Target` with that of
/// `FileBook::create_copy`.
pub fn copy_book<S: Alter, D: Alter>(
    alloc: Global,
    source: Connection<S>,
    target: Connection<D>,
) -> (Connection<S>, Connection<D>, Result<usize, CopyFault>)
    requires source { source.in_transaction ≡ false }
    requires target { target.in_transaction ≡ false }
    ensures copied { HasCleanDisk (state S.Store result.0) → HasCleanDisk (state D.Store result.1)
        → IfOk result.2 (λ count. (book : Cells)
        × IsFound (state S.Store source) (state S.Store result.0) book
        × IsTableOf (state D.Store result.1) book × (count ≡ map.len book)) }
    ensures refused { IfErr result.2
        (IsUncopied S.Store source result.0 D.Store target result.1) }
    ensures kept { Survives (state S.Store source) (state S.Store result.0) (λ _. ⊥) }
{
    match FileBook::open(alloc, source) {
        Ok(book) => {
            let (target, copied) = copy_into(alloc, &book, target);
            (book.close(), target, copied)
        }
        Err((why, source)) => (source, target, Err(CopyFault::Source(why))),
    }
}

/// Copies a kept book and its marks into an empty database in one transaction, and returns the
/// number of accounts.
///
/// Errors: `Target` with the error of `FileBook::create_copy`.
pub fn copy_into<S: Alter, D: Alter>(
    alloc: Global,
    book: &FileBook<S>,
    target: Connection<D>,
) -> (Connection<D>, Result<usize, CopyFault>)
    requires autocommit { target.in_transaction ≡ false }
    ensures copied { HasCleanDisk (state D.Store result.0) → IfOk result.1 (λ count.
        IsTableOf (state D.Store result.0) (cells book.now)
        × (count ≡ map.len (cells book.now))) }
    ensures refused { IfErr result.1 (IsUnwritten D.Store target result.0 (cells book.now)) }
{
    match FileBook::create_copy(alloc, target, book.book(), book.marks()) {
        Ok(copy) => {
            let count = copy.book().len();
            (copy.close(), Ok(count))
        }
        Err((why, target)) => (target, Err(CopyFault::Target(why))),
    }
}
