//! Creates a kept book as the copy of another.

ghost use Rattle.std.specs.Prelude.{◌≡◌, false, IfErr, IfOk, None};
ghost use Rattle.cred_file.specs.{Cells.cells_of, Cells.mark_at, Copies.IsUncopied, Copies.MayCopy, Kept.cells, Schema.no_schema};
ghost use Rattle.sqlite.specs.{State.HasCleanDisk, Held.state};

use super::{FileBook, is_empty};
use crate::fault::OpenFault;
use crate::marks::Marks;
use crate::statements::create_table;
use crate::transaction::{Batch, take_together};
use cred_book::Register;
use sqlite::{Alter, Connection};
use std::alloc::Global;

impl<S: Alter> FileBook<S> {
    /// Creates a book in an empty database, and writes all accounts of an existing book with their
    /// marks into it, in one transaction.
    ///
    /// Errors: `NotEmpty` if a table exists already; `Memory`; `Database`. The connection comes
    /// back, and a crash leaves what it could leave before, an empty book, or all the accounts.
    pub fn create_copy(
        alloc: Global,
        mut conn: Connection<S>,
        accounts: &Register,
        marks: &Marks,
    ) -> Result<FileBook<S>, (OpenFault, Connection<S>)>
        requires autocommit { conn.in_transaction ≡ false }
        ensures copied { IfOk result (λ b. (b.book ≡ accounts.now)
            × (cells b ≡ cells_of accounts.now (mark_at marks.now)) × (b.lost ≡ None)) }
        ensures begun { IfOk result (λ _. (state S.Store conn).now.schema ≡ no_schema) }
        ensures refused { IfErr result (λ e. IsUncopied S.Store conn e.1 e.0) }
        ensures left { IfErr result (λ e. HasCleanDisk (state S.Store e.1)
            → MayCopy (state S.Store conn) (state S.Store e.1)
            (cells_of accounts.now (mark_at marks.now))) }
    {
        if !is_empty(conn.schema()) {
            return Err((OpenFault::NotEmpty, conn));
        }
        match create_table(&mut conn) {
            Ok(_) => {}
            Err(error) => return Err((OpenFault::Database(error), conn)),
        }
        if !conn.is_autocommit() {
            return Err((OpenFault::Memory, conn));
        }
        let mut book = Register::new(alloc);
        let none = Register::new(alloc);
        let mut kept = Marks::new(alloc);
        let batch = Batch {
            added: accounts,
            changed: &none,
            marks,
        };
        let _few = accounts.len();
        match take_together(alloc, &mut conn, &mut book, &mut kept, batch) {
            Ok(()) => Ok(FileBook {
                alloc,
                conn,
                book,
                marks: kept,
                lost: None,
            }),
            Err(error) => Err((OpenFault::Database(error), conn)),
        }
    }
}
