//! A book in the table of a database.

mod batch;
mod changes;
mod copy;

ghost use Rattle.sqlite.specs.Held.{state};
ghost use Rattle.cred_file.specs.{Cells.mark_in, Schema.no_schema, Failures.IsUnbegun, Kept.cells, Keeps.Keeps, Keeps.MayBegin, Opening.IsFound, Opening.IsUnopened};
ghost use Rattle.std.specs.Prelude.{◌≡◌, true, false, IfErr, IfOk, IfSome, MatchBool, None, OnOk, Some, option_map};
ghost use Rattle.std.specs.FinMap as fin;
ghost use Rattle.cred_book.specs.{Accounts.register_capacity, Calls.AdmitsWithin, Calls.Loads, Commits.Commits};
ghost use Rattle.cred_book.specs.Works.{makes_change};
ghost use Rattle.sqlite.specs.State.{HasCleanDisk, Survives};

use crate::catalogue::is_of_book;
use crate::fault::{Lost, OpenFault};
use crate::marks::{Mark, Marks};
use crate::statements::{create_table, read_table};
use cred_book::{BookError, Keeper, Name, Register, Reply, Worked};
use cred_phc::Record;
use sqlite::{Alter, Connection};
use sqlite_schema::schema::Schema;
use std::alloc::Global;
use std::marker::Model;
use std::sync::Wait;

/// A book of at most 2^24 accounts with their marks, in a table. As long as the disk returns the
/// written bytes, a crash between two calls leaves this book.
///
/// The marks don't change what this type does: a caller looks at the marks before it answers.
///
/// If the database fails, the change that was under way is lost: it may or may not be kept. After
/// that the book accepts no other change, and `lost` describes the lost one.
#[derive(Drop)]
pub struct FileBook<S: Alter> {
    alloc: Global,
    conn: Connection<S>,
    book: Register,
    marks: Marks,
    lost: Option<Lost>,
}

impl<S: Alter> Model for FileBook<S> {
    ghost use Rattle.cred_file.specs.Kept.{Kept, kept_code};
    ghost use Rattle.cred_file.specs.Keeps.{Keeps};
    ghost use Rattle.cred_file.specs.Cells.{cells_of, mark_at};

    ghost Value = { Kept S };

    ghost coded = { kept_code S.code };

    ghost view = { λ b. record { book = b.book; marks = b.marks; lost = b.lost; conn = b.conn } };

    ghost invariant = { λ b. Keeps S.Store b.conn (cells_of b.book (mark_at b.marks)) b.lost };
}

impl<S: Alter> FileBook<S> {
    /// Creates an empty book in an empty database.
    ///
    /// Errors: `NotEmpty` if a table exists already; `Database`. The connection comes back.
    pub fn create(
        alloc: Global,
        mut conn: Connection<S>,
    ) -> Result<FileBook<S>, (OpenFault, Connection<S>)>
        requires autocommit { conn.in_transaction ≡ false }
        ensures empty { IfOk result (λ b.
            (b.book ≡ fin.empty) × (cells b ≡ fin.empty) × (b.lost ≡ None)) }
        ensures begun { IfOk result (λ _. (state S.Store conn).now.schema ≡ no_schema) }
        ensures refused { IfErr result (λ e. IsUnbegun S.Store conn e.1 e.0) }
        ensures left { IfErr result (λ e. HasCleanDisk (state S.Store e.1)
            → MayBegin (state S.Store conn) (state S.Store e.1)) }
    {
        if !is_empty(conn.schema()) {
            return Err((OpenFault::NotEmpty, conn));
        }
        let book = Register::new(alloc);
        let marks = Marks::new(alloc);
        match create_table(&mut conn) {
            Ok(_) => Ok(FileBook {
                alloc,
                conn,
                book,
                marks,
                lost: None,
            }),
            Err(error) => Err((OpenFault::Database(error), conn)),
        }
    }

    /// Opens the book that a database holds, and changes nothing.
    ///
    /// Errors: `NoBook` if the database's tables aren't those of a book; `NoName`, `NoRecord` and
    /// `Twice` with the id of the faulty row; `TooMany` for more than 2^24 rows;
    /// `Memory`; `Database`. The connection comes back.
    pub fn open(
        alloc: Global,
        mut conn: Connection<S>,
    ) -> Result<FileBook<S>, (OpenFault, Connection<S>)>
        requires autocommit { conn.in_transaction ≡ false }
        ensures whole { IfOk result (λ b. b.lost ≡ None) }
        ensures found { IfOk result (λ b. HasCleanDisk (state S.Store b.conn)
            → IsFound (state S.Store conn) (state S.Store b.conn) (cells b)) }
        ensures refused { IfErr result (λ e. HasCleanDisk (state S.Store e.1)
            → IsUnopened (state S.Store conn) (state S.Store e.1) e.0) }
        ensures kept { IfOk result (λ b.
            Survives (state S.Store conn) (state S.Store b.conn) (λ _. ⊥)) }
        ensures left { IfErr result (λ e.
            Survives (state S.Store conn) (state S.Store e.1) (λ _. ⊥)) }
    {
        match is_of_book(alloc, conn.schema()) {
            Ok(true) => {}
            Ok(false) => return Err((OpenFault::NoBook, conn)),
            Err(_) => return Err((OpenFault::Memory, conn)),
        }
        match read_table(alloc, &mut conn) {
            Ok((book, marks)) => Ok(FileBook {
                alloc,
                conn,
                book,
                marks,
                lost: None,
            }),
            Err(fault) => Err((fault, conn)),
        }
    }

    /// Returns the book, as the answers so far describe it.
    pub fn book(&self) -> &Register
        ensures { result.now ≡ self.now.book }
    {
        &self.book
    }

    /// Returns the marks of the book's accounts.
    pub fn marks(&self) -> &Marks
        ensures { result.now ≡ self.now.marks }
    {
        &self.marks
    }

    /// Returns the marks of a name, or no marks if the book doesn't have the name.
    pub fn mark_of(&self, name: &Name) -> Mark
        ensures { result ≡ mark_in (cells self.now) name.now }
    {
        if !self.book.contains(name) {
            return Mark::none();
        }
        self.marks.at(name)
    }

    /// Returns the change that was under way when the database failed, if it failed.
    pub fn lost(&self) -> Option<&Lost>
        ensures { option_map (λ l. l.now) result ≡ self.now.lost }
    {
        self.lost.as_ref()
    }

    /// The law of a kept book: the table is the book's until a change is lost, and a crash leaves
    /// the book, or the book with the lost change.
    pub fn keeps(&self)
        ensures { Keeps S.Store self.now.conn (cells self.now) self.now.lost }
    {
        let _ = &self.lost;
    }

    /// Returns the connection, which keeps the book.
    pub fn close(self) -> Connection<S>
        ensures same { result ≡ self.conn }
        ensures kept { Keeps S.Store result (cells self) self.lost }
    {
        self.conn
    }
}

/// Whether a database has no table, no index and no view.
fn is_empty(schema: &Schema) -> bool
    ensures { MatchBool result (schema.now ≡ no_schema) (schema.now ≡ no_schema → ⊥) }
{
    schema.tables.is_empty() && schema.indexes.is_empty() && schema.views.is_empty()
}

impl<S: Alter> Keeper for FileBook<S> {
    ghost use Rattle.std.specs.Prelude.{◌≡◌, OnOk, IfOk, IfSome, Some, None, is_ok, not, true};
    ghost use Rattle.std.specs.Prelude.{false};
    ghost use Rattle.cred_book.specs.Accounts.{register_capacity};
    ghost use Rattle.cred_book.specs.Calls.{AdmitsWithin, Loads};
    ghost use Rattle.cred_book.specs.Commits.{Commits, judgement};
    ghost use Rattle.cred_book.specs.Works.{makes_change, name_of};
    ghost use Rattle.cred_file.specs.{Cells.blank, Cells.renewal, Kept.cells};
    ghost use Rattle.cred_file.specs.Failures.{FailsToPut, Loses, Remembers};
    ghost use Rattle.cred_file.specs.declared.fault.Attempt.TheVariants as Attempt;

    ghost book = { λ b. b.book };

    ghost capacity = { register_capacity };

    fn admit<R: Wait>(&mut self, _rt: &R, name: Name) -> Result<(), BookError>
        ensures done { AdmitsWithin register_capacity self.old.book self.new.book name result }
        ensures remembers { Remembers (Attempt.Put name None)
            (FailsToPut S.Store self.old.conn self.new.conn false name blank)
            self.old self.new result }
    {
        FileBook::admit(self, name)
    }

    fn load<R: Wait>(&mut self, _rt: &R, name: &Name, stored: Record) -> Result<(), BookError>
        ensures done { Loads self.old.book self.new.book name.now stored result }
        ensures remembers { Remembers (Attempt.Put name.now (Some stored))
            (FailsToPut S.Store self.old.conn self.new.conn true name.now
            (renewal (cells self.old) name.now (Some stored))) self.old self.new result }
    {
        FileBook::load(self, name, stored)
    }

    fn show(&self, name: &Name) -> Result<Option<Record>, BookError> {
        self.book.show(name)
    }

    fn commit<R: Wait>(&mut self, _rt: &R, worked: Worked) -> Result<Reply, (Worked, BookError)>
        ensures done { Commits self.old.book self.new.book worked result }
        ensures refused { IfSome self.old.lost (λ _.
            is_ok result ≡ not (judgement self.old.book worked).2) }
        ensures written { OnOk result (self.new.lost ≡ self.old.lost) }
        ensures loses { Loses (Attempt.Put (name_of worked.0) (judgement self.old.book worked).1)
            (FailsToPut S.Store self.old.conn self.new.conn true (name_of worked.0)
            (renewal (cells self.old) (name_of worked.0) (judgement self.old.book worked).1))
            self.old self.new }
    {
        FileBook::commit(self, worked)
    }
}
