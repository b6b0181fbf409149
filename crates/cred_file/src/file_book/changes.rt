//! The changes of a kept book. Each change allocates its memory before it writes the row, so
//! nothing can fail after that. If the database refuses, the book is as it was.

ghost use Rattle.std.specs.Prelude.{◌≡◌, true, false, IfErr, IfSome, None, OnErr, OnOk, if◌then◌else◌, Some, is_ok, not};
ghost use Rattle.std.specs.FinMap as fin;
ghost use Rattle.cred_book.specs.{Accounts.register_capacity, Calls.AdmitsWithin, Calls.EntersWithin, Calls.Loads, Commits.Commits, Commits.judgement};
ghost use Rattle.cred_book.specs.Works.{name_of};
ghost use Rattle.cred_file.specs.Changes.{Deletes, PutsEntry, Renames, SetsMark};
ghost use Rattle.cred_file.specs.{Cells.blank, Cells.cell, Cells.mark_at, Cells.marked, Cells.marking, Cells.renewal, Cells.renewed, Cells.unmarked, Kept.cells, Kept.mark_of};
ghost use Rattle.cred_file.specs.{Failures.FailsToDelete, Failures.FailsToPut, Failures.FailsToRename, Failures.Loses, Failures.LosesForMemory, Failures.Remembers, Failures.WasClean};
ghost use Rattle.cred_file.specs.declared.fault.Attempt.TheVariants as Attempt;

use super::FileBook;
use crate::fault::{Attempt, Lost};
use crate::marks::Mark;
use crate::row_statement::RowStatement;
use crate::statements::{delete_row, rename_row, text_of, write_row};
use cred_book::{BookError, Name, Reply, Worked};
use cred_phc::Record;
use sqlite::Alter;

impl<S: Alter> FileBook<S> {
    /// Adds a name without a record or marks.
    ///
    /// Errors: `Exists` if the book has the name; `Full` if it has 2^24 names; `Memory` if memory
    /// runs out, if the database fails, and if a change is lost.
    pub fn admit(&mut self, name: Name) -> Result<(), BookError>
        ensures done { AdmitsWithin register_capacity self.old.book self.new.book name result }
        ensures marks { OnOk result (mark_at self.new.marks
            ≡ marked (mark_at self.old.marks) name unmarked) }
        ensures unmarked { OnErr result (mark_at self.new.marks ≡ mark_at self.old.marks) }
        ensures remembers { Remembers (Attempt.Put name None)
            (FailsToPut S.Store self.old.conn self.new.conn false name blank)
            self.old self.new result }
        ensures refusal { LosesForMemory self.old self.new result }
        ensures clean { WasClean S.Store self.old self.new }
    {
        self.enter(name, None)
    }

    /// Stores this record at the account, in place of any other. Its password need not be changed
    /// any more, and a lock stays.
    ///
    /// Errors: `NoAccount` if the book doesn't have the name; `Memory` as in `admit`.
    pub fn load(&mut self, name: &Name, stored: Record) -> Result<(), BookError>
        ensures done { Loads self.old.book self.new.book name.now stored result }
        ensures marks { OnOk result (mark_at self.new.marks ≡ marked (mark_at self.old.marks)
            name.now (renewed (mark_at self.old.marks name.now))) }
        ensures unmarked { OnErr result (mark_at self.new.marks ≡ mark_at self.old.marks) }
        ensures remembers { Remembers (Attempt.Put name.now (Some stored))
            (FailsToPut S.Store self.old.conn self.new.conn true name.now
            (renewal (cells self.old) name.now (Some stored))) self.old self.new result }
        ensures refusal { LosesForMemory self.old self.new result }
        ensures clean { WasClean S.Store self.old self.new }
    {
        if !self.book.contains(name) {
            return Err(BookError::NoAccount);
        }
        self.replace(name, Some(stored))
    }

    /// Does the whole operation if the record still equals the copy, and otherwise nothing. If the
    /// record changes, the password need not be changed any more. A lock stays, but refuses nothing
    /// here.
    ///
    /// Errors: `Memory` as in `admit`. The work comes back.
    #[tactic(auto, using(crate::proofs::Judged::judged))]
    pub fn commit(&mut self, worked: Worked) -> Result<Reply, (Worked, BookError)>
        ensures done { Commits self.old.book self.new.book worked result }
        ensures marks { OnOk result (mark_at self.new.marks
            ≡ (if (judgement self.old.book worked).2 then marked (mark_at self.old.marks)
            (name_of worked.0) (renewed (mark_at self.old.marks (name_of worked.0)))
            else mark_at self.old.marks)) }
        ensures unmarked { OnErr result (mark_at self.new.marks ≡ mark_at self.old.marks) }
        ensures refused { IfSome self.old.lost (λ _.
            is_ok result ≡ not (judgement self.old.book worked).2) }
        ensures written { OnOk result (self.new.lost ≡ self.old.lost) }
        ensures loses { Loses (Attempt.Put (name_of worked.0) (judgement self.old.book worked).1)
            (FailsToPut S.Store self.old.conn self.new.conn true (name_of worked.0)
            (renewal (cells self.old) (name_of worked.0) (judgement self.old.book worked).1))
            self.old self.new }
        ensures clean { WasClean S.Store self.old self.new }
    {
        let (reply, after, changes) = self.book.judge(&worked);
        if !changes {
            return Ok(reply);
        }
        match self.replace(&worked.request().name(), after) {
            Ok(()) => Ok(reply),
            Err(_) => Err((worked, BookError::Memory)),
        }
    }

    /// Sets or removes the record of a name, and adds the name if it doesn't exist. The password of
    /// an existing account need not be changed any more, and its lock stays. A new account has no
    /// marks.
    ///
    /// Errors: `Full` if the name doesn't exist and there are 2^24 others; `Memory` if memory runs
    /// out, if the database fails, and if a change is lost.
    #[tactic(auto, using(crate::proofs::Keeping::put_replaced))]
    pub fn put(&mut self, name: &Name, stored: Option<Record>) -> Result<(), BookError>
        ensures done { PutsEntry register_capacity self.old.book self.new.book name.now stored
            result }
        ensures marks { OnOk result (mark_at self.new.marks ≡ marked (mark_at self.old.marks)
            name.now (renewed (mark_of self.old name.now))) }
        ensures unmarked { OnErr result (mark_at self.new.marks ≡ mark_at self.old.marks) }
        ensures remembers { Remembers (Attempt.Put name.now stored)
            (FailsToPut S.Store self.old.conn self.new.conn
            (fin.contains_key self.old.book name.now) name.now
            (renewal (cells self.old) name.now stored)) self.old self.new result }
        ensures refusal { LosesForMemory self.old self.new result }
        ensures clean { WasClean S.Store self.old self.new }
    {
        if self.book.contains(name) {
            self.replace(name, stored)
        } else {
            self.enter(*name, stored)
        }
    }

    /// Removes a name, with its record and its marks.
    ///
    /// Errors: `NoAccount` if the name doesn't exist; `Memory` if the database fails, or a change
    /// was lost before.
    pub fn delete(&mut self, name: &Name) -> Result<(), BookError>
        ensures done { Deletes self.old.book self.new.book name.now result }
        ensures marks { OnOk result (mark_at self.new.marks
            ≡ marked (mark_at self.old.marks) name.now unmarked) }
        ensures unmarked { OnErr result (mark_at self.new.marks ≡ mark_at self.old.marks) }
        ensures remembers { Remembers (Attempt.Delete name.now)
            (FailsToDelete S.Store self.old.conn self.new.conn name.now)
            self.old self.new result }
        ensures refusal { LosesForMemory self.old self.new result }
        ensures clean { WasClean S.Store self.old self.new }
    {
        if !self.book.contains(name) {
            return Err(BookError::NoAccount);
        }
        if self.lost.is_some() {
            return Err(BookError::Memory);
        }
        match delete_row(&mut self.conn, name) {
            Ok(_) => {
                self.book.remove(name);
                self.marks.forget(name);
                Ok(())
            }
            Err(error) => {
                let attempt = Attempt::Delete(*name);
                self.lost = Some(Lost::new(error, attempt));
                Err(BookError::Memory)
            }
        }
    }

    /// Renames an account, with its record and its marks.
    ///
    /// Errors: `NoAccount` if the name doesn't exist; `Exists` if the other one does; `Full` at
    /// 2^24 names, since both are in memory for a moment; `Memory` if memory runs out, if the
    /// database fails, and if a change is lost.
    #[tactic(auto, using(crate::proofs::Keeping::not_entered))]
    pub fn rename(&mut self, name: &Name, other: &Name) -> Result<(), BookError>
        ensures done { Renames register_capacity self.old.book self.new.book name.now other.now
            result }
        ensures marks { OnOk result (mark_at self.new.marks
            ≡ marked (marked (mark_at self.old.marks) other.now (mark_at self.old.marks name.now))
            name.now unmarked) }
        ensures unmarked { OnErr result (mark_at self.new.marks ≡ mark_at self.old.marks) }
        ensures remembers { Remembers (Attempt.Rename name.now other.now)
            (FailsToRename S.Store self.old.conn self.new.conn name.now other.now)
            self.old self.new result }
        ensures refusal { LosesForMemory self.old self.new result }
        ensures clean { WasClean S.Store self.old self.new }
    {
        let Ok(stored) = self.book.show(name) else {
            return Err(BookError::NoAccount);
        };
        if self.book.contains(other) {
            return Err(BookError::Exists);
        }
        if self.book.is_full() {
            return Err(BookError::Full);
        }
        if self.lost.is_some() {
            return Err(BookError::Memory);
        }
        match self.marks.hold(other) {
            Ok(()) => {}
            Err(_) => return Err(BookError::Memory),
        }
        match self.book.enter(*other, stored) {
            Ok(()) => {}
            Err(_) => return Err(BookError::Memory),
        }
        match rename_row(&mut self.conn, name, other) {
            Ok(_) => {
                let mark = self.marks.at(name);
                self.marks.set(other, mark);
                self.marks.forget(name);
                self.book.remove(name);
                Ok(())
            }
            Err(error) => {
                self.book.remove(other);
                let attempt = Attempt::Rename {
                    name: *name,
                    other: *other,
                };
                self.lost = Some(Lost::new(error, attempt));
                Err(BookError::Memory)
            }
        }
    }

    /// Adds a name, with a record or none, and no marks.
    pub(super) fn enter(&mut self, name: Name, stored: Option<Record>) -> Result<(), BookError>
        ensures done { EntersWithin register_capacity self.old.book self.new.book name stored
            result }
        ensures marks { OnOk result (mark_at self.new.marks
            ≡ marked (mark_at self.old.marks) name unmarked) }
        ensures unmarked { OnErr result (mark_at self.new.marks ≡ mark_at self.old.marks) }
        ensures remembers { Remembers (Attempt.Put name stored)
            (FailsToPut S.Store self.old.conn self.new.conn false name (cell stored unmarked))
            self.old self.new result }
        ensures refusal { LosesForMemory self.old self.new result }
        ensures clean { WasClean S.Store self.old self.new }
    {
        if self.book.contains(&name) {
            return Err(BookError::Exists);
        }
        if self.book.is_full() {
            return Err(BookError::Full);
        }
        if self.lost.is_some() {
            return Err(BookError::Memory);
        }
        let mark = Mark::none();
        let Ok(text) = text_of(self.alloc, &stored, mark) else {
            return Err(BookError::Memory);
        };
        match self.book.enter(name, stored) {
            Ok(()) => {}
            Err(refusal) => return Err(refusal),
        }
        match write_row(
            &mut self.conn,
            RowStatement::Insert,
            &name,
            &text,
            &stored,
            mark,
        ) {
            Ok(_) => {
                self.marks.forget(&name);
                Ok(())
            }
            Err(error) => {
                self.book.remove(&name);
                self.lost = Some(Lost::put(error, name, stored));
                Err(BookError::Memory)
            }
        }
    }

    /// Sets or removes the record of an existing name, whose password need not be changed any more.
    pub(super) fn replace(&mut self, name: &Name, stored: Option<Record>) -> Result<(), BookError>
        requires { fin.contains_key self.old.book name.now ≡ true }
        ensures done { OnOk result (self.new.book ≡ fin.insert self.old.book name.now stored) }
        ensures marks { OnOk result (mark_at self.new.marks ≡ marked (mark_at self.old.marks)
            name.now (renewed (mark_at self.old.marks name.now))) }
        ensures memory { IfErr result (λ e.
            (e ≡ BookError.Memory) × (self.new.book ≡ self.old.book)) }
        ensures unmarked { OnErr result (mark_at self.new.marks ≡ mark_at self.old.marks) }
        ensures remembers { Remembers (Attempt.Put name.now stored)
            (FailsToPut S.Store self.old.conn self.new.conn true name.now
            (renewal (cells self.old) name.now stored)) self.old self.new result }
        ensures refusal { LosesForMemory self.old self.new result }
        ensures clean { WasClean S.Store self.old self.new }
    {
        if self.lost.is_some() {
            return Err(BookError::Memory);
        }
        let mark = self.marks.at(name).renewed();
        let Ok(text) = text_of(self.alloc, &stored, mark) else {
            return Err(BookError::Memory);
        };
        match write_row(
            &mut self.conn,
            RowStatement::Update,
            name,
            &text,
            &stored,
            mark,
        ) {
            Ok(_) => {
                self.book.replace(name, stored);
                self.marks.renew(name);
                Ok(())
            }
            Err(error) => {
                self.lost = Some(Lost::put(error, *name, stored));
                Err(BookError::Memory)
            }
        }
    }

    /// Replaces the marks of an account. Its record stays.
    ///
    /// Errors: `NoAccount` if the book doesn't have the name; `Memory` as in `admit`.
    pub fn mark(&mut self, name: &Name, mark: Mark) -> Result<(), BookError>
        ensures done { SetsMark self.old.book self.new.book (mark_at self.old.marks)
            (mark_at self.new.marks) name.now mark result }
        ensures remembers { Remembers (Attempt.Mark name.now mark)
            (FailsToPut S.Store self.old.conn self.new.conn true name.now
            (marking (cells self.old) name.now mark)) self.old self.new result }
        ensures refusal { LosesForMemory self.old self.new result }
        ensures clean { WasClean S.Store self.old self.new }
    {
        let Ok(stored) = self.book.show(name) else {
            return Err(BookError::NoAccount);
        };
        if self.lost.is_some() {
            return Err(BookError::Memory);
        }
        let Ok(text) = text_of(self.alloc, &stored, mark) else {
            return Err(BookError::Memory);
        };
        match self.marks.hold(name) {
            Ok(()) => {}
            Err(_) => return Err(BookError::Memory),
        }
        match write_row(
            &mut self.conn,
            RowStatement::Update,
            name,
            &text,
            &stored,
            mark,
        ) {
            Ok(_) => {
                self.marks.set(name, mark);
                Ok(())
            }
            Err(error) => {
                let attempt = Attempt::Mark { name: *name, mark };
                self.lost = Some(Lost::new(error, attempt));
                Err(BookError::Memory)
            }
        }
    }
}
