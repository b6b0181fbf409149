//! Adds many accounts to a kept book at once, and replaces the records of many.

ghost use Rattle.std.specs.Prelude.{◌+◌, ◌≤◌, ◌<◌, MatchBool, OnErr, OnOk, ⊤, ◌≡◌};
ghost use Rattle.std.specs.FinMap as fin;
ghost use Rattle.cred_book.specs.Accounts.{register_capacity};
ghost use Rattle.cred_file.specs.{Changes.AreApart, Changes.AreThere, Changes.Meet, Changes.Misses, Changes.TakesIn, Failures.LosesForMemory, Failures.Remembers, Failures.WasClean};
ghost use Rattle.cred_file.specs.{Cells.mark_at, Cells.renewed, Transactions.changed_marks, Transactions.taken_marks};
ghost use Rattle.cred_file.specs.declared.fault.Attempt.TheVariants as Attempt;

use super::FileBook;
use crate::fault::{Attempt, Lost};
use crate::marks::Marks;
use crate::transaction::{Batch, remove_all, take_together};
use cred_book::{BookError, Register};
use sqlite::Alter;

impl<S: Alter> FileBook<S> {
    /// Adds accounts and replaces the records of others in one transaction of the database, so a
    /// crash leaves the book as it was, or with all these changes. Each of these accounts gets its
    /// mark in `marks`, and an existing account keeps its lock. Marks of other names do nothing.
    ///
    /// Errors: `Exists` if the book has one of the new names; `NoAccount` if it lacks one of the
    /// others; `Full` if there would be over 2^24 accounts; `Memory` if memory runs out, if the
    /// database fails, and if a change is lost.
    pub fn take_in(
        &mut self,
        added: Register,
        changed: Register,
        marks: Marks,
    ) -> Result<(), BookError>
        ensures done { TakesIn register_capacity self.old.book self.new.book added changed result }
        ensures marks { OnOk result (mark_at self.new.marks
            ≡ taken_marks (mark_at self.old.marks) added changed marks) }
        ensures unmarked { OnErr result (mark_at self.new.marks ≡ mark_at self.old.marks) }
        ensures remembers { Remembers (Attempt.TakeIn added changed marks) (λ _. ⊤)
            self.old self.new result }
        ensures refusal { LosesForMemory self.old self.new result }
        ensures clean { WasClean S.Store self.old self.new }
    {
        if meets(&self.book, &added) {
            return Err(BookError::Exists);
        }
        if misses(&self.book, &changed) {
            return Err(BookError::NoAccount);
        }
        if !has_room(&self.book, &added) {
            return Err(BookError::Full);
        }
        if self.lost.is_some() || !self.conn.is_autocommit() {
            return Err(BookError::Memory);
        }
        let batch = Batch {
            added: &added,
            changed: &changed,
            marks: &marks,
        };
        let conn = &mut self.conn;
        match take_together(self.alloc, conn, &mut self.book, &mut self.marks, batch) {
            Ok(()) => Ok(()),
            Err(error) => {
                remove_all(&mut self.book, &added);
                let attempt = Attempt::TakeIn {
                    added,
                    changed,
                    marks,
                };
                self.lost = Some(Lost::new(error, attempt));
                Err(BookError::Memory)
            }
        }
    }

    /// Replaces records in one transaction of the database. The passwords of these accounts need
    /// not be changed any more, and a lock stays.
    ///
    /// Errors: `NoAccount` if the book lacks one of the names; `Memory` as in `take_in`.
    pub fn replace_all(&mut self, changed: Register) -> Result<(), BookError>
        ensures done { TakesIn register_capacity self.old.book self.new.book fin.empty changed
            result }
        ensures marks { OnOk result (mark_at self.new.marks
            ≡ changed_marks renewed (mark_at self.old.marks) changed) }
        ensures unmarked { OnErr result (mark_at self.new.marks ≡ mark_at self.old.marks) }
        ensures remembers { Remembers (Attempt.TakeIn fin.empty changed fin.empty) (λ _. ⊤)
            self.old self.new result }
        ensures refusal { LosesForMemory self.old self.new result }
        ensures clean { WasClean S.Store self.old self.new }
    {
        let none = Register::new(self.alloc);
        let unmarked = Marks::new(self.alloc);
        self.take_in(none, changed, unmarked)
    }

    /// Whether the book has room for these accounts, up to 2^24 names.
    pub fn has_room_for(&self, added: &Register) -> bool
        ensures { MatchBool result
            (fin.len self.now.book + fin.len added.now ≤ register_capacity)
            (register_capacity < fin.len self.now.book + fin.len added.now) }
    {
        has_room(&self.book, added)
    }
}

fn has_room(book: &Register, added: &Register) -> bool
    ensures { MatchBool result (fin.len book.now + fin.len added.now ≤ register_capacity)
        (register_capacity < fin.len book.now + fin.len added.now) }
{
    added.len() <= book.room()
}

/// Whether both registers have a name in common.
fn meets(book: &Register, more: &Register) -> bool
    ensures { MatchBool result (Meet book.now more.now) (AreApart book.now more.now) }
{
    for (name, _) in more.iter() {
        if book.contains(name) {
            return true;
        }
    }
    false
}

/// Whether the book lacks one of these names.
fn misses(book: &Register, changed: &Register) -> bool
    ensures { MatchBool result (Misses book.now changed.now) (AreThere book.now changed.now) }
{
    for (name, _) in changed.iter() {
        if !book.contains(name) {
            return true;
        }
    }
    false
}
