//! Adds accounts, and replaces the records of others, in one transaction.

ghost use Rattle.std.specs.Prelude.{◌≡◌, ◌⊎◌, ◌≤◌, ◌+◌, cond, false, List, None, ℕ, OnErr, OnOk};
ghost use Rattle.std.specs.FinMap as fin;
ghost use Rattle.cred_book.specs.Accounts.{Accounts};
ghost use Rattle.cred_file.specs.{Cells.AllMarks, Cells.Cells, Cells.cell, Cells.cells_of, Cells.mark_at, Changes.AreApart, Changes.AreThere, Changes.joined, Changes.taken_cells, Changes.taken_in, Keeps.IsTableOf, Keeps.Lacks, Keeps.LeavesOnly, Rows.Suits, Table.Tells};
ghost use Rattle.cred_file.specs.Transactions.{AgreeOn, HasRoom, IsUnderWay, KeepsOthers, MakesWithin, added_mark, changed_mark, marks_with, taken_marks};
ghost use Rattle.sqlite.specs.{State.HasCleanDisk, State.Shows, State.Survives, Held.state};
ghost use Rattle.sqlite_value.specs.Value.{owned};
ghost use Rattle.sqlite_trees.specs.View.{doubt};

use crate::marks::{Mark, Marks};
use crate::row_statement::RowStatement;
use crate::statements::{text_of, value_of};
use cred_book::{Name, Register};
use cred_phc::Record;
use sqlite::types::ValueRef;
use sqlite::{Alter, Connection, Error, ErrorCode, Transaction};
use std::alloc::Global;

/// Accounts that one transaction adds or changes: new accounts, and new records of others, with
/// these marks.
#[derive(Clone, Copy)]
pub(crate) struct Batch<'a> {
    pub(crate) added: &'a Register,
    pub(crate) changed: &'a Register,
    pub(crate) marks: &'a Marks,
}

/// Adds accounts to the book and their rows to the table, and replaces the records of others, all
/// in one transaction. The book gets the replaced records and the marks after the database has
/// them, so nothing can fail after that. After an error the book has some of the new accounts, but
/// no replaced record and no new mark. A crash leaves a table with none of the changes, or with all
/// of them.
pub(crate) fn take_together<S: Alter>(
    alloc: Global,
    conn: &mut Connection<S>,
    book: &mut Register,
    marks: &mut Marks,
    batch: Batch<'_>,
) -> Result<(), Error>
    requires autocommit { conn.old.in_transaction ≡ false }
    requires apart { AreApart book.old batch.added.now }
    requires there { AreThere book.old batch.changed.now }
    ensures book { OnOk result
        (book.new ≡ taken_in book.old batch.entry.added.now batch.entry.changed.now) }
    ensures part { OnErr result (KeepsOthers book.old batch.entry.added.now book.new) }
    ensures marks { OnOk result (mark_at marks.new ≡ taken_marks (mark_at marks.old)
        batch.entry.added.now batch.entry.changed.now batch.entry.marks.now) }
    ensures unmarked { OnErr result (mark_at marks.new ≡ mark_at marks.old) }
    ensures taken { HasCleanDisk (state S.Store conn.new) → OnOk result
        (IsTableOf (state S.Store conn.old) (cells_of book.old (mark_at marks.old))
        → IsTableOf (state S.Store conn.new) (taken_cells (cells_of book.old (mark_at marks.old))
        batch.entry.added.now batch.entry.changed.now batch.entry.marks.now)) }
    ensures left { HasCleanDisk (state S.Store conn.new)
        → IsTableOf (state S.Store conn.old) (cells_of book.old (mark_at marks.old))
        → LeavesOnly (state S.Store conn.new)
        (λ b. (b ≡ cells_of book.old (mark_at marks.old))
        ⊎ (b ≡ taken_cells (cells_of book.old (mark_at marks.old)) batch.entry.added.now
        batch.entry.changed.now batch.entry.marks.now)) }
    ensures clean { doubt (state S.Store conn.old).is_clean
        ≤ doubt (state S.Store conn.new).is_clean }
{
    let Batch {
        added,
        changed,
        marks: given,
    } = batch;
    let Ok(_) = marks.hold_all(given) else {
        return Err(out_of_memory());
    };
    let mut tx = conn.transaction();
    enter_each(alloc, &mut tx, book, added, given)?;
    update_each(alloc, &mut tx, marks, changed, given)?;
    finish(tx)?;
    replace_each(book, changed);
    mark_added(marks, added, given);
    mark_changed(marks, changed, given);
    Ok(())
}

/// Commits the changes of the transaction.
fn finish<S: Alter>(tx: Transaction<'_, S>) -> Result<(), Error>
    ensures shown { HasCleanDisk (state S.Store tx.exit.0.now) → OnOk result
        (Shows (state S.Store tx.entry.conn.now) (state S.Store tx.exit.0.now)
        (state S.Store tx.entry.conn.now).now (state S.Store tx.entry.conn.now).now false) }
    ensures survives { Survives (state S.Store tx.entry.conn.now) (state S.Store tx.exit.0.now)
        (λ db. db ≡ (state S.Store tx.entry.conn.now).now.trees) }
{
    tx.commit()
}

/// Adds the accounts in the order of their names, with the given marks.
fn enter_each<S: Alter>(
    alloc: Global,
    tx: &mut Transaction<'_, S>,
    book: &mut Register,
    more: &Register,
    given: &Marks,
) -> Result<(), Error>
    ensures same_reference { tx.new.conn.ghost_name ≡ tx.old.conn.ghost_name }
    ensures book { OnOk result (book.new ≡ joined book.old more.now) }
    ensures part { OnErr result (KeepsOthers book.old more.now book.new) }
    ensures entered { HasCleanDisk (state S.Store tx.new.conn.now) → OnOk result
        ((first : Cells) (marks : AllMarks)
        → IsUnderWay (state S.Store tx.old.conn.now) first (cells_of book.old marks)
        → IsUnderWay (state S.Store tx.new.conn.now) first
        (cells_of book.new (marks_with (added_mark given.now) marks more.now))) }
    ensures survives { Survives (state S.Store tx.old.conn.now)
        (state S.Store tx.new.conn.now) (λ _. ⊥) }
{
    for (name, slot) in more.iter() {
        let mark = given.at(name);
        enter_one(alloc, tx, book, name, &slot.stored(), mark)?;
    }
    Ok(())
}

/// Adds a name with a record, or without one, to the book, and then adds its row with its mark to
/// the table.
fn enter_one<S: Alter>(
    alloc: Global,
    tx: &mut Transaction<'_, S>,
    book: &mut Register,
    name: &Name,
    stored: &Option<Record>,
    mark: Mark,
) -> Result<(), Error>
    ensures same_reference { tx.new.conn.ghost_name ≡ tx.old.conn.ghost_name }
    ensures book { OnOk result ((fin.contains_key book.old name.now ≡ false)
        × (book.new ≡ fin.insert book.old name.now stored.now)) }
    ensures same { OnErr result (book.new ≡ book.old) }
    ensures entered { HasCleanDisk (state S.Store tx.new.conn.now) → OnOk result
        (MakesWithin (state S.Store tx.old.conn.now) (state S.Store tx.new.conn.now)
        (Lacks name.now) (λ b. fin.insert b name.now (cell stored.now mark))) }
    ensures survives { Survives (state S.Store tx.old.conn.now)
        (state S.Store tx.new.conn.now) (λ _. ⊥) }
{
    match book.enter(*name, *stored) {
        Ok(()) => {}
        Err(_) => return Err(out_of_memory()),
    }
    match write_stored(alloc, tx, RowStatement::Insert, name, stored, mark) {
        Ok(()) => Ok(()),
        Err(error) => {
            book.remove(name);
            Err(error)
        }
    }
}

/// Writes a record, or none, with a mark in the row of a name, by this statement.
fn write_stored<S: Alter>(
    alloc: Global,
    tx: &mut Transaction<'_, S>,
    statement: RowStatement,
    name: &Name,
    stored: &Option<Record>,
    mark: Mark,
) -> Result<(), Error>
    ensures same_reference { tx.new.conn.ghost_name ≡ tx.old.conn.ghost_name }
    ensures written { HasCleanDisk (state S.Store tx.new.conn.now) → OnOk result
        (MakesWithin (state S.Store tx.old.conn.now) (state S.Store tx.new.conn.now)
        (Suits statement name.now) (λ b. fin.insert b name.now (cell stored.now mark))) }
    ensures survives { Survives (state S.Store tx.old.conn.now)
        (state S.Store tx.new.conn.now) (λ _. ⊥) }
{
    let Ok(text) = text_of(alloc, stored, mark) else {
        return Err(out_of_memory());
    };
    tx.execute(
        statement.text(),
        &[ValueRef::Text(name.bytes()), value_of(&text, stored, mark)],
    )?;
    Ok(())
}

/// Replaces the records in the rows of these accounts in the order of their names, with the given
/// marks. A lock stays.
fn update_each<S: Alter>(
    alloc: Global,
    tx: &mut Transaction<'_, S>,
    marks: &Marks,
    changed: &Register,
    given: &Marks,
) -> Result<(), Error>
    ensures same_reference { tx.new.conn.ghost_name ≡ tx.old.conn.ghost_name }
    ensures updated { HasCleanDisk (state S.Store tx.new.conn.now) → OnOk result
        ((first : Cells) (book : Accounts) (m : AllMarks) → AreThere book changed.now
        → AgreeOn changed.now m (mark_at marks.now)
        → IsUnderWay (state S.Store tx.old.conn.now) first (cells_of book m)
        → IsUnderWay (state S.Store tx.new.conn.now) first (cells_of (joined book changed.now)
        (marks_with (changed_mark given.now) m changed.now))) }
    ensures survives { Survives (state S.Store tx.old.conn.now)
        (state S.Store tx.new.conn.now) (λ _. ⊥) }
{
    for (name, slot) in changed.iter() {
        let mark = marks.at(name).renewed_with(given.at(name));
        write_stored(alloc, tx, RowStatement::Update, name, &slot.stored(), mark)?;
    }
    Ok(())
}

fn out_of_memory() -> Error {
    Error::SqliteFailure(ErrorCode::OutOfMemory)
}

/// Replaces the records of these accounts in the book, which can't fail.
fn replace_each(book: &mut Register, changed: &Register)
    requires { AreThere book.old changed.now }
    ensures { book.new ≡ joined book.old changed.now }
{
    for (name, slot) in changed.iter() {
        book.replace(name, slot.stored());
    }
}

/// Sets the marks of new accounts, which can't fail.
fn mark_added(marks: &mut Marks, added: &Register, given: &Marks)
    requires { HasRoom marks.old given.now }
    ensures marks { mark_at marks.new
        ≡ marks_with (added_mark given.now) (mark_at marks.old) added.now }
    ensures room { HasRoom marks.new given.now }
{
    for (name, _) in added.iter() {
        let mark = given.at(name);
        marks.set(name, mark);
    }
}

/// Sets the marks that come with new records of accounts, which can't fail. A lock stays.
fn mark_changed(marks: &mut Marks, changed: &Register, given: &Marks)
    requires { HasRoom marks.old given.now }
    ensures { mark_at marks.new
        ≡ marks_with (changed_mark given.now) (mark_at marks.old) changed.now }
{
    for (name, _) in changed.iter() {
        let mark = marks.at(name).renewed_with(given.at(name));
        marks.set(name, mark);
    }
}

/// Removes the names that another register has.
pub(crate) fn remove_all(book: &mut Register, more: &Register)
    ensures { (name : List ℕ) → fin.get book.new name
        ≡ cond (fin.contains_key more.now name) None (fin.get book.old name) }
{
    for (name, _) in more.iter() {
        book.remove(name);
    }
}
