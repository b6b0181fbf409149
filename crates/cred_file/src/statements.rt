//! The statements that change the table of accounts, and the one that reads it.

ghost use Rattle.std.specs.Prelude.{◌≡◌, ◌≤◌, [], true, false, IfErr, IfOk, OnOk};
ghost use Rattle.std.specs.FinMap as fin;
ghost use Rattle.cred_book.specs.Accounts.{register_capacity};
ghost use Rattle.cred_file.specs.{Cells.cell, Cells.cells_of, Cells.mark_at, Changes.moved, Failures.Changes, Failures.FailsToDelete, Failures.FailsToPut, Failures.FailsToRename, Failures.Refuses};
ghost use Rattle.cred_file.specs.Schema.{IsBookSchema, create_text, no_schema};
ghost use Rattle.cred_file.specs.Keeps.{Has, IsRenamable, IsTableOf, MayBegin};
ghost use Rattle.cred_file.specs.Rows.{Suits, is_update};
ghost use Rattle.cred_file.specs.{Table.IsTextOf, Table.StandsFor, Table.Tells, Opening.IsFound, Opening.IsUnopened};
ghost use Rattle.sqlite.specs.{State.HasCleanDisk, State.IsUnchanged, State.Survives, Held.state};
ghost use Rattle.sqlite_value.specs.Value.{owned};

use crate::fault::OpenFault;
use crate::marks::{Mark, Marks};
use crate::reading::Draft;
use crate::row_statement::RowStatement;
use cred_book::{Name, Register};
use cred_phc::{PhcError, Record, write_record};
use sqlite::types::ValueRef;
use sqlite::{Alter, Connection, Error};
use std::alloc::{AllocError, Global};

/// Writes the text of an account for its row: the marks and then the record, or nothing without any
/// of them.
pub(crate) fn text_of(
    alloc: Global,
    stored: &Option<Record>,
    mark: Mark,
) -> Result<Vec<u8>, PhcError>
    ensures { IfOk result (λ text. IsTextOf text.items (cell stored.now mark)) }
{
    let mut text = Vec::new(alloc);
    text.extend_from_slice(mark.text())?;
    let Some(it) = stored else {
        return Ok(text);
    };
    let record = write_record(alloc, it)?;
    text.extend_from_slice(&record)?;
    Ok(text)
}

/// Returns the value in the row: the text, or NULL for no record and no mark.
pub(crate) fn value_of<'a>(text: &'a [u8], stored: &Option<Record>, mark: Mark) -> ValueRef<'a>
    requires { IsTextOf text.now (cell stored.now mark) }
    ensures { Tells (owned result) (cell stored.now mark) }
{
    if stored.is_none() && !mark.is_marked() {
        ValueRef::Null
    } else {
        ValueRef::Text(text)
    }
}

/// Writes an account's text, or NULL, in the row of a name, by this statement.
pub(crate) fn write_row<S: Alter>(
    conn: &mut Connection<S>,
    statement: RowStatement,
    name: &Name,
    text: &[u8],
    stored: &Option<Record>,
    mark: Mark,
) -> Result<usize, Error>
    requires { IsTextOf text.now (cell stored.now mark) }
    ensures { Changes S.Store conn.old conn.new (Suits statement name.now)
        (λ book. fin.insert book name.now (cell stored.now mark))
        (FailsToPut S.Store conn.old conn.new (is_update statement) name.now
        (cell stored.now mark)) result }
{
    conn.execute(
        statement.text(),
        &[ValueRef::Text(name.bytes()), value_of(text, stored, mark)],
    )
}

/// Deletes the row of an existing name.
pub(crate) fn delete_row<S: Alter>(conn: &mut Connection<S>, name: &Name) -> Result<usize, Error>
    ensures { Changes S.Store conn.old conn.new (Has name.now) (λ book. fin.remove book name.now)
        (FailsToDelete S.Store conn.old conn.new name.now) result }
{
    conn.execute(
        "DELETE FROM account WHERE name = ?1",
        &[ValueRef::Text(name.bytes())],
    )
}

/// Renames the row of an existing name.
pub(crate) fn rename_row<S: Alter>(
    conn: &mut Connection<S>,
    name: &Name,
    other: &Name,
) -> Result<usize, Error>
    ensures { Changes S.Store conn.old conn.new (IsRenamable name.now other.now)
        (λ book. moved book name.now other.now)
        (FailsToRename S.Store conn.old conn.new name.now other.now) result }
{
    conn.execute(
        "UPDATE account SET name = ?2 WHERE name = ?1",
        &[ValueRef::Text(name.bytes()), ValueRef::Text(other.bytes())],
    )
}

/// Creates the table in an empty database.
pub(crate) fn create_table<S: Alter>(conn: &mut Connection<S>) -> Result<usize, Error>
    requires schema { (state S.Store conn.old).now.schema ≡ no_schema }
    requires autocommit { conn.old.in_transaction ≡ false }
    ensures made { HasCleanDisk (state S.Store conn.new)
        → OnOk result (IsTableOf (state S.Store conn.new) fin.empty) }
    ensures left { HasCleanDisk (state S.Store conn.new)
        → MayBegin (state S.Store conn.old) (state S.Store conn.new) }
    ensures refused { IfErr result (Refuses S.Store conn.old conn.new create_text []) }
{
    conn.execute(
        "CREATE TABLE account (name TEXT NOT NULL PRIMARY KEY, record TEXT) STRICT",
        &[],
    )
}

/// Reads the book that the rows of the table hold.
pub(crate) fn read_table<S: Alter>(
    alloc: Global,
    conn: &mut Connection<S>,
) -> Result<(Register, Marks), OpenFault>
    requires schema { IsBookSchema (state S.Store conn.old).now.schema }
    requires autocommit { conn.old.in_transaction ≡ false }
    ensures found { HasCleanDisk (state S.Store conn.new)
        → IfOk result (λ r. IsFound (state S.Store conn.old) (state S.Store conn.new)
        (cells_of r.0 (mark_at r.1))) }
    ensures table { HasCleanDisk (state S.Store conn.new)
        → IfOk result (λ r. IsTableOf (state S.Store conn.new)
        (cells_of r.0 (mark_at r.1))) }
    ensures few { IfOk result (λ r. fin.len r.0 ≤ register_capacity) }
    ensures fault { HasCleanDisk (state S.Store conn.new)
        → IfErr result (IsUnopened (state S.Store conn.old) (state S.Store conn.new)) }
    ensures left { Survives (state S.Store conn.old) (state S.Store conn.new) (λ _. ⊥) }
{
    let book = read_rows(alloc, conn)?;
    let _at_rest = conn.is_autocommit();
    let _sound = conn.schema();
    Ok(book)
}

/// Reads the rows one at a time, so that they take no memory beside the book.
fn read_rows<S: Alter>(
    alloc: Global,
    conn: &mut Connection<S>,
) -> Result<(Register, Marks), OpenFault>
    requires { IsBookSchema (state S.Store conn.old).now.schema }
    ensures stands { HasCleanDisk (state S.Store conn.new)
        → IfOk result (λ r. StandsFor ((state S.Store conn.old).now.trees 0)
        (cells_of r.0 (mark_at r.1))) }
    ensures same { HasCleanDisk (state S.Store conn.new) → OnOk result
        (IsUnchanged (state S.Store conn.old) (state S.Store conn.new)) }
    ensures few { IfOk result (λ r. fin.len r.0 ≤ register_capacity) }
    ensures fault { HasCleanDisk (state S.Store conn.new)
        → IfErr result (IsUnopened (state S.Store conn.old) (state S.Store conn.new)) }
    ensures left { Survives (state S.Store conn.old) (state S.Store conn.new) (λ _. ⊥) }
{
    let mut draft = Draft::new(alloc);
    let text = "SELECT rowid, name, record FROM account ORDER BY rowid";
    let mut rows = match conn.query(text, &[]) {
        Ok(rows) => rows,
        Err(error) => return Err(OpenFault::Database(error)),
    };
    'rows: for _ in 0..u64::MAX {
        let row = match rows.next() {
            Ok(Some(row)) => row,
            Ok(None) => return Ok(draft.into_book()),
            Err(error) => return Err(OpenFault::Database(error)),
        };
        draft.add(row)?;
    }
    Err(OpenFault::Memory)
}
