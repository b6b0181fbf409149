//! The book that the rows of a table hold.

ghost use Rattle.std.specs.Prelude.{◌≡◌, ◌≤◌, ℤ, true, IfErr, IfOk, IsTrue, MatchOption, MatchResult, None, Option};
ghost use Rattle.cred_book.specs.{Accounts.register_capacity, Names.is_name};
ghost use Rattle.cred_file.specs.Drafts.{IsAdded, IsNotAdded, is_past};
ghost use Rattle.cred_file.specs.{Opening.AreAtFault, Opening.corrupt, Opening.is_no_name, Opening.is_no_record, Table.Says, Table.StandsFor, Table.Tells};
ghost use Rattle.sqlite.specs.{declared.types.Value.TheVariants.Text, Order.column};
ghost use Rattle.sqlite_value.specs.Value.{owned};
ghost use Rattle.std.specs.FinMap as fin;
ghost use Rattle.std.specs.Result.{result_map_both};
ghost use Rattle.cred_file.specs.Cells.{Cells, cell, cells_of, mark_at, read_cell};

use crate::fault::OpenFault;
use crate::marks::{Mark, Marks};
use cred_book::{BookError, Name, Register};
use cred_phc::{PhcError, Record, parse_record};
use sqlite::types::ValueRef;
use sqlite::{Error, ErrorCode, Row};
use std::alloc::Global;

/// The content of a row of the table.
#[derive(Clone, Copy)]
struct RowContent {
    id: i64,
    name: Name,
    stored: Option<Record>,
    mark: Mark,
}

/// The book of the rows so far, and the id of the last one. The rows come in the order of their
/// ids, so an id that isn't above the last one is a repetition.
#[derive(Drop)]
pub(crate) struct Draft {
    book: Register,
    marks: Marks,
    last: Option<i64>,
}

impl Draft {
    pub(crate) fn new(alloc: Global) -> Draft
        ensures { (cells_of result.book (mark_at result.marks) ≡ fin.empty) × (result.last ≡ None) }
    {
        Draft {
            book: Register::new(alloc),
            marks: Marks::new(alloc),
            last: None,
        }
    }

    /// Returns the book, once all rows are added.
    pub(crate) fn into_book(self) -> (Register, Marks)
        ensures book { result ≡ (self.book, self.marks) }
        ensures few { fin.len result.0 ≤ register_capacity }
    {
        let _few = self.book.len();
        (self.book, self.marks)
    }

    pub(crate) fn add(&mut self, row: &Row) -> Result<(), OpenFault>
        ensures added { IfOk result (λ _. IsAdded row.now
            (cells_of self.old.book (mark_at self.old.marks)) self.old.last
            (cells_of self.new.book (mark_at self.new.marks)) self.new.last) }
        ensures left_out { IfErr result (IsNotAdded row.now
            (cells_of self.old.book (mark_at self.old.marks)) self.old.last) }
    {
        let entry = read_entry(row)?;
        if !is_past(self.last, entry.id) {
            return Err(OpenFault::Database(corrupt_error()));
        }
        self.last = Some(entry.id);
        match self.marks.put(&entry.name, entry.mark) {
            Ok(()) => {}
            Err(_) => return Err(OpenFault::Memory),
        }
        match self.book.enter(entry.name, entry.stored) {
            Ok(()) => Ok(()),
            Err(BookError::Exists) => Err(OpenFault::Twice(entry.id)),
            Err(BookError::Full) => Err(OpenFault::TooMany),
            Err(_) => Err(OpenFault::Memory),
        }
    }
}

fn is_past(last: Option<i64>, id: i64) -> bool
    ensures { result ≡ is_past last id }
{
    match last {
        None => true,
        Some(last) => last < id,
    }
}

fn read_entry(row: &Row) -> Result<RowContent, OpenFault>
    ensures says { IfOk result (λ e. Says row.now
        (record { id = e.id; name = e.name; stored = cell e.stored e.mark })) }
    ensures unread { (book : Cells) (last : Option ℤ)
        → IfErr result (IsNotAdded row.now book last) }
{
    let ValueRef::Int(id) = value_at(row, 0) else {
        return Err(OpenFault::Database(corrupt_error()));
    };
    let Some(name) = read_name(value_at(row, 1)) else {
        return Err(OpenFault::NoName(id));
    };
    match read_stored(value_at(row, 2)) {
        Ok((stored, mark)) => Ok(RowContent {
            id,
            name,
            stored,
            mark,
        }),
        Err(why) => Err(OpenFault::NoRecord { row: id, why }),
    }
}

/// Returns the value of a column, or NULL past the last column.
fn value_at(row: &Row, at: usize) -> ValueRef<'_>
    ensures { owned result ≡ column row.now at }
{
    match row.get_ref(at) {
        Ok(value) => value,
        Err(_) => ValueRef::Null,
    }
}

fn read_name(value: ValueRef<'_>) -> Option<Name>
    ensures { MatchOption result (is_no_name (owned value.entry) ≡ true)
        (λ name. (owned value.entry ≡ Text name) × IsTrue (is_name name)) }
{
    match value {
        ValueRef::Text(text) => match Name::new(text) {
            Ok(name) => {
                let _bytes = name.bytes();
                Some(name)
            }
            Err(_) => None,
        },
        _ => None,
    }
}

/// Reads NULL as no record and no mark, which is no fault. A fault is that of the text. A value of
/// another type has no such fault.
fn read_stored(value: ValueRef<'_>) -> Result<(Option<Record>, Mark), Option<PhcError>>
    ensures { MatchResult result (λ c. Tells (owned value.entry) (cell c.0 c.1))
        (λ why. is_no_record why (owned value.entry) ≡ true) }
{
    match value {
        ValueRef::Null => Ok((None, Mark::none())),
        ValueRef::Text(text) => match read_text(text) {
            Ok(it) => Ok(it),
            Err(fault) => Err(Some(fault)),
        },
        _ => Err(None),
    }
}

/// Reads the marks at the front of a text, and the record after them, if there is one.
fn read_text(text: &[u8]) -> Result<(Option<Record>, Mark), PhcError>
    ensures { result_map_both (λ c. cell c.0 c.1) (λ e. e) result ≡ read_cell text.now }
{
    let (mark, rest) = Mark::cut(text);
    if rest.is_empty() && mark.is_marked() {
        return Ok((None, mark));
    }
    match parse_record(rest) {
        Ok(stored) => Ok((Some(stored), mark)),
        Err(fault) => Err(fault),
    }
}

fn corrupt_error() -> Error
    ensures { result ≡ corrupt }
{
    Error::SqliteFailure(ErrorCode::DatabaseCorrupt)
}
