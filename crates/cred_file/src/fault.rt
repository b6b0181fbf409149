//! Faults of a database that keeps no book, and the change that is lost when a database fails.

ghost use Rattle.std.specs.Prelude.{◌≡◌};
ghost use Rattle.cred_file.specs.declared.fault.Attempt.TheVariants as Attempt;

use crate::marks::{Mark, Marks};
use cred_book::{Name, Register};
use cred_phc::{PhcError, Record};
use sqlite::Error;
use std::fmt;

/// The reason why a book isn't created or opened. A fault names a row by its row id, as `SELECT
/// rowid, * FROM account` shows it.
#[derive(Clone, Copy, Debug, PartialEq, Eq)]
pub enum OpenFault {
    /// No book is created: the database has tables already.
    NotEmpty,
    /// The database holds no book: its tables aren't those of a book.
    NoBook,
    /// This row has no valid name.
    NoName(i64),
    /// This row has neither NULL nor the text of marks and a record: its text has this fault, or
    /// its value is no text.
    NoRecord { row: i64, why: Option<PhcError> },
    /// This row has a name that another row has.
    Twice(i64),
    /// The table has more than 2^24 rows.
    TooMany,
    /// Memory ran out.
    Memory,
    /// The database failed or refused a statement, or its row ids aren't those of a table.
    Database(Error),
}

/// The change that was under way when the database failed. The change may or may not be kept.
#[derive(Debug, Drop)]
pub struct Lost {
    /// The error of the database.
    pub error: Error,
    /// The change that was attempted.
    pub attempt: Attempt,
}

/// A change of a book that was attempted.
#[derive(Drop)]
pub enum Attempt {
    /// Sets or removes the record of a name, whose lock stays.
    Put {
        name: Name,
        stored: Option<Record>,
    },
    /// Sets the marks of an account.
    Mark {
        name: Name,
        mark: Mark,
    },
    /// Adds accounts and replaces the records of others, with these marks, all together.
    TakeIn {
        added: Register,
        changed: Register,
        marks: Marks,
    },
    /// Removes a name with its record.
    Delete(Name),
    /// Gives an account another name.
    Rename {
        name: Name,
        other: Name,
    },
}

impl fmt::Debug for Attempt {
    fn fmt<W: fmt::Write>(&self, f: &mut fmt::Formatter<W>) -> fmt::Result {
        match self {
            Attempt::Put { name, .. } => write!(f, "Put {{ name: {name:?} }}"),
            Attempt::Mark { name, mark } => write!(f, "Mark {{ name: {name:?}, mark: {mark:?} }}"),
            Attempt::TakeIn { added, changed, .. } => {
                let (added, changed) = (added.len(), changed.len());
                write!(f, "TakeIn {{ added: {added}, changed: {changed} }}")
            }
            Attempt::Delete(name) => write!(f, "Delete {{ name: {name:?} }}"),
            Attempt::Rename { name, other } => {
                write!(f, "Rename {{ name: {name:?}, other: {other:?} }}")
            }
        }
    }
}

impl Lost {
    pub(crate) fn new(error: Error, attempt: Attempt) -> Lost
        ensures { result ≡ record { error = error; attempt = attempt } }
    {
        Lost { error, attempt }
    }

    /// Returns the loss of one account's new record.
    pub(crate) fn put(error: Error, name: Name, stored: Option<Record>) -> Lost
        ensures { result ≡ record { error = error; attempt = Attempt.Put name stored } }
    {
        Lost::new(error, Attempt::Put { name, stored })
    }
}
