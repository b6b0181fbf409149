//! The values that a desk leaves.

ghost use Rattle.std.specs.Prelude.{◌≡◌};
ghost use Rattle.std.specs.FinMap as map;
ghost use Rattle.std.specs.Slice.Iter.{iter_rest};

use crate::entry::Entry;
use crate::error::DeskError;
use crate::handed::Handed;
use crate::kept_desk::KeptDesk;
use crate::naming::Naming;
use crate::session::Session;
use crate::writer::EntryWriter;
use cred_book::{Book, Name};
use cred_phc::Record;
use std::{fmt, slice};

/// The values left by a desk that was closed with all its sessions.
#[derive(Drop)]
pub struct Closed {
    pub book: Book,
    /// All changes, in order.
    pub journal: Vec<Entry>,
    /// The number of changes that each session settled, in the order in which the sessions were
    /// handed in.
    pub counts: Vec<u64>,
}

impl Closed {
    /// Returns the number of names in the desk's book.
    pub fn len(&self) -> usize
        ensures { result ≡ map.len self.now.book }
    {
        self.book.len()
    }

    /// Returns the names of the desk's book with their records, in the order of the names.
    pub fn iter(&self) -> slice::Iter<'_, (Name, Option<Record>)>
        ensures { iter_rest result ≡ map.entries self.now.book }
    {
        self.book.iter()
    }
}

impl fmt::Debug for Closed {
    fn fmt<W: fmt::Write>(&self, f: &mut fmt::Formatter<W>) -> fmt::Result {
        write!(
            f,
            "Closed {{ names: {}, changes: {} }}",
            self.book.len(),
            self.journal.len()
        )
    }
}

/// The values left by a desk that was given up, whatever became of its sessions.
#[derive(Drop)]
pub struct Remains {
    pub book: Book,
    /// All changes that weren't handed out, in order.
    pub journal: Vec<Entry>,
}

impl fmt::Debug for Remains {
    fn fmt<W: fmt::Write>(&self, f: &mut fmt::Formatter<W>) -> fmt::Result {
        write!(
            f,
            "Remains {{ names: {}, changes: {} }}",
            self.book.len(),
            self.journal.len()
        )
    }
}

/// The values left by a kept desk that was closed with all its sessions.
#[derive(Drop)]
pub struct Kept<W> {
    /// The closed desk. Its journal has the entries that weren't handed out.
    pub closed: Closed,
    /// The number of entries that each session added (admissions, loads and deletions), in the
    /// order of the counts.
    pub additions: Vec<u64>,
    /// The writer, which keeps all entries.
    pub writer: W,
}

/// A desk that isn't closed, with all that was handed in.
pub struct Unclosed<J: Naming, W: EntryWriter> {
    pub desk: KeptDesk<J, W>,
    pub handed: Handed<J>,
    pub sessions: Vec<Session<J>>,
    /// `Session`, since some sessions are missing.
    pub error: DeskError,
}

/// The values left by a desk that lived on, whatever became of its sessions.
#[derive(Drop)]
pub struct Finished<W> {
    /// The book, and the entries since the last checkpoint.
    pub remains: Remains,
    /// The number of entries of the sessions that weren't handed in.
    pub missing: u64,
    /// The writer, which keeps all entries.
    pub writer: W,
}
