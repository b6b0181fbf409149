//! Faults of opening a book, and their texts.

use cred_admin::Status;
use cred_file::OpenFault;
use cred_keep::refuse;
use credkeep_words::FileFault;
use sqlite::{Error, ErrorCode};
use std::io;
use std::io::Write;

/// The reason why the program doesn't open or read a book, or doesn't replace it by a copy.
#[derive(Clone, Copy)]
pub(crate) enum BookFault {
    /// The file is refused.
    File(FileFault),
    /// The database wasn't opened: it failed, or the file isn't a database.
    Database(Error),
    /// The database holds no book, or failed after it was opened.
    Book(OpenFault),
}

impl BookFault {
    /// Another process has the file open.
    pub(crate) const BUSY: BookFault = BookFault::Database(Error::SqliteFailure(
        ErrorCode::DatabaseBusy,
    ));

    /// Whether another process has the file open, or had it open meanwhile.
    pub(crate) fn is_busy(&self) -> bool {
        matches!(
            self,
            BookFault::Database(Error::SqliteFailure(ErrorCode::DatabaseBusy))
                | BookFault::File(FileFault::Busy | FileFault::OldLog)
        )
    }
}

impl From<FileFault> for BookFault {
    fn from(why: FileFault) -> Self {
        BookFault::File(why)
    }
}

impl From<io::Error> for BookFault {
    fn from(error: io::Error) -> Self {
        BookFault::File(FileFault::System(error))
    }
}

impl From<OpenFault> for BookFault {
    fn from(why: OpenFault) -> Self {
        BookFault::Book(why)
    }
}

/// Returns the value, or writes why the file was refused.
pub(crate) fn accept<T, E: Into<BookFault>>(
    host: &HostRuntime,
    path: &str,
    found: Result<T, E>,
) -> Result<T, Status> {
    match found {
        Ok(value) => Ok(value),
        Err(why) => Err(refuse_file(host, path, why)),
    }
}

/// Writes why a file was refused, and returns the exit status.
pub(crate) fn refuse_file<E: Into<BookFault>>(host: &HostRuntime, path: &str, why: E) -> Status {
    match why.into() {
        BookFault::File(why) => {
            let _ = writeln!(host.stderr(), "credkeep: {path}: {why}");
            why.status()
        }
        BookFault::Database(error) => refuse(&mut host.stderr(), &OpenFault::Database(error)),
        BookFault::Book(why) => {
            let status = refuse(&mut host.stderr(), &why);
            let _ = writeln!(host.stderr(), "credkeep: the file is {path}");
            status
        }
    }
}
