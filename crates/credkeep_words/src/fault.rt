//! The reasons why the file of a book is refused.

use cred_admin::Status;
use std::io::ErrorKind;
use std::{fmt, io};

/// The reason why the program doesn't open a file, found before any write. The text of each reason
/// explains it.
#[derive(Clone, Copy)]
pub enum FileFault {
    NoFile,
    Absent,
    /// The folder of the new file doesn't exist.
    NoFolder,
    Irregular,
    Empty,
    NoDatabase,
    Journal,
    Owner,
    Mode,
    Linked,
    /// Another process has the file open, or is writing it.
    Busy,
    Same,
    /// A log with changes lies there. It belongs to a book in use, or to a file that is gone.
    OldLog,
    /// An earlier server's locks lie beside the file, and an export doesn't read them.
    Locks,
    /// The log is damaged, with these numbers of changes before the damage and of lost changes.
    DamagedLog { before: u64, lost: u64 },
    /// The file can be read and written, but a sync of it failed.
    Unsynced,
    /// The program can't tell which user runs it, since there is no /proc.
    OwnUser(io::Error),
    System(io::Error),
}

impl FileFault {
    /// Returns the exit status of the fault.
    pub fn status(&self) -> Status {
        match self {
            FileFault::NoFile => Status::Usage,
            FileFault::OwnUser(error) | FileFault::System(error)
                if error.kind() == ErrorKind::OutOfMemory => { Status::Memory }
            _ => Status::Database,
        }
    }
}

impl fmt::Display for FileFault {
    fn fmt<W: fmt::Write>(&self, f: &mut fmt::Formatter<W>) -> fmt::Result {
        match self {
            FileFault::NoFile => {
                f.write_str("FILE is empty, or :memory:, which names no file; ./:memory: names one")
            }
            FileFault::Absent => f.write_str("there is no such file; init makes one"),
            FileFault::NoFolder => f.write_str("its folder doesn't exist; mkdir -p makes one"),
            FileFault::Irregular => f.write_str("it is a folder, a link or a device"),
            FileFault::Empty => f.write_str("it is empty; init creates a book in it"),
            FileFault::NoDatabase => f.write_str("it is no database"),
            FileFault::Journal => f.write_str(
                "another program was killed amid a change; open the file with sqlite3 first",
            ),
            FileFault::Owner => f.write_str("another user owns it"),
            FileFault::Mode => f.write_str("others can read or write it; chmod 600 first"),
            FileFault::Linked => f.write_str(
                "another hard link names the file; remove one of the two",
            ),
            FileFault::Busy => f.write_str("busy: another process has it open"),
            FileFault::Same => f.write_str(
                "the copy would replace the book itself; name another file",
            ),
            FileFault::OldLog => f.write_str(
                "a log with changes lies beside it, at its name with -wal: it is in use, or it was \
                 removed without its log; restore puts a copy there, and removes the log",
            ),
            FileFault::Locks => f.write_str(
                "an earlier server's locks are beside it, in a file of its name with -locks; an export \
                 would write the locked users' records as usable ones: start credkeep-server once, \
                 which moves the locks into the book",
            ),
            FileFault::DamagedLog { before, lost } => write!(
                f,
                "its log is damaged: {before} changes can be read, and {lost} can't; keep a copy of \
                 both files, then restore the file from itself, which keeps the readable changes",
            ),
            FileFault::Unsynced => f.write_str(
                "a sync of the file, its log or its folder failed, so the file wasn't opened: look \
                 at the disk",
            ),
            FileFault::OwnUser(error) => write!(
                f,
                "this user isn't known, as /proc/self can't be read: {error}"
            ),
            FileFault::System(error) => write!(f, "{error}"),
        }
    }
}

impl From<io::Error> for FileFault {
    fn from(error: io::Error) -> Self {
        FileFault::System(error)
    }
}
