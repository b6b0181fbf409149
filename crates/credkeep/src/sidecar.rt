//! The files beside a database: its log, its journal, its folder.

use crate::log::{LogLook, look_at_log};
use credkeep_words::FileFault;
use sqlite::{FileFrom, Files, Start, Wary};
use sqlite_std_file::OpenError;
use std::fs::File;
use std::io::ErrorKind;
use std::os::unix::fs::MetadataExt;
use std::path::PathBuf;
use std::{fs, io};

/// The end of the name of a database's log, and of its rollback journal.
pub(crate) const LOG: &str = "-wal";

pub(crate) const JOURNAL: &str = "-journal";

/// A log of at most so many bytes has no change: only the header and the start of one frame.
pub(crate) const EMPTY_LOG: u64 = 41;

/// Returns what was found at a path, or `None` if no file exists there.
pub(crate) fn if_there<T>(found: io::Result<T>) -> io::Result<Option<T>> {
    match found {
        Ok(found) => Ok(Some(found)),
        Err(error) if error.kind() == ErrorKind::NotFound => Ok(None),
        Err(error) => Err(error),
    }
}

/// Returns the path of a file beside this one.
pub(crate) fn sidecar(rt: &HostRuntime, path: &str, end: &str) -> io::Result<String> {
    Ok(format!(in rt.alloc(); "{path}{end}")?)
}

/// Returns the path of the file to which a link leads, since the log lies beside that file. A path
/// without a file stays as it is.
pub(crate) fn real_path(rt: &HostRuntime, path: &str) -> io::Result<String> {
    match if_there(fs::canonicalize(rt, path))? {
        Some(real) => Ok(real.into_string()),
        None => Ok(String::from_str(rt.alloc(), path)?),
    }
}

/// Returns the length of a file, or `None` if none exists at this path.
pub(crate) fn len_of(rt: &HostRuntime, path: &str) -> io::Result<Option<u64>> {
    Ok(if_there(fs::symlink_metadata(rt, path))?.map(|found| found.len()))
}

/// Returns the length of the log of the database at this path, or of the file that it links to.
pub(crate) fn len_of_log(rt: &HostRuntime, path: &str) -> io::Result<Option<u64>> {
    let real = real_path(rt, path)?;
    let log = sidecar(rt, real.as_str(), LOG)?;
    len_of(rt, log.as_str())
}

/// Returns the content of the log of the database at this path, or `EMPTY` without a log.
pub(crate) fn look_at_its_log(rt: &HostRuntime, path: &str) -> io::Result<LogLook> {
    let log = sidecar(rt, path, LOG)?;
    match len_of(rt, log.as_str())? {
        Some(len) if len > EMPTY_LOG => {
            let mut file = File::open(rt, log.as_str())?;
            look_at_log(rt.alloc(), &mut file)
        }
        _ => Ok(LogLook::EMPTY),
    }
}

/// Whether the database at this path has a log with changes, even damaged ones.
pub(crate) fn has_changes_in_log(rt: &HostRuntime, path: &str) -> io::Result<bool> {
    Ok(look_at_its_log(rt, path)? != LogLook::EMPTY)
}

/// Removes a file beside this one, if it exists.
pub(crate) fn remove_sidecar(rt: &HostRuntime, path: &str, end: &str) -> io::Result<()> {
    let other = sidecar(rt, path, end)?;
    if_there(fs::remove_file(rt, other.as_str()))?;
    Ok(())
}

/// Syncs the folder of a file, so that the names in it are on the disk.
pub(crate) fn sync_folder(rt: &HostRuntime, path: &str) -> io::Result<()> {
    let mut folder = PathBuf::from_str(rt.alloc(), path)?;
    folder.pop();
    let name = if folder.as_str().is_empty() {
        "."
    } else {
        folder.as_str()
    };
    File::open(rt, name)?.sync_all()
}

/// A database and its log, neither of which another process can open before this value is dropped.
pub(crate) type Held = Files<FileFrom<Wary>>;

/// Holds the database at this path, as the library does when it opens one.
///
/// Errors: `Busy` if another process has the database open, or replaced it meanwhile; `Journal`;
/// `System`.
pub(crate) fn hold(rt: &HostRuntime, path: &str) -> Result<Held, FileFault> {
    let file = File::open(rt, path)?;
    let held = match open_as(rt, path, Wary) {
        Ok(held) => held,
        Err(OpenError::Busy) => return Err(FileFault::Busy),
        Err(OpenError::HotJournal) => return Err(FileFault::Journal),
        Err(OpenError::OutOfMemory) => {
            return Err(FileFault::System(ErrorKind::OutOfMemory.into()));
        }
        Err(OpenError::Io(error)) => return Err(FileFault::System(error)),
    };
    if is_at(rt, &file, path)? {
        Ok(held)
    } else {
        Err(FileFault::Busy)
    }
}

/// Opens the two files with these assumptions. The function is generic over `S`, since a proof over
/// one `S` takes a minute.
fn open_as<S: Start>(
    rt: &HostRuntime,
    path: &str,
    start: S,
) -> Result<Files<FileFrom<S>>, OpenError> {
    sqlite_std_file::open(rt, path, start)
}

/// Whether the path names this file and no other.
pub(crate) fn is_at(rt: &HostRuntime, file: &File, path: &str) -> io::Result<bool> {
    let (found, named) = (file.metadata()?, fs::symlink_metadata(rt, path)?);
    Ok(found.dev() == named.dev() && found.ino() == named.ino())
}
