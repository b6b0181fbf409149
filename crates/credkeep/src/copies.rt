//! Copies of a book in files of their own: a backup, even while a server has the book open; a copy
//! that replaces the book; and a copy that is only read.

ghost use Rattle.std.specs.Prelude.{◌≡◌, false};

use crate::draft::{DraftFile, OldLog};
use crate::fault::{BookFault, accept, refuse_file};
use crate::files::{
    DamagedLog, PAUSE, fold, is_busy, look, look_at, look_at_old, open_database, open_file,
    see_whole, tries_in,
};
use crate::log::LogLook;
use crate::sidecar::{len_of, look_at_its_log, real_path, sidecar};
use crate::snapshot::take_snapshot;
use cred_admin::Status;
use cred_file::OpenFault;
use cred_keep::{CopyFault, CountsForm, copy_book, count_accounts};
use credkeep_words::{CommandLine, FileFault, ProgressLine, Remarks, say};
use sqlite::{Alter, Connection, Error, ErrorCode};
use std::alloc::Global;
use std::io;
use std::io::Write;
use std::thread::sleep;
use std::time::Duration;

/// The ends of the names of files beside a place: the book as it was read, and the new
/// file.
const READ: &str = "-read";

pub(crate) const NEW: &str = "-new";

/// The number of a book's accounts, and the content of its log.
#[derive(Clone, Copy)]
pub(crate) struct Contents {
    accounts: usize,
    log: LogLook,
}

impl Contents {
    pub(crate) fn tell(self, host: &HostRuntime, counts: CountsForm) -> Status {
        match self.write(&mut host.stdout(), counts) {
            Ok(()) => Status::Done,
            Err(_) => say(host, "writing failed", Status::Io),
        }
    }

    fn write<W: Write>(self, out: &mut W, counts: CountsForm) -> io::Result<()> {
        let (accounts, changes) = (self.accounts, self.log.commits);
        match counts {
            CountsForm::Hidden => Ok(()),
            CountsForm::Plain => {
                let (these, those) = (plural_of(accounts as u64), plural_of(changes));
                writeln!(
                    out,
                    "{accounts} account{these}, {changes} change{those} in the log"
                )
            }
            CountsForm::Json => writeln!(out, "{{\"accounts\":{accounts},\"changes\":{changes}}}"),
        }
    }
}

/// Returns the plural ending for so many things.
fn plural_of(count: u64) -> &'static str {
    if count == 1 { "" } else { "s" }
}

/// Copies the book to another place, even while the book is in use.
pub(crate) fn back_up(
    host: &HostRuntime,
    line: &CommandLine<'_>,
    to: &str,
) -> Result<Contents, Status> {
    let file = line.file;
    look(host, file, line.remarks)?;
    let source = accept(host, file, real_path(host, file))?;
    let place = accept(host, to, real_path(host, to))?;
    if place == source {
        return Err(refuse_file(host, to, FileFault::Same));
    }
    accept(host, to, look_at_old(host, place.as_str()))?;
    let read = make_draft(host, place.as_str(), READ)?;
    let log = read_book(host, file, &read, line.remarks)?;
    accept(host, file, see_whole(log))?;
    let new = make_draft(host, place.as_str(), NEW)?;
    let accounts = copy(host, file, &read, &new)?;
    let put = new.put_at(place.as_str(), OldLog::Kept);
    accept(host, place.as_str(), put)?;
    Ok(Contents { accounts, log })
}

/// Replaces the book by a copy.
pub(crate) fn restore(
    host: &HostRuntime,
    line: &CommandLine<'_>,
    from: &str,
) -> Result<Contents, Status> {
    if let Err(FileFault::Absent) = look_at(host, from) {
        let _ = writeln!(host.stderr(), "credkeep: {from}: there is no such file");
        return Err(Status::Database);
    }
    look(host, from, line.remarks)?;
    let file = line.file;
    let place = accept(host, file, real_path(host, file))?;
    accept(host, file, look_at_old(host, place.as_str()))?;
    // Reading a copy may take long, so a book in use is refused first.
    if is_busy(host, place.as_str(), line.wait) {
        return Err(refuse_file(host, file, FileFault::Busy));
    }
    let read = make_draft(host, place.as_str(), READ)?;
    let log = read_book(host, from, &read, line.remarks)?;
    // A book restored from itself comes back without the damaged changes.
    if accept(host, from, real_path(host, from))? != place {
        accept(host, from, see_whole(log))?;
    }
    let new = make_draft(host, place.as_str(), NEW)?;
    let accounts = copy(host, from, &read, &new)?;
    let put = put_back(host, &new, place.as_str(), line.wait);
    accept(host, place.as_str(), put)?;
    Ok(Contents { accounts, log })
}

/// Reads the file and its log to their ends, and prints what they contain. The book may be in use,
/// and the command writes nothing into its files.
pub(crate) fn verify(host: &HostRuntime, line: &CommandLine<'_>) -> Result<Status, Status> {
    let file = line.file;
    look(host, file, line.remarks)?;
    let place = accept(host, file, real_path(host, file))?;
    let read = make_draft(host, place.as_str(), READ)?;
    let log = read_book(host, file, &read, line.remarks)?;
    let conn = open_database(host, file, read.path(), 0, DamagedLog::Cut)?;
    let (conn, counted) = count_in(host.alloc(), conn);
    drop(conn);
    let accounts = accept(host, file, counted)?;
    let status = Contents { accounts, log }.tell(host, line.counts);
    accept(host, file, see_whole(log))?;
    Ok(status)
}

/// Creates a draft beside a place. A fault names the draft, as the place itself may be readable. If
/// the folder is missing, the fault names the place.
fn make_draft<'a>(host: &'a HostRuntime, place: &str, end: &str) -> Result<DraftFile<'a>, Status> {
    let path = accept(host, place, sidecar(host, place, end))?;
    match DraftFile::make(host, place, end) {
        Err(FileFault::NoFolder) => Err(refuse_file(host, place, FileFault::NoFolder)),
        made => accept(host, path.as_str(), made),
    }
}

/// Copies the book's files as of one moment, and reads the copy of the log.
fn read_book(
    host: &HostRuntime,
    file: &str,
    read: &DraftFile<'_>,
    remarks: Remarks,
) -> Result<LogLook, Status> {
    let source = accept(host, file, real_path(host, file))?;
    let mut progress = ProgressLine::new(host, remarks);
    let taken = take_snapshot(host, source.as_str(), read, &mut progress);
    if let Err(FileFault::System(error)) = taken {
        return Err(refuse_file(host, read.path(), error));
    }
    accept(host, file, taken)?;
    accept(host, file, look_at_its_log(host, read.path()))
}

/// Writes the book that was read into the new file, and returns the number of accounts.
fn copy(
    host: &HostRuntime,
    file: &str,
    read: &DraftFile<'_>,
    new: &DraftFile<'_>,
) -> Result<usize, Status> {
    let target = open_database(host, new.path(), new.path(), 0, DamagedLog::Refused)?;
    let (target, copied) = copy_into(host, file, read, new, target);
    match (copied, fold(target)) {
        (Ok(_), Err(error)) => Err(refuse_file(host, new.path(), OpenFault::Database(error))),
        (copied, _) => copied,
    }
}

/// Writes the book that was read into a database. With two kinds of files at once a proof takes too
/// long: this one names the first, and its caller the second.
fn copy_into<D: Alter>(
    host: &HostRuntime,
    file: &str,
    read: &DraftFile<'_>,
    new: &DraftFile<'_>,
    target: Connection<D>,
) -> (Connection<D>, Result<usize, Status>)
    requires autocommit { target.in_transaction ≡ false }
{
    let source = match open_database(host, file, read.path(), 0, DamagedLog::Cut) {
        Ok(source) => source,
        Err(status) => return (target, Err(status)),
    };
    let (source, target, copied) = copy_between(host.alloc(), source, target);
    drop(source);
    match copied {
        Ok(accounts) => (target, Ok(accounts)),
        Err(CopyFault::Source(why)) => (target, Err(refuse_file(host, file, why))),
        Err(CopyFault::Target(why)) => (target, Err(refuse_file(host, new.path(), why))),
    }
}

/// Does what `copy_book` does, over any databases. The function below likewise does what
/// `count_accounts` does: a call with clauses that names a file's database takes too long to prove.
fn copy_between<S: Alter, D: Alter>(
    alloc: Global,
    source: Connection<S>,
    target: Connection<D>,
) -> (Connection<S>, Connection<D>, Result<usize, CopyFault>)
    requires source { source.in_transaction ≡ false }
    requires target { target.in_transaction ≡ false }
{
    copy_book(alloc, source, target)
}

fn count_in<S: Alter>(
    alloc: Global,
    conn: Connection<S>,
) -> (Connection<S>, Result<usize, OpenFault>)
    requires autocommit { conn.in_transaction ≡ false }
{
    count_accounts(alloc, conn)
}

/// Replaces the book by the new file, and tries for so many seconds if another process has the book
/// open.
fn put_back(
    host: &HostRuntime,
    new: &DraftFile<'_>,
    place: &str,
    wait: u16,
) -> Result<(), BookFault> {
    for _ in 0..tries_in(wait) {
        match put_back_once(host, new, place) {
            Err(why) if why.is_busy() => sleep(host, Duration::from_millis(PAUSE)),
            ended => return ended,
        }
    }
    put_back_once(host, new, place)
}

fn put_back_once(host: &HostRuntime, new: &DraftFile<'_>, place: &str) -> Result<(), BookFault> {
    let old_log = fold_log(host, place)?;
    new.dress_as(place)?;
    Ok(new.put_at(place, old_log)?)
}

/// Copies the log of the old file into it, so that the old book is whole without its log. A file
/// that is damaged or gone has no whole book, so its log is removed.
fn fold_log(host: &HostRuntime, place: &str) -> Result<OldLog, BookFault> {
    if len_of(host, place)?.unwrap_or(0) == 0 {
        return Ok(OldLog::Removed);
    }
    let conn = match open_file(host, place, 0, DamagedLog::Cut) {
        Ok(conn) => conn,
        Err(
            BookFault::Database(
                Error::SqliteFailure(ErrorCode::DatabaseCorrupt | ErrorCode::NotADatabase),
            ),
        ) => return Ok(OldLog::Removed),
        Err(why) => return Err(why),
    };
    let (conn, counted) = count_in(host.alloc(), conn);
    if let Err(OpenFault::NoBook) = counted {
        return Err(OpenFault::NoBook.into());
    }
    match fold(conn) {
        Ok(()) => Ok(OldLog::Kept),
        Err(error) => Err(OpenFault::Database(error).into()),
    }
}
