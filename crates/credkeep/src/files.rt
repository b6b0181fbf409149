//! The database file.

ghost use Rattle.std.specs.Prelude.{◌≡◌, IfOk, false};

use crate::fault::{BookFault, accept, refuse_file};
use crate::log::{LogLook, fills};
use crate::sidecar::{
    EMPTY_LOG, JOURNAL, LOG, has_changes_in_log, hold, if_there, len_of, len_of_log,
    look_at_its_log, real_path, sidecar,
};
use cred_admin::{Detail, LineForm, Status};
use cred_keep::BookCommand;
use credkeep_words::{FileFault, Remarks};
use sqlite::{Connection, Error, ErrorCode, FileFrom, FileStore, Start, Wary};
use std::fs::{File, Metadata, OpenOptions};
use std::io::Write;
use std::os::unix::fs::{MetadataExt, OpenOptionsExt};
use std::thread::sleep;
use std::time::Duration;
use std::{fs, io};

/// A connection to a file. The only assumption about the file is that its syncs are true.
pub(crate) type Database = Connection<FileStore<FileFrom<Wary>>>;

/// The mode of a file that only its owner may read and write. The log gets the same mode.
pub(crate) const OWNER_ALONE: u32 = 0o600;

/// The end of the name of the file in which an earlier server kept the locks of names.
const LOCKS: &str = "-locks";

/// The permissions of others in a mode.
const OTHERS: u32 = 0o077;

/// The first bytes of a database (SQLite's file format, section 1.3.1).
const HEADER: &[u8; 16] = b"SQLite format 3\0";

/// The number of tries at a busy file in a second, and the milliseconds between two tries.
const TRIES_A_SECOND: u32 = 20;

pub(crate) const PAUSE: u64 = 50;

/// The place of a new book.
#[derive(Clone, Copy, PartialEq, Eq)]
pub(crate) enum BookPlace {
    /// A new file, which the program puts at the place once the file is whole.
    NewFile,
    /// An existing database.
    Database,
}

/// Checks that a path names a file: SQLite keeps a database without a name, or with the name
/// `:memory:`, in memory.
fn look_at_name(path: &str) -> Result<(), FileFault> {
    if path.is_empty() || path == ":memory:" {
        return Err(FileFault::NoFile);
    }
    Ok(())
}

/// Checks that `init` may create a book at this path. An existing file must belong to this user
/// alone, and be empty or a database.
pub(crate) fn look_before_init(rt: &HostRuntime, path: &str) -> Result<BookPlace, FileFault> {
    look_at_name(path)?;
    let place = match if_there(fs::symlink_metadata(rt, path))? {
        Some(found) => look_at_place(rt, path, &found)?,
        None => BookPlace::NewFile,
    };
    if place == BookPlace::NewFile && has_changes_in_log(rt, path)? {
        return Err(FileFault::OldLog);
    }
    Ok(place)
}

fn look_at_place(rt: &HostRuntime, path: &str, found: &Metadata) -> Result<BookPlace, FileFault> {
    if !found.is_file() {
        return Err(FileFault::Irregular);
    }
    if found.uid() != own_user(rt)? {
        return Err(FileFault::Owner);
    }
    if found.mode() & OTHERS != 0 {
        return Err(FileFault::Mode);
    }
    see_single(found)?;
    if found.len() == 0 {
        return Ok(BookPlace::NewFile);
    }
    look_inside(rt, path)?;
    Ok(BookPlace::Database)
}

/// The users who can read and write a file.
#[derive(Clone, Copy, PartialEq, Eq)]
pub(crate) enum Access {
    OwnerAlone,
    Others,
}

/// Checks that the file may hold a book, and returns whether others can read or write it. Writes
/// nothing.
pub(crate) fn look_at(rt: &HostRuntime, path: &str) -> Result<Access, FileFault> {
    look_at_name(path)?;
    let Some(found) = if_there(fs::metadata(rt, path))? else {
        return Err(FileFault::Absent);
    };
    see_single(&found)?;
    if found.len() != 0 {
        look_inside(rt, path)?;
    } else if !has_bytes(rt, path, LOG)? {
        return Err(FileFault::Empty);
    }
    if found.mode() & OTHERS != 0 || found.uid() != own_user(rt)? {
        return Ok(Access::Others);
    }
    Ok(Access::OwnerAlone)
}

/// Checks a file as [`look_at`] does, and writes what it finds.
pub(crate) fn look(host: &HostRuntime, file: &str, remarks: Remarks) -> Result<(), Status> {
    let access = accept(host, file, look_at(host, file))?;
    if access == Access::Others && remarks == Remarks::Told {
        let _ = writeln!(
            host.stderr(),
            "credkeep: warning: {file}: another user owns it, or others can read or write it"
        );
    }
    Ok(())
}

/// Refuses to export a book if an earlier server's locks lie beside it: wherever the lines go, the
/// records of locked users would be usable.
pub(crate) fn look_before_export(
    host: &HostRuntime,
    file: &str,
    command: &BookCommand,
) -> Result<(), Status> {
    match command {
        BookCommand::List {
            line: LineForm::Passwd(Detail::Record),
        } => accept(host, file, look_at_locks(host, file)),
        _ => Ok(()),
    }
}

fn look_at_locks(rt: &HostRuntime, path: &str) -> Result<(), FileFault> {
    if has_bytes(rt, path, LOCKS)? {
        return Err(FileFault::Locks);
    }
    Ok(())
}

/// Checks that a copy may be put at this place: no file, an empty file, or a database.
pub(crate) fn look_at_old(rt: &HostRuntime, path: &str) -> Result<(), FileFault> {
    look_at_name(path)?;
    let Some(found) = if_there(fs::symlink_metadata(rt, path))? else {
        return Ok(());
    };
    see_single(&found)?;
    if found.len() == 0 {
        return Ok(());
    }
    look_inside(rt, path)
}

/// Checks that a file has only one name.
fn see_single(found: &Metadata) -> Result<(), FileFault> {
    if !found.is_file() {
        return Err(FileFault::Irregular);
    }
    if found.nlink() != 1 {
        return Err(FileFault::Linked);
    }
    Ok(())
}

fn look_inside(rt: &HostRuntime, path: &str) -> Result<(), FileFault> {
    let mut start = [0; 16];
    let mut file = File::open(rt, path)?;
    if !fills(&mut file, &mut start)? || start != *HEADER {
        return Err(FileFault::NoDatabase);
    }
    if has_bytes(rt, path, JOURNAL)? {
        return Err(FileFault::Journal);
    }
    Ok(())
}

/// Whether a file beside this one has bytes.
fn has_bytes(rt: &HostRuntime, path: &str, end: &str) -> io::Result<bool> {
    let real = real_path(rt, path)?;
    let other = sidecar(rt, real.as_str(), end)?;
    Ok(len_of(rt, other.as_str())?.unwrap_or(0) != 0)
}

/// Returns the user that this process acts for: Linux gives the process's folder below /proc to
/// this user.
pub(crate) fn own_user(rt: &HostRuntime) -> Result<u32, FileFault> {
    match fs::metadata(rt, "/proc/self") {
        Ok(own) => Ok(own.uid()),
        Err(error) => Err(FileFault::OwnUser(error)),
    }
}

/// The treatment of a log with a damaged change.
#[derive(Clone, Copy, PartialEq, Eq)]
pub(crate) enum DamagedLog {
    /// The program doesn't open the file.
    Refused,
    /// The program gives up the damaged change and all changes behind it.
    Cut,
}

/// Opens the file, outside a transaction, and tries for so many seconds if another process has it
/// open.
pub(crate) fn open_file(
    rt: &HostRuntime,
    path: &str,
    wait: u16,
    damaged: DamagedLog,
) -> Result<Database, BookFault>
    ensures { IfOk result (λ conn. conn.in_transaction ≡ false) }
{
    for _ in 0..tries_in(wait) {
        match open_once(rt, path, damaged) {
            Err(why) if why.is_busy() => sleep(rt, Duration::from_millis(PAUSE)),
            opened => return opened,
        }
    }
    open_once(rt, path, damaged)
}

/// Opens a file as [`open_file`] does, or writes why not, naming the book at `file`.
pub(crate) fn open_database(
    host: &HostRuntime,
    file: &str,
    path: &str,
    wait: u16,
    damaged: DamagedLog,
) -> Result<Database, Status>
    ensures { IfOk result (λ conn. conn.in_transaction ≡ false) }
{
    match open_file(host, path, wait, damaged) {
        Ok(conn) => Ok(conn),
        Err(why) => Err(refuse_file(host, file, why)),
    }
}

/// Copies the log into the file, and closes both. A failure loses nothing: the log stays.
pub(crate) fn close(host: &HostRuntime, conn: Database, status: Status) -> Status {
    if let Err(error) = fold(conn) {
        let _ = writeln!(
            host.stderr(),
            "credkeep: the log stays beside the file: {error}"
        );
    }
    status
}

/// Whether another process still has the file open after so many seconds.
pub(crate) fn is_busy(rt: &HostRuntime, path: &str, wait: u16) -> bool {
    for _ in 0..tries_in(wait) {
        if !matches!(hold(rt, path), Err(FileFault::Busy)) {
            return false;
        }
        sleep(rt, Duration::from_millis(PAUSE));
    }
    matches!(hold(rt, path), Err(FileFault::Busy))
}

/// Returns the number of tries at a busy file in so many seconds, before a last one.
pub(crate) fn tries_in(wait: u16) -> u32 {
    u32::from(wait) * TRIES_A_SECOND
}

fn open_once(rt: &HostRuntime, path: &str, damaged: DamagedLog) -> Result<Database, BookFault>
    ensures { IfOk result (λ conn. conn.in_transaction ≡ false) }
{
    if damaged == DamagedLog::Refused {
        see_log_whole(rt, path)?;
    }
    match open_as(rt, path, Wary) {
        Ok(conn) => Ok(conn),
        Err(error) => Err(why_unopened(rt, path, error)),
    }
}

/// Opens a file under the assumption `S`. The function is generic over `S`: with clauses about one
/// `S` the proof of a call takes a minute.
fn open_as<S: Start>(
    rt: &HostRuntime,
    path: &str,
    start: S,
) -> Result<Connection<FileStore<FileFrom<S>>>, Error>
    ensures { IfOk result (λ conn. conn.in_transaction ≡ false) }
{
    match Connection::open_from(rt, path, false, start) {
        Ok(conn) => Ok(conn),
        Err((error, _)) => Err(error),
    }
}

/// Copies the log into the file, and closes both. The function is generic over `S` for the same
/// reason.
pub(crate) fn fold<S: Start>(conn: Connection<FileStore<FileFrom<S>>>) -> Result<(), Error> {
    conn.close()
}

/// Checks that no change in the log is damaged: the opening would give up such a change and all
/// changes behind it, without a message. Holds the file meanwhile. If that fails, the opening
/// reports why.
fn see_log_whole(rt: &HostRuntime, path: &str) -> Result<(), BookFault> {
    if len_of_log(rt, path)?.unwrap_or(0) <= EMPTY_LOG {
        return Ok(());
    }
    let real = real_path(rt, path)?;
    let _held = match hold(rt, real.as_str()) {
        Err(FileFault::System(_)) => return Ok(()),
        Err(FileFault::Busy) => return Err(BookFault::BUSY),
        held => held?,
    };
    Ok(see_whole(look_at_its_log(rt, real.as_str())?)?)
}

/// Refuses a log that is damaged.
pub(crate) fn see_whole(look: LogLook) -> Result<(), FileFault> {
    if look.lost == 0 {
        return Ok(());
    }
    Err(FileFault::DamagedLog {
        before: look.commits,
        lost: look.lost,
    })
}

/// Finds the cause of a failed opening, since the library reports only the failure.
fn why_unopened(rt: &HostRuntime, path: &str, error: Error) -> BookFault {
    match error {
        Error::SqliteFailure(ErrorCode::CannotOpen) => match see_writable(rt, path) {
            Ok(()) => BookFault::File(FileFault::Unsynced),
            Err(error) => BookFault::File(FileFault::System(error)),
        },
        _ => BookFault::Database(error),
    }
}

/// Checks that this user can open and write the file and its log.
fn see_writable(rt: &HostRuntime, path: &str) -> io::Result<()> {
    let real = real_path(rt, path)?;
    let mut options = OpenOptions::new();
    options.read(true).write(true);
    let _file = options.open(rt, real.as_str())?;
    let log = sidecar(rt, real.as_str(), LOG)?;
    options.create(true).mode(OWNER_ALONE);
    let _log = options.open(rt, log.as_str())?;
    Ok(())
}
