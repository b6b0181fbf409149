//! The program behind `main`. It receives the runtime twice, since only `main` has the handles to
//! threads.

ghost use Rattle.std.specs.Prelude.{◌≡◌, false};

use crate::copies::{NEW, back_up, restore, verify};
use crate::draft::{DraftFile, OldLog};
use crate::fault::accept;
use crate::files::{
    BookPlace, DamagedLog, close, fold, look, look_before_export, look_before_init, open_database,
};
use crate::tagged::{Tagged, serve_book};
use cred_admin::Status;
use cred_cli::{Tools, Watched};
use cred_file::{FileBook, OpenFault};
use cred_keep::{BookCommand, refuse};
use credkeep_words::{
    Command, CommandLine, Counted, ProgressLine, Remarks, advise, read_passwords, read_words, say,
};
use sqlite::{Alter, Connection};
use std::alloc::Global;
use std::io::{ErrorKind, Read, Write};
use std::sync::Wait;
use std::thread::Threads;
use std::time::Clock;
use std::{env, io};

/// The maximum number of threads for a command on one account: the lanes of the default setting.
const LANES: u8 = 4;

/// Does the command that the process's words ask for.
pub(crate) fn run<T: Threads + Wait + Clock + Sync + Copy + Send + 'static>(
    host: &HostRuntime,
    rt: &T,
) -> Status {
    match run_words(host, rt) {
        Ok(status) => status,
        Err(error) if error.kind() == ErrorKind::OutOfMemory => {
            say(host, "out of memory", Status::Memory)
        }
        Err(_) => say(host, "a word is not UTF-8", Status::Usage),
    }
}

fn run_words<T: Threads + Wait + Clock + Sync + Copy + Send + 'static>(
    host: &HostRuntime,
    rt: &T,
) -> io::Result<Status> {
    let words: Vec<String> = env::args(host)?.collect(host.alloc())?;
    match read_words(host, &words) {
        Ok(line) => match answer(host, rt, &line) {
            Ok(status) | Err(status) => Ok(status),
        },
        Err(status) => Ok(status),
    }
}

/// Does a command. Either status is the program's; if it is the second one, the program has written
/// the refusal.
fn answer<T: Threads + Wait + Clock + Sync + Copy + Send + 'static>(
    host: &HostRuntime,
    rt: &T,
    line: &CommandLine<'_>,
) -> Result<Status, Status> {
    match &line.command {
        Command::Init => init(host, line),
        Command::Backup(to) => Ok(back_up(host, line, to)?.tell(host, line.counts)),
        Command::Restore(from) => Ok(restore(host, line, from)?.tell(host, line.counts)),
        Command::Verify => verify(host, line),
        Command::Tagged(service) => serve_book(host, rt, line, &Tagged::of(service)),
        Command::OnBook { command, echo } => {
            let tools = Tools {
                rt,
                alloc: host.alloc(),
                workers: LANES,
            };
            look(host, line.file, line.remarks)?;
            look_before_export(host, line.file, command)?;
            let lines = read_passwords(host, line.file, command, *echo)?;
            on_file(host, &tools, line, command, lines)
        }
    }
}

/// Creates a book, in a file that the program puts at its place once the file is whole, or in an
/// existing database.
fn init(host: &HostRuntime, line: &CommandLine<'_>) -> Result<Status, Status> {
    let file = line.file;
    match accept(host, file, look_before_init(host, file))? {
        BookPlace::NewFile => begin_beside(host, file),
        BookPlace::Database => {
            let conn = open_database(host, file, file, line.wait, DamagedLog::Refused)?;
            let (conn, status) = begin_in(host.alloc(), conn, host.stderr());
            Ok(close(host, conn, status))
        }
    }
}

fn begin_beside(host: &HostRuntime, file: &str) -> Result<Status, Status> {
    let new = accept(host, file, DraftFile::make(host, file, NEW))?;
    let conn = open_database(host, file, new.path(), 0, DamagedLog::Refused)?;
    let (conn, status) = begin_in(host.alloc(), conn, host.stderr());
    // The file goes to its place without its log: if the log can't be copied, no book was created.
    let status = match fold(conn) {
        Err(error) if status == Status::Done => {
            refuse(&mut host.stderr(), &OpenFault::Database(error))
        }
        _ => status,
    };
    if status == Status::Done {
        accept(host, file, new.put_at(file, OldLog::Kept))?;
    }
    Ok(status)
}

/// Opens the file, does a command in its database, and closes the file. The passwords were read
/// before.
fn on_file<T: Threads + Sync>(
    host: &HostRuntime,
    tools: &Tools<'_, T>,
    line: &CommandLine<'_>,
    command: &BookCommand,
    passwords: Option<Vec<u8>>,
) -> Result<Status, Status> {
    let file = line.file;
    let conn = open_database(host, file, file, line.wait, DamagedLog::Refused)?;
    let (lines, rest) = match &passwords {
        Some(lines) => (&lines[..], 0),
        None => (&[][..], u64::MAX),
    };
    let input = lines.chain(host.stdin().take(rest));
    let remarks = match command {
        BookCommand::Import { .. } => line.remarks,
        _ => Remarks::Hidden,
    };
    let counted = Counted::new(input, ProgressLine::new(host, remarks));
    let (conn, status) = obey(tools, conn, command, counted, host.stdout(), host.stderr());
    if status == Status::Done {
        advise(host, command, lines);
    }
    Ok(close(host, conn, status))
}

/// Does a command in a database, which comes back. The function is generic over the database: with
/// a file's database a proof takes too long.
fn obey<T: Threads + Sync, S: Alter, R: Read + Drop, W: Write + Drop, F: Write + Drop>(
    tools: &Tools<'_, T>,
    conn: Connection<S>,
    command: &BookCommand,
    reader: R,
    writer: W,
    mut faults: F,
) -> (Connection<S>, Status)
    requires autocommit { conn.in_transaction ≡ false }
{
    let mut reader = Watched::new(reader);
    let mut writer = Watched::new(writer);
    command.carry_out(tools, conn, &mut reader, &mut writer, &mut faults)
}

/// Creates a book in the database, or reports whose tables are in the way. The database comes back.
fn begin_in<S: Alter, F: Write + Drop>(
    alloc: Global,
    conn: Connection<S>,
    mut faults: F,
) -> (Connection<S>, Status)
    requires autocommit { conn.in_transaction ≡ false }
{
    match FileBook::create(alloc, conn) {
        Ok(book) => (book.close(), Status::Done),
        Err((OpenFault::NotEmpty, conn)) => match FileBook::open(alloc, conn) {
            Ok(book) => {
                let _ = writeln!(faults, "credkeep: the file holds a book already");
                (book.close(), Status::Database)
            }
            Err((why, conn)) => (conn, refuse(&mut faults, &why)),
        },
        Err((why, conn)) => (conn, refuse(&mut faults, &why)),
    }
}
