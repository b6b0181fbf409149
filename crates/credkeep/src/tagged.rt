//! A book that answers tagged lines of many clients.

ghost use Rattle.std.specs.Prelude.{◌≡◌, ◌⊎◌, false, IfSome, is_some, length, None};
ghost use Rattle.cred_admin.specs.Marked.{kept_book};
ghost use Rattle.cred_book.specs.Accounts.{register_capacity};
ghost use Rattle.cred_cli.specs.Script.{lines_of};
ghost use Rattle.cred_keep.specs.BookCommands.{IsRefused};
ghost use Rattle.cred_many.specs.{Served.StandsAtEnd, Served.left_of, Service.service, Transcript.written_of};
ghost use Rattle.credkeep.specs.Service.{ServesBook, status_of_end, status_of_fault};

use crate::files::{DamagedLog, close, look, open_database};
use cred_admin::Status;
use cred_cli::{Tools, Watched};
use cred_file::{FileBook, Lost};
use cred_keep::{Failure, explain, refuse};
use cred_many::{
    Costs, LineReader, Scribe, Served, ServiceConfig, ServiceFault, ServiceId, Source, serve_file,
};
use credkeep_words::{CommandLine, Service, say};
use rand::make_rng;
use rand::rngs::StdRng;
use rand_core::Rng;
use sqlite::{Alter, Connection};
use std::io::{Read, Write};
use std::marker::Brand;
use std::sync::Wait;
use std::thread;
use std::thread::Threads;
use std::time::Clock;

/// The way in which a book is served.
#[derive(Clone, Copy)]
pub(crate) struct Tagged {
    /// The number of threads that hash, if the words have one.
    pub(crate) at_once: Option<u8>,
    /// The memory of all hashes together, the costs of new records, the bounds on lines, and the
    /// limit of failed tries.
    pub(crate) config: ServiceConfig,
}

impl Tagged {
    /// Returns the service that the words ask for.
    pub(crate) fn of(service: &Service) -> Tagged {
        let setting = service.setting.setting();
        let costs = match Costs::of(&setting) {
            Some(costs) => costs,
            None => unreachable!(),
        };
        Tagged {
            at_once: service.at_once,
            config: ServiceConfig {
                costs,
                memory: service.memory,
                most: service.most,
                tries: service.tries,
            },
        }
    }
}

/// Opens the file, answers tagged lines from standard input, and closes the file.
pub(crate) fn serve_book<T: Threads + Wait + Clock + Sync + Copy + Send + 'static>(
    host: &HostRuntime,
    rt: &T,
    line: &CommandLine<'_>,
    tagged: &Tagged,
) -> Result<Status, Status> {
    let file = line.file;
    look(host, file, line.remarks)?;
    let Ok(salts) = make_rng::<StdRng, HostRuntime>(host) else {
        return Err(say(host, "the system has no random bytes", Status::Io));
    };
    let tools = Tools {
        rt,
        alloc: host.alloc(),
        workers: threads_of(rt, tagged),
    };
    let streams = Streams {
        reader: host.stdin(),
        writer: Watched::new(host.stdout()),
        salts,
    };
    let conn = open_database(host, file, file, line.wait, DamagedLog::Refused)?;
    let finished = serve_in(&tools, tagged, conn, streams, &mut host.stderr());
    let Finished { conn, status, .. } = finished;
    Ok(close(host, conn, status))
}

/// The source of lines, the place of their answers, and the source of salts for new records.
#[derive(Drop)]
struct Streams<R, W, G> {
    reader: R,
    writer: Watched<W>,
    salts: G,
}

/// A database whose book was served, or that holds no book: its connection, the writer of the
/// answers, and the exit status.
#[derive(Drop)]
struct Finished<S: Alter, W> {
    conn: Connection<S>,
    writer: Watched<W>,
    status: Status,
}

/// Opens the book of a database, and answers tagged lines on it. The connection and the writer come
/// back: the bytes that the writer accepted, a pipe or a terminal, are the answers. If the database
/// holds no book, `faults` says why.
fn serve_in<T, S, R, W, G, F>(
    tools: &Tools<'_, T>,
    tagged: &Tagged,
    conn: Connection<S>,
    streams: Streams<R, W, G>,
    faults: &mut F,
) -> Finished<S, W>
where
    T: Threads + Wait + Clock + Sync + Copy + Send + 'static,
    S: Alter,
    R: Read + Send + Drop + 'static,
    W: Write + Drop,
    G: Rng + Send + Drop + 'static,
    F: Write,
    requires autocommit { conn.in_transaction ≡ false }
    ensures { ServesBook S.Store W.contents ⟦<LineReader<R> as Source>⟧.failed
        (λ book. service book (R.remaining streams.reader) (written_of W.contents streams.writer)
        tagged.now.config (G.stream streams.salts))
        conn result.conn result.writer result.status
        ⊎ (IsRefused S.Store conn result.conn result.status × (result.writer ≡ streams.writer)) }
{
    let Streams {
        reader,
        writer,
        salts,
    } = streams;
    match FileBook::open(tools.alloc, conn) {
        Ok(book) => {
            let served = serve_named::<Brand, T, S, R, W, G>(
                tools,
                &tagged.config,
                book,
                salts,
                reader,
                writer,
            );
            let Served {
                keeper,
                writer,
                fault,
                ..
            } = served;
            tell_fault(faults, fault, keeper.lost());
            Finished {
                conn: keeper.close(),
                writer,
                status: status_of_end(fault),
            }
        }
        Err((why, conn)) => Finished {
            conn,
            writer,
            status: refuse(faults, &why),
        },
    }
}

/// Writes the fault that ended a service, if any.
fn tell_fault<F: Write>(faults: &mut F, fault: Option<ServiceFault>, lost: Option<&Lost>) {
    match fault {
        None => {}
        Some(ServiceFault::Keeper) => explain(faults, &Failure::Database, lost),
        Some(fault) => {
            let _ = writeln!(faults, "credkeep: {fault}");
        }
    }
}

/// Builds the scribe of the book and the writer, lends it to the service, and receives it back.
fn serve_named<J, T, S, R, W, G>(
    tools: &Tools<'_, T>,
    config: &ServiceConfig,
    book: FileBook<S>,
    salts: G,
    reader: R,
    writer: Watched<W>,
) -> Served<FileBook<S>, W, LineReader<R>>
where
    J: ServiceId + Send + Sync + 'static,
    T: Threads + Wait + Clock + Sync + Copy + Send + 'static,
    S: Alter,
    R: Read + Send + Drop + 'static,
    W: Write + Drop,
    G: Rng + Send + Drop + 'static,
    requires { J.service ≡ service (kept_book book) (R.remaining reader)
        (written_of W.contents writer) config.now (G.stream salts) }
    ensures served { ∥ StandsAtEnd register_capacity J.service
        (left_of kept_book (λ b. is_some b.lost) W.contents
        ⟦<LineReader<R> as Source>⟧.failed result) ∥₁ }
    ensures all { result.fault ≡ None
        → IfSome (R.remaining reader) (λ all. result.lines ≡ length (lines_of all)) }
{
    let mut scribe: Scribe<J, FileBook<S>, W> = Scribe::new(
        tools.alloc,
        book,
        writer,
        config.tries,
    );
    let ending = serve_file(tools, config, &mut scribe, salts, reader);
    scribe.end(ending)
}

/// Returns the exit status of a service that met this fault, if any.
fn status_of_end(fault: Option<ServiceFault>) -> Status
    ensures { result ≡ status_of_end fault }
{
    match fault {
        Some(fault) => status_of_fault(fault),
        None => Status::Done,
    }
}

fn status_of_fault(fault: ServiceFault) -> Status
    ensures { result ≡ status_of_fault fault }
{
    match fault {
        ServiceFault::Memory | ServiceFault::Threads => Status::Memory,
        ServiceFault::TooLong => Status::Data,
        ServiceFault::Keeper => Status::Database,
        ServiceFault::Read | ServiceFault::Write | ServiceFault::Lost => Status::Io,
    }
}

/// Returns the number of threads that hash: as many as processors, but no more than have memory for
/// the costs of new records at once.
fn threads_of<T: Threads>(rt: &T, tagged: &Tagged) -> u8 {
    if let Some(at_once) = tagged.at_once {
        return at_once;
    }
    let processors = match thread::available_parallelism(rt) {
        Ok(count) => u64::try_from(count.get()).unwrap_or(1),
        Err(_) => 1,
    };
    let each = tagged.config.costs.memory().max(1);
    let fitting = (tagged.config.memory / each).max(1);
    u8::try_from(processors.min(fitting)).unwrap_or(u8::MAX)
}
