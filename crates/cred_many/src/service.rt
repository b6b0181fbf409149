//! The service: one thread reads, others hash, and this one has the book.

ghost use Rattle.std.specs.Prelude.{◌≡◌, [], false, IfOk, IfSome, length, true};
ghost use Rattle.crossbeam_channel.specs.{Claims.view, Ends.receives_on, Ends.sends_on};
ghost use Rattle.cred_many.specs.{Reading.HasHanded, Reading.IsOfReading, Service.service};

use crate::budget::{Budget, Idle, Limit, parts};
use crate::costs::Costs;
use crate::hashing::Hashing;
use crate::inbox::{Inbox, WorkerEnd, make_inbox};
use crate::line::LineDecoder;
use crate::message_loop::{MessageLoop, Stopwatch};
use crate::open::MOST_OPEN;
use crate::scribe::{Ending, Job, OfReading, Reading, Scribe, await_end, read_all};
use crate::sender::LineSender;
use crate::service_id::ServiceId;
use crate::source::{LineReader, Source};
use cred_admin::Host;
use cred_cli::{CostBounds, Tools};
use cred_file::FileBook;
use cred_tries::TryLimit;
use crossbeam_channel::{Receiver, Sender, bounded};
use rand_core::Rng;
use sqlite::Alter;
use std::alloc::{AllocError, Global};
use std::io::{Read, Write};
use std::marker::Brand;
use std::sync::Wait;
use std::sync::ledger::Blank;
use std::thread;
use std::thread::Threads;
use std::time::Clock;

/// The settings of a service.
#[derive(Clone, Copy)]
pub struct ServiceConfig {
    /// The costs of new records.
    pub costs: Costs,
    /// The memory of all hashes together, in KiB.
    pub memory: u64,
    /// The bounds on the setting or the record of a line. `costs` must be within these bounds: the
    /// service also judges a line that makes a record with `costs`.
    pub most: CostBounds,
    /// The number of failed tries at an account until the next has to wait, if there is a limit.
    pub tries: Option<TryLimit>,
}

/// Answers lines to the end of the input, and hashes in `tools.workers` threads.
///
/// The service borrows the scribe, and nothing else has the book or the writer, so the law
/// `Scribe::holds` stays true. `Scribe::end` takes the result, and returns the remains.
///
/// The service does each line whole, and writes its answer whole, at one moment between the line's
/// coming and its answer. It draws one salt for each line, in the order of the lines. It refuses a
/// line whose setting or record needs more than `config.most`, and a last line without its end,
/// since more of that line may be lost. It calls the source again only after each whole line that
/// came was handed on. The service never flushes the writer, so the writer must hold nothing back.
/// After a fault the service ends without waiting for the source.
pub fn serve_tagged<J, T, S, G, K, W>(
    tools: &Tools<'_, T>,
    config: &ServiceConfig,
    scribe: &mut Scribe<J, K, W>,
    salts: G,
    source: S,
) -> Ending<J, S>
where
    J: ServiceId + Send + Sync + 'static,
    T: Threads + Wait + Clock + Sync + Copy + Send + 'static,
    S: Source + Send + Drop + 'static,
    G: Rng + Send + Drop + 'static,
    K: Host,
    W: Write + Drop,
    requires named { J.service ≡ service J.service.opening (S.remaining source)
        J.service.before config.now (G.stream salts) }
    requires given { S.given source ≡ 0 }
    requires going { (S.ended source ≡ false) × (S.failed source ≡ false) }
{
    let decoder: LineDecoder<J, G> = LineDecoder::new(config, salts);
    let Ok((channels, sender)) = make_channels(tools.rt, tools.alloc) else {
        return Ending::without_memory();
    };
    let there = *tools.rt;
    let promise = OfReading::of(&sender);
    let reading = move || -> Reading<J, S>
        requires { (S.remaining source ≡ J.service.input) × (S.given source ≡ 0)
            × (S.ended source ≡ false) × (S.failed source ≡ false)
            × (decoder.start ≡ []) × (decoder.number ≡ 0) × (sender.handed ≡ 0) }
        ensures { IsOfReading result.ending
            × HasHanded result.ending (length (view result.book.pass).sent.lines)
            × (result.book.end ≡ sender.book.end) }
    { read_all(&there, source, decoder, sender) };
    let reader = match thread::spawn_with(tools.rt, promise, reading) {
        Ok(reader) => reader,
        Err(refused) => return Ending::not_begun(refused),
    };
    let blank = Blank::new(u64::from(tools.workers));
    match hash_in_threads::<Brand, J, T, K, W>(tools, config, scribe, channels, blank) {
        Some(inbox) => await_end(tools.rt, reader, inbox),
        // Nobody waits for the reader: after a fault it may never end.
        None => Ending::not_awaited(reader),
    }
}

/// Answers tagged lines on a kept book, as [`serve_tagged`] does.
///
/// Each change is in the database before its line gets an answer. A crash leaves the book after the
/// lines that were done, perhaps with the change that was under way when the database failed.
pub fn serve_file<J, T, S, R, W, G>(
    tools: &Tools<'_, T>,
    config: &ServiceConfig,
    scribe: &mut Scribe<J, FileBook<S>, W>,
    salts: G,
    reader: R,
) -> Ending<J, LineReader<R>>
where
    J: ServiceId + Send + Sync + 'static,
    T: Threads + Wait + Clock + Sync + Copy + Send + 'static,
    S: Alter,
    R: Read + Send + Drop + 'static,
    W: Write + Drop,
    G: Rng + Send + Drop + 'static,
    requires { J.service ≡ service J.service.opening (R.remaining reader)
        J.service.before config.now (G.stream salts) }
{
    serve_tagged(tools, config, scribe, salts, LineReader::new(reader))
}

/// The ends of the channels for the thread with the book, and the ends for the
/// threads that hash.
#[derive(Drop)]
struct Channels<J: ServiceId> {
    room: Sender<()>,
    jobs: Sender<Job<J>>,
    waiting: Receiver<Job<J>>,
    book: WorkerEnd<J>,
    inbox: Inbox<J>,
}

/// Creates the channels, with room for all open lines, so that only the thread that reads waits to
/// send.
fn make_channels<J: ServiceId, T: Wait>(
    rt: &T,
    alloc: Global,
) -> Result<(Channels<J>, LineSender<J>), AllocError>
    ensures handed { IfOk result (λ made. made.1.handed ≡ 0) }
    ensures channel { IfOk result
        (λ made. receives_on made.0.inbox.end ≡ sends_on made.1.book.end) }
{
    let (room, rooms) = bounded(alloc, MOST_OPEN)?;
    for _ in 0..MOST_OPEN {
        if room.send(rt, ()).is_err() {
            return Err(AllocError);
        }
    }
    let (jobs, waiting) = bounded(alloc, MOST_OPEN)?;
    let (reader, book, inbox) = make_inbox(alloc, MOST_OPEN + 1)?;
    let sender = LineSender::new(rooms, reader);
    let channels = Channels {
        room,
        jobs,
        waiting,
        book,
        inbox,
    };
    Ok((channels, sender))
}

/// Hashes in other threads, each with a share of the ledger, and handles their messages in this
/// thread. Returns this thread's end of the channel if all lines came and have answers.
fn hash_in_threads<L, J, T, K, W>(
    tools: &Tools<'_, T>,
    config: &ServiceConfig,
    scribe: &mut Scribe<J, K, W>,
    channels: Channels<J>,
    blank: Blank,
) -> Option<Inbox<J>>
where
    L: Limit + Send + Sync,
    J: ServiceId + Send + Sync + 'static,
    T: Threads + Wait + Clock + Sync + Copy + Send + 'static,
    K: Host,
    W: Write + Drop,
    requires name { blank.name ≡ L.name }
    requires parts { (blank.parts ≡ L.parts) × (blank.parts ≡ tools.now.workers) }
    requires total { config.now.memory ≡ L.total }
    requires named { config.now.memory ≡ J.service.memory }
    ensures ended { IfSome result (λ inbox. (view inbox.pass).got.ended ≡ true) }
    ensures channel { IfSome result
        (λ inbox. receives_on inbox.end ≡ receives_on channels.inbox.end) }
{
    let (taken, share) = blank.open::<L>();
    let Ok(parts) = parts(tools.alloc, share, tools.workers) else {
        return None;
    };
    let hashing = Hashing {
        alloc: tools.alloc,
        costs: config.costs,
        budget: Budget::new(config.memory, taken),
    };
    attend_beside(tools, &hashing, scribe, channels, parts)
}

fn attend_beside<L, J, T, K, W>(
    tools: &Tools<'_, T>,
    hashing: &Hashing<L>,
    scribe: &mut Scribe<J, K, W>,
    channels: Channels<J>,
    parts: Vec<Idle<L>>,
) -> Option<Inbox<J>>
where
    L: Limit + Send + Sync,
    J: ServiceId + Send + Sync + 'static,
    T: Threads + Wait + Clock + Sync + Copy + Send + 'static,
    K: Host,
    W: Write + Drop,
    ensures ended { IfSome result (λ inbox. (view inbox.pass).got.ended ≡ true) }
    ensures channel { IfSome result
        (λ inbox. receives_on inbox.end ≡ receives_on channels.inbox.end) }
{
    let rt = tools.rt;
    thread::scope(
        thread::scope_env(),
        rt,
        move |scope| -> Option<Inbox<J>>
            ensures { IfSome result (λ inbox. ((view inbox.pass).got.ended ≡ true)
                × (receives_on inbox.end ≡ receives_on channels.inbox.end)) }
        {
            let Channels {
                room,
                jobs,
                waiting,
                book,
                inbox,
            } = channels;
            let mut book = book;
            let mut inbox = inbox;
            let mut started = false;
            for idle in parts {
                let Ok(jobs) = waiting.clone() else {
                    break;
                };
                let Ok(book) = book.another() else {
                    break;
                };
                if scope
                    .spawn(move || hashing.work(rt, jobs, book, idle))
                    .is_err()
                {
                    break;
                }
                started = true;
            }
            // From now on only the other threads hold these ends, so that each call on the opposite
            // end fails once the threads have ended.
            drop(waiting);
            drop(book);
            if !started {
                return None;
            }
            let mut messages = MessageLoop::new(tools.alloc, Stopwatch::new(rt), jobs, room);
            if messages.run(rt, scribe, &mut inbox) {
                Some(inbox)
            } else {
                None
            }
        },
    )
}
