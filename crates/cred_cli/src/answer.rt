//! The effect of an event, the line that answers it, and how a whole line is written.

ghost use Rattle.std.specs.Prelude.{◌≡◌, ◌++◌, IfErr, IfOk, OnOk, OnErr, Some, true};
ghost use Rattle.std.specs.Io.KnownBytes.{Appends};
ghost use Rattle.cred_book.specs.Works.{is_for_current};
ghost use Rattle.cred_cli.specs.{Answers.IsDone, Answers.line_bytes, Events.IsSound, History.Refused, History.Shown};
ghost use Rattle.cred_cli.specs.{Steps.WriteFails, Steps.begin_step, Steps.commit_step, Steps.step, Texts.line_of, Texts.reply_line};
ghost use Rattle.cred_cli.specs.Watched.{Basis, IsWritten, TakesAsContracted, failed_of, held_on, inner_of, name_of, taken_of};

use crate::event::Event;
use crate::fault::ScriptFault;
use crate::refusal::Refusal;
use crate::tickets::{Key, Tickets};
use crate::tools::Tools;
use crate::watched::Watched;
use cred_book::{BookError, Keeper, Reply, Request};
use cred_phc::{Record, write_record};
use cred_pool::NoGate;
use std::alloc::{AllocError, Global};
use std::io::Write;
use std::sync::Wait;
use std::thread::Threads;

/// The bytes of an answer with its line end. The answers to changes by requests and to refused
/// lines are fixed texts, so such a line can't lack memory for its answer.
#[derive(Drop)]
pub enum AnswerLine {
    Fixed(&'static [u8]),
    Made(Vec<u8>),
}

impl AnswerLine {
    /// Returns the answer to a refused line.
    pub fn bad(why: Refusal) -> AnswerLine
        ensures { line_bytes result ≡ line_of (Refused why) }
    {
        AnswerLine::Fixed(why.line())
    }

    /// Returns the text of a record.
    pub fn shown(alloc: Global, stored: &Record) -> Result<AnswerLine, AllocError>
        ensures { IfOk result (λ line. line_bytes line ≡ line_of (Shown (Some stored.now))) }
    {
        let text = record_line(alloc, stored)?;
        Ok(AnswerLine::Made(text))
    }

    pub fn bytes(&self) -> &[u8]
        ensures { result.now ≡ line_bytes self.now }
    {
        match self {
            AnswerLine::Fixed(bytes) => bytes,
            AnswerLine::Made(bytes) => bytes,
        }
    }

    /// Writes the whole line, or a proper prefix of it if the writer fails.
    pub(crate) fn write_to<W: Write>(self, writer: &mut Watched<W>) -> Result<(), ScriptFault>
        ensures done { (basis : Basis) → OnOk result
            (Appends (held_on basis W.contents writer.old) (held_on basis W.contents writer.new)
            (line_bytes self)) }
        ensures written { IsWritten W.contents writer.old writer.new }
        ensures fails { (basis : Basis) → IfErr result
            (WriteFails (held_on basis W.contents writer.old) (held_on basis W.contents writer.new)
            (line_bytes self) (failed_of writer.new)) }
    {
        match self {
            AnswerLine::Fixed(bytes) => write_whole(writer, bytes),
            AnswerLine::Made(bytes) => write_whole(writer, &bytes),
        }
    }
}

/// Applies the event to the keeper's book and the open tickets. If memory runs out, the book stays
/// as it was.
pub(crate) fn do_event<T: Threads + Wait + Sync, K: Keeper>(
    tools: &Tools<'_, T>,
    keeper: &mut K,
    tickets: &mut Tickets,
    event: Event,
) -> Result<AnswerLine, AllocError>
    requires { IsSound event }
    ensures done { IfOk result (IsDone (step K.capacity (K.book keeper.old) tickets.old event)
        (K.book keeper.new) tickets.new) }
    ensures refused { OnErr result (K.book keeper.new ≡ K.book keeper.old) }
{
    match event {
        Event::Account(name) => match keeper.admit(tools.rt, name) {
            Ok(()) => Ok(AnswerLine::Fixed(b"ok\n")),
            Err(refusal) => refused(refusal),
        },
        Event::Load(name, stored) => match keeper.load(tools.rt, &name, stored) {
            Ok(()) => Ok(AnswerLine::Fixed(b"ok\n")),
            Err(refusal) => refused(refusal),
        },
        Event::Show(name) => match keeper.show(&name) {
            Ok(None) => Ok(AnswerLine::Fixed(b"none\n")),
            Ok(Some(stored)) => AnswerLine::shown(tools.alloc, &stored),
            Err(refusal) => refused(refusal),
        },
        Event::Begin(key, request) => Ok(begin(keeper, tickets, key, request)),
        Event::Commit(key) => commit(tools, keeper, tickets, key),
        Event::Bad(why) => Ok(AnswerLine::bad(why)),
    }
}

fn begin<K: Keeper>(keeper: &K, tickets: &mut Tickets, key: Key, request: Request) -> AnswerLine
    requires { is_for_current request ≡ true }
    ensures { IsDone (begin_step (K.book keeper.now) tickets.old key request)
        (K.book keeper.now) tickets.new result }
{
    if tickets.is_open(key) {
        return AnswerLine::bad(Refusal::Busy);
    }
    match keeper.begin(request) {
        Ok(ticket) => {
            tickets.open(key, ticket);
            AnswerLine::Fixed(b"begun\n")
        }
        Err((_, refusal)) => AnswerLine::bad(Refusal::Book(refusal)),
    }
}

fn commit<T: Threads + Wait + Sync, K: Keeper>(
    tools: &Tools<'_, T>,
    keeper: &mut K,
    tickets: &mut Tickets,
    key: Key,
) -> Result<AnswerLine, AllocError>
    ensures done { IfOk result (IsDone (commit_step (K.book keeper.old) tickets.old key)
        (K.book keeper.new) tickets.new) }
    ensures refused { OnErr result (K.book keeper.new ≡ K.book keeper.old) }
{
    let Some(ticket) = tickets.close(key) else {
        return Ok(AnswerLine::bad(Refusal::Idle));
    };
    let Ok(worked) = ticket.work(tools.rt, tools.alloc, tools.workers, &NoGate) else {
        return Err(AllocError);
    };
    let Ok(reply) = keeper.commit(tools.rt, worked) else {
        return Err(AllocError);
    };
    Ok(AnswerLine::Fixed(reply_line(&reply)))
}

/// Returns the reply's word with the line end. The text is a constant, so that a change needs no
/// memory for its answer.
pub fn reply_line(reply: &Reply) -> &'static [u8]
    ensures { result.now ≡ reply_line reply.now }
{
    match reply {
        Reply::Enrolled => b"enrolled\n",
        Reply::Exists => b"exists\n",
        Reply::Yes => b"yes\n",
        Reply::No => b"no\n",
        Reply::Absent => b"absent\n",
        Reply::Replaced => b"replaced\n",
        Reply::Wrong => b"wrong\n",
        Reply::Upgraded => b"upgraded\n",
        Reply::Kept => b"kept\n",
        Reply::Removed => b"removed\n",
        Reply::Changed { .. } => b"changed\n",
        Reply::NoAccount => b"noaccount\n",
    }
}

fn refused(refusal: BookError) -> Result<AnswerLine, AllocError>
    ensures answer { IfOk result
        (λ line. line_bytes line ≡ line_of (Refused (Refusal.Book refusal))) }
    ensures memory { refusal ≡ BookError.Memory → OnOk result ⊥ }
{
    match refusal {
        BookError::Memory => Err(AllocError),
        _ => Ok(AnswerLine::bad(Refusal::Book(refusal))),
    }
}

/// Returns a record's text with its line end.
pub(crate) fn record_line(alloc: Global, stored: &Record) -> Result<Vec<u8>, AllocError>
    ensures { IfOk result (λ line. line.items ≡ line_of (Shown (Some stored.now))) }
{
    let mut text = write_record(alloc, stored).map_err(|_| AllocError)?;
    text.push(b'\n')?;
    Ok(text)
}

/// Writes all the bytes, in as many calls as the writer needs.
///
/// Errors: `Write` if a call fails, is interrupted or accepts no byte. A proper prefix of the bytes
/// is written then.
pub fn write_whole<W: Write>(writer: &mut Watched<W>, bytes: &[u8]) -> Result<(), ScriptFault>
    ensures done { OnOk result
        (Appends (W.contents (inner_of writer.old)) (W.contents (inner_of writer.new)) bytes.now) }
    ensures named { name_of writer.new ≡ name_of writer.old }
    ensures fails { IfErr result
        (WriteFails (W.contents (inner_of writer.old)) (W.contents (inner_of writer.new)) bytes.now
        (failed_of writer.new)) }
    ensures taken { OnOk result (taken_of writer.new ≡ taken_of writer.old ++ bytes.now) }
    ensures taken_in_part { IfErr result (WriteFails (Some (taken_of writer.old))
        (Some (taken_of writer.new)) bytes.now (failed_of writer.new)) }
    ensures takes { TakesAsContracted W.contents writer.old writer.new }
{
    let mut rest = bytes;
    while !rest.is_empty() {
        let n = writer.write(rest).unwrap_or(0);
        if n == 0 {
            return Err(ScriptFault::Write);
        }
        rest = &rest[n..];
    }
    Ok(())
}
