//! One step at a kept desk, and its answer.

use super::writer::{Log, Refused};
use cred_book::{Name, Reply, Request, Ticket, Worked};
use cred_desk::{DeskError, KeepError, KeptDesk, Naming, Session, Told};
use cred_phc::Record;
use cred_pool::NoGate;
use std::alloc::Global;
use std::marker::Model;
use std::sync::Wait;
use std::thread::Threads;

/// The step of a session.
#[derive(Clone, Copy)]
pub(super) enum Step {
    Admit(Name),
    Load(Name, Record),
    Delete(Name),
    /// Begins a request, works its ticket and settles it, or closes it if it is a verify.
    Operate(Request),
    /// Begins a request, and holds the ticket.
    Begin(Request),
    /// Reads the record that the ticket copied.
    Read,
    /// Works the ticket and settles it.
    Settle,
    /// Works the ticket and closes it, as a verify.
    Close,
    /// Learns the first list that other sessions handed on.
    Learn,
    /// Hears from the desk the list that the session at this place knows.
    Hear(usize),
}

/// The answer to a step.
#[derive(Clone, Copy, Debug, PartialEq, Eq)]
pub(super) enum Answer {
    Done,
    Copied(Option<Record>),
    Replied(Reply),
    /// The number of entries that the session was told of.
    Told(u64),
    /// The desk refused a request or a work, which came back.
    Refused(DeskError),
    /// There was no ticket, or no memory for a value that isn't the desk's.
    Failed,
}

/// An answer, and what the session was told with it.
pub(super) type Taken<J> = Result<(Answer, Option<Told<J>>), KeepError<Refused>>;

/// Begins the request, and puts the ticket into `open`.
pub(super) fn begin<J: Naming>(
    session: &mut Session<J>,
    open: &mut Option<Ticket>,
    request: Request,
) -> Answer {
    if !request.is_for_current() {
        return Answer::Failed;
    }
    match session.begin(request) {
        Ok(ticket) => {
            *open = Some(ticket);
            Answer::Done
        }
        Err((back, error)) if back == request => Answer::Refused(error),
        Err(_) => Answer::Failed,
    }
}

/// Returns the record that the ticket copied.
pub(super) fn read(open: &Option<Ticket>) -> Answer {
    match open {
        Some(ticket) => Answer::Copied(ticket.copy()),
        None => Answer::Failed,
    }
}

/// Returns the work of the ticket; none if there is no memory or no ticket.
pub(super) fn worked<R: Threads + Sync>(
    rt: &R,
    alloc: Global,
    open: &mut Option<Ticket>,
) -> Option<Worked> {
    open.take()?.work(rt, alloc, 1, &NoGate).ok()
}

/// Returns the work of a request that the session begins.
pub(super) fn work_of<J: Naming, R: Threads + Sync>(
    rt: &R,
    alloc: Global,
    session: &mut Session<J>,
    request: Request,
) -> Option<Worked> {
    let mut open = None;
    begin(session, &mut open, request);
    worked(rt, alloc, &mut open)
}

/// Closes the work of a verify.
pub(super) fn close<J: Naming>(session: &mut Session<J>, work: Option<Worked>) -> Answer {
    let Some(work) = work else {
        return Answer::Failed;
    };
    let Ok(work) = work.into_verify() else {
        return Answer::Failed;
    };
    match session.close_verify(work) {
        Ok(reply) => Answer::Replied(reply),
        Err((_, error)) => Answer::Refused(error),
    }
}

/// The values that sessions of a kept desk share.
#[derive(Drop)]
pub(super) struct Floor<'a, J: Naming, R: Wait> {
    pub(super) rt: &'a R,
    pub(super) alloc: Global,
    pub(super) desk: &'a KeptDesk<J, Log>,
}

/// Sessions admit and delete names while others log in.
impl<'a, J: Naming, R: Wait> Model for Floor<'a, J, R> {
    ghost use Rattle.std.specs.Prelude.{◌≡◌, true};

    ghost Value = { Unit {0} };

    ghost view = { λ _. tt };

    ghost invariant = { λ _. J.loads ≡ true };
}

impl<'a, J: Naming, R: Threads + Wait + Sync> Floor<'a, J, R> {
    /// Takes a step of one session alone.
    pub(super) fn take(
        &self,
        session: &mut Session<J>,
        open: &mut Option<Ticket>,
        step: Step,
    ) -> Taken<J> {
        match step {
            Step::Admit(name) => added(self.desk.admit(self.rt, session, name)),
            Step::Load(name, record) => added(self.desk.load(self.rt, session, name, record)),
            Step::Delete(name) => added(self.desk.delete(self.rt, session, name)),
            Step::Begin(request) => Ok((begin(session, open, request), None)),
            Step::Operate(request) => self.operate(session, open, request),
            Step::Read => Ok((read(open), None)),
            Step::Settle => self.settle(session, open),
            Step::Close => Ok((self.close(session, open), None)),
            Step::Learn | Step::Hear(_) => Ok((Answer::Failed, None)),
        }
    }

    fn operate(
        &self,
        session: &mut Session<J>,
        open: &mut Option<Ticket>,
        request: Request,
    ) -> Taken<J> {
        let is_verify = matches!(&request, Request::Verify { .. });
        let begun = begin(session, open, request);
        if begun != Answer::Done {
            return Ok((begun, None));
        }
        if is_verify {
            return Ok((self.close(session, open), None));
        }
        self.settle(session, open)
    }

    fn close(&self, session: &mut Session<J>, open: &mut Option<Ticket>) -> Answer {
        close(session, worked(self.rt, self.alloc, open))
    }

    fn settle(&self, session: &mut Session<J>, open: &mut Option<Ticket>) -> Taken<J> {
        let Some(work) = worked(self.rt, self.alloc, open) else {
            return Ok((Answer::Failed, None));
        };
        match self.desk.settle(self.rt, session, work) {
            Ok((reply, told)) => Ok((Answer::Replied(reply), Some(told))),
            Err(unsettled) => Err(unsettled.error),
        }
    }

    /// Has the desk tell a session the list that another one, or the session itself, knows.
    pub(super) fn tell(&self, session: &mut Session<J>, known: &Told<J>) -> Answer {
        let told = self.desk.tell(self.rt, session, &known.heard());
        Answer::Told(told.len())
    }
}

fn added<J: Naming>(told: Result<Told<J>, KeepError<Refused>>) -> Taken<J> {
    Ok((Answer::Done, Some(told?)))
}
