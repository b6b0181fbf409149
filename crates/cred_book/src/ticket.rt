//! An operation between its begin and its commit: the request with a copy of its account's record,
//! then its effect at the copy, and the test whether the record still equals the copy.

ghost use Rattle.std.specs.Prelude.{◌≡◌, ◌↔◌, IfErr, IfOk, IsTrue, Option, true, false};
ghost use Rattle.cred_phc.specs.Values.{RecordValue};
ghost use Rattle.cred_book.specs.{Changes.change_of, Commits.judgement_at, Works.is_verify, Works.same, Works.whole};

use crate::outcome::{Hashing, HashingIn, Operations, Outcome};
use crate::request::{Change, Reply, Request};
use cred_phc::{Record, Scratch, TagError};
use cred_pool::Gate;
use std::alloc::Global;
use std::cell::Cell;
use std::marker::Model;
use std::mem;
use std::thread::Threads;

/// A request, with a copy of its account's record as it was when the request began.
#[derive(Debug, Drop)]
pub struct Ticket {
    request: Request,
    copy: Option<Record>,
}

impl Model for Ticket {
    ghost use Rattle.cred_book.specs.Works.{Task};

    ghost Value = { Task };

    ghost view = { λ t. (t.request, t.copy) };
}

impl Ticket {
    /// Returns a ticket for a store other than a [`Book`](crate::Book). A copy that was never the
    /// account's record does no harm, since the commit compares the copy with the record.
    pub fn new(request: Request, copy: Option<Record>) -> Ticket
        ensures { result ≡ (request, copy) }
    {
        Ticket { request, copy }
    }

    /// Returns the request.
    pub fn request(&self) -> Request
        ensures { result ≡ self.now.0 }
    {
        self.request
    }

    /// Returns the copy: the account's record when the request began, if it had one.
    pub fn copy(&self) -> Option<Record>
        ensures { result ≡ self.now.1 }
    {
        self.copy
    }

    /// Hashes the passwords, with no lock held, in at most `workers` threads.
    ///
    /// Errors: the ticket comes back if memory runs out.
    pub fn work<R: Threads + Sync, G: Gate + Sync>(
        self,
        rt: &R,
        alloc: Global,
        workers: u8,
        gate: &G,
    ) -> Result<Worked, Ticket>
        ensures worked { IfOk result (λ worked. worked ≡ self) }
        ensures back { IfErr result (λ ticket. ticket ≡ self) }
    {
        let hashing = Hashing {
            rt,
            alloc,
            workers,
            gate,
        };
        let outcome = hashing.outcome(&self);
        self.worked(outcome)
    }

    /// Hashes the passwords on the caller's thread, without a runtime, in memory that the scratch
    /// keeps from hash to hash.
    ///
    /// Errors: the ticket comes back if memory runs out. The scratch can still serve the next
    /// ticket.
    pub fn work_in<G: Gate>(
        self,
        scratch: &mut Scratch,
        alloc: Global,
        gate: &G,
    ) -> Result<Worked, Ticket>
        ensures worked { IfOk result (λ worked. worked ≡ self) }
        ensures back { IfErr result (λ ticket. ticket ≡ self) }
    {
        let kept = mem::replace(scratch, Scratch::new(alloc, 0));
        let maker = HashingIn {
            alloc,
            gate,
            scratch: Cell::new(kept),
        };
        let operations = Operations { maker };
        let outcome = operations.outcome(&self);
        *scratch = operations.maker.scratch.into_inner();
        self.worked(outcome)
    }

    /// Returns the ticket with the effect of its operation at the copy, or the ticket alone if
    /// hashing failed.
    fn worked(self, outcome: Result<Outcome, TagError>) -> Result<Worked, Ticket>
        requires { IfOk outcome (λ outcome. outcome ≡ whole self.0 self.1) }
        ensures worked { IfOk result (λ worked. worked ≡ self) }
        ensures back { IfErr result (λ ticket. ticket ≡ self) }
    {
        match outcome {
            Ok((reply, after)) => Ok(Worked {
                ticket: self,
                reply,
                after,
            }),
            Err(_) => Err(self),
        }
    }
}

/// A ticket whose hashing is done: the effect of the whole operation at the copy.
#[derive(Debug, Drop)]
pub struct Worked {
    ticket: Ticket,
    reply: Reply,
    after: Option<Record>,
}

impl Model for Worked {
    ghost use Rattle.std.specs.Prelude.{◌≡◌};
    ghost use Rattle.cred_book.specs.Works.{Task, whole};

    ghost Value = { Task };

    ghost view = { λ w. w.ticket };

    ghost invariant = { λ w. whole w.ticket.0 w.ticket.1 ≡ (w.reply, w.after) };
}

impl Worked {
    /// Returns the request.
    pub fn request(&self) -> Request
        ensures { result ≡ self.now.0 }
    {
        self.ticket.request()
    }

    /// Returns the copy: the account's record when the request began, if it had one.
    pub fn copy(&self) -> Option<Record>
        ensures { result ≡ self.now.1 }
    {
        self.ticket.copy()
    }

    /// Returns the reply at the copy.
    pub fn reply(&self) -> Reply
        ensures { result ≡ (whole self.now.0 self.now.1).0 }
    {
        self.reply
    }

    /// Returns the record after the operation at the copy, if there is one.
    pub fn after(&self) -> Option<Record>
        ensures { result ≡ (whole self.now.0 self.now.1).1 }
    {
        self.after
    }

    /// Returns the reply to a commit at an account with the record `now`, the record after it, and
    /// whether the commit is a change.
    pub(crate) fn judgement_at(&self, now: Option<Record>) -> (Reply, Option<Record>, bool)
        ensures { result ≡ judgement_at self.now (Some now) }
    {
        if !is_same(&now, &self.copy()) {
            return (Reply::Changed { now }, now, false);
        }
        let reply = self.reply();
        (reply, self.after(), reply.makes_change())
    }

    /// Returns the change that a commit of this work makes, or `None` if it makes none even at the
    /// copied record. A commit that finds another record makes no change.
    #[tactic(auto, unfolding(crate::specs::Changes::change_of))]
    pub fn change(&self) -> Option<Change>
        ensures { result ≡ change_of self.now }
    {
        let (reply, after) = (self.reply(), self.after());
        if !reply.makes_change() {
            return None;
        }
        let name = self.request().name();
        Some(Change { name, after, reply })
    }

    /// Returns the same work as the work of a verify.
    ///
    /// Errors: the work comes back if it is the work of another operation.
    pub fn into_verify(self) -> Result<VerifyWorked, Worked>
        ensures verify { IfOk result (λ verify. (verify ≡ self) × (is_verify self.0 ≡ true)) }
        ensures other { IfErr result (λ back. (back ≡ self) × (is_verify self.0 ≡ false)) }
    {
        match self.ticket.request {
            Request::Verify { .. } => Ok(VerifyWorked { worked: self }),
            Request::Enrol { .. }
            | Request::Change { .. }
            | Request::Upgrade { .. }
            | Request::Remove { .. } => Err(self),
        }
    }
}

/// The work of a verify, which changes nothing when it is committed.
#[derive(Debug, Drop)]
pub struct VerifyWorked {
    worked: Worked,
}

impl Model for VerifyWorked {
    ghost use Rattle.std.specs.Prelude.{◌≡◌, true};
    ghost use Rattle.cred_book.specs.Works.{Task, is_verify};

    ghost Value = { Task };

    ghost view = { λ v. v.worked };

    ghost invariant = { λ v. is_verify v.worked.0 ≡ true };
}

impl VerifyWorked {
    /// Returns the work itself.
    pub fn worked(&self) -> &Worked
        ensures worked { result.now ≡ self.now }
        ensures verify { is_verify self.now.0 ≡ true }
    {
        &self.worked
    }
}

/// Whether all parts of the two records are equal, or both are none.
pub(crate) fn is_same(a: &Option<Record>, b: &Option<Record>) -> bool
    ensures { result ≡ same a.now b.now }
{
    is_equal(a, b)
}

fn is_equal(a: &Option<Record>, b: &Option<Record>) -> bool
    ensures { IsTrue result ↔ (a.now ≡ b.now) }
{
    *a == *b
}

/// States a law: the test by which definitions compare records is equality.
pub fn same_is_equality()
    ensures { (a b : Option RecordValue) → (same a b ≡ true) ↔ (a ≡ b) }
{}
