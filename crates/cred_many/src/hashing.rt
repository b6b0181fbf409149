//! The threads that hash.

ghost use Rattle.std.specs.Prelude.{◌≡◌};
ghost use Rattle.cred_many.specs.{Costs.compared_memory, Costs.job_memory, Costs.made_memory, Scribe.IsOf};

use crate::budget::{Budget, Idle, Limit};
use crate::costs::Costs;
use crate::inbox::WorkerEnd;
use crate::scribe::{Job, Message};
use crate::service_id::ServiceId;
use cred_book::{Request, Ticket};
use cred_cli::memory_alone;
use cred_phc::{Record, Scratch};
use crossbeam_channel::Receiver;
use std::alloc::Global;
use std::sync::Wait;

/// The tools of the threads that hash.
#[derive(Drop)]
pub(crate) struct Hashing<L: Limit> {
    pub(crate) alloc: Global,
    pub(crate) costs: Costs,
    pub(crate) budget: Budget<L>,
}

impl<L: Limit> Hashing<L> {
    /// Hashes jobs as long as they come. The thread keeps its memory from one hash to the next, up
    /// to what new records need.
    #[tactic(auto, using(crate::proofs::Inboxes::is_report))]
    pub(crate) fn work<J: ServiceId, T: Wait>(
        &self,
        rt: &T,
        jobs: Receiver<Job<J>>,
        book: WorkerEnd<J>,
        idle: Idle<L>,
    ) {
        let most = u32::try_from(self.costs.memory()).unwrap_or(u32::MAX);
        let mut scratch = Scratch::new(self.alloc, most);
        let mut book = book;
        let mut idle = idle;
        for _ in rt.forever() {
            let Ok(job) = jobs.recv(rt) else {
                return;
            };
            let (message, back) = self.hashed(rt, &mut scratch, job, idle);
            idle = back;
            if book.report(rt, message).is_err() {
                return;
            }
        }
    }

    /// Hashes a job once the memory for its hashes is free.
    fn hashed<J: ServiceId, T: Wait>(
        &self,
        rt: &T,
        scratch: &mut Scratch,
        job: Job<J>,
        idle: Idle<L>,
    ) -> (Message<J>, Idle<L>)
        ensures { IsOf job.0 result.0 }
    {
        match self.budget.take(rt, idle, self.memory_of(job.ticket())) {
            Ok(taken) => {
                let message = job.work(scratch, self.alloc, &self.costs, &taken);
                (message, self.budget.give_back(rt, taken))
            }
            Err(idle) => {
                let starved = job.too_large(&self.budget, &self.costs);
                (Message::NoMemory(starved), idle)
            }
        }
    }

    /// Returns the memory of a ticket's hashes, one after another, in KiB.
    fn memory_of(&self, ticket: &Ticket) -> u64
        ensures { result ≡ job_memory self.now.costs ticket.now }
    {
        self.compared_memory(ticket.copy())
            .max(made_memory(&ticket.request()))
    }

    /// Returns the memory of a comparison with this record in KiB.
    fn compared_memory(&self, copy: Option<Record>) -> u64
        ensures { result ≡ compared_memory self.now.costs copy }
    {
        match copy {
            Some(stored) => memory_alone(&stored.setting()),
            None => self.costs.memory(),
        }
    }
}

/// Returns the memory of the hash for the record that a request may make, in KiB.
fn made_memory(request: &Request) -> u64
    ensures { result ≡ made_memory request.now }
{
    match *request {
        Request::Verify { .. } | Request::Remove { .. } => 0,
        Request::Enrol { setting, .. }
        | Request::Change { setting, .. }
        | Request::Upgrade { setting, .. } => memory_alone(&setting),
    }
}
