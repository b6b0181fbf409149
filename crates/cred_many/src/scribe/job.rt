//! The messages between the thread with the book and the threads that hash and read.

ghost use Rattle.std.specs.Prelude.{◌≡◌, ◌<◌, ◌≤◌};
ghost use Rattle.cred_cli.specs.Costs.{memory_alone};
ghost use Rattle.cred_many.specs.{LineOperations.IsJobOf, Costs.Covers, Costs.job_memory, Costs.made_memory, Scribe.IsOf};

use crate::budget::{Budget, Limit, Taken};
use crate::costs::{Costs, NO_SALT};
use crate::line::Line;
use crate::service_id::ServiceId;
use cred_book::{Request, Ticket, Worked};
use cred_phc::{Password, Scheme, Scratch, Setting, TagError, tag_in};
use cred_pool::NoGate;
use std::alloc::Global;
use std::marker::Model;

/// The length of the tag of a new record in bytes.
const NEW_TAG: u8 = 32;

/// A line with its ticket, which is to be hashed. Only the scribe builds a job.
#[derive(Drop)]
pub struct Job<J: ServiceId> {
    line: Line<J>,
    ticket: Ticket,
}

impl<J: ServiceId> Model for Job<J> {
    ghost use Rattle.cred_book.specs.Works.{Task};
    ghost use Rattle.cred_many.specs.LineOperations.{Entry, IsJobOf};

    ghost Value = { Entry × Task };

    ghost view = { λ j. (j.line, j.ticket) };

    ghost invariant = { λ j. IsJobOf j.line.operation j.ticket };
}

/// A line whose hashing is done. Only [`Job::work`] builds such a value, so each of its hashes had
/// a share.
#[derive(Drop)]
pub struct Hashed<J: ServiceId> {
    line: Line<J>,
    worked: Worked,
}

impl<J: ServiceId> Model for Hashed<J> {
    ghost use Rattle.cred_book.specs.Works.{Task};
    ghost use Rattle.cred_many.specs.LineOperations.{Entry, IsJobOf};

    ghost Value = { Entry × Task };

    ghost view = { λ h. (h.line, h.worked) };

    ghost invariant = { λ h. IsJobOf h.line.operation h.worked };
}

/// A line without memory for its hash. A job ends as this value if the allocator refuses memory to
/// its hash, or if the hash needs more than the limit for all hashes.
#[derive(Drop)]
pub struct Starved<J: ServiceId> {
    job: Job<J>,
}

impl<J: ServiceId> Model for Starved<J> {
    ghost use Rattle.cred_book.specs.Works.{Task};
    ghost use Rattle.cred_many.specs.LineOperations.{Entry};

    ghost Value = { Entry × Task };

    ghost view = { λ s. s.job };
}

/// A message to the thread that has the book.
#[derive(Drop)]
pub(crate) enum Message<J: ServiceId> {
    /// A line came.
    Came(Line<J>),
    /// A line is hashed.
    Hashed(Hashed<J>),
    /// Memory to hash a line ran out.
    NoMemory(Starved<J>),
    /// No more lines come.
    Ended,
}

impl<J: ServiceId> Job<J> {
    /// Joins a line with the ticket that is to be hashed for it.
    pub(super) fn new(line: Line<J>, ticket: Ticket) -> Job<J>
        requires { IsJobOf line.operation ticket }
        ensures line { result.0 ≡ line }
        ensures ticket { result.1 ≡ ticket }
    {
        Job { line, ticket }
    }

    /// Returns the ticket that is to be hashed.
    pub(crate) fn ticket(&self) -> &Ticket
        ensures { result.now ≡ self.now.1 }
    {
        &self.ticket
    }

    /// Returns the job as one without memory, since its hashes need more than the whole budget.
    pub(crate) fn too_large<L: Limit>(self, _budget: &Budget<L>, _costs: &Costs) -> Starved<J>
        requires { _budget.now.total < job_memory _costs.now self.1 }
        ensures { result.0 ≡ self.0 }
    {
        Starved { job: self }
    }

    /// Hashes a job on this thread alone, in the thread's memory, within the reserved share. A try
    /// at a name that doesn't exist, or at an account without a record, gets its hashes too.
    #[tactic(auto, using(crate::proofs::Shares::covered))]
    pub(crate) fn work<L: Limit>(
        self,
        scratch: &mut Scratch,
        alloc: Global,
        costs: &Costs,
        taken: &Taken<L>,
    ) -> Message<J>
        requires { job_memory costs.now self.1 ≤ taken.now.kib }
        ensures { IsOf self.0 result }
    {
        if self.ticket.copy().is_none() {
            let request = self.ticket.request();
            if hash_in_vain(scratch, alloc, costs, &request, taken).is_err() {
                return Message::NoMemory(Starved { job: self });
            }
        }
        self.work_ticket(scratch, alloc, taken)
    }

    fn work_ticket<L: Limit>(
        self,
        scratch: &mut Scratch,
        alloc: Global,
        taken: &Taken<L>,
    ) -> Message<J>
        requires { Covers taken.now.kib self.1 }
        ensures { IsOf self.0 result }
    {
        let Job { line, ticket } = self;
        match ticket.work_in(scratch, alloc, &NoGate) {
            Ok(worked) => Message::Hashed(Hashed::new(line, worked)),
            Err(ticket) => Message::NoMemory(Starved {
                job: Job::new(line, ticket),
            }),
        }
    }
}

/// Computes the hashes that a wrong password takes at an account whose record has the costs of new
/// records, so that the time doesn't tell which names exist.
fn hash_in_vain<L: Limit>(
    scratch: &mut Scratch,
    alloc: Global,
    costs: &Costs,
    request: &Request,
    taken: &Taken<L>,
) -> Result<(), TagError>
    requires compared { memory_alone costs.now ≤ taken.now.kib }
    requires made { made_memory request.now ≤ taken.now.kib }
{
    let Some(pw) = compared(request) else {
        return Ok(());
    };
    let compared = costs.setting(&NO_SALT);
    tag_in(scratch, alloc, &NoGate, &compared, NEW_TAG, pw.bytes())?;
    if let Some((setting, new_pw)) = made(request, &costs.scheme()) {
        tag_in(scratch, alloc, &NoGate, &setting, NEW_TAG, new_pw.bytes())?;
    }
    Ok(())
}

/// Returns the password that is compared with a record, if any.
fn compared(request: &Request) -> Option<Password> {
    match *request {
        Request::Enrol { .. } => None,
        Request::Verify { pw, .. }
        | Request::Change { pw, .. }
        | Request::Upgrade { pw, .. }
        | Request::Remove { pw, .. } => Some(pw),
    }
}

/// Returns the setting and the password of the record that replaces one with these costs, if any.
fn made(request: &Request, costs: &Scheme) -> Option<(Setting, Password)> {
    match *request {
        Request::Change {
            new_pw,
            setting,
            ..
        } => Some((setting, new_pw)),
        Request::Upgrade { pw, setting, .. } if setting.scheme() != *costs => Some((setting, pw)),
        Request::Enrol { .. }
        | Request::Verify { .. }
        | Request::Upgrade { .. }
        | Request::Remove { .. } => None,
    }
}

impl<J: ServiceId> Hashed<J> {
    fn new(line: Line<J>, worked: Worked) -> Hashed<J>
        requires { IsJobOf line.operation worked }
        ensures { result.0 ≡ line }
    {
        Hashed { line, worked }
    }

    /// Returns the line.
    pub(crate) fn line(&self) -> &Line<J>
        ensures line { result.now ≡ self.now.0 }
        ensures asked { IsJobOf self.now.0.operation self.now.1 }
    {
        &self.line
    }

    /// Returns the result of its hashes.
    pub(crate) fn worked(&self) -> &Worked
        ensures { result.now ≡ self.now.1 }
    {
        &self.worked
    }

    /// Returns the line with the result of its hashes.
    pub(super) fn into_parts(self) -> (Line<J>, Worked)
        ensures line { result.0 ≡ self.0 }
        ensures worked { result.1 ≡ self.1 }
        ensures asked { IsJobOf result.0.operation result.1 }
    {
        let Hashed { line, worked } = self;
        (line, worked)
    }
}

impl<J: ServiceId> Starved<J> {
    /// Returns the line.
    pub(super) fn into_line(self) -> Line<J>
        ensures { result ≡ self.0 }
    {
        let Starved { job } = self;
        let Job { line, .. } = job;
        line
    }
}
