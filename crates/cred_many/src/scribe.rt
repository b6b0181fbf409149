//! The served book, the open lines, and the writer of their answers.

ghost use Rattle.std.specs.{FinMap.contains_key, List.remove};
ghost use Rattle.std.specs.Prelude.{◌≡◌, ◌↔◌, ℕ, ◌+◌, ◌++◌, [], ◌∷◌, Bool, false, IfSome, IsTrue, is_some, length, None, option_map, Some, true, unwrap_or};
ghost use Rattle.cred_cli.specs.Script.{lines_of};
ghost use Rattle.cred_book.specs.Works.{is_for_current, name_of};
ghost use Rattle.cred_many.specs.{LineOperations.hashed_for, LineOperations.is_reset, Scribe.History, Scribe.IsAnswered, Scribe.IsLooked, Scribe.IsReady, Scribe.moment, Scribe.numbers, Scribe.passed_of, Scribe.unseen, declared.line_operation.LineOperation.TheVariants.Forgive, declared.line_operation.LineOperation.TheVariants.Quick};
ghost use Rattle.cred_tries.specs.Answers.{IsReadBy};
ghost use Rattle.cred_many.specs.{Served.HasCause, Served.Stands, Served.StandsAtEnd, Served.left_of, Served.record_at, Transcript.written_of, Turns.KeepsTurns};

mod commits;
mod groups;
mod job;
mod reading;
mod refusals;

use crate::answer::do_operation;
use crate::ending::{End, MOST_LINES, Served};
use crate::fault::ServiceFault;
use crate::line::Line;
use crate::line_operation::{LineOperation, QuickOperation};
use crate::open::OpenLines;
use crate::output::Output;
use crate::service_id::ServiceId;
use crate::source::Source;
use crate::tries::Tries;
use cred_admin::{AccountReply, Host, account_reply_line};
use cred_book::{Name, Request, Ticket};
use cred_cli::Watched;
use cred_tries::TryLimit;
pub(crate) use job::Message;
pub use job::{Hashed, Job, Starved};
pub use reading::Ending;
pub(crate) use reading::{OfReading, Reading, await_end, read_all};
use std::alloc::Global;
use std::io::Write;
use std::marker::PhantomData;

/// The number of commits that found another record, after which the scribe gives a line up.
const TRIES: u32 = 8;

/// The only book and the only writer of a service.
///
/// Between two calls, the book and the output are those of one list of lines that came. Each line
/// that came is in the list once, unless the line is pending. The service borrows the scribe, and
/// can do no more than the scribe's calls do: they accept lines that came, and their hashed work,
/// each once. No call has a handle by which the call could wait, so each call returns, and keeps
/// its promise.
#[derive(Drop)]
pub struct Scribe<J: ServiceId, K: Host, W: Write> {
    keeper: K,
    output: Output<W>,
    /// The number of lines that came.
    came: u64,
    tries: Tries,
    of: PhantomData<J>,

    ghost history: { ∥ History K.capacity J.service (written_of W.contents output.writer)
        (K.book keeper) output.fault output.pending came tries ∥₁ },
    ghost cause: { (source_failed : Bool) → ∥ HasCause J.service.input
        (moment K.book K.failed W.contents keeper output came tries source_failed)
        output.fault ∥₁ },
}

impl<J: ServiceId, K: Host, W: Write> Scribe<J, K, W> {
    ghost use Rattle.cred_many.specs.Adds.{AddsCounted, AddsNoLine, AddsQuick, answered};

    /// Creates the scribe, before the first line.
    pub fn new(
        alloc: Global,
        keeper: K,
        writer: Watched<W>,
        limit: Option<TryLimit>,
    ) -> Scribe<J, K, W>
        requires opening { K.book keeper ≡ J.service.opening }
        requires before { written_of W.contents writer ≡ J.service.before }
        requires limit { limit ≡ J.service.tries }
        ensures none { answered result [] [] }
        ensures came { result.came ≡ 0 }
    {
        let tries = Tries::new(alloc, limit);
        Scribe {
            keeper,
            output: Output {
                pending: OpenLines::new(alloc),
                writer,
                fault: None,
            },
            came: 0,
            tries,
            of: PhantomData,
        }
    }

    /// The law of every scribe, at each moment between two calls.
    pub fn holds(&self)
        ensures { ∥ Stands K.capacity J.service (moment K.book K.failed W.contents self.now.keeper
            self.now.output self.now.came self.now.tries false) ∥₁ }
    {
        let _came = &self.came;
    }

    /// Whether the scribe answers no more lines.
    pub fn is_over(&self) -> bool
        ensures { result ≡ is_some self.now.output.fault }
    {
        self.output.fault.is_some()
    }

    /// Whether the scribe has answered all lines that came.
    pub fn is_idle(&self) -> bool
        ensures { IsTrue result ↔ (numbers self.now.output.pending ≡ []) }
    {
        self.output.pending.is_empty()
    }

    /// Returns the remains of the service once no more lines come. A pending line is lost.
    pub fn end<S: Source>(mut self, ending: Ending<J, S>) -> Served<K, W, S>
        ensures served { ∥ StandsAtEnd K.capacity J.service
            (left_of K.book K.failed W.contents S.failed result) ∥₁ }
        ensures all { result.fault ≡ None
            → IfSome J.service.input (λ all. result.lines ≡ length (lines_of all)) }
        ensures read { self.output.fault ≡ None → numbers self.output.pending ≡ []
            → IfSome result.source (λ _. result.fault ≡ Some ServiceFault.Read) }
        ensures kept { (result.keeper ≡ self.keeper) × (result.writer ≡ self.output.writer)
            × (result.passed ≡ passed_of self.tries) }
    {
        self.lose_pending();
        match ending.end() {
            End::Whole(lines) => {
                if lines != self.came {
                    return self.left(None, Some(ServiceFault::Lost));
                }
                self.left(None, None)
            }
            End::Failed(source) => self.left(Some(source), Some(ServiceFault::Read)),
            End::TooLong => {
                if self.came < MOST_LINES {
                    return self.left(None, Some(ServiceFault::Lost));
                }
                self.left(None, Some(ServiceFault::TooLong))
            }
            End::Untaken(_) | End::Threads => self.left(None, Some(ServiceFault::Threads)),
            End::Memory => self.left(None, Some(ServiceFault::Memory)),
        }
    }

    /// Notes that a pending line has no answer, unless a fault is noted already.
    fn lose_pending(&mut self)
        ensures idle { self.new.output.fault ≡ None → numbers self.new.output.pending ≡ [] }
        ensures same { numbers self.old.output.pending ≡ []
            → self.new.output.fault ≡ self.old.output.fault }
        ensures came { self.new.came ≡ self.old.came }
        ensures kept { (self.new.keeper ≡ self.old.keeper)
            × (self.new.output.writer ≡ self.old.output.writer)
            × (self.new.tries ≡ self.old.tries) }
    {
        if self.output.fault.is_none() && !self.output.pending.is_empty() {
            self.output.fault = Some(ServiceFault::Lost);
        }
    }

    /// Returns the remains of the service, and the reason why not all lines came.
    fn left<S: Source>(self, source: Option<S>, why: Option<ServiceFault>) -> Served<K, W, S>
        requires idle { self.output.fault ≡ None → numbers self.output.pending ≡ [] }
        requires cause { HasCause J.service.input (moment K.book K.failed W.contents self.keeper
            self.output self.came self.tries (unwrap_or (option_map S.failed source) false)) why }
        ensures served { ∥ StandsAtEnd K.capacity J.service
            (left_of K.book K.failed W.contents S.failed result) ∥₁ }
        ensures lines { result.lines ≡ self.came }
        ensures why { result.fault ≡ None → why ≡ None }
        ensures told { self.output.fault ≡ None → result.fault ≡ why }
        ensures source { result.source ≡ source }
        ensures kept { (result.keeper ≡ self.keeper) × (result.writer ≡ self.output.writer)
            × (result.passed ≡ passed_of self.tries) }
    {
        let Scribe {
            keeper,
            output,
            came: lines,
            tries,
            of: _,
        } = self;
        let Output {
            pending: _pending,
            writer,
            fault,
        } = output;
        Served {
            keeper,
            writer,
            source,
            lines,
            passed: tries.passed(),
            fault: fault.or(why),
        }
    }

    /// Receives a line, at a reading of the clock in seconds, and answers the line unless it needs
    /// a hash. Sends a try that is too early away.
    pub fn take(&mut self, alloc: Global, line: Line<J>, now: u64) -> Option<Job<J>>
        ensures came { line.number ≡ self.old.came → self.new.output.fault ≡ None
            → self.new.came ≡ self.old.came + 1 }
        ensures turn { line.number ≡ self.old.came → self.new.output.fault ≡ None → result ≡ None
            → IsAnswered line.number (numbers self.old.output.pending ++ line.number ∷ [])
            (numbers self.new.output.pending) }
        ensures turns { line.number ≡ self.old.came → self.new.output.fault ≡ None
            → KeepsTurns (self.old.output.pending ++ unseen line.number ∷ [])
            self.new.output.pending }
        ensures line { IfSome result (λ job. job.0 ≡ line) }
        ensures going { self.new.output.fault ≡ None → self.old.output.fault ≡ None }
        ensures clock { IsReadBy now self.old.tries self.new.tries }
        ensures adds { AddsCounted now self.old self.new }
    {
        if self.output.fault.is_some() {
            return None;
        }
        let place = self.admit(&line)?;
        if let Some(seconds) = self.tries.send_away(&line.operation(), now) {
            self.output.answer_later(place, &line, seconds);
            return None;
        }
        match line.operation() {
            LineOperation::Whole(request) => self.job(place, line, request),
            LineOperation::Login(name, pw, setting) => {
                self.job(place, line, Request::Upgrade { name, pw, setting })
            }
            LineOperation::Reset(name, pw, setting) => {
                let ticket = Ticket::new(Request::Enrol { name, pw, setting }, None);
                Some(Job::new(line, ticket))
            }
            LineOperation::Quick(operation) => {
                self.answer_at_once(alloc, place, line, operation);
                None
            }
            LineOperation::Forgive(name) => {
                self.forgive(place, &line, &name);
                None
            }
            LineOperation::Later(..) => unreachable!(),
        }
    }

    /// Opens the next line, and returns its place.
    fn admit(&mut self, line: &Line<J>) -> Option<usize>
        requires { self.old.output.fault ≡ None }
        ensures ready { IfSome result (λ place.
            IsReady self.new.output.fault self.new.output.pending place line.now.number) }
        ensures opened { IfSome result (λ _. self.new.output.pending
            ≡ self.old.output.pending ++ unseen line.now.number ∷ []) }
        ensures came { IfSome result (λ _. self.new.came ≡ self.old.came + 1) }
        ensures last { IfSome result (λ place. place ≡ length self.old.output.pending) }
        ensures next { line.now.number ≡ self.old.came → result ≡ None
            → is_some self.new.output.fault ≡ true }
        ensures same_tries { self.new.tries ≡ self.old.tries }
        ensures book { K.book self.new.keeper ≡ K.book self.old.keeper }
        ensures adds { AddsNoLine self.old self.new }
    {
        let number = line.number();
        let place = self.output.pending.len();
        if number < self.came {
            return None;
        }
        if number != self.came || self.came == u64::MAX {
            self.output.fault = Some(ServiceFault::Lost);
            return None;
        }
        if self.output.pending.push(number).is_err() {
            self.output.fault = Some(ServiceFault::Memory);
            return None;
        }
        self.came += 1;
        Some(place)
    }

    /// Returns the line with a copy of its account's record, unless the line has had too many
    /// copies of other records.
    fn job(&mut self, place: usize, line: Line<J>, request: Request) -> Option<Job<J>>
        requires ready { IsReady self.old.output.fault self.old.output.pending place line.number }
        requires current { is_for_current request ≡ true }
        requires asked { hashed_for line.operation ≡ Some request }
        requires kept { is_reset line.operation ≡ false }
        ensures closed { result ≡ None
            → self.new.output.pending ≡ remove self.old.output.pending place }
        ensures looked { IfSome result (λ _. IsLooked self.old.output.pending place
            (name_of request) (record_at (K.book self.old.keeper) (name_of request))
            self.new.output.pending) }
        ensures line { IfSome result (λ job. job.0 ≡ line) }
        ensures same_came { self.new.came ≡ self.old.came }
        ensures same_tries { self.new.tries ≡ self.old.tries }
        ensures adds { AddsQuick self.old self.new }
    {
        let ticket = ticket_of(&self.keeper, request);
        let changes = self
            .output
            .pending
            .look(place, request.name(), ticket.copy());
        if changes >= TRIES {
            self.give_up_as_busy(place, line);
            return None;
        }
        Some(Job::new(line, ticket))
    }

    /// Does an operation that needs no hash.
    fn answer_at_once(
        &mut self,
        alloc: Global,
        place: usize,
        line: Line<J>,
        operation: QuickOperation,
    )
        requires ready { IsReady self.old.output.fault self.old.output.pending place line.number }
        requires asked { Quick operation ≡ line.operation }
        ensures closed { self.new.output.fault ≡ None
            → self.new.output.pending ≡ remove self.old.output.pending place }
        ensures same_came { self.new.came ≡ self.old.came }
        ensures same_tries { self.new.tries ≡ self.old.tries }
        ensures adds { AddsQuick self.old self.new }
    {
        match do_operation(alloc, &mut self.keeper, operation) {
            Ok(text) => self.output.answer(place, &line, text.bytes()),
            Err(_) => self.refuse(place, line),
        }
    }

    /// Forgives the failed tries at an account, if the book has it.
    fn forgive(&mut self, place: usize, line: &Line<J>, name: &Name)
        requires ready { IsReady self.old.output.fault self.old.output.pending place
            line.now.number }
        requires asked { Forgive name.now ≡ line.now.operation }
        ensures closed { self.new.output.pending ≡ remove self.old.output.pending place }
        ensures same_came { self.new.came ≡ self.old.came }
        ensures clock { (now : ℕ) → IsReadBy now self.old.tries self.new.tries }
        ensures adds { (now : ℕ) → AddsCounted now self.old self.new }
    {
        if self.has_account(name) {
            self.tries.forgive(name);
            self.output.answer(place, line, b"forgiven\n");
            return;
        }
        let answer = account_reply_line(AccountReply::NoAccount);
        self.output.answer(place, line, answer);
    }

    fn has_account(&self, name: &Name) -> bool
        ensures { result ≡ contains_key (K.book self.now.keeper).accounts name.now }
    {
        self.keeper.accounts().contains(name)
    }
}

/// Returns the request with a copy of its account's record. A try at an unknown name is hashed like
/// one at an account without a record, and its commit says that no such account exists.
fn ticket_of<K: Host>(keeper: &K, request: Request) -> Ticket
    requires { is_for_current request ≡ true }
    ensures request { result.0 ≡ request }
    ensures copy { result.1 ≡ record_at (K.book keeper.now) (name_of request) }
{
    match keeper.accounts().begin(request) {
        Ok(ticket) => ticket,
        Err((request, _)) => Ticket::new(request, None),
    }
}
