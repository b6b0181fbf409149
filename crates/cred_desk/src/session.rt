//! A reader of the published book in a thread of its own, with no lock.

ghost use Rattle.std.specs.Prelude.{◌≡◌, ◌+◌, ◌<◌, ◌^◌, [], IfSome, MatchBool, false, true};
ghost use mathlib.Core.List.{IsPrefix};
ghost use Rattle.cred_book.specs.{Commits.Begins, Works.is_for_current};
ghost use Rattle.cred_desk.specs.{Commits.reply_of, Histories.IsListed, Histories.after};
ghost use Rattle.cred_desk.specs.Standing.{BeginsAt, ClosesAt, IsNew, IsUncounted};
ghost use Rattle.grow_log.specs.Beginnings.{IsLonger};

use crate::error::DeskError;
use crate::list::Front;
use crate::naming::Naming;
use crate::published::{BookReader, Sees};
use crate::told::Told;
use core::mem::replace_with;
use cred_book::{BookError, Reply, Request, Ticket, VerifyWorked};
use std::fmt;
use std::marker::Model;
use std::sync::ledger::{Book as Total, Share};

/// Begins requests and closes verifies at the published book, in any thread. A session reads no
/// older book than one that it has read or was told of.
///
/// Contracts see a session as the list of entries that it knows, the number of changes that its
/// settles made, and the number of entries that it added (admissions, loads and deletions).
#[derive(Drop)]
pub struct Session<J: Naming> {
    reader: BookReader<J>,
    known: Front<J>,
    settled: u64,
    added: u64,
    /// The share of the desk's entries that this session made.
    share: Share<J>,
}

impl<J: Naming> Model for Session<J> {
    ghost use Rattle.std.specs.Prelude.{◌≡◌, ◌+◌, false};
    ghost use Rattle.cred_desk.specs.Histories.{IsListed};
    ghost use Rattle.cred_desk.specs.Standing.{Standing};

    ghost Value = { Standing };

    ghost view = { λ s. record { known = s.known; count = s.settled; additions = s.added } };

    ghost invariant = { λ s. record {
      known_is_listed : IsListed J.loads J.opening s.known;
      one_part : s.share.parts ≡ 1;
      all_shared : s.share.amount ≡ s.settled + s.added;
      additions_allowed : J.loads ≡ false → s.added ≡ 0;
    } };
}

impl<J: Naming> fmt::Debug for Session<J> {
    fn fmt<W: fmt::Write>(&self, f: &mut fmt::Formatter<W>) -> fmt::Result {
        write!(
            f,
            "Session {{ known: {}, settled: {}, added: {} }}",
            self.known.len(),
            self.settled,
            self.added
        )
    }
}

impl<J: Naming> Session<J> {
    /// Returns a session that knows nothing and has settled nothing.
    pub(crate) fn new(reader: BookReader<J>, known: Front<J>, share: Share<J>) -> Session<J>
        requires known { known ≡ [] }
        requires share { (share.parts ≡ 1) × (share.amount ≡ 0) }
        ensures { IsNew result }
    {
        Session {
            reader,
            known,
            settled: 0,
            added: 0,
            share,
        }
    }

    /// Returns the list that the session knows, for others to learn.
    pub fn told(&self) -> Told<J>
        ensures { result ≡ self.now.known }
    {
        Told::new(self.known.again())
    }

    /// Returns the list that the session knows.
    pub(crate) fn known(&self) -> &Front<J>
        ensures { result.now ≡ self.now.known }
    {
        &self.known
    }

    /// Counts a change that the session made.
    pub(crate) fn count_change(&mut self, total: &mut Total<J>)
        requires { total.old.total + 1 < 2 ^ 64 }
        ensures total { total.new.total ≡ total.old.total + 1 }
        ensures count { self.new.count ≡ self.old.count + 1 }
        ensures additions { self.new.additions ≡ self.old.additions }
        ensures known { self.new.known ≡ self.old.known }
    {
        total.add(&mut self.share, 1);
        total.audit(&mut self.share);
        self.settled += 1;
    }

    /// Counts an entry that the session added.
    pub(crate) fn count_addition(&mut self, total: &mut Total<J>)
        requires room { total.old.total + 1 < 2 ^ 64 }
        requires loads { J.loads ≡ true }
        ensures total { total.new.total ≡ total.old.total + 1 }
        ensures count { self.new.count ≡ self.old.count }
        ensures additions { self.new.additions ≡ self.old.additions + 1 }
        ensures known { self.new.known ≡ self.old.known }
    {
        total.add(&mut self.share, 1);
        total.audit(&mut self.share);
        self.added += 1;
    }

    /// Returns the number of changes that the session settled.
    pub fn count(&self) -> u64
        ensures { result ≡ self.now.count }
    {
        self.settled
    }

    /// Returns the number of entries that the session added: admissions, loads and deletions.
    pub fn additions(&self) -> u64
        ensures additions { result ≡ self.now.additions }
        ensures allowed { J.loads ≡ false → result ≡ 0 }
    {
        self.added
    }

    /// Returns the part of the total that the session counted, and how much that is.
    pub(crate) fn into_share(self, total: &mut Total<J>) -> (Share<J>, u64)
        requires { total.old.total < 2 ^ 64 }
        ensures parts { result.0.parts ≡ 1 }
        ensures amount { result.0.amount ≡ self.count + self.additions }
        ensures made { result.1 ≡ self.count + self.additions }
        ensures total { total.new.total ≡ total.old.total }
    {
        let Session {
            reader: _,
            known: _,
            settled,
            added,
            mut share,
        } = self;
        total.audit(&mut share);
        (share, settled + added)
    }

    /// Copies the record of the request's account from the published book into a ticket. The
    /// session knows that book's list from then on. A setting in the request must not be of version
    /// 0x10 (`Request::is_for_current`).
    ///
    /// Errors: `NoAccount` if the book doesn't have the name; `Reader` if there is no book to read,
    /// as may be once its desk or committer has ended; `Older` if the book that was read is older
    /// than what the session knows. `Older` never occurs: a desk shows a book before it tells
    /// anybody of it. After `Reader` and `Older` nothing changes. The request comes back.
    ///
    /// The ticket doesn't name the session. If another session that knows less closes its work, the
    /// answer may be `Changed` with an older record than the ticket's.
    pub fn begin(&mut self, request: Request) -> Result<Ticket, (Request, DeskError)>
        requires { is_for_current request ≡ true }
        ensures known { IsPrefix self.old.known self.new.known }
        ensures listed { IsListed J.loads J.opening self.new.known }
        ensures count { IsUncounted self.old self.new }
        ensures done { BeginsAt (after J.opening self.new.known) self.old self.new request result }
    {
        let found = replace_with(
            &mut self.reader,
            &request,
            |reader, request| begin_in(reader, request),
        );
        let Some((front, begun)) = found else {
            return Err((request, DeskError::Reader));
        };
        if !self.know(front) {
            return Err((request, DeskError::Older));
        }
        begun.map_err(|(request, _)| (request, DeskError::NoAccount))
    }

    /// Returns the answer of the verify's commit at the published book, whose list the session
    /// knows from then on.
    ///
    /// The session judges the work of another session's ticket like any other, at the book that it
    /// reads.
    ///
    /// Errors: `Reader` if there is no book to read, as may be once its desk or committer has
    /// ended; `Older` if the book that was read is older than what the session knows, which never
    /// occurs. Nothing changes then, and the work comes back.
    pub fn close_verify(&mut self, work: VerifyWorked) -> Result<Reply, (VerifyWorked, DeskError)>
        ensures known { IsPrefix self.old.known self.new.known }
        ensures listed { IsListed J.loads J.opening self.new.known }
        ensures count { IsUncounted self.old self.new }
        ensures done { ClosesAt (after J.opening self.new.known) self.old self.new work result }
    {
        let found = replace_with(
            &mut self.reader,
            &work,
            |reader, work| judge_in(reader, work),
        );
        let Some((front, reply)) = found else {
            return Err((work, DeskError::Reader));
        };
        if !self.know(front) {
            return Err((work, DeskError::Older));
        }
        Ok(reply)
    }

    /// Learns what was told: from then on the session knows this beside what it knew.
    #[tactic(auto, using(crate::proofs::Lists::longer_ends))]
    pub fn learn(&mut self, told: &Told<J>)
        ensures mine { IsPrefix self.old.known self.new.known }
        ensures told { IsPrefix told.now self.new.known }
        ensures whole { IsPrefix self.old.known told.now → self.new.known ≡ told.now }
        ensures count { IsUncounted self.old self.new }
    {
        self.know(told.front().again());
    }

    /// Makes this list the known one if it begins with the list that was known. Otherwise the known
    /// list goes on after this one.
    fn know(&mut self, list: Front<J>) -> bool
        ensures known { MatchBool result (self.new.known ≡ list)
            (IsLonger list self.old.known × (self.new.known ≡ self.old.known)) }
        ensures mine { IsPrefix self.old.known self.new.known }
        ensures count { IsUncounted self.old self.new }
        ensures listed { IsListed J.loads J.opening self.new.known }
    {
        if !self.known.begins(&list) {
            return false;
        }
        self.known = list;
        true
    }
}

/// Begins the request in the book that is shown, and returns that book's list too. Returns none if
/// there is no book.
fn begin_in<J: Naming>(
    reader: BookReader<J>,
    request: &Request,
) -> (
    BookReader<J>,
    Option<(Front<J>, Result<Ticket, (Request, BookError)>)>,
)
    requires { is_for_current request.now ≡ true }
    ensures { IfSome result.1 (λ r. Begins (after J.opening r.0) request.now r.1) }
{
    match reader.enter_as::<Sees<J>>() {
        Ok(reading) => {
            let shown = reading.get();
            let found = (shown.front.again(), shown.book.begin(*request));
            (reading.leave(), Some(found))
        }
        Err(reader) => (reader, None),
    }
}

/// Returns the answer of the verify's commit at the book that is shown, and that book's list, or
/// none if no book is shown.
fn judge_in<J: Naming>(
    reader: BookReader<J>,
    work: &VerifyWorked,
) -> (BookReader<J>, Option<(Front<J>, Reply)>)
    ensures { IfSome result.1 (λ r. r.1 ≡ reply_of (after J.opening r.0) work.now) }
{
    match reader.enter_as::<Sees<J>>() {
        Ok(reading) => {
            let shown = reading.get();
            let found = (shown.front.again(), shown.book.judge(work.worked()).0);
            (reading.leave(), Some(found))
        }
        Err(reader) => (reader, None),
    }
}
