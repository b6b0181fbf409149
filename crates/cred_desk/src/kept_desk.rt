//! A desk whose entries a writer of its owner's keeps, and at which people sign up.

ghost use Rattle.std.specs.Prelude.{◌≡◌, ◌+◌, ◌++◌, ◌&&◌, [], All, IfErr, IfOk, List, MatchResult, None, Some, false, length, map, nat_le, sum, true, vec_len};
ghost use mathlib.Core.List.{IsPrefix};
ghost use Rattle.cred_book.specs.declared.error.BookError.TheVariants.{Memory as memory};
ghost use Rattle.cred_desk.specs.Changes.{Adds, IsAt, Settles, refusal_of};
ghost use Rattle.cred_desk.specs.{Histories.IsListed, Histories.after, Histories.deletion, Histories.entry, Naming.IsNamed, Naming.StartsAt};
ghost use Rattle.cred_desk.specs.{Refusals.IsRefusedToMake, Standing.IsMissed, Standing.IsNew, Standing.IsUncounted, declared.entry.Entry.Entry as DeskEntry};

use crate::clerk::Clerk;
use crate::closed::{Closed, Finished, Kept, Remains, Unclosed};
use crate::entry::Entry;
use crate::error::DeskError;
use crate::handed::{Cut, Handed};
use crate::making::{MOST_SESSIONS, Made, make};
use crate::naming::{Naming, Opened};
use crate::recorder::Recorder;
use crate::session::Session;
use crate::tally::Tallies;
use crate::told::{Heard, Told};
use crate::writer::{EntryWriter, KeepError, Unsettled};
use cred_book::{Book, Name, Reply, Worked};
use cred_phc::Record;
use std::alloc::Global;
use std::fmt;
use std::sync::{Mutex, MutexGuard, Wait};

/// A desk that hands each entry to a writer, under its lock and before anybody sees it. So what the
/// writer keeps is the journal, or while an entry is added the journal with that entry.
///
/// If its naming allows loads, callers admit and delete names, and load records, while sessions
/// live. Each of these calls adds an entry, and counts as an addition.
///
/// A kept desk isn't `Drop`: end it by `close`, `finish`, `give_up` or `end`. Each of these takes
/// the one token of what the desk handed out. So the token can't be lost, but a session can.
pub struct KeptDesk<J: Naming, W: EntryWriter> {
    clerk: Mutex<Clerk<J, W>>,
}

impl<J: Naming, W: EntryWriter> fmt::Debug for KeptDesk<J, W> {
    fn fmt<T: fmt::Write>(&self, f: &mut fmt::Formatter<T>) -> fmt::Result {
        write!(f, "KeptDesk {{ .. }}")
    }
}

impl<J: Naming, W: EntryWriter> KeptDesk<J, W> {
    /// Copies the book, and shows it to so many sessions, 1 to 128 of them. The writer keeps no
    /// entry yet. The token says that the desk has handed out nothing yet.
    ///
    /// Errors: those of `Desk::new`. The writer comes back.
    pub fn new<R: Wait>(
        rt: &R,
        alloc: Global,
        opened: Opened,
        book: &Book,
        sessions: u8,
        writer: W,
    ) -> Result<(KeptDesk<J, W>, Handed<J>, Vec<Session<J>>), (W, DeskError)>
        requires name { IsNamed J.Naming opened }
        requires opening { StartsAt J.Naming book.now sessions }
        requires kept { W.keeps writer [] }
        ensures handed { IfOk result (λ made. made.1 ≡ []) }
        ensures sessions { IfOk result
            (λ made. (vec_len made.2 ≡ sessions) × All IsNew made.2.items) }
        ensures few { IfOk result (λ _. (nat_le 1 sessions && nat_le sessions 128) ≡ true) }
        ensures refused { IfErr result (λ e. (e.0 ≡ writer)
            × IsRefusedToMake (nat_le 1 sessions && nat_le sessions 128) e.1) }
    {
        if sessions == 0 || sessions > MOST_SESSIONS {
            return Err((writer, DeskError::Sessions));
        }
        let Ok(tallies) = Tallies::with_room(alloc, sessions) else {
            return Err((writer, DeskError::Memory));
        };
        match make(rt, alloc, opened, book, sessions) {
            Ok(
                Made {
                    publisher,
                    sessions: seats,
                    total,
                    spare,
                    handouts,
                },
            ) => {
                let (cut, handed) = Cut::open(handouts, publisher.front());
                let clerk = Clerk {
                    publisher,
                    recorder: Recorder::new(alloc, cut, writer),
                    total,
                    spare,
                    sessions,
                    tallies,
                };
                let clerk = Mutex::new(clerk);
                Ok((KeptDesk { clerk }, handed, seats))
            }
            Err(error) => Err((writer, error)),
        }
    }

    /// Waits for the lock, and does the whole operation if the record is the one that was copied,
    /// and otherwise nothing. From then on the session knows the list after the call, and counts a
    /// change if there was one.
    ///
    /// Errors: `Memory` if memory for a change runs out; the writer's own error if it doesn't keep
    /// the entry. Then the session only learns the list at which the change was due, and the work
    /// comes back.
    pub fn settle<R: Wait>(
        &self,
        rt: &R,
        session: &mut Session<J>,
        work: Worked,
    ) -> Result<(Reply, Told<J>), Unsettled<W::Error>>
        ensures done { Settles J.loads J.opening session.old session.new work result }
        ensures back { IfErr result (λ e. (e.work ≡ work) × (refusal_of e.error ≡ memory)) }
        ensures known { IsPrefix session.old.known session.new.known }
    {
        let mut clerk = self.clerk.lock(rt);
        let settled = clerk.settle(rt, session, work);
        // To drop the guard, a clerk would have to be `Drop`.
        MutexGuard::unlock(clerk);
        match settled {
            Ok(done) => Ok(done),
            Err((work, error)) => Err(Unsettled { work, error }),
        }
    }

    /// Waits for the lock, and adds a name with no record. From then on the session knows the list
    /// after the addition, and counts one addition more.
    ///
    /// Errors: `Exists` if the name exists; `Full` if the book has 4096 names; `Memory` if memory
    /// runs out, or the writer's own error, if the name would have been added. Then the session
    /// only learns the list at which the desk refused the name.
    pub fn admit<R: Wait>(
        &self,
        rt: &R,
        session: &mut Session<J>,
        name: Name,
    ) -> Result<Told<J>, KeepError<W::Error>>
        requires loads { J.loads ≡ true }
        ensures done { Adds J.Naming session.old session.new (entry name None) result }
        ensures known { IsPrefix session.old.known session.new.known }
    {
        let mut clerk = self.clerk.lock(rt);
        let admitted = clerk.admit(rt, session, name);
        MutexGuard::unlock(clerk);
        admitted
    }

    /// Waits for the lock, and puts a record at a name, in place of an existing one. From then on
    /// the session knows the list after the load, and counts one addition more.
    ///
    /// Errors: `NoAccount` if the name doesn't exist; `Memory` if memory runs out, or the writer's
    /// own error, if the record would have been put. Then the session only learns the list at which
    /// the desk refused the record.
    pub fn load<R: Wait>(
        &self,
        rt: &R,
        session: &mut Session<J>,
        name: Name,
        stored: Record,
    ) -> Result<Told<J>, KeepError<W::Error>>
        requires loads { J.loads ≡ true }
        ensures done { Adds J.Naming session.old session.new (entry name (Some stored)) result }
        ensures known { IsPrefix session.old.known session.new.known }
    {
        let mut clerk = self.clerk.lock(rt);
        let loaded = clerk.load(rt, session, name, stored);
        MutexGuard::unlock(clerk);
        loaded
    }

    /// Waits for the lock, and deletes a name, with the record if it has one. So there is room for
    /// another name. From then on the session knows the list after the deletion, and counts one
    /// addition more.
    ///
    /// A ticket that was begun at the name gets the answer `Reply::NoAccount` when it is settled,
    /// unless somebody admitted the name again.
    ///
    /// Errors: `NoAccount` if the name doesn't exist; `Memory` if memory runs out, or the writer's
    /// own error, if the name would have been deleted. Then the session only learns the list at
    /// which the desk refused the deletion.
    pub fn delete<R: Wait>(
        &self,
        rt: &R,
        session: &mut Session<J>,
        name: Name,
    ) -> Result<Told<J>, KeepError<W::Error>>
        requires loads { J.loads ≡ true }
        ensures done { Adds J.Naming session.old session.new (deletion name) result }
        ensures known { IsPrefix session.old.known session.new.known }
    {
        let mut clerk = self.clerk.lock(rt);
        let deleted = clerk.delete(rt, session, name);
        MutexGuard::unlock(clerk);
        deleted
    }

    /// Waits for the lock, and tells the session the list as it stands: whatever anybody was told
    /// by then, and more if there is more. So a session that its owner held back can take the place
    /// of one that a thread lost.
    pub fn tell<R: Wait>(&self, rt: &R, session: &mut Session<J>, heard: &Heard<J>) -> Told<J>
        ensures present { IsPrefix heard.now result }
        ensures told { result ≡ session.new.known }
        ensures at { IsAt J.loads J.opening session.old session.new }
        ensures count { IsUncounted session.old session.new }
    {
        let mut clerk = self.clerk.lock(rt);
        clerk.meet(heard);
        let told = clerk.tell(session);
        MutexGuard::unlock(clerk);
        told
    }

    /// Waits for the lock, and hands out the entries after those that were handed out before. The
    /// desk no longer keeps these.
    pub fn checkpoint<R: Wait>(&self, rt: &R, handed: &mut Handed<J>) -> Vec<Entry>
        ensures entries { handed.new ≡ handed.old ++ result.items }
        ensures listed { IsListed J.loads J.opening handed.new }
    {
        let mut clerk = self.clerk.lock(rt);
        let entries = clerk.checkpoint(handed);
        MutexGuard::unlock(clerk);
        entries
    }

    /// Returns the book, the entries that weren't handed out, the writer, and the numbers of each
    /// session's changes and additions. All sessions of the desk have to be handed in, in any
    /// order. The call waits for those that read the book.
    ///
    /// Errors: `Session` if some sessions are missing. All that was handed in comes back.
    pub fn close<R: Wait>(
        self,
        rt: &R,
        handed: Handed<J>,
        sessions: Vec<Session<J>>,
    ) -> Result<Kept<W>, Unclosed<J, W>>
        ensures listed { IfOk result (λ kept.
            IsListed J.loads J.opening (handed ++ kept.closed.journal.items)) }
        ensures book { IfOk result (λ kept.
            kept.closed.book ≡ after J.opening (handed ++ kept.closed.journal.items)) }
        ensures known { IfOk result (λ kept.
            All (λ s. IsPrefix s.known (handed ++ kept.closed.journal.items)) sessions.items) }
        ensures counts { IfOk result (λ kept.
            kept.closed.counts.items ≡ map (λ s. s.count) sessions.items) }
        ensures additions { IfOk result (λ kept.
            kept.additions.items ≡ map (λ s. s.additions) sessions.items) }
        ensures total { IfOk result (λ kept.
            sum kept.closed.counts.items + sum kept.additions.items
            ≡ length (handed ++ kept.closed.journal.items)) }
        ensures settled { IfOk result (λ kept. J.loads ≡ false → sum kept.additions.items ≡ 0) }
        ensures kept { IfOk result (λ kept.
            W.keeps kept.writer (handed ++ kept.closed.journal.items)) }
        ensures all { MatchResult result (λ _. vec_len sessions ≡ J.parts)
            (λ e. IsMissed J.parts sessions.items e.error) }
        ensures back { IfErr result
            (λ e. (e.sessions.items ≡ sessions.items) × (e.handed ≡ handed)) }
    {
        let KeptDesk { clerk } = self;
        let mut clerk = clerk.into_inner();
        match clerk.look(&sessions) {
            Ok(()) => {
                let (left, writer) = clerk.end(rt, handed);
                let Tallies { counts, additions } = left.tallies.written(&sessions);
                let _none = left.counting.missing(sessions);
                let Remains { book, journal } = left.remains;
                let closed = Closed {
                    book,
                    journal,
                    counts,
                };
                Ok(Kept {
                    closed,
                    additions,
                    writer,
                })
            }
            Err(error) => {
                let clerk = Mutex::new(clerk);
                Err(Unclosed {
                    desk: KeptDesk { clerk },
                    handed,
                    sessions,
                    error,
                })
            }
        }
    }

    /// Returns the book, the entries that weren't handed out, the writer, and the number of entries
    /// of sessions that aren't handed in. The call waits for those that read the book.
    pub fn finish<R: Wait>(
        self,
        rt: &R,
        handed: Handed<J>,
        sessions: Vec<Session<J>>,
    ) -> Finished<W>
        ensures listed { IsListed J.loads J.opening (handed ++ result.remains.journal.items) }
        ensures book { result.remains.book
            ≡ after J.opening (handed ++ result.remains.journal.items) }
        ensures known { All (λ s. IsPrefix s.known (handed ++ result.remains.journal.items))
            sessions.items }
        ensures total { sum (map (λ s. s.count) sessions.items)
            + sum (map (λ s. s.additions) sessions.items) + result.missing
            ≡ length (handed ++ result.remains.journal.items) }
        ensures all { vec_len sessions ≡ J.parts → result.missing ≡ 0 }
        ensures kept { W.keeps result.writer (handed ++ result.remains.journal.items) }
    {
        let KeptDesk { clerk } = self;
        let mut clerk = clerk.into_inner();
        clerk.cover(&sessions);
        let (left, writer) = clerk.end(rt, handed);
        Finished {
            remains: left.remains,
            missing: left.counting.missing(sessions),
            writer,
        }
    }

    /// Returns the book, the entries that weren't handed out, and the writer, without counts.
    /// `sessions` are some that are left: the list begins with the one of each. The call waits for
    /// those that read the book.
    ///
    /// The list is whole even if no session is handed in: the writer keeps it.
    pub fn give_up<R: Wait>(
        self,
        rt: &R,
        handed: Handed<J>,
        sessions: &[Session<J>],
    ) -> (Remains, W)
        ensures listed { IsListed J.loads J.opening (handed ++ result.0.journal.items) }
        ensures book { result.0.book ≡ after J.opening (handed ++ result.0.journal.items) }
        ensures known { All (λ s. IsPrefix s.known (handed ++ result.0.journal.items))
            sessions.now }
        ensures kept { W.keeps result.1 (handed ++ result.0.journal.items) }
    {
        let KeptDesk { clerk } = self;
        let mut clerk = clerk.into_inner();
        clerk.cover(sessions);
        let (left, writer) = clerk.end(rt, handed);
        (left.remains, writer)
    }

    /// Returns the writer alone. The call waits for those that read the book.
    pub fn end<R: Wait>(self, rt: &R, handed: Handed<J>) -> W
        ensures { (rest : List DeskEntry) × IsListed J.loads J.opening (handed ++ rest)
            × W.keeps result (handed ++ rest) }
    {
        let KeptDesk { clerk } = self;
        let (_left, writer) = clerk.into_inner().end(rt, handed);
        writer
    }
}
