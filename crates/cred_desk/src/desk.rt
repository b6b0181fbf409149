//! A desk: sessions settle their work behind its lock, and read its book with no lock.

ghost use Rattle.std.specs.Prelude.{◌≡◌, ◌&&◌, All, IfErr, IfOk, MatchResult, false, length, map, nat_le, sum, true, vec_len};
ghost use mathlib.Core.List.{IsPrefix};
ghost use Rattle.cred_desk.specs.{Changes.Settles, Histories.IsLegal, Histories.after, Naming.IsNamed, Naming.StartsAt, Refusals.IsRefusedToMake};
ghost use Rattle.cred_desk.specs.Standing.{IsMissed, IsNew};
ghost use Rattle.cred_desk.specs.declared.error.DeskError.TheVariants as error;

use crate::closed::{Closed, Kept, Remains, Unclosed};
use crate::error::DeskError;
use crate::handed::Handed;
use crate::kept_desk::KeptDesk;
use crate::naming::{Naming, Opened};
use crate::session::Session;
use crate::told::Told;
use crate::writer::Unkept;
use cred_book::{Book, Reply, Worked};
use std::alloc::Global;
use std::fmt;
use std::marker::Model;
use std::sync::{Mutex, Wait};

/// Keeps a book that sessions read while they change it, and a journal of all changes. A desk isn't
/// `Drop`: end it by `close` or `end`.
///
/// A `Desk` is a kept desk whose writer keeps nothing, and whose naming allows no additions.
pub struct Desk<J: Naming> {
    desk: KeptDesk<J, Unkept>,
    /// The token, behind a lock since sessions share the desk, and a token can't be shared. Nobody
    /// takes this lock.
    handed: Mutex<Unhanded<J>>,
}

/// The token of a desk that hands nothing out.
struct Unhanded<J: Naming> {
    handed: Handed<J>,
}

impl<J: Naming> Model for Unhanded<J> {
    ghost use Rattle.std.specs.Prelude.{◌≡◌, []};

    ghost Value = { Unit {0} };

    ghost view = { λ _. tt };

    ghost invariant = { λ u. u.handed ≡ [] };
}

impl<J: Naming> Model for Desk<J> {
    ghost use Rattle.std.specs.Prelude.{◌≡◌, false};

    ghost Value = { Unit {0} };

    ghost view = { λ _. tt };

    ghost invariant = { λ _. J.loads ≡ false };
}

impl<J: Naming> fmt::Debug for Desk<J> {
    fn fmt<W: fmt::Write>(&self, f: &mut fmt::Formatter<W>) -> fmt::Result {
        write!(f, "Desk {{ .. }}")
    }
}

impl<J: Naming> Desk<J> {
    /// Copies the book, and shows it to so many sessions, 1 to 128 of them. The desk keeps the
    /// names of the book from then on.
    ///
    /// Errors: `Sessions` for another number, before any other error; `Memory` if memory runs out;
    /// `Reader` if a session gets no place to read, which never occurs.
    pub fn new<R: Wait>(
        rt: &R,
        alloc: Global,
        opened: Opened,
        book: &Book,
        sessions: u8,
    ) -> Result<(Desk<J>, Vec<Session<J>>), DeskError>
        requires name { IsNamed J.Naming opened }
        requires opening { StartsAt J.Naming book.now sessions }
        requires loads { J.loads ≡ false }
        ensures sessions { IfOk result
            (λ made. (vec_len made.1 ≡ sessions) × All IsNew made.1.items) }
        ensures few { IfOk result (λ _. (nat_le 1 sessions && nat_le sessions 128) ≡ true) }
        ensures refused { IfErr result
            (IsRefusedToMake (nat_le 1 sessions && nat_le sessions 128)) }
    {
        match KeptDesk::new(rt, alloc, opened, book, sessions, Unkept) {
            Ok((desk, handed, seats)) => {
                let handed = Mutex::new(Unhanded { handed });
                Ok((Desk { desk, handed }, seats))
            }
            Err((_unkept, error)) => Err(error),
        }
    }

    /// Waits for the lock, and does the whole operation if the record is the one that was copied,
    /// and otherwise nothing. From then on the session knows the list after the call, and counts a
    /// change if there was one. The ticket may be of another session, or of another desk: it has
    /// only a copy of a record.
    ///
    /// Errors: `Memory` if memory for a change runs out. Then the session only learns the list at
    /// which the change was due, and the work comes back.
    pub fn settle<R: Wait>(
        &self,
        rt: &R,
        session: &mut Session<J>,
        work: Worked,
    ) -> Result<(Reply, Told<J>), (Worked, DeskError)>
        ensures done { Settles false J.opening session.old session.new work result }
        ensures back { IfErr result (λ e. (e.0 ≡ work) × (e.1 ≡ error.Memory)) }
        ensures known { IsPrefix session.old.known session.new.known }
    {
        match self.desk.settle(rt, session, work) {
            Ok(done) => Ok(done),
            Err(unsettled) => Err((unsettled.into_parts().0, DeskError::Memory)),
        }
    }

    /// Returns the book, the journal and the counts, if all sessions of the desk are handed in, in
    /// any order. The call waits for those that read the book.
    ///
    /// Errors: `Session` if some sessions are missing. The desk and the sessions come back.
    #[tactic(auto, using(crate::proofs::Lists::legal_if))]
    pub fn close<R: Wait>(
        self,
        rt: &R,
        sessions: Vec<Session<J>>,
    ) -> Result<Closed, (Desk<J>, Vec<Session<J>>, DeskError)>
        ensures legal { IfOk result (λ closed. IsLegal J.opening closed.journal.items) }
        ensures book { IfOk result (λ closed. closed.book ≡ after J.opening closed.journal.items) }
        ensures known { IfOk result
            (λ closed. All (λ s. IsPrefix s.known closed.journal.items) sessions.items) }
        ensures counts { IfOk result
            (λ closed. closed.counts.items ≡ map (λ s. s.count) sessions.items) }
        ensures total { IfOk result
            (λ closed. sum closed.counts.items ≡ length closed.journal.items) }
        ensures all { MatchResult result (λ _. vec_len sessions ≡ J.parts)
            (λ e. IsMissed J.parts sessions.items e.2) }
        ensures back { IfErr result (λ e. e.1.items ≡ sessions.items) }
    {
        let Desk { desk, handed } = self;
        let Unhanded { handed } = handed.into_inner();
        match desk.close(rt, handed, sessions) {
            Ok(
                Kept {
                    closed,
                    additions: _,
                    writer: _,
                },
            ) => Ok(closed),
            Err(
                Unclosed {
                    desk,
                    handed,
                    sessions,
                    error,
                },
            ) => {
                let handed = Mutex::new(Unhanded { handed });
                Err((Desk { desk, handed }, sessions, error))
            }
        }
    }

    /// Returns the book and the journal, without counts, for a caller who has lost a session.
    /// `sessions` are all or some of those that are left: the journal begins with the list of each.
    /// The call waits until nobody reads the book.
    ///
    /// The journal is whole even if no session is handed in. Only a test shows this, since nothing
    /// in the contract then knows what was settled.
    #[tactic(auto, using(crate::proofs::Lists::legal_if))]
    pub fn give_up<R: Wait>(self, rt: &R, sessions: &[Session<J>]) -> Remains
        ensures legal { IsLegal J.opening result.journal.items }
        ensures book { result.book ≡ after J.opening result.journal.items }
        ensures known { All (λ s. IsPrefix s.known result.journal.items) sessions.now }
    {
        let Desk { desk, handed } = self;
        let Unhanded { handed } = handed.into_inner();
        let (remains, _unkept) = desk.give_up(rt, handed, sessions);
        remains
    }

    /// Releases the desk, and waits for those that read the book.
    pub fn end<R: Wait>(self, rt: &R) {
        let Desk { desk, handed } = self;
        let Unhanded { handed } = handed.into_inner();
        let _unkept = desk.end(rt, handed);
    }
}
