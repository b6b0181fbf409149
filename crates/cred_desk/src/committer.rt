//! The committer, which keeps a published book: its sessions see each change.

ghost use Rattle.std.specs.Prelude.{◌≡◌, ◌+◌, ◌^◌, ◌++◌, ◌∷◌, [], All, IfErr, IfOk, IsOk, MatchResult, None, Some, length, nat_le, true, vec_len};
ghost use mathlib.Core.List.{IsPrefix};
ghost use Rattle.cred_book.specs.{Calls.Admits, Calls.Loads, Commits.Commits, declared.error.BookError.TheVariants.Memory as memory};
ghost use Rattle.cred_desk.specs.Commits.{entry_of, list_after, reply_of};
ghost use Rattle.cred_desk.specs.Histories.{IsAllowed, IsLawful, IsLegal, IsMade, after, entry};
ghost use Rattle.cred_desk.specs.{Naming.IsNamed, Naming.StartsAt, Refusals.IsRefusedToMake, Standing.IsNew};
ghost use Rattle.cred_desk.specs.declared.error.DeskError.TheVariants as error;

use crate::change::judge;
use crate::entry::{AccountState, Entry};
use crate::error::DeskError;
use crate::making::{MOST_SESSIONS, Made, make};
use crate::naming::{Naming, Opened};
use crate::publisher::Publisher;
use crate::session::Session;
use crate::told::Told;
use cred_book::{Book, BookError, Keeper, Name, Reply, Worked};
use cred_phc::Record;
use std::alloc::Global;
use std::fmt;
use std::marker::Model;
use std::sync::Wait;

/// Keeps a book that sessions read while it changes. A committer isn't `Drop`: end it by `end`.
///
/// Contracts see it as the list of entries that it has published.
pub struct Committer<J: Naming> {
    publisher: Publisher<J>,
}

impl<J: Naming> Model for Committer<J> {
    ghost use Rattle.std.specs.Prelude.{◌≡◌, List, true};
    ghost use Rattle.cred_desk.specs.declared.entry.Entry.{Entry};
    ghost use Rattle.cred_desk.specs.Histories.{IsLawful};

    ghost Value = { List Entry };

    ghost view = { λ c. c.publisher };

    ghost invariant = { λ c. (J.loads ≡ true) × IsLawful J.opening c.publisher };
}

impl<J: Naming> fmt::Debug for Committer<J> {
    fn fmt<W: fmt::Write>(&self, f: &mut fmt::Formatter<W>) -> fmt::Result {
        write!(
            f,
            "Committer {{ changes: {} }}",
            self.publisher.front().len()
        )
    }
}

impl<J: Naming> Committer<J> {
    /// Copies the book, and shows it to so many sessions, 0 to 128 of them.
    ///
    /// Errors: `Sessions` for another number, before any other error; `Memory` if memory runs out;
    /// `Reader` if a session gets no place to read, which never occurs.
    pub fn new<R: Wait>(
        rt: &R,
        alloc: Global,
        opened: Opened,
        book: &Book,
        sessions: u8,
    ) -> Result<(Committer<J>, Vec<Session<J>>), DeskError>
        requires name { IsNamed J.Naming opened }
        requires opening { StartsAt J.Naming book.now sessions }
        requires loads { J.loads ≡ true }
        ensures list { IfOk result (λ made. made.0 ≡ []) }
        ensures sessions { IfOk result
            (λ made. (vec_len made.1 ≡ sessions) × All IsNew made.1.items) }
        ensures few { IfOk result (λ _. nat_le sessions 128 ≡ true) }
        ensures refused { IfErr result (IsRefusedToMake (nat_le sessions 128)) }
    {
        if sessions > MOST_SESSIONS {
            return Err(DeskError::Sessions);
        }
        let Made {
            publisher,
            sessions,
            total: _,
            spare: _,
            handouts: _,
        } = make(rt, alloc, opened, book, sessions)?;
        Ok((Committer { publisher }, sessions))
    }

    /// Does the whole operation if the record is the one that was copied, and otherwise nothing.
    /// Returns the reply, and the list after the call.
    ///
    /// Errors: `Memory` for a change if the list has 2^64 - 1 entries, which never occurs: the call
    /// allocates no memory. Nothing changes then, and the work comes back.
    pub fn commit_told<R: Wait>(
        &mut self,
        rt: &R,
        work: Worked,
    ) -> Result<(Reply, Told<J>), (Worked, DeskError)>
        ensures reply { IfOk result (λ r. r.0 ≡ reply_of (after J.opening self.old) work) }
        ensures list { IfOk result
            (λ r. self.new ≡ list_after self.old (entry_of (after J.opening self.old) work)) }
        ensures told { IfOk result (λ r. r.1 ≡ self.new) }
        ensures lawful { IsLawful J.opening self.new }
        ensures legal { IsLegal J.opening self.old → IsLegal J.opening self.new }
        ensures refused { IfErr result
            (λ e. (e.0 ≡ work) × (e.1 ≡ error.Memory) × (self.new ≡ self.old)) }
        ensures plain { entry_of (after J.opening self.old) work ≡ None → IsOk result }
        ensures full { IfErr result (λ _. length self.old + 1 ≡ 2 ^ 64) }
    {
        let (reply, entry) = judge(self.publisher.book(), &work);
        if let Some(entry) = entry {
            if self.add(rt, entry).is_err() {
                return Err((work, DeskError::Memory));
            }
        }
        Ok((reply, self.publisher.told()))
    }

    /// Adds an entry.
    ///
    /// Errors: `Memory` if the list has 2^64 - 1 entries. Nothing changes then.
    fn add<R: Wait>(&mut self, rt: &R, entry: Entry) -> Result<(), BookError>
        requires { IsAllowed J.loads (after J.opening self.old) entry }
        ensures list { MatchResult result (λ _. self.new ≡ self.old ++ entry ∷ [])
            (λ e. (self.new ≡ self.old) × (e ≡ memory)) }
        ensures full { IfErr result (λ _. length self.old + 1 ≡ 2 ^ 64) }
        ensures lawful { IsLawful J.opening self.new }
        ensures legal { IsMade (after J.opening self.old) entry → IsLegal J.opening self.old
            → IsLegal J.opening self.new }
    {
        if self.publisher.is_full() {
            return Err(BookError::Memory);
        }
        self.publisher.show(rt, entry);
        Ok(())
    }

    /// Finds that what the session knows is a beginning of the list. So a session reads only books
    /// of this list. A session that has learned what `commit_told` told last knows the whole list.
    pub fn covers(&mut self, session: &Session<J>)
        ensures begins { IsPrefix session.now.known self.new }
        ensures same { self.new ≡ self.old }
    {
        self.publisher.covers(session.known());
    }

    /// Releases the book, and waits for those that read it.
    pub fn end<R: Wait>(self, rt: &R) {
        let Committer { publisher } = self;
        publisher.finish(rt);
    }
}

/// Its calls answer from its present book, and publish what they change.
impl<J: Naming> Keeper for Committer<J> {
    ghost use Rattle.cred_desk.specs.Histories.{after};

    ghost book = { λ c. after J.opening c };

    #[tactic(auto, using(crate::proofs::Lists::after_snoc))]
    fn admit<R: Wait>(&mut self, rt: &R, name: Name) -> Result<(), BookError>
        ensures book { Admits (after J.opening self.old) (after J.opening self.new) name result }
        ensures list { MatchResult result (λ _. self.new ≡ self.old ++ entry name None ∷ [])
            (λ _. self.new ≡ self.old) }
        ensures full { IfErr result (λ e. e ≡ memory → length self.old + 1 ≡ 2 ^ 64) }
        ensures lawful { IsLawful J.opening self.new }
    {
        if self.show(&name).is_ok() {
            return Err(BookError::Exists);
        }
        if self.publisher.book().is_full() {
            return Err(BookError::Full);
        }
        let now = AccountState::NoRecord;
        self.add(rt, Entry { name, now })
    }

    #[tactic(auto, using(crate::proofs::Lists::after_snoc))]
    fn load<R: Wait>(&mut self, rt: &R, name: &Name, stored: Record) -> Result<(), BookError>
        ensures book { Loads (after J.opening self.old)
            (after J.opening self.new) name.now stored result }
        ensures list { MatchResult result
            (λ _. self.new ≡ self.old ++ entry name.entry.now (Some stored) ∷ [])
            (λ _. self.new ≡ self.old) }
        ensures full { IfErr result (λ e. e ≡ memory → length self.old + 1 ≡ 2 ^ 64) }
        ensures lawful { IsLawful J.opening self.new }
    {
        self.publisher.book().show(name)?;
        let now = AccountState::Record(stored);
        self.add(rt, Entry { name: *name, now })
    }

    fn show(&self, name: &Name) -> Result<Option<Record>, BookError> {
        self.publisher.book().show(name)
    }

    #[tactic(auto, using(crate::proofs::Changes::commits))]
    fn commit<R: Wait>(&mut self, rt: &R, worked: Worked) -> Result<Reply, (Worked, BookError)>
        ensures book { Commits (after J.opening self.old) (after J.opening self.new) worked result }
        ensures list { MatchResult result
            (λ _. self.new ≡ list_after self.old (entry_of (after J.opening self.old) worked))
            (λ _. self.new ≡ self.old) }
        ensures plain { entry_of (after J.opening self.old) worked ≡ None → IsOk result }
        ensures full { IfErr result (λ _. length self.old + 1 ≡ 2 ^ 64) }
        ensures lawful { IsLawful J.opening self.new }
        ensures legal { IsLegal J.opening self.old → IsLegal J.opening self.new }
    {
        match self.commit_told(rt, worked) {
            Ok((reply, _told)) => Ok(reply),
            Err((worked, _)) => Err((worked, BookError::Memory)),
        }
    }
}
