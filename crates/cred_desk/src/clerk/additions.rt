//! A clerk's additions for those who keep the book: names, records and deletions.

ghost use Rattle.std.specs.Prelude.{◌≡◌, ◌+◌, ◌++◌, ◌∷◌, [], MatchResult, None, Some, true};
ghost use mathlib.Core.List.{IsPrefix};
ghost use Rattle.cred_book.specs.declared.error.BookError.TheVariants.{Memory as memory};
ghost use Rattle.cred_desk.specs.Changes.{Adds, refusal_of};
ghost use Rattle.cred_desk.specs.{Histories.IsAllowed, Histories.IsListed, Histories.after, Histories.deletion, Histories.entry, Standing.IsUncounted};

use super::{Clerk, keep_and_show};
use crate::entry::{AccountState, Entry};
use crate::naming::Naming;
use crate::session::Session;
use crate::told::Told;
use crate::writer::{EntryWriter, KeepError};
use cred_book::{BookError, Name};
use cred_phc::Record;
use std::sync::Wait;

impl<J: Naming, W: EntryWriter> Clerk<J, W> {
    /// Adds a name with no record for the session. From then on the session knows the list after
    /// the addition, and counts one addition more.
    ///
    /// Errors: `Exists` if the name exists; `Full` if there is no room for it; those of `add`. The
    /// list stays then, and the session knows it.
    pub(crate) fn admit<R: Wait>(
        &mut self,
        rt: &R,
        session: &mut Session<J>,
        name: Name,
    ) -> Result<Told<J>, KeepError<W::Error>>
        requires { J.loads ≡ true }
        ensures done { Adds J.Naming session.old session.new (entry name None) result }
        ensures known { IsPrefix session.old.known session.new.known }
    {
        if self.publisher.book().show(&name).is_ok() {
            return Err(self.refuse(session, BookError::Exists));
        }
        if self.publisher.book().is_full() {
            return Err(self.refuse(session, BookError::Full));
        }
        let now = AccountState::NoRecord;
        self.add(rt, session, Entry { name, now })
    }

    /// Puts a record at a name for the session. From then on the session knows the list after the
    /// load, and counts one addition more.
    ///
    /// Errors: `NoAccount` if the name doesn't exist; as of `add`. The list stays then, and the
    /// session knows it.
    pub(crate) fn load<R: Wait>(
        &mut self,
        rt: &R,
        session: &mut Session<J>,
        name: Name,
        stored: Record,
    ) -> Result<Told<J>, KeepError<W::Error>>
        requires { J.loads ≡ true }
        ensures done { Adds J.Naming session.old session.new (entry name (Some stored)) result }
        ensures known { IsPrefix session.old.known session.new.known }
    {
        if self.publisher.book().show(&name).is_err() {
            return Err(self.refuse(session, BookError::NoAccount));
        }
        let now = AccountState::Record(stored);
        self.add(rt, session, Entry { name, now })
    }

    /// Deletes a name for the session. From then on the session knows the list after the deletion,
    /// and counts one addition more.
    ///
    /// Errors: `NoAccount` if the name doesn't exist; as of `add`. The list stays then, and the
    /// session knows it.
    pub(crate) fn delete<R: Wait>(
        &mut self,
        rt: &R,
        session: &mut Session<J>,
        name: Name,
    ) -> Result<Told<J>, KeepError<W::Error>>
        requires { J.loads ≡ true }
        ensures done { Adds J.Naming session.old session.new (deletion name) result }
        ensures known { IsPrefix session.old.known session.new.known }
    {
        if self.publisher.book().show(&name).is_err() {
            return Err(self.refuse(session, BookError::NoAccount));
        }
        let now = AccountState::NoAccount;
        let gone = Entry { name, now };
        self.add(rt, session, gone)
    }

    /// Adds an entry for the session, which knows the list after the entry from then on, and counts
    /// the entry.
    ///
    /// Errors: `Memory` if memory runs out; the writer's own error. The list stays then, and the
    /// session knows it.
    fn add<R: Wait>(
        &mut self,
        rt: &R,
        session: &mut Session<J>,
        entry: Entry,
    ) -> Result<Told<J>, KeepError<W::Error>>
        requires allowed { IsAllowed J.loads (after J.opening self.old) entry }
        requires loads { J.loads ≡ true }
        ensures listed { IsListed J.loads J.opening self.old }
        ensures behind { IsPrefix session.old.known self.old }
        ensures list { MatchResult result
            (λ told. (self.new ≡ self.old ++ entry ∷ []) × (told ≡ self.new))
            (λ e. (self.new ≡ self.old) × (refusal_of e ≡ memory)) }
        ensures learns { session.new.known ≡ self.new }
        ensures known { IsPrefix session.old.known session.new.known }
        ensures count { session.new.count ≡ session.old.count }
        ensures additions { MatchResult result
            (λ _. session.new.additions ≡ session.old.additions + 1)
            (λ _. session.new.additions ≡ session.old.additions) }
    {
        self.publisher.covers(session.known());
        if let Err(error) = keep_and_show(rt, &mut self.publisher, &mut self.recorder, entry) {
            self.tell(session);
            return Err(error);
        }
        session.count_addition(&mut self.total);
        Ok(self.tell(session))
    }

    /// Returns the refusal of an addition. The session then knows the list that the refusal saw.
    fn refuse(&mut self, session: &mut Session<J>, error: BookError) -> KeepError<W::Error>
        ensures same { self.new ≡ self.old }
        ensures listed { IsListed J.loads J.opening self.old }
        ensures error { refusal_of result ≡ error }
        ensures learns { session.new.known ≡ self.new }
        ensures known { IsPrefix session.old.known session.new.known }
        ensures count { IsUncounted session.old session.new }
    {
        self.tell(session);
        KeepError::Book(error)
    }
}
