//! The values behind a desk's lock: the publisher of its book, the recorder of its entries, and the
//! count of all its sessions' entries.

ghost use Rattle.std.specs.Prelude.{◌≡◌, ◌≢◌, ◌+◌, ◌<◌, ◌^◌, ◌++◌, ◌∷◌, ◌≤◌, [], All, IfErr, IfOk, MatchResult, None, length, vec_capacity};
ghost use mathlib.Core.List.{IsPrefix};
ghost use Rattle.cred_book.specs.declared.error.BookError.TheVariants.{Memory as memory};
ghost use Rattle.cred_desk.specs.{Changes.refusal_of, Commits.entry_of, Commits.list_after, Commits.reply_of, Commits.weight};
ghost use Rattle.cred_desk.specs.{Histories.IsAllowed, Histories.IsListed, Histories.after, Standing.IsMissed, Standing.IsUncounted};

mod additions;

use crate::change::judge;
use crate::closed::Remains;
use crate::entry::Entry;
use crate::error::DeskError;
use crate::handed::Handed;
use crate::naming::Naming;
use crate::publisher::Publisher;
use crate::recorder::Recorder;
use crate::session::Session;
use crate::tally::{Counting, Tallies};
use crate::told::{Heard, Told};
use crate::writer::{EntryWriter, KeepError};
use cred_book::{BookError, Reply, Worked};
use std::marker::Model;
use std::sync::Wait;
use std::sync::ledger::{Book as Total, Share};

/// Settles one work after another, and counts the entries. Contracts see it as its list.
pub(crate) struct Clerk<J: Naming, W: EntryWriter> {
    pub(crate) publisher: Publisher<J>,
    /// The recorder, which gets each entry before anybody sees it.
    pub(crate) recorder: Recorder<J, W>,
    pub(crate) total: Total<J>,
    /// The share into which those of the sessions are merged.
    pub(crate) spare: Share<J>,
    pub(crate) sessions: u8,
    /// Empty tallies, with room for each session.
    pub(crate) tallies: Tallies,
}

/// The values that a clerk leaves.
#[derive(Drop)]
pub(crate) struct Estate<J: Naming> {
    pub(crate) remains: Remains,
    pub(crate) counting: Counting<J>,
    pub(crate) tallies: Tallies,
}

impl<J: Naming, W: EntryWriter> Model for Clerk<J, W> {
    ghost use Rattle.std.specs.Prelude.{◌≡◌, ◌≤◌, List, [], length, vec_capacity};
    ghost use Rattle.cred_desk.specs.declared.entry.Entry.{Entry};

    ghost Value = { List Entry };

    ghost view = { λ c. c.publisher };

    ghost invariant = { λ c. record {
      all_counted : c.total.total ≡ length c.publisher;
      spare_is_empty : (c.spare.parts ≡ 0) × (c.spare.amount ≡ 0);
      no_tallies : (c.tallies.counts.items ≡ []) × (c.tallies.additions.items ≡ []);
      room_for_tallies : (c.sessions ≤ vec_capacity c.tallies.counts)
          × (c.sessions ≤ vec_capacity c.tallies.additions);
      all_sessions : J.parts ≡ c.sessions;
      recorded : c.recorder ≡ c.publisher;
    } };
}

impl<J: Naming, W: EntryWriter> Clerk<J, W> {
    /// Commits the work for the session, which knows the list after it from then on.
    ///
    /// Errors: `Memory` if memory for a change runs out; the writer's own error. The list stays
    /// then, the session knows it, and the work comes back.
    #[tactic(auto, using(crate::proofs::Lists::length_list_after))]
    pub(crate) fn settle<R: Wait>(
        &mut self,
        rt: &R,
        session: &mut Session<J>,
        work: Worked,
    ) -> Result<(Reply, Told<J>), (Worked, KeepError<W::Error>)>
        ensures listed { IsListed J.loads J.opening self.old }
        ensures behind { IsPrefix session.old.known self.old }
        ensures reply { IfOk result (λ r. r.0 ≡ reply_of (after J.opening self.old) work) }
        ensures list { IfOk result (λ _.
            self.new ≡ list_after self.old (entry_of (after J.opening self.old) work)) }
        ensures told { IfOk result (λ r. r.1 ≡ self.new) }
        ensures learns { session.new.known ≡ self.new }
        ensures known { IsPrefix session.old.known session.new.known }
        ensures count { IfOk result (λ _. session.new.count
            ≡ session.old.count + weight (entry_of (after J.opening self.old) work)) }
        ensures additions { session.new.additions ≡ session.old.additions }
        ensures refused { IfErr result (λ e. (e.0 ≡ work) × (self.new ≡ self.old)
            × (session.new.count ≡ session.old.count)) }
        ensures due { IfErr result (λ _. entry_of (after J.opening self.old) work ≢ None) }
        ensures error { IfErr result (λ e. refusal_of e.1 ≡ memory) }
    {
        self.publisher.covers(session.known());
        let (reply, entry) = judge(self.publisher.book(), &work);
        let Some(entry) = entry else {
            return Ok((reply, self.tell(session)));
        };
        if let Err(error) = keep_and_show(rt, &mut self.publisher, &mut self.recorder, entry) {
            self.tell(session);
            return Err((work, error));
        }
        session.count_change(&mut self.total);
        Ok((reply, self.tell(session)))
    }

    /// Tells the session the present list.
    pub(crate) fn tell(&mut self, session: &mut Session<J>) -> Told<J>
        ensures same { self.new ≡ self.old }
        ensures listed { IsListed J.loads J.opening self.old }
        ensures told { result ≡ self.new }
        ensures learns { session.new.known ≡ self.new }
        ensures known { IsPrefix session.old.known session.new.known }
        ensures count { IsUncounted session.old session.new }
    {
        let known = session.known();
        self.publisher.covers(known);
        let present = self.publisher.told();
        session.learn(&present);
        present
    }

    /// Finds that what somebody was told is a beginning of the list.
    pub(crate) fn meet(&mut self, heard: &Heard<J>)
        ensures begins { IsPrefix heard.now self.new }
        ensures same { self.new ≡ self.old }
    {
        self.publisher.covers_heard(heard);
    }

    /// Hands out the entries after those that were handed out before.
    pub(crate) fn checkpoint(&mut self, handed: &mut Handed<J>) -> Vec<Entry>
        ensures same { self.new ≡ self.old }
        ensures listed { IsListed J.loads J.opening self.old }
        ensures entries { handed.new ≡ handed.old ++ result.items }
        ensures whole { handed.new ≡ self.new }
    {
        let told = self.publisher.told();
        self.recorder.hand_out(handed, told.front())
    }

    /// Tests whether these are all sessions of the desk, and finds that none knows more than the
    /// journal.
    ///
    /// Errors: `Session` if some sessions are missing.
    pub(crate) fn look(&mut self, sessions: &[Session<J>]) -> Result<(), DeskError>
        ensures same { self.new ≡ self.old }
        ensures all { MatchResult result (λ _. length sessions.now ≡ J.parts)
            (IsMissed J.parts sessions.now) }
        ensures known { IfOk result (λ _. All (λ s. IsPrefix s.known self.new) sessions.now) }
    {
        if sessions.len() != usize::from(self.sessions) {
            return Err(DeskError::Session);
        }
        self.cover(sessions);
        Ok(())
    }

    /// Admits no more readers to the book, waits for those that read it, and takes the clerk apart.
    pub(crate) fn end<R: Wait>(self, rt: &R, handed: Handed<J>) -> (Estate<J>, W)
        ensures listed { IsListed J.loads J.opening self }
        ensures rest { self ≡ handed ++ result.0.remains.journal.items }
        ensures book { result.0.remains.book ≡ after J.opening self }
        ensures kept { W.keeps result.1 self }
        ensures entries { (result.0.counting.entries ≡ length self)
            × (result.0.counting.total.total ≡ length self) }
        ensures none { (result.0.counting.all.parts ≡ 0) × (result.0.counting.all.amount ≡ 0) }
        ensures empty { (result.0.tallies.counts.items ≡ [])
            × (result.0.tallies.additions.items ≡ []) }
        ensures room { (J.parts ≤ vec_capacity result.0.tallies.counts)
            × (J.parts ≤ vec_capacity result.0.tallies.additions) }
    {
        let Clerk {
            publisher,
            recorder,
            total,
            spare,
            sessions: _,
            tallies,
        } = self;
        let counting = Counting {
            entries: publisher.front().len(),
            total,
            all: spare,
        };
        let (journal, writer) = recorder.into_rest(handed);
        let book = publisher.finish(rt);
        let left = Estate {
            remains: Remains { book, journal },
            counting,
            tallies,
        };
        (left, writer)
    }

    /// Finds that none of these sessions knows more than the journal.
    pub(crate) fn cover(&mut self, sessions: &[Session<J>])
        ensures same { self.new ≡ self.old }
        ensures known { All (λ s. IsPrefix s.known self.new) sessions.now }
    {
        cover_all(&mut self.publisher, sessions);
    }
}

/// Keeps an entry, and then shows the entry: once the writer has it, nothing can fail.
///
/// Errors: `Memory` if memory runs out, or if the list has 2^64 - 1 entries; the writer's own
/// error. Nothing changes then.
fn keep_and_show<J: Naming, W: EntryWriter, R: Wait>(
    rt: &R,
    publisher: &mut Publisher<J>,
    recorder: &mut Recorder<J, W>,
    entry: Entry,
) -> Result<(), KeepError<W::Error>>
    requires recorded { recorder.old ≡ publisher.old }
    requires allowed { IsAllowed J.loads (after J.opening publisher.old) entry }
    ensures recorded { recorder.new ≡ publisher.new }
    ensures list { MatchResult result (λ _. publisher.new ≡ publisher.old ++ entry ∷ [])
        (λ e. (publisher.new ≡ publisher.old) × (refusal_of e ≡ memory)) }
    ensures fits { IfOk result (λ _. length publisher.new < 2 ^ 64) }
{
    if publisher.is_full() {
        return Err(KeepError::Book(BookError::Memory));
    }
    recorder.take(&entry)?;
    publisher.show(rt, entry);
    Ok(())
}

/// Finds that no session knows more than the publisher's list.
fn cover_all<J: Naming>(publisher: &mut Publisher<J>, sessions: &[Session<J>])
    ensures same { publisher.new ≡ publisher.old }
    ensures known { All (λ s. IsPrefix s.known publisher.new) sessions.now }
{
    for session in sessions {
        publisher.covers(session.known());
    }
}
