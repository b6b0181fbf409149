//! The publisher, which changes the published book.

ghost use Rattle.std.specs.Prelude.{◌≡◌, ◌+◌, ◌<◌, ◌^◌, ◌++◌, ◌∷◌, [], MatchBool, length};
ghost use mathlib.Core.List.{IsPrefix};
ghost use Rattle.cred_desk.specs.Histories.{IsAllowed, IsLegal, IsListed, IsMade, after};

use crate::entry::Entry;
use crate::list::{Front, History};
use crate::naming::Naming;
use crate::published::{BookWriter, Shown, Step, show};
use crate::told::{Heard, Told};
use cred_book::Book;
use left_right::Absorb;
use std::marker::Model;
use std::sync::Wait;

/// Changes the published book. Contracts see a publisher as its list.
pub(crate) struct Publisher<J: Naming>
where
    Shown<J>: Absorb<Entry, State = ()>,
{
    writer: BookWriter<J>,
    /// The entry that the spare copy lacks.
    last: Option<Entry>,
    history: History<J>,
}

impl<J: Naming> Model for Publisher<J>
where
    Shown<J>: Absorb<Entry, State = ()>,
{
    ghost use Rattle.std.specs.Prelude.{◌≡◌, List, []};
    ghost use Rattle.cred_desk.specs.declared.entry.Entry.{Entry};
    ghost use Rattle.cred_desk.specs.Commits.{list_after};
    ghost use Rattle.cred_desk.specs.Histories.{IsListed, after};

    ghost Value = { List Entry };

    ghost view = { λ p. p.history };

    ghost invariant = { λ p. record {
      shown_list : p.writer.desk.shown.value.front ≡ p.history;
      shown_book : p.writer.desk.shown.value.book ≡ after J.opening p.history;
      spare_listed : IsListed J.loads p.writer.desk.spare.value.book (list_after [] p.last);
      spare_book : after p.writer.desk.spare.value.book (list_after [] p.last)
          ≡ after J.opening p.history;
      listed : IsListed J.loads J.opening p.history;
    } };
}

impl<J: Naming> Publisher<J> {
    /// Returns a publisher with no entry yet.
    pub(crate) fn new(writer: BookWriter<J>, history: History<J>) -> Publisher<J>
        requires empty { history ≡ [] }
        requires shown { (writer.desk.shown.value.front ≡ [])
            × (writer.desk.shown.value.book ≡ J.opening) }
        requires spare { writer.desk.spare.value.book ≡ J.opening }
        ensures { result ≡ [] }
    {
        Publisher {
            writer,
            last: None,
            history,
        }
    }

    /// Returns the present book.
    pub(crate) fn book(&self) -> &Book
        ensures book { result.now ≡ after J.opening self.now }
        ensures listed { IsListed J.loads J.opening self.now }
    {
        &self.writer.published().book
    }

    /// Returns the present list.
    pub(crate) fn front(&self) -> &Front<J>
        ensures { result.now ≡ self.now }
    {
        self.history.beginning()
    }

    /// Finds that a list that somebody knows is a beginning of the present one.
    pub(crate) fn covers(&mut self, known: &Front<J>)
        ensures begins { IsPrefix known.now self.new }
        ensures same { self.new ≡ self.old }
        ensures listed { IsListed J.loads J.opening self.new }
    {
        self.history.covers(known);
    }

    /// Finds that a list that somebody was told is a beginning of the present one.
    pub(crate) fn covers_heard(&mut self, heard: &Heard<J>)
        ensures begins { IsPrefix heard.now self.new }
        ensures same { self.new ≡ self.old }
    {
        self.history.covers_trace(&heard.trace);
    }

    /// Returns the present list, for sessions to learn.
    pub(crate) fn told(&self) -> Told<J>
        ensures told { result ≡ self.now }
        ensures listed { IsListed J.loads J.opening self.now }
    {
        Told::new(self.front().again())
    }

    /// Whether the list has as many entries as can be counted, 2^64 - 1.
    pub(crate) fn is_full(&self) -> bool
        ensures { MatchBool result (length self.now + 1 ≡ 2 ^ 64) (length self.now + 1 < 2 ^ 64) }
    {
        self.front().len() == u64::MAX
    }

    /// Adds an entry to the list and the published book. The call can't fail.
    #[tactic(auto, using(crate::proofs::Lists::legal_snoc))]
    pub(crate) fn show<R: Wait>(&mut self, rt: &R, entry: Entry)
        requires allowed { IsAllowed J.loads (after J.opening self.old) entry }
        requires room { length self.old + 1 < 2 ^ 64 }
        ensures list { self.new ≡ self.old ++ entry ∷ [] }
        ensures legal { IsMade (after J.opening self.old) entry → IsLegal J.opening self.old
            → IsLegal J.opening self.new }
        ensures listed { IsListed J.loads J.opening self.new }
    {
        let last = self.last;
        self.history.add(&entry);
        let step = Step {
            last,
            entry,
            front: self.history.beginning().again(),
        };
        show(&mut self.writer, rt, step);
        self.last = Some(entry);
    }

    /// Admits no more readers to the book, waits for those that read it, and returns the book.
    pub(crate) fn finish<R: Wait>(self, rt: &R) -> Book
        ensures book { result ≡ after J.opening self }
        ensures listed { IsListed J.loads J.opening self }
    {
        let Publisher {
            writer,
            last: _,
            history: _,
        } = self;
        let Shown { book, front: _ } = Box::into_inner(writer.take(rt));
        book
    }
}
