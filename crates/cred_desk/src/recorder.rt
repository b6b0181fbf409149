//! The journal of a desk, beside its owner's writer.

ghost use Rattle.std.specs.Prelude.{◌≡◌, ◌++◌, ◌∷◌, [], MatchResult};
ghost use Rattle.cred_book.specs.declared.error.BookError.TheVariants.{Memory as memory};
ghost use Rattle.cred_desk.specs.Changes.{refusal_of};

use crate::entry::Entry;
use crate::handed::{Cut, Handed};
use crate::list::Front;
use crate::naming::Naming;
use crate::writer::{EntryWriter, KeepError};
use core::mem::replace;
use std::alloc::Global;
use std::marker::Model;

/// Hands each entry to the writer, and keeps those that weren't handed out yet. Contracts see a
/// recorder as the list of all entries.
pub(crate) struct Recorder<J: Naming, W: EntryWriter> {
    alloc: Global,
    /// The entries that were handed out.
    cut: Cut<J>,
    /// The entries after those that were handed out.
    journal: Vec<Entry>,
    writer: W,
}

impl<J: Naming, W: EntryWriter> Model for Recorder<J, W> {
    ghost use Rattle.std.specs.Prelude.{◌++◌, List};
    ghost use Rattle.cred_desk.specs.declared.entry.Entry.{Entry};

    ghost Value = { List Entry };

    ghost view = { λ r. r.cut ++ r.journal.items };

    ghost invariant = { λ r. W.keeps r.writer (r.cut ++ r.journal.items) };
}

impl<J: Naming, W: EntryWriter> Recorder<J, W> {
    /// Returns a recorder with no entry.
    pub(crate) fn new(alloc: Global, cut: Cut<J>, writer: W) -> Recorder<J, W>
        requires cut { cut ≡ [] }
        requires kept { W.keeps writer [] }
        ensures { result ≡ [] }
    {
        Recorder {
            alloc,
            cut,
            journal: Vec::new(alloc),
            writer,
        }
    }

    /// Reserves room in the journal, hands the entry to the writer, and keeps the entry.
    ///
    /// Errors: `Memory` if memory runs out, before the writer gets the entry; the writer's own
    /// error. The journal stays as it was then.
    pub(crate) fn take(&mut self, new: &Entry) -> Result<(), KeepError<W::Error>>
        ensures { MatchResult result (λ _. self.new ≡ self.old ++ new.entry.now ∷ [])
            (λ e. (self.new ≡ self.old) × (refusal_of e ≡ memory)) }
    {
        self.journal.reserve(1)?;
        self.writer.write(new).map_err(KeepError::Writer)?;
        self.journal.push_reserved(*new);
        Ok(())
    }

    /// Hands out the entries after those that were handed out before.
    pub(crate) fn hand_out(&mut self, handed: &mut Handed<J>, list: &Front<J>) -> Vec<Entry>
        requires { self.old ≡ list.now }
        ensures same { self.new ≡ self.old }
        ensures handed { handed.new ≡ self.new }
        ensures entries { handed.new ≡ handed.old ++ result.items }
    {
        self.cut.move_to(handed, list);
        replace(&mut self.journal, Vec::new(self.alloc))
    }

    /// Returns the entries after those that were handed out, and the writer.
    pub(crate) fn into_rest(self, handed: Handed<J>) -> (Vec<Entry>, W)
        ensures rest { self ≡ handed ++ result.0.items }
        ensures kept { W.keeps result.1 self }
    {
        let Recorder {
            alloc: _,
            cut,
            journal,
            writer,
        } = self;
        cut.end(handed);
        (journal, writer)
    }
}
