//! The list that a session is told after a change.

ghost use Rattle.std.specs.Prelude.{◌≡◌, length};

use crate::entry::Entry;
use crate::list::{Entries, Front};
use crate::naming::Naming;
use grow_log::Trace;
use std::fmt;
use std::marker::Model;

/// The list of entries after a commit. A session that learns it reads no older book
/// from then on.
#[derive(Drop)]
pub struct Told<J: Naming> {
    front: Front<J>,
}

impl<J: Naming> Model for Told<J> {
    ghost use Rattle.std.specs.Prelude.{List};
    ghost use Rattle.cred_desk.specs.declared.entry.Entry.{Entry};

    ghost Value = { List Entry };

    ghost view = { λ t. t.front };
}

impl<J: Naming> fmt::Debug for Told<J> {
    fn fmt<W: fmt::Write>(&self, f: &mut fmt::Formatter<W>) -> fmt::Result {
        write!(f, "Told {{ changes: {} }}", self.front.len())
    }
}

impl<J: Naming> Told<J> {
    pub(crate) fn new(front: Front<J>) -> Told<J>
        ensures { result ≡ front }
    {
        Told { front }
    }

    /// Returns the number of entries of the list.
    pub fn len(&self) -> u64
        ensures { result ≡ length self.now }
    {
        self.front.len()
    }

    /// Returns the evidence that somebody was told this list, for `KeptDesk::tell`.
    pub fn heard(&self) -> Heard<J>
        ensures { result ≡ self.now }
    {
        Heard {
            trace: self.front.trace(),
        }
    }

    pub(crate) fn front(&self) -> &Front<J>
        ensures { result.now ≡ self.now }
    {
        &self.front
    }
}

/// The evidence that somebody was told a list. The evidence has no bytes: contracts alone see the
/// list, so the effect of a call with it doesn't depend on the list.
#[derive(Drop)]
pub struct Heard<J: Naming> {
    pub(crate) trace: Trace<Entry, Entries<J>>,
}

impl<J: Naming> Model for Heard<J> {
    ghost use Rattle.std.specs.Prelude.{List};
    ghost use Rattle.cred_desk.specs.declared.entry.Entry.{Entry};

    ghost Value = { List Entry };

    ghost view = { λ h. h.trace };
}
