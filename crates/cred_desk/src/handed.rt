//! The entries that a desk has handed out of its journal, as a token of which one exists.

ghost use Rattle.std.specs.Prelude.{◌≡◌, [], length};

use crate::list::Front;
use crate::naming::{Handouts, Naming};
use std::fmt;
use std::marker::Model;
use std::sync::ledger::{Blank, Book as Total, Share};

/// The entries that a desk has handed out. Each desk has one such token. Nobody can copy or drop
/// it: the call that ends the desk takes it.
///
/// Contracts see it as the list of these entries.
pub struct Handed<J: Naming> {
    list: Front<J>,
    share: Share<Handouts<J>>,
}

impl<J: Naming> Model for Handed<J> {
    ghost use Rattle.std.specs.Prelude.{◌≡◌, List, length};
    ghost use Rattle.cred_desk.specs.declared.entry.Entry.{Entry};

    ghost Value = { List Entry };

    ghost view = { λ h. h.list };

    ghost invariant = { λ h. (h.share.parts ≡ 1) × (h.share.amount ≡ length h.list) };
}

impl<J: Naming> fmt::Debug for Handed<J> {
    fn fmt<W: fmt::Write>(&self, f: &mut fmt::Formatter<W>) -> fmt::Result {
        write!(f, "Handed {{ entries: {} }}", self.list.len())
    }
}

/// The desk's own half: the entries that it has handed out, as the token says too.
#[derive(Drop)]
pub(crate) struct Cut<J: Naming> {
    list: Front<J>,
    total: Total<Handouts<J>>,
}

impl<J: Naming> Model for Cut<J> {
    ghost use Rattle.std.specs.Prelude.{◌≡◌, List, length};
    ghost use Rattle.cred_desk.specs.declared.entry.Entry.{Entry};

    ghost Value = { List Entry };

    ghost view = { λ c. c.list };

    ghost invariant = { λ c. c.total.total ≡ length c.list };
}

impl<J: Naming> Cut<J> {
    /// Returns the desk's half before anything is handed out, with the token.
    pub(crate) fn open(blank: Blank, list: &Front<J>) -> (Cut<J>, Handed<J>)
        requires blank { (blank.name ≡ J.handouts) × (blank.parts ≡ 1) }
        requires empty { list.now ≡ [] }
        ensures cut { result.0 ≡ [] }
        ensures handed { result.1 ≡ [] }
    {
        let (total, share) = blank.open::<Handouts<J>>();
        let cut = Cut {
            list: list.again(),
            total,
        };
        let handed = Handed {
            list: list.again(),
            share,
        };
        (cut, handed)
    }

    /// Finds that this was handed out.
    fn meet(&mut self, handed: &mut Handed<J>)
        ensures met { handed.old ≡ self.old }
        ensures same { (self.new ≡ self.old) × (handed.new ≡ handed.old) }
    {
        self.total.audit(&mut handed.share);
        let _begins = self.list.begins(&handed.list);
    }

    /// Finds that this was handed out, and hands out the entries up to the end of this list.
    pub(crate) fn move_to(&mut self, handed: &mut Handed<J>, list: &Front<J>)
        ensures met { handed.old ≡ self.old }
        ensures cut { self.new ≡ list.now }
        ensures handed { handed.new ≡ list.now }
    {
        self.meet(handed);
        self.total.sub(&mut handed.share, self.list.len());
        self.total.add(&mut handed.share, list.len());
        self.list = list.again();
        handed.list = list.again();
    }

    /// Finds that this was handed out, and uses up the token.
    pub(crate) fn end(self, handed: Handed<J>)
        ensures { handed ≡ self }
    {
        let mut cut = self;
        let mut handed = handed;
        cut.meet(&mut handed);
        let Handed { list: _, share: _ } = handed;
    }
}
