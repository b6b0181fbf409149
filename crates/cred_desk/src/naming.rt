//! The name of a list of entries, and the book that the list starts from.

ghost use Rattle.std.specs.Prelude.{◌≡◌, [], IfSome};

use crate::entry::Entry;
use crate::list::{Entries, History};
use grow_log::NewLog;
use std::marker::{Brand, Model, PhantomData};
use std::sync::ledger::{Blank, Ledger};

/// Names one desk or one committer. A function that is generic over it is called with `Brand`, and
/// that call picks the name.
pub trait Naming: Ledger {
    ghost use Rattle.std.specs.Prelude.{Bool, ℕ};
    ghost use Rattle.logbook.specs.Pages.{Book};
    ghost use Rattle.cred_book.specs.Accounts.{Accounts};

    /// The name of the list.
    ghost list: { Book };

    /// The ledger that counts the entries that the desk hands out of the list.
    ghost handouts: { ℕ };

    /// The opening book.
    ghost opening: { Accounts };

    /// Whether admissions, loads and deletions may stand in the list.
    ghost loads: { Bool };
}

impl Naming for Brand {
    ghost use Rattle.std.specs.Prelude.{false};
    ghost use Rattle.std.specs.FinMap as map;

    ghost list = { record { number = 0; log_name = 0; cells_name = 0 } };

    ghost handouts = { 0 };

    ghost opening = { map.empty };

    ghost loads = { false };
}

/// Names the ledger of what a desk hands out: one token has the whole of it.
pub(crate) struct Handouts<J> {
    of: PhantomData<J>,
}

impl<J: Naming> Ledger for Handouts<J> {
    ghost name = { J.handouts };

    ghost parts = { 1 };
}

/// An empty list, and the counts of what sessions do and of what is handed out, that no name stands
/// for yet.
#[derive(Drop)]
pub struct Opened {
    log: NewLog<Entry>,
    blank: Blank,
    handouts: Blank,
}

impl Model for Opened {
    ghost use Rattle.std.specs.Prelude.{◌≡◌};
    ghost use Rattle.cred_desk.specs.Naming.{NewList};

    ghost Value = { NewList };

    ghost view = { λ o. record {
      list = o.log;
      ledger = o.blank.name;
      sessions = o.blank.parts;
      handouts = o.handouts.name;
    } };

    ghost invariant = { λ o. o.handouts.parts ≡ 1 };
}

impl Opened {
    /// Returns an empty list for a desk or a committer with so many sessions.
    pub fn new(sessions: u8) -> Opened
        ensures { result.sessions ≡ sessions }
    {
        Opened {
            log: NewLog::new(),
            blank: Blank::new(u64::from(sessions)),
            handouts: Blank::new(1),
        }
    }

    /// Returns the list under a name, if nobody holds it yet, and the blanks from which the two
    /// counts are opened.
    pub(crate) fn named<J: Naming>(self) -> (Option<History<J>>, Blank, Blank)
        requires { self.list ≡ J.list }
        ensures list { IfSome result.0 (λ list. list ≡ []) }
        ensures sessions { (result.1.name ≡ self.ledger) × (result.1.parts ≡ self.sessions) }
        ensures handouts { (result.2.name ≡ self.handouts) × (result.2.parts ≡ 1) }
    {
        let Opened {
            log,
            blank,
            handouts,
        } = self;
        (log.named::<Entries<J>>(), blank, handouts)
    }
}
