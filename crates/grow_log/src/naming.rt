//! The name of a log, and the property of its entries.

ghost use Rattle.std.specs.Prelude.{◌≡◌, [], IfSome};

use crate::log::GrowLog;
use crate::rule::{Links, Place};
use logbook::{Seen, Start, Word};
use std::marker::{Brand, Model};

/// Names one log. A function that is generic over it is called with `Brand`, and that call picks
/// the name.
pub trait LogName<T> {
    ghost use Rattle.std.specs.Prelude.{List};
    ghost use Rattle.logbook.specs.Pages.{Book};

    /// The name of the log.
    ghost book: { Book };

    /// The property of its entries, however many it has yet.
    ghost holds: { List T → Type 0 };
}

impl<T> LogName<T> for Brand {
    ghost book = { record { number = 0; log_name = 0; cells_name = 0 } };

    ghost holds = { λ _. Unit {0} };
}

/// An empty log that no name stands for yet. Contracts see which log it is.
#[derive(Drop)]
pub struct NewLog<T> {
    head: Place<T>,
    seen: Links<T>,
}

impl<T> Model for NewLog<T> {
    ghost use Rattle.std.specs.Prelude.{◌≡◌, []};
    ghost use Rattle.logbook.specs.Pages.{Book};
    ghost use Rattle.grow_log.specs.Links.{head_of};

    ghost Value = { Book };

    ghost view = { λ n. n.seen.book };

    ghost invariant = { λ n. (n.seen.log ≡ []) × (n.head ≡ head_of n.seen.book) };
}

impl<T> NewLog<T> {
    /// Returns a log that nobody holds yet.
    pub fn new() -> NewLog<T> {
        let (seen, mut first, _second) = Seen::open(Start::alone(), 0, 0);
        NewLog {
            head: Word::tracked(0, &mut first),
            seen,
        }
    }

    /// Returns the log under a name, or `None` if somebody already holds the log, which never
    /// occurs.
    pub fn named<N: LogName<T>>(self) -> Option<GrowLog<T, N>>
        requires name { self ≡ N.book }
        requires holds { N.holds [] }
        ensures { IfSome result (λ log. log ≡ []) }
    {
        let NewLog { head, seen } = self;
        GrowLog::open(head, seen)
    }
}
