//! The whole log, to which its holder alone adds.

ghost use Rattle.std.specs.Prelude.{◌≡◌, ◌+◌, ◌<◌, ◌^◌, ◌++◌, ◌∷◌, [], length, IfSome};
ghost use mathlib.Core.List.{IsPrefix};
ghost use Rattle.logbook.specs.Pages.{may_write};
ghost use Rattle.grow_log.specs.Links.{head_of};

use crate::beginning::Beginning;
use crate::naming::LogName;
use crate::rule::{Adding, Asks, Begin, Fill, Links, Look, Nothing, Place, Reserve, Update};
use crate::trace::Trace;
use logbook::{Pen, Word};
use std::marker::Model;

/// The whole log, which contracts see as its entries: nobody else can add to it.
#[derive(Drop)]
pub struct GrowLog<T, N: LogName<T>> {
    head: Place<T>,
    /// The pen of the place of the next entry.
    pen: Pen,
    seen: Links<T>,
    beginning: Beginning<T, N>,
}

impl<T, N: LogName<T>> Model for GrowLog<T, N> {
    ghost use Rattle.std.specs.Prelude.{◌≡◌, List};
    ghost use Rattle.grow_log.specs.Links.{IsPenAfter, entries_of, head_of};

    ghost Value = { List T };

    ghost view = { λ l. l.beginning };

    ghost invariant = { λ l. record {
      head_of_log : l.head ≡ head_of N.book;
      pen_of_log : l.pen.book ≡ N.book;
      pen_at_end : IsPenAfter l.seen.log l.pen.nib;
      seen_of_log : l.seen.book ≡ N.book;
      beginning_is_whole : l.beginning ≡ entries_of l.seen.log;
    } };
}

impl<T, N: LogName<T>> GrowLog<T, N> {
    /// Returns the log with no entry, if nobody holds it yet.
    pub(crate) fn open(head: Place<T>, seen: Links<T>) -> Option<GrowLog<T, N>>
        requires head { head ≡ head_of N.book }
        requires book { seen.book ≡ N.book }
        requires holds { N.holds [] }
        ensures { IfSome result (λ log. log ≡ []) }
    {
        let mut seen = seen;
        let next = make_place(&head, &mut seen);
        let mut offer: Update<T> = seen.plain::<Nothing, Pen, Asks>(&next);
        let mut none = seen.no_pen();
        let found = head.compare_exchange::<Begin, Nothing>(0, 1, &mut seen, &mut offer, &mut none);
        if found != 0 {
            return None;
        }
        let beginning = Beginning::of(seen.again(), 0);
        Some(GrowLog {
            head,
            pen: next,
            seen,
            beginning,
        })
    }

    /// Returns all entries so far, for others to copy.
    pub fn beginning(&self) -> &Beginning<T, N>
        ensures { result.now ≡ self.now }
    {
        &self.beginning
    }

    /// Finds that what somebody holds is a beginning of this log.
    pub fn covers(&mut self, known: &Beginning<T, N>)
        ensures begins { IsPrefix known.now self.new }
        ensures same { self.new ≡ self.old }
    {
        self.covers_trace(&known.trace());
    }

    /// Finds that a token for contracts alone, which somebody holds, is of a beginning of this log.
    pub fn covers_trace(&mut self, known: &Trace<T, N>)
        ensures begins { IsPrefix known.now self.new }
        ensures same { self.new ≡ self.old }
    {
        let mut seen = self.seen.again();
        seen.learn(&known.seen());
        let mut offer: Update<T> = seen.plain::<Nothing, (), Asks>(&());
        self.head
            .compare_exchange::<Look, Nothing>(0, 0, &mut seen, &mut offer, &mut self.pen);
    }

    /// Adds an entry.
    pub fn add(&mut self, entry: &T)
        requires room { length self.old + 1 < 2 ^ 64 }
        requires holds { N.holds self.old → N.holds (self.old ++ entry.now ∷ []) }
        ensures { self.new ≡ self.old ++ entry.now ∷ [] }
    {
        let mut seen = self.seen.again();
        let next = make_place(&self.head, &mut self.seen.again());
        let adding = Adding { entry, next: &next };
        let mut offer: Update<T> = seen.plain::<Nothing, Adding<'_, T>, Asks>(&adding);
        self.head
            .compare_exchange::<Fill, Nothing>(0, 1, &mut seen, &mut offer, &mut self.pen);
        self.pen = next;
        self.beginning = Beginning::of(seen.again(), self.beginning.len() + 1);
        self.seen = seen;
    }
}

/// Reserves a place where a link may go, and returns its pen.
fn make_place<T>(head: &Place<T>, seen: &mut Links<T>) -> Pen
    requires head { head.now ≡ head_of seen.old.book }
    ensures seen { (seen.new.book ≡ seen.old.book) × IsPrefix seen.old.log seen.new.log }
    ensures pen { (result.book ≡ seen.old.book) × (result.nib.right ≡ may_write) }
{
    let mut offer: Update<T> = seen.plain::<Nothing, (), Asks>(&());
    let mut pen = seen.no_pen();
    head.compare_exchange::<Reserve, Nothing>(0, 0, seen, &mut offer, &mut pen);
    let _place: Place<T> = Word::tracked(0, &mut pen);
    pen
}
