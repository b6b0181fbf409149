//! Beginnings of a log, as tokens that any thread may hold and copy.

ghost use Rattle.std.specs.Prelude.{◌≡◌, [], length, MatchBool};
ghost use mathlib.Core.List.{IsPrefix};
ghost use Rattle.grow_log.specs.{Beginnings.IsLonger, Links.entries_of};

use crate::naming::LogName;
use crate::rule::Links;
use crate::trace::Trace;
use std::marker::{Model, PhantomData};

/// A beginning of the log, which contracts see as its entries.
#[derive(Drop)]
pub struct Beginning<T, N: LogName<T>> {
    entries: u64,
    seen: Links<T>,
    of: PhantomData<N>,
}

impl<T, N: LogName<T>> Model for Beginning<T, N> {
    ghost use Rattle.std.specs.Prelude.{◌≡◌, List, length};
    ghost use Rattle.grow_log.specs.Links.{entries_of};

    ghost Value = { List T };

    ghost view = { λ b. entries_of b.seen.log };

    ghost invariant = { λ b. (b.entries ≡ length (entries_of b.seen.log))
        × (b.seen.book ≡ N.book)
        × N.holds (entries_of b.seen.log) };
}

impl<T, N: LogName<T>> Beginning<T, N> {
    /// Returns the beginning that was seen so far, which has so many entries.
    pub(crate) fn of(seen: Links<T>, entries: u64) -> Beginning<T, N>
        requires book { seen.book ≡ N.book }
        requires length { entries ≡ length (entries_of seen.log) }
        requires holds { N.holds (entries_of seen.log) }
        ensures { result ≡ entries_of seen.log }
    {
        Beginning {
            entries,
            seen,
            of: PhantomData,
        }
    }

    /// Returns the evidence, for contracts alone, that the log begins with these entries.
    pub fn trace(&self) -> Trace<T, N>
        ensures { result ≡ self.now }
    {
        Trace::of(self.seen.again())
    }

    /// Returns the number of its entries.
    pub fn len(&self) -> u64
        ensures length { result ≡ length self.now }
        ensures holds { N.holds self.now }
    {
        self.entries
    }

    /// Copies the beginning.
    pub fn again(&self) -> Beginning<T, N>
        ensures same { result ≡ self.now }
        ensures holds { N.holds self.now }
    {
        Beginning {
            entries: self.entries,
            seen: self.seen.again(),
            of: PhantomData,
        }
    }

    /// Whether the other one begins with this one. Of two beginnings of one log the shorter begins
    /// the longer, so it is enough to compare lengths.
    pub fn begins(&self, other: &Beginning<T, N>) -> bool
        ensures which { MatchBool result (IsPrefix self.now other.now)
            (IsLonger other.now self.now) }
        ensures holds { N.holds other.now }
    {
        let mut both = self.seen.again();
        both.learn(&other.seen);
        self.entries <= other.entries
    }
}
