//! The names at which a try has to wait.

ghost use Rattle.std.specs.Prelude.{◌≡◌, ◌≤◌};
ghost use Rattle.cred_tries.specs.{Counts.most_tries, Limits.waits_among};

use crate::count::{Count, Place};
use cred_book::Name;
use std::collections::btree_map;
use std::marker::Model;

/// A name at which a try is too early.
#[derive(Clone, Copy, Debug)]
pub struct Wait {
    pub name: Name,
    /// The number of tries that have failed in a row, but at most the limit and ten.
    pub failed: u64,
    /// The seconds that are left of the wait, 1 to 900.
    pub seconds: u64,
}

/// The waits at all names, in the order of the names. [`Limiter::waits`](crate::Limiter::waits)
/// returns one.
#[derive(Drop)]
pub struct Waits<'a> {
    counts: btree_map::Iter<'a, Name, Count>,
    limit: u64,
    moment: u64,
}

impl<'a> Model for Waits<'a> {
    ghost use Rattle.std.specs.Prelude.{◌≤◌, List};
    ghost use Rattle.cred_tries.specs.{Counts.most_tries, Limits.waits_among};
    ghost use Rattle.cred_tries.specs.declared.waiting.Wait.{Wait};

    ghost Value = { List Wait };

    ghost view = { λ w. waits_among w.limit w.moment w.counts };

    ghost invariant = { λ w. w.limit ≤ most_tries };
}

impl<'a> Waits<'a> {
    /// Returns the waits among these counts at a moment.
    pub(crate) fn new(
        counts: btree_map::Iter<'a, Name, Count>,
        limit: u64,
        moment: u64,
    ) -> Waits<'a>
        requires { limit ≤ most_tries }
        ensures { result ≡ waits_among limit moment counts.entry }
    {
        Waits {
            counts,
            limit,
            moment,
        }
    }
}

impl Iterator for Waits<'_> {
    type Item = Wait;

    ghost use Rattle.std.specs.Iterator.{YieldsFirst, item_count};

    ghost next_gives = { YieldsFirst (λ w. w) };

    ghost remaining = { item_count (λ w. w) };

    fn next(&mut self) -> Option<Wait> {
        let (limit, moment) = (self.limit, self.moment);
        while let Some((name, count)) = self.counts.next() {
            if let Place::Early(seconds) = count.place(limit, moment) {
                return Some(Wait {
                    name: *name,
                    failed: count.remembered_failures(moment),
                    seconds,
                });
            }
        }
        None
    }
}
