//! The limiter of tries at all names.

ghost use Rattle.std.specs.Prelude.{◌≡◌, ◌≤◌, ◌<◌, ◌^◌, IfErr, IfOk, OnErr, OnOk, is_none, length};
ghost use Rattle.std.specs.FinMap as map;
ghost use Rattle.cred_tries.specs.Counts.{most_tries};
ghost use Rattle.cred_tries.specs.Limits.{IsFree, after_end, after_try, begin_outcome, count_at, forgive_outcome, new_limits, sending, waits_at};

use crate::clock::SteadyClock;
use crate::count::{Count, Place};
use crate::counts::Counts;
use crate::turn::{Ending, Try, Turn};
use crate::waiting::Waits;
use cred_book::Name;
use std::alloc::{AllocError, Global};
use std::marker::Model;

/// The limits on the tries at each account, by its name.
///
/// After as many failures in a row as the limit says, the next try at a name waits 1 s, then 2, 4
/// .. 512 and 900 s. A right answer and [`Limiter::forgive`] clear the failures, and so does a day
/// without another failure. Each try that runs may fail, and counts as if it had.
///
/// A limiter keeps a name only while tries run there or failures count, and [`Limiter::begin`]
/// alone allocates memory. Its caller begins no try at a name that has no account: no guess can be
/// right there.
#[derive(Drop)]
pub struct Limiter {
    limit: u64,
    clock: SteadyClock,
    counts: Counts,
}

impl Model for Limiter {
    ghost use Rattle.cred_tries.specs.Limits.{IsLimit, Limits, limits_code};

    ghost Value = { Limits };

    ghost coded = { limits_code };

    ghost view = { λ l. record {
      limit = l.limit;
      clock = l.clock;
      counts = l.counts;
    } };

    ghost invariant = { λ l. IsLimit l.limit };
}

impl Limiter {
    /// Returns a limiter that lets `limit` tries, 1 to 86, fail at a name before the next has to
    /// wait.
    pub fn new(alloc: Global, limit: u64) -> Limiter
        requires some { 0 < limit }
        requires few { limit ≤ most_tries }
        ensures { result ≡ new_limits limit }
    {
        Limiter {
            limit,
            clock: SteadyClock::new(),
            counts: Counts::new(alloc),
        }
    }

    /// Asks for a try at a name, at a reading of the clock in seconds.
    ///
    /// Errors: `AllocError` if memory runs out, only if nothing is counted at the name. Then
    /// nothing changes.
    pub fn begin(&mut self, name: &Name, now: u64) -> Result<Turn, AllocError>
        ensures asked { IfOk result
            (λ turn. (turn, self.new) ≡ begin_outcome self.old name.now now) }
        ensures memory { IfErr result (λ _. self.new ≡ self.old) }
        ensures absent { IfErr result (λ _. map.get self.old.counts name.now ≡ None) }
    {
        let moment = self.clock.moment(now);
        let count = self.count(name);
        let turn = match count.place(self.limit, moment) {
            Place::Free => {
                let begun = count.begun(self.limit, moment);
                self.counts.insert(*name, begun)?;
                Turn::Begun(Try { name: *name })
            }
            Place::Taken => Turn::Waits,
            Place::Early(seconds) => Turn::Later(seconds),
        };
        self.clock = self.clock.after(now);
        Ok(turn)
    }

    /// Ends a try, at a reading of the clock in seconds. If the try is of another limiter, the call
    /// ends a try of this limiter that runs at its name, or changes nothing if none runs there.
    pub fn end(&mut self, one: Try, now: u64, how: Ending)
        ensures { self.new ≡ after_end self.old one now how }
    {
        let Try { name } = one;
        let moment = self.clock.moment(now);
        if let Some(count) = self.counts.get(&name) {
            let ended = count.ended(self.limit, moment, how);
            self.counts.put(&name, ended);
        }
        self.clock = self.clock.after(now);
    }

    /// Returns the number of seconds, 1 to 900, by which a try at a name is too early, at a reading
    /// of the clock in seconds. The caller then sends the try away. For any other try, the call
    /// returns no number and changes nothing.
    pub fn sends_away(&mut self, name: &Name, now: u64) -> Option<u64>
        ensures { (result, self.new) ≡ sending self.old name.now now }
    {
        let moment = self.clock.moment(now);
        match self.count(name).place(self.limit, moment) {
            Place::Early(seconds) => {
                self.clock = self.clock.after(now);
                Some(seconds)
            }
            Place::Free | Place::Taken => None,
        }
    }

    /// Counts a try whose password was right, which began and ended at this reading of the clock.
    pub fn right(&mut self, name: &Name, now: u64)
        requires { IsFree self.old name.now now }
        ensures { self.new ≡ after_try self.old name.now now Ending.Right }
    {
        if self.is_clear(name) {
            self.clock = self.clock.after(now);
            return;
        }
        match self.judge(name, now, Ending::Right) {
            Ok(()) => {}
            Err(_) => unreachable!(),
        }
    }

    /// Counts a try whose password was wrong, which began and ended at this reading of the clock.
    ///
    /// Errors: `AllocError` if memory runs out, only if nothing is counted at the name. Then
    /// nothing changes.
    pub fn wrong(&mut self, name: &Name, now: u64) -> Result<(), AllocError>
        requires { IsFree self.old name.now now }
        ensures counted { OnOk result (self.new ≡ after_try self.old name.now now Ending.Wrong) }
        ensures memory { OnErr result (self.new ≡ self.old) }
        ensures absent { OnErr result (map.get self.old.counts name.now ≡ None) }
    {
        self.judge(name, now, Ending::Wrong)
    }

    /// Begins a try, and ends it at once.
    fn judge(&mut self, name: &Name, now: u64, how: Ending) -> Result<(), AllocError>
        requires { IsFree self.old name.now now }
        ensures counted { OnOk result (self.new ≡ after_try self.old name.now now how) }
        ensures memory { OnErr result (self.new ≡ self.old) }
        ensures absent { OnErr result (map.get self.old.counts name.now ≡ None) }
    {
        match self.begin(name, now)? {
            Turn::Begun(one) => {
                self.end(one, now, how);
                Ok(())
            }
            Turn::Waits | Turn::Later(_) => unreachable!(),
        }
    }

    /// Whether nothing is counted at a name.
    pub fn is_clear(&self, name: &Name) -> bool
        ensures { result ≡ is_none (map.get self.now.counts name.now) }
    {
        self.counts.get(name).is_none()
    }

    /// Returns the seconds that have passed by the clock, from reading to reading.
    pub fn passed(&self) -> u64
        ensures { result ≡ self.now.clock.passed }
    {
        self.clock.passed()
    }

    /// Forgives the failures at a name: tries wait no more. Tries that run go on. Returns whether
    /// any failures were counted.
    pub fn forgive(&mut self, name: &Name) -> bool
        ensures { (result, self.new) ≡ forgive_outcome self.old name.now }
    {
        match self.counts.get(name) {
            Some(count) => {
                self.counts.put(name, count.forgiven());
                count.has_failed()
            }
            None => false,
        }
    }

    /// Returns the waits at a reading of the clock in seconds: each name at which a try is too
    /// early.
    pub fn waits(&self, now: u64) -> Waits<'_>
        ensures waits { result ≡ waits_at self.now now }
        ensures few { length result < 2 ^ 63 }
    {
        Waits::new(self.counts.iter(), self.limit, self.clock.moment(now))
    }

    /// Returns the count of a name.
    fn count(&self, name: &Name) -> Count
        ensures { result ≡ count_at self.now name.now }
    {
        match self.counts.get(name) {
            Some(count) => count,
            None => Count::new(),
        }
    }
}
