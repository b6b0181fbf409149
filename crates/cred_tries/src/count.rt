//! The count of one name.

ghost use Rattle.std.specs.Prelude.{◌≡◌, ◌≤◌, ◌+◌, min};
ghost use Rattle.cred_tries.specs.Counts.{count_begun, count_ended, count_forgiven, has_failed, is_nothing, most_tries, nothing, place_of, remembered_failures, short_waits, wait};

use crate::turn::Ending;

/// The seconds after which the limiter forgets failures, if no other comes: a day.
const DAY: u64 = 86400;

/// The longest wait: a quarter of an hour, in seconds.
const LONGEST_WAIT: u64 = 900;

/// The number of waits that are shorter than the longest: 1, 2, 4 .. 512 s.
const SHORT_WAITS: u64 = 10;

/// The greatest limit. This limit and the number of short waits are together 96, as many as a day
/// has longest waits. So a guesser who rests for a day, until the limiter forgets the failures,
/// gains no tries.
pub const MOST_TRIES: u64 = 86;

/// The tries at one name: how many have failed in a row, how many run, and the moment of the last
/// failure in that row. The moment is 0 if none has failed.
#[derive(Clone, Copy, Debug)]
pub(crate) struct Count {
    failed: u64,
    running: u64,
    last: u64,
}

/// A place for a try, or why none is free.
#[derive(Clone, Copy, Debug)]
pub(crate) enum Place {
    /// A try may begin.
    Free,
    /// As many tries run as may run.
    Taken,
    /// The try is too early by this many seconds.
    Early(u64),
}

impl Count {
    /// Returns a count of no tries.
    pub(crate) const fn new() -> Count
        ensures { result ≡ nothing }
    {
        Count {
            failed: 0,
            running: 0,
            last: 0,
        }
    }

    /// Whether this is the count of no tries.
    pub(crate) fn is_nothing(self) -> bool
        ensures { result ≡ is_nothing self }
    {
        self.failed == 0 && self.running == 0 && self.last == 0
    }

    /// Whether any failures are counted.
    pub(crate) fn has_failed(self) -> bool
        ensures { result ≡ has_failed self }
    {
        self.failed > 0
    }

    /// Returns the place for a try at the moment `now`.
    pub(crate) fn place(self, limit: u64, now: u64) -> Place
        requires { limit ≤ most_tries }
        ensures { result ≡ place_of limit self now }
    {
        let failed = self.remembered_failures(now);
        if failed < limit {
            if self.running < limit - failed {
                return Place::Free;
            }
            return Place::Taken;
        }
        if self.running > 0 {
            return Place::Taken;
        }
        let passed = now.saturating_sub(self.last);
        let wait = wait(failed - limit);
        if passed < wait {
            return Place::Early(wait - passed);
        }
        Place::Free
    }

    /// Returns the count once a try has begun in a free place.
    pub(crate) fn begun(self, limit: u64, now: u64) -> Count
        requires few { limit ≤ most_tries }
        requires free { place_of limit self now ≡ Place.Free }
        ensures { result ≡ count_begun self }
    {
        Count {
            running: self.running + 1,
            ..self
        }
    }

    /// Returns the count once a try has ended at the moment `now`. If none runs, the count stays as
    /// it is.
    pub(crate) fn ended(self, limit: u64, now: u64, how: Ending) -> Count
        requires { limit ≤ most_tries }
        ensures { result ≡ count_ended limit self now how }
    {
        if self.running == 0 {
            return self;
        }
        let running = self.running - 1;
        match how {
            Ending::Right => Count {
                failed: 0,
                running,
                last: 0,
            },
            Ending::Wrong => Count {
                failed: self.one_more_failure(limit, now),
                running,
                last: now,
            },
            Ending::Unjudged => Count { running, ..self },
        }
    }

    /// Returns the count once the failures are forgiven.
    pub(crate) fn forgiven(self) -> Count
        ensures { result ≡ count_forgiven self }
    {
        Count {
            failed: 0,
            running: self.running,
            last: 0,
        }
    }

    /// Returns the failures in a row with one more, up to the number above which waits don't get
    /// longer.
    fn one_more_failure(self, limit: u64, now: u64) -> u64
        requires { limit ≤ most_tries }
        ensures { result ≡ min (remembered_failures self now + 1) (limit + short_waits) }
    {
        let failed = self.remembered_failures(now);
        let most = limit + SHORT_WAITS;
        if failed < most { failed + 1 } else { most }
    }

    /// Returns the failures in a row that aren't forgotten at the moment `now`.
    pub(crate) fn remembered_failures(self, now: u64) -> u64
        ensures { result ≡ remembered_failures self now }
    {
        if now >= self.last && now - self.last >= DAY {
            0
        } else {
            self.failed
        }
    }
}

/// Returns the seconds that the next try waits after so many failures more than the limit.
fn wait(more: u64) -> u64
    ensures { result ≡ wait more }
{
    if more < SHORT_WAITS {
        (1u64 << more).min(LONGEST_WAIT)
    } else {
        LONGEST_WAIT
    }
}
