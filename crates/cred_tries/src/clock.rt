//! A clock that never goes back, over one that may.

ghost use Rattle.std.specs.Prelude.{◌≡◌};
ghost use Rattle.cred_tries.specs.Clocks.{after_reading, moment};

/// The seconds by which another clock has gone forward. No second passes when that clock is set
/// back.
#[derive(Clone, Copy, Debug)]
pub(crate) struct SteadyClock {
    /// The last reading of the other clock.
    reading: u64,
    /// The seconds that the other clock went forward until that reading.
    passed: u64,
}

impl SteadyClock {
    /// Returns a clock on which no time has passed.
    pub(crate) const fn new() -> SteadyClock
        ensures { result ≡ record { reading = 0; passed = 0 } }
    {
        SteadyClock {
            reading: 0,
            passed: 0,
        }
    }

    /// Returns the seconds until the last reading.
    pub(crate) const fn passed(self) -> u64
        ensures { result ≡ self.passed }
    {
        self.passed
    }

    /// Returns the moment at which the other clock reads `now`.
    pub(crate) fn moment(self, now: u64) -> u64
        ensures { result ≡ moment self now }
    {
        let forward = now.saturating_sub(self.reading);
        self.passed.saturating_add(forward)
    }

    /// Returns the clock after that reading.
    pub(crate) fn after(self, now: u64) -> SteadyClock
        ensures { result ≡ after_reading self now }
    {
        SteadyClock {
            reading: now,
            passed: self.moment(now),
        }
    }
}
