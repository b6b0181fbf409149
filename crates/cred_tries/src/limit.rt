//! The limit of failed tries.

ghost use Rattle.std.specs.Prelude.{◌≡◌, IfNone, IfSome};
ghost use Rattle.cred_tries.specs.Limits.{IsLimit};

use crate::count::MOST_TRIES;
use std::marker::Model;

/// The number of tries that may fail at a name until the next has to wait, 1 to 86.
#[derive(Clone, Copy, Debug, PartialEq, Eq)]
pub struct TryLimit {
    tries: u64,
}

impl Model for TryLimit {
    ghost use Rattle.std.specs.Prelude.{ℕ};
    ghost use Rattle.cred_tries.specs.Limits.{IsLimit};

    ghost Value = { ℕ };

    ghost view = { λ l. l.tries };

    ghost invariant = { λ l. IsLimit l.tries };

    ghost inverse = { λ tries. record { tries = tries } };
}

impl TryLimit {
    /// Returns a limit of so many tries, unless they are none or over 86.
    pub fn new(tries: u64) -> Option<TryLimit>
        ensures same { IfSome result (λ limit. limit ≡ tries) }
        ensures other { IfNone result (IsLimit tries → ⊥) }
    {
        if tries == 0 || tries > MOST_TRIES {
            return None;
        }
        Some(TryLimit { tries })
    }

    /// Returns the number of tries.
    pub fn tries(self) -> u64
        ensures same { result ≡ self }
        ensures limit { IsLimit result }
    {
        self.tries
    }
}
