//! Tries, their beginnings and their ends.

ghost use Rattle.std.specs.Prelude.{◌≡◌};

use cred_book::Name;
use std::marker::Model;

/// A try at a name that has begun.
///
/// A try can't be copied, and isn't `Drop`: [`Limiter::end`](crate::Limiter::end) alone uses it up.
#[derive(Debug)]
pub struct Try {
    pub(crate) name: Name,
}

impl Model for Try {
    ghost use Rattle.std.specs.Prelude.{List, ℕ};

    ghost Value = { List ℕ };

    ghost view = { λ t. t.name };
}

impl Try {
    /// Returns the name at which the try began.
    pub fn name(&self) -> Name
        ensures { result ≡ self.now }
    {
        self.name
    }
}

/// The answer to a request for a try.
#[derive(Debug)]
pub enum Turn {
    /// The try has begun.
    Begun(Try),
    /// As many tries run at the name as may fail there: the try may begin once one of them has
    /// ended.
    Waits,
    /// The try is too early by this many seconds, 1 to 900.
    Later(u64),
}

/// The end of a try.
#[derive(Clone, Copy, Debug, PartialEq, Eq)]
pub enum Ending {
    /// The password was right.
    Right,
    /// The password was wrong.
    Wrong,
    /// The password wasn't judged: a hash found no memory, or the account is gone.
    Unjudged,
}
