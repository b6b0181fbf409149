//! The trace of a beginning, which contracts alone see.

ghost use Rattle.std.specs.Prelude.{◌≡◌};
ghost use Rattle.grow_log.specs.Links.{entries_of};

use crate::naming::LogName;
use crate::rule::Links;
use std::marker::{Model, PhantomData};

/// The evidence that the log begins with a list. It has no bytes: contracts alone see which list
/// that is.
#[derive(Drop)]
pub struct Trace<T, N: LogName<T>> {
    seen: Links<T>,
    of: PhantomData<N>,
}

impl<T, N: LogName<T>> Model for Trace<T, N> {
    ghost use Rattle.std.specs.Prelude.{◌≡◌, List};
    ghost use Rattle.grow_log.specs.Links.{entries_of};

    ghost Value = { List T };

    ghost view = { λ t. entries_of t.seen.log };

    ghost invariant = { λ t. t.seen.book ≡ N.book };
}

impl<T, N: LogName<T>> Trace<T, N> {
    pub(crate) fn of(seen: Links<T>) -> Trace<T, N>
        requires { seen.book ≡ N.book }
        ensures { result ≡ entries_of seen.log }
    {
        Trace {
            seen,
            of: PhantomData,
        }
    }

    /// Returns the links that were seen.
    pub(crate) fn seen(&self) -> Links<T>
        ensures entries { entries_of result.log ≡ self.now }
        ensures book { result.book ≡ N.book }
    {
        self.seen.again()
    }
}
