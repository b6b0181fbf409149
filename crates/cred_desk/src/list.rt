//! The list of entries: a log in which each entry was allowed after those before it.

use crate::entry::Entry;
use crate::naming::Naming;
use grow_log::{Beginning, GrowLog, LogName};
use std::marker::PhantomData;

/// Names the log of a desk or of a committer.
pub(crate) struct Entries<J> {
    of: PhantomData<J>,
}

impl<J: Naming> LogName<Entry> for Entries<J> {
    ghost use Rattle.cred_desk.specs.Histories.{IsListed};

    ghost book = { J.list };

    ghost holds = { IsListed J.loads J.opening };
}

/// The whole list, to which its holder alone adds.
pub(crate) type History<J> = GrowLog<Entry, Entries<J>>;

/// A beginning of the list.
pub(crate) type Front<J> = Beginning<Entry, Entries<J>>;
