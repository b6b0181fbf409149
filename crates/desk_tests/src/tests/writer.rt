//! The writer of a desk in these tests.

use cred_desk::{Entry, EntryWriter};
use std::alloc::Global;

/// A writer that keeps entries, as long as there is memory.
#[derive(Drop)]
pub(super) struct Log {
    pub(super) entries: Vec<Entry>,
}

/// The log refused an entry.
#[derive(Clone, Copy, Debug, PartialEq, Eq)]
pub(super) struct Refused;

impl Log {
    ghost use Rattle.std.specs.Prelude.{◌≡◌, []};

    /// Returns a log with no entry.
    pub(super) fn new(alloc: Global) -> Log
        ensures { result.entries.items ≡ [] }
    {
        Log {
            entries: Vec::new(alloc),
        }
    }
}

impl EntryWriter for Log {
    ghost use Rattle.std.specs.Prelude.{◌≡◌};

    type Error = Refused;

    ghost keeps = { λ log list. log.entries.items ≡ list };

    fn write(&mut self, new: &Entry) -> Result<(), Refused> {
        let Entry { name, now } = *new;
        if self.entries.reserve(1).is_err() {
            return Err(Refused);
        }
        self.entries.push_reserved(Entry { name, now });
        Ok(())
    }
}
