//! The progress of a script's reading.

ghost use Rattle.std.specs.Prelude.{◌≡◌, [], ◌∷◌, ◌++◌, ◌≤◌, take};
ghost use Rattle.cred_cli.specs.{Events.most_kept, Outcome.longest_script};

use crate::event::LONGEST_LINE;
use std::marker::Model;

/// The size of the longest script in bytes.
pub(crate) const LONGEST_SCRIPT: u64 = 1048576;

/// The maximum number of bytes that are kept of a line: one more than a good line may have. A
/// longer line is refused, whatever follows.
const KEPT: usize = LONGEST_LINE + 1;

/// The line that is being read, as far as it is kept.
#[derive(Drop)]
pub struct LineStart {
    bytes: [u8; KEPT],
    len: usize,
}

impl Model for LineStart {
    ghost use Rattle.std.specs.Prelude.{◌≡◌, ◌≤◌, List, ℕ, length, take};
    ghost use Rattle.cred_cli.specs.Events.{most_kept};

    ghost Value = { List ℕ };

    ghost view = { λ l. take l.len l.bytes };

    ghost invariant = { λ l. (l.len ≤ most_kept) × (length l.bytes ≡ most_kept) };
}

impl LineStart {
    pub fn new() -> LineStart
        ensures { result ≡ [] }
    {
        LineStart {
            bytes: [0; KEPT],
            len: 0,
        }
    }

    pub fn push(&mut self, byte: u8)
        ensures { self.new ≡ take most_kept (self.old ++ byte ∷ []) }
    {
        if self.len < KEPT {
            self.bytes[self.len] = byte;
            self.len += 1;
        }
    }

    pub fn clear(&mut self)
        ensures { self.new ≡ [] }
    {
        self.len = 0;
    }

    pub fn bytes(&self) -> &[u8]
        ensures { result.now ≡ self.now }
    {
        &self.bytes[..self.len]
    }
}

/// The bytes and lines that were read so far.
#[derive(Drop)]
pub(crate) struct Progress {
    /// The line that has no end yet.
    pub(crate) start: LineStart,
    /// The number of answered lines.
    pub(crate) lines: u64,
    /// The number of bytes that were read.
    pub(crate) taken: u64,

    ghost fewer_lines: { lines ≤ taken },
    ghost not_too_long: { taken ≤ longest_script },
}

impl Progress {
    pub(crate) fn new() -> Progress
        ensures start { result.start ≡ [] }
        ensures lines { result.lines ≡ 0 }
        ensures taken { result.taken ≡ 0 }
    {
        Progress {
            start: LineStart::new(),
            lines: 0,
            taken: 0,
        }
    }
}
