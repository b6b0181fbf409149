//! A gate that counts the parts that arrive.
use cred_pool::Gate;
use std::array;
use std::sync::atomic::{AtomicU64, Ordering};

/// The number of parts that are counted individually.
const PARTS: usize = 9;

/// The turns that a part waits for others before the test gives up.
const TURNS: u64 = 1_000_000_000;

/// The turns that a part waits for one part too many: a millisecond or more.
const MOMENT: u64 = 2_000_000;

/// Counts how often each of the first nine parts enters and leaves, and how many were inside at
/// once at most. In each round, each part enters once. The gate holds parts back until the wanted
/// number are inside at once. Then it holds each part for a moment more, so that one too many has
/// time to arrive.
#[derive(Drop)]
pub struct Crowd {
    parts: u64,
    wanted: u64,
    inside: AtomicU64,
    most: AtomicU64,
    arrived: AtomicU64,
    late: AtomicU64,
    entered: [AtomicU64; PARTS],
    left: [AtomicU64; PARTS],
}

/// The visits that a crowd has counted.
#[derive(Clone, Copy, Debug, PartialEq, Eq)]
pub struct Visits {
    /// The most parts that were inside at once.
    pub most: u64,
    /// The number of times that a part waited in vain.
    pub late: u64,
    /// The number of times that each of the first nine parts entered.
    pub entered: [u64; PARTS],
    /// The number of times that each of them left.
    pub left: [u64; PARTS],
}

impl Visits {
    /// Returns the counts of a run in which each of the first `parts` parts entered and left this
    /// many `times`, and none waited in vain.
    pub fn of(most: u64, parts: usize, times: u64) -> Visits {
        let mut each = [0; PARTS];
        for part in 0..parts.min(PARTS) {
            each[part] = times;
        }
        Visits {
            most,
            late: 0,
            entered: each,
            left: each,
        }
    }
}

impl Crowd {
    /// Returns a gate that none of so many parts has entered, and that waits for `wanted` of them
    /// to be inside at once.
    pub fn new(parts: u64, wanted: u64) -> Crowd {
        Crowd {
            parts,
            wanted,
            inside: AtomicU64::new(0),
            most: AtomicU64::new(0),
            arrived: AtomicU64::new(0),
            late: AtomicU64::new(0),
            entered: array::from_fn(|_| AtomicU64::new(0)),
            left: array::from_fn(|_| AtomicU64::new(0)),
        }
    }

    /// Returns the visits so far.
    pub fn visits(&self) -> Visits {
        Visits {
            most: self.most.load(Ordering::SeqCst),
            late: self.late.load(Ordering::SeqCst),
            entered: counts(&self.entered),
            left: counts(&self.left),
        }
    }
}

impl Gate for Crowd {
    fn enter(&self, part: usize) {
        let round = add(&self.entered, part);
        let inside = self.inside.fetch_add(1, Ordering::SeqCst).wrapping_add(1);
        self.most.fetch_max(inside, Ordering::SeqCst);
        self.arrived.fetch_add(1, Ordering::SeqCst);
        let due = self.parts.wrapping_mul(round).wrapping_add(self.wanted);
        wait(&self.arrived, due, TURNS);
        if self.arrived.load(Ordering::SeqCst) < due {
            self.late.fetch_add(1, Ordering::SeqCst);
        }
        wait(&self.most, self.wanted.wrapping_add(1), MOMENT);
    }

    fn leave(&self, part: usize) {
        self.inside.fetch_sub(1, Ordering::SeqCst);
        add(&self.left, part);
    }
}

/// Waits for the count, at most this many turns.
fn wait(count: &AtomicU64, wanted: u64, turns: u64) {
    for _ in 0..turns {
        if count.load(Ordering::SeqCst) >= wanted {
            return;
        }
    }
}

/// Adds one to the count of a part, and returns the count before.
fn add(counts: &[AtomicU64; PARTS], part: usize) -> u64 {
    match counts.get(part) {
        Some(count) => count.fetch_add(1, Ordering::SeqCst),
        None => 0,
    }
}

fn counts(of: &[AtomicU64; PARTS]) -> [u64; PARTS] {
    let mut counts = [0; PARTS];
    for i in 0..PARTS {
        counts[i] = of[i].load(Ordering::SeqCst);
    }
    counts
}
