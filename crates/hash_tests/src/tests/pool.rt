//! Tests of `cred_pool`: that a thread works each part once, while the gate has the part inside. As
//! many parts are worked side by side as there are workers for, and no more.
ghost use Rattle.std.specs.Prelude.{◌≤◌, ⊤};

use cred_pool::{Gate, Part, run_parts};
use std::sync::atomic::{AtomicU64, Ordering};
use std::thread::Threads;
use test_samples::{Crowd, Visits};

/// A part that counts how often it was worked.
#[derive(Clone, Copy)]
struct Tally {
    worked: u64,
}

impl Part<u64> for Tally {
    ghost can_work = { λ _ _. ⊤ };

    ghost works = { λ _ _ _. ⊤ };

    fn work(&mut self, shared: &u64) {
        self.worked = self.worked.wrapping_add(*shared);
    }
}

/// Returns the visits that a gate counts of parts that so many workers share, and whether each part
/// was worked once. The gate waits for `wanted` parts to be inside at once.
fn seen<R: Threads + Sync>(rt: &R, count: usize, workers: u8, wanted: u64) -> (Visits, bool) {
    let gate = Crowd::new(count as u64, wanted);
    let mut parts = [Tally { worked: 0 }; 9];
    run_parts(rt, workers, &gate, &1, &mut parts[..count.min(9)]);
    (gate.visits(), are_worked_once(&parts, count))
}

/// Whether the first parts were worked once, and no other.
fn are_worked_once(parts: &[Tally; 9], count: usize) -> bool {
    for (i, part) in parts.iter().enumerate() {
        if part.worked != u64::from(i < count) {
            return false;
        }
    }
    true
}

/// A gate that counts the parts that are inside, for the parts to see.
#[derive(Drop)]
struct Door<'a> {
    inside: &'a AtomicU64,
}

impl<'a> Gate for Door<'a> {
    fn enter(&self, _part: usize) {
        self.inside.fetch_add(1, Ordering::SeqCst);
    }

    fn leave(&self, _part: usize) {
        self.inside.fetch_sub(1, Ordering::SeqCst);
    }
}

/// A part that sees in its work how many parts are inside.
#[derive(Clone, Copy)]
struct Watcher {
    inside: u64,
}

impl Part<AtomicU64> for Watcher {
    ghost can_work = { λ _ _. ⊤ };

    ghost works = { λ _ _ _. ⊤ };

    fn work(&mut self, shared: &AtomicU64) {
        self.inside = shared.load(Ordering::SeqCst);
    }
}

#[test]
fn two_lanes_meet(rt: HostRuntime) {
    let gate = Crowd::new(2, 2);
    let mut parts = [Tally { worked: 0 }; 2];
    run_parts(&rt, 2, &gate, &1, &mut parts);
    assert_eq!(rt; gate.visits(), Visits::of(2, 2, 1));
}

/// Parts, workers, and how many parts are inside at once: as many as there are runs.
const DEALT: [(usize, u8, u64); 10] = [
    (0, 2, 0),
    (1, 9, 1),
    (2, 255, 2),
    (5, 0, 1),
    (9, 1, 1),
    (4, 3, 2),
    (8, 3, 3),
    (8, 5, 4),
    (7, 8, 7),
    (8, 8, 8),
];

#[test]
fn each_part_once_by_the_workers(rt: HostRuntime) {
    for (count, workers, at_once) in DEALT {
        let want = (Visits::of(at_once, count, 1), true);
        assert_eq!(rt;
            seen(&rt, count, workers, at_once),
            want,
            "{count} by {workers}"
        );
    }
}

#[test]
fn works_inside(rt: HostRuntime) {
    let inside = AtomicU64::new(0);
    let mut parts = [Watcher { inside: 7 }; 2];
    run_parts(&rt, 1, &Door { inside: &inside }, &inside, &mut parts);
    let [a, b] = parts;
    assert_eq!(rt; [a.inside, b.inside], [1, 1]);
}
