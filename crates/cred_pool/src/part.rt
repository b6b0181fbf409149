//! One part of the work, and the run that works each part once.
ghost use Rattle.std.specs.Prelude.{ℕ, ◌<◌, ◌+◌, ◌^◌, ◌≡◌, length, slice_index_or};
ghost use denote.Param.Send.{IsSync, IsSend};

use crate::gate::Gate;
use std::marker::{Send, Sync};
use std::thread;
use std::thread::Threads;

/// One part of some work, whose parts share a value of type `C`. An implementation names two
/// relations: what its work requires of the shared value and the part, and how the part after the
/// work relates to the part before.
pub trait Part<C> {
    ghost can_work: { C → Self → Type 0 };

    ghost works: { C → Self → Self → Type 0 };

    /// Does the part's work.
    fn work(&mut self, shared: &C)
        requires { can_work shared.now self.old }
        ensures { works shared.now self.old self.new };
}

/// Works each part once, in at most `workers` new threads, and waits for them. The thread that
/// works a part calls the gate's `enter` before and `leave` after the work, with the part's index.
/// Each thread gets a run of neighbouring parts. All runs but the last have one length.
///
/// If `workers` is 0 or 1, or there are fewer than two parts, the call starts no thread. If a
/// thread doesn't start, the other threads work its parts, so the call can't fail.
pub fn run_parts<R: Threads + Sync, G: Gate + Sync, C: Sync, P: Part<C> + Send>(
    rt: &R,
    workers: u8,
    gate: &G,
    shared: &C,
    parts: &mut [P],
)
    requires { (i : ℕ) (d : P) → i < length parts.old
        → P.can_work shared.now (slice_index_or parts.old i d) }
    ensures { (i : ℕ) (d : P) → i < length parts.old
        → P.works shared.now (slice_index_or parts.old i d) (slice_index_or parts.new i d) }
{
    if workers <= 1 || parts.len() <= 1 {
        work_run(gate, shared, 0, parts);
        return;
    }
    let size = parts.len().div_ceil(usize::from(workers));
    run_from(rt, gate, shared, Runs { base: 0, size }, parts);
}

/// The place where runs begin, and the length of each but the last.
#[derive(Clone, Copy)]
struct Runs {
    /// The index of the first part.
    base: usize,
    size: usize,
}

/// Works the parts in these runs.
#[cycle(runs)]
fn run_from<R: Threads + Sync, G: Gate + Sync, C: Sync, P: Part<C> + Send>(
    rt: &R,
    gate: &G,
    shared: &C,
    runs: Runs,
    parts: &mut [P],
)
    requires some { 0 < runs.size }
    requires room { runs.base + length parts.old < 2 ^ 64 }
    requires can { (i : ℕ) (d : P) → i < length parts.old
        → P.can_work shared.now (slice_index_or parts.old i d) }
    ensures { (i : ℕ) (d : P) → i < length parts.old
        → P.works shared.now (slice_index_or parts.old i d) (slice_index_or parts.new i d) }
{
    if parts.is_empty() {
        return;
    }
    let (run, rest) = parts.split_at_mut(runs.size.min(parts.len()));
    run_both(rt, gate, shared, runs, run, rest);
}

/// Works a run in a new thread, and starts the rest from this thread. So one thread starts all the
/// others, and does no work itself. A new thread often gets the processor of the thread that
/// started it, and then one of the two waits for milliseconds.
#[cycle(runs)]
fn run_both<R: Threads + Sync, G: Gate + Sync, C: Sync, P: Part<C> + Send>(
    rt: &R,
    gate: &G,
    shared: &C,
    runs: Runs,
    run: &mut [P],
    rest: &mut [P],
)
    requires some { 0 < runs.size }
    requires part { 0 < length run.old }
    requires room { runs.base + length run.old + length rest.old < 2 ^ 64 }
    requires run { (i : ℕ) (d : P) → i < length run.old
        → P.can_work shared.now (slice_index_or run.old i d) }
    requires rest { (i : ℕ) (d : P) → i < length rest.old
        → P.can_work shared.now (slice_index_or rest.old i d) }
    ensures run { (i : ℕ) (d : P) → i < length run.old
        → P.works shared.now (slice_index_or run.old i d) (slice_index_or run.new i d) }
    ensures rest { (i : ℕ) (d : P) → i < length rest.old
        → P.works shared.now (slice_index_or rest.old i d) (slice_index_or rest.new i d) }
{
    let Runs { base, size } = runs;
    let next = base + run.len();
    let mut first = ||
        requires { IsSync G.row × IsSync C.row × IsSend P.row
            × (base + length run.now < 2 ^ 64)
            × ((i : ℕ) (d : P) → i < length run.now
            → P.can_work shared.now (slice_index_or run.now i d)) }
        ensures { (i : ℕ) (d : P) → i < length run.entry.now
            → P.works shared.entry.now (slice_index_or run.entry.now i d)
            (slice_index_or run.exit.now i d) }
    { work_run(gate, shared, base, run) };
    let mut others = ||
        requires { IsSync R.row × IsSync G.row × IsSync C.row × IsSend P.row
            × (0 < size) × (next + length rest.now < 2 ^ 64)
            × ((i : ℕ) (d : P) → i < length rest.now
            → P.can_work shared.now (slice_index_or rest.now i d)) }
        ensures { (i : ℕ) (d : P) → i < length rest.entry.now
            → P.works shared.entry.now (slice_index_or rest.entry.now i d)
            (slice_index_or rest.exit.now i d) }
    { run_from(rt, gate, shared, Runs { base: next, size }, rest) };
    thread::join_mut(rt, &mut first, &mut others);
}

/// Works the parts of a run in turn, on the caller's thread.
fn work_run<G: Gate, C, P: Part<C>>(gate: &G, shared: &C, base: usize, run: &mut [P])
    requires room { base + length run.old < 2 ^ 64 }
    requires can { (i : ℕ) (d : P) → i < length run.old
        → P.can_work shared.now (slice_index_or run.old i d) }
    ensures { (i : ℕ) (d : P) → i < length run.old
        → P.works shared.now (slice_index_or run.old i d) (slice_index_or run.new i d) }
{
    'parts: for i in 0..run.len() {
        work_behind(gate, shared, base + i, &mut run[i]);
    }
}

/// Works a part between the gate's `enter` and `leave`.
fn work_behind<G: Gate, C, P: Part<C>>(gate: &G, shared: &C, index: usize, part: &mut P)
    requires { P.can_work shared.now part.old }
    ensures { P.works shared.now part.old part.new }
{
    gate.enter(index);
    part.work(shared);
    gate.leave(index);
}
