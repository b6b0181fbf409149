//! The memory of all hashes together.

ghost use Rattle.std.specs.Prelude.{◌≡◌, ◌<◌, ◌≤◌, ◌+◌, ◌^◌, IfErr, IfOk, All, vec_len};

use std::alloc::{AllocError, Global};
use std::marker::Brand;
use std::sync::ledger::{Book, Ledger, Share};
use std::sync::{Condvar, Mutex, Wait};

/// Names the ledger of one budget, which records the memory that threads have reserved. A function
/// is generic over the ledger, and a call with `Brand` picks one.
pub(crate) trait Limit: Ledger {
    ghost use Rattle.std.specs.Prelude.{ℕ};

    /// The size of the budget in KiB.
    ghost total: { ℕ };
}

impl Limit for Brand {
    ghost total = { 0 };
}

/// The memory of all hashes at one time, in KiB. Hashes take turns: a hash that needs more than is
/// free waits, and others wait behind it. The budget doesn't count the memory that a thread keeps
/// between two hashes, so nobody waits for an idle thread.
#[derive(Drop)]
pub(crate) struct Budget<L: Limit> {
    total: u64,
    free: Mutex<Free<L>>,
    freed: Condvar,
    turn: Mutex<()>,
}

/// The free memory of a budget: all but the ledger's sum.
#[derive(Drop)]
struct Free<L: Limit> {
    kib: u64,
    taken: Book<L>,

    ghost whole: { kib + taken.total ≡ L.total },
    ghost fits: { L.total < 2 ^ 64 },
}

/// The share of a thread that has reserved nothing of a budget.
#[derive(Drop)]
pub(crate) struct Idle<L: Limit> {
    share: Share<L>,

    ghost part: { share.parts ≡ 1 },
    ghost none: { share.amount ≡ 0 },
}

/// The share of a thread that has reserved so many KiB of a budget. The share isn't `Drop`: the
/// thread must return it, once and whole.
pub(crate) struct Taken<L: Limit> {
    kib: u64,
    share: Share<L>,

    ghost part: { share.parts ≡ 1 },
    ghost all: { share.amount ≡ kib },
}

impl<L: Limit> Budget<L> {
    /// Creates a budget of so many KiB, all of them free.
    pub(crate) fn new(total: u64, taken: Book<L>) -> Budget<L>
        requires total { total ≡ L.total }
        requires none { taken.total ≡ 0 }
    {
        Budget {
            total,
            free: Mutex::new(Free { kib: total, taken }),
            freed: Condvar::new(),
            turn: Mutex::new(()),
        }
    }

    /// Reserves so many KiB once they are free, or fails if the budget is smaller.
    pub(crate) fn take<T: Wait>(&self, rt: &T, idle: Idle<L>, kib: u64) -> Result<Taken<L>, Idle<L>>
        ensures taken { IfOk result (λ taken. taken.kib ≡ kib) }
        ensures never { IfErr result (λ _. self.now.total < kib) }
    {
        if kib > self.total {
            return Err(idle);
        }
        let _turn = self.turn.lock(rt);
        let mut free = self
            .freed
            .wait_while(rt, self.free.lock(rt), |free| free.kib < kib);
        Ok(free.split(kib, idle))
    }

    /// Returns the reserved memory.
    pub(crate) fn give_back<T: Wait>(&self, rt: &T, taken: Taken<L>) -> Idle<L> {
        let mut free = self.free.lock(rt);
        let idle = free.join(taken);
        drop(free);
        self.freed.notify_all();
        idle
    }
}

impl<L: Limit> Free<L> {
    /// Reserves so many KiB of the free memory.
    fn split(&mut self, kib: u64, idle: Idle<L>) -> Taken<L>
        requires { kib ≤ self.old.kib }
        ensures { result.kib ≡ kib }
    {
        let Idle { share } = idle;
        let mut share = share;
        let Free { kib: free, taken } = self;
        taken.add(&mut share, kib);
        *free -= kib;
        Taken { kib, share }
    }

    /// Adds the reserved memory to the free memory.
    fn join(&mut self, taken: Taken<L>) -> Idle<L> {
        let Taken { kib, share } = taken;
        let mut share = share;
        let Free { kib: free, taken } = self;
        taken.sub(&mut share, kib);
        *free += kib;
        Idle { share }
    }
}

/// Creates an empty share for each of so many threads.
pub(crate) fn parts<L: Limit>(
    alloc: Global,
    share: Share<L>,
    threads: u8,
) -> Result<Vec<Idle<L>>, AllocError>
    requires parts { share.parts ≡ threads }
    requires none { share.amount ≡ 0 }
{
    let mut share = share;
    let mut idle = Vec::with_capacity(alloc, usize::from(threads))?;
    for _thread in 0..threads {
        let share = share.split_off(1, 0);
        idle.push_reserved(Idle { share });
    }
    Ok(idle)
}
