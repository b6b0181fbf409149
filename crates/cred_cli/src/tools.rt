//! The tools of scripts and commands.

ghost use Rattle.std.specs.Prelude.{◌≡◌};

use cred_book::Hashing;
use cred_pool::NoGate;
use std::alloc::Global;

/// The runtime, the allocator, and the maximum number of threads that hash.
#[derive(Drop)]
pub struct Tools<'a, T> {
    pub rt: &'a T,
    pub alloc: Global,
    pub workers: u8,
}

impl<'a, T> Tools<'a, T> {
    /// Returns these tools for hashing, without a gate.
    pub fn hashing(&self) -> Hashing<'a, T, NoGate>
        ensures { result.workers ≡ self.now.workers }
    {
        Hashing {
            rt: self.rt,
            alloc: self.alloc,
            workers: self.workers,
            gate: &NoGate,
        }
    }
}
