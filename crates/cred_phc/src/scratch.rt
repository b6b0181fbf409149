//! Memory that is kept from tag to tag.
ghost use Rattle.std.specs.Prelude.{◌≡◌, ◌≤◌};

use cred_argon::ArgonScratch;
use cred_scrypt::ScryptScratch;
use std::alloc::Global;
use std::marker::Model;
use std::mem;

/// Memory for the tags that [`tag_in`](crate::tag_in) computes one after another. The scratch keeps
/// the memory from tag to tag, up to a bound, filled with zeros.
#[derive(Drop)]
pub struct Scratch {
    /// The maximum number of KiB that are kept.
    most: u32,
    memory: Memory,
}

/// The memory of the function that computed the last tag.
#[derive(Drop)]
enum Memory {
    Argon2(ArgonScratch),
    Scrypt(ScryptScratch),
}

impl Model for Scratch {
    ghost use Rattle.std.specs.Prelude.{ℕ};
    ghost use Rattle.cred_phc.specs.Scratches.{KeepsAtMost};

    ghost Value = { ℕ };

    ghost view = { λ s. s.most };

    ghost invariant = { λ s. KeepsAtMost s.most s.memory };
}

impl Scratch {
    /// Returns a scratch without memory. Between two tags it keeps at most `most` KiB, and frees
    /// the rest.
    pub fn new(alloc: Global, most: u32) -> Scratch
        ensures { result ≡ most }
    {
        Scratch {
            most,
            memory: Memory::Argon2(ArgonScratch::new(alloc, most)),
        }
    }

    /// Returns the number of KiB that are kept now.
    pub fn kept(&self) -> usize
        ensures { result ≤ self.now }
    {
        match &self.memory {
            Memory::Argon2(scratch) => scratch.kept(),
            Memory::Scrypt(scratch) => scratch.kept(),
        }
    }

    /// Returns the memory of Argon2, and frees any memory of scrypt.
    pub(crate) fn take_argon2(&mut self, alloc: Global) -> ArgonScratch
        ensures taken { result ≡ self.old }
        ensures most { self.new ≡ self.old }
    {
        let none = ArgonScratch::new(alloc, self.most);
        match mem::replace(&mut self.memory, Memory::Argon2(none)) {
            Memory::Argon2(scratch) => scratch,
            Memory::Scrypt(_) => ArgonScratch::new(alloc, self.most),
        }
    }

    /// Returns the memory of scrypt, and frees any memory of Argon2.
    pub(crate) fn take_scrypt(&mut self, alloc: Global) -> ScryptScratch
        ensures taken { result ≡ self.old }
        ensures most { self.new ≡ self.old }
    {
        let none = ScryptScratch::new(alloc, self.most);
        match mem::replace(&mut self.memory, Memory::Scrypt(none)) {
            Memory::Scrypt(scratch) => scratch,
            Memory::Argon2(_) => ScryptScratch::new(alloc, self.most),
        }
    }

    /// Keeps the memory of Argon2 until the next tag.
    pub(crate) fn keep_argon2(&mut self, scratch: ArgonScratch)
        requires { scratch ≡ self.old }
        ensures { self.new ≡ self.old }
    {
        self.memory = Memory::Argon2(scratch);
    }

    /// Keeps the memory of scrypt until the next tag.
    pub(crate) fn keep_scrypt(&mut self, scratch: ScryptScratch)
        requires { scratch ≡ self.old }
        ensures { self.new ≡ self.old }
    {
        self.memory = Memory::Scrypt(scratch);
    }
}
