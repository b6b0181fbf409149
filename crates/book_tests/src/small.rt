//! A keeper with a capacity of its own.

use cred_book::{BookError, Keeper, Name, Register, Reply, Worked};
use cred_phc::Record;
use std::alloc::Global;
use std::sync::Wait;

/// The number of names that a small book has room for.
const CAPACITY: usize = 3;

/// A register of at most three names.
#[derive(Drop)]
pub struct SmallBook {
    register: Register,
}

impl SmallBook {
    /// Returns a small book with no name.
    pub fn new(alloc: Global) -> SmallBook {
        SmallBook {
            register: Register::new(alloc),
        }
    }
}

impl Keeper for SmallBook {
    ghost book = { λ b. b.register };

    ghost capacity = { 3 };

    #[tactic(auto, using(crate::proofs::Rooms::narrower))]
    fn admit<R: Wait>(&mut self, _rt: &R, name: Name) -> Result<(), BookError> {
        if self.register.contains(&name) {
            return Err(BookError::Exists);
        }
        if self.register.len() >= CAPACITY {
            return Err(BookError::Full);
        }
        Register::admit(&mut self.register, name)
    }

    fn load<R: Wait>(&mut self, _rt: &R, name: &Name, stored: Record) -> Result<(), BookError> {
        Register::load(&mut self.register, name, stored)
    }

    fn show(&self, name: &Name) -> Result<Option<Record>, BookError> {
        Register::show(&self.register, name)
    }

    fn commit<R: Wait>(&mut self, _rt: &R, worked: Worked) -> Result<Reply, (Worked, BookError)> {
        Ok(Register::commit(&mut self.register, worked))
    }
}
