//! The tickets of a script's open operations, by their numbers.

ghost use Rattle.std.specs.Prelude.{◌≡◌, ◌-◌, ◌<◌, ◌≤◌, IfOk, IfSome, Option, Some, None, is_some, replicate, slice_index_or, slice_set};
ghost use Rattle.cred_cli.specs.Events.{key_of};

use cred_book::Ticket;
use cred_phc::decimal;
use std::alloc::{AllocError, Global};
use std::marker::Model;

/// A place for each of the 64 numbers.
#[derive(Drop)]
pub(crate) struct Tickets {
    slots: Vec<Option<Ticket>>,
}

impl Model for Tickets {
    ghost use Rattle.std.specs.Prelude.{◌≡◌, List, Option, length};
    ghost use Rattle.cred_book.specs.Works.{Task};

    ghost Value = { List (Option Task) };

    ghost view = { λ t. t.slots.items };

    ghost invariant = { λ t. length t.slots.items ≡ 64 };
}

impl Tickets {
    pub(crate) fn new(alloc: Global) -> Result<Tickets, AllocError>
        ensures { IfOk result (λ tickets. tickets ≡ replicate 64 None) }
    {
        let mut slots = Vec::with_capacity(alloc, usize::from(KEYS))?;
        for _i in 0..usize::from(KEYS) {
            slots.push(None)?;
        }
        Ok(Tickets { slots })
    }

    pub(crate) fn is_open(&self, key: Key) -> bool
        ensures { result ≡ is_some (slice_index_or self.now (key - 1) None) }
    {
        self.slots[key.index()].is_some()
    }

    pub(crate) fn open(&mut self, key: Key, ticket: Ticket)
        ensures { self.new ≡ slice_set self.old (key - 1) (Some ticket) }
    {
        self.slots[key.index()] = Some(ticket);
    }

    /// Closes the number, and returns its ticket.
    pub(crate) fn close(&mut self, key: Key) -> Option<Ticket>
        ensures ticket { result ≡ slice_index_or self.old (key - 1) None }
        ensures closed { self.new ≡ slice_set self.old (key - 1) None }
    {
        self.slots[key.index()].take()
    }
}

/// The maximum number of open operations.
pub(crate) const KEYS: u8 = 64;

/// The number of an operation, from 1 to 64.
#[derive(Clone, Copy)]
pub(crate) struct Key {
    number: u8,
}

impl Model for Key {
    ghost use Rattle.std.specs.Prelude.{ℕ, ◌≤◌};

    ghost Value = { ℕ };

    ghost view = { λ k. k.number };

    ghost invariant = { λ k. (1 ≤ k.number) × (k.number ≤ 64) };

    ghost inverse = { λ n. record { number = n } };
}

impl Key {
    /// Returns the number of a decimal text without a leading zero, if the number is one of 1 to
    /// 64.
    #[tactic(auto, unfolding(crate::specs::Events::key_of))]
    pub(crate) fn parse(text: &[u8]) -> Option<Key>
        ensures value { result ≡ key_of text.now }
        ensures range { IfSome result (λ key. (1 ≤ key) × (key ≤ 64)) }
    {
        let number = decimal(text)?;
        if number < 1 || number > u64::from(KEYS) {
            return None;
        }
        Some(Key {
            number: number as u8,
        })
    }

    /// Returns the number's place in a table of 64.
    pub(crate) fn index(self) -> usize
        ensures place { result ≡ self - 1 }
        ensures below { result < 64 }
    {
        usize::from(self.number) - 1
    }
}
