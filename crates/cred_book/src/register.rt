//! A book that grows with its accounts, and the slots of their records.

ghost use Rattle.std.specs.Prelude.{◌≡◌, IfOk};
ghost use Rattle.std.specs.FinMap as map;

use crate::account_book::AccountBook;
use crate::account_map::AccountMap;
use crate::error::BookError;
use crate::name::Name;
use cred_phc::Record;
use std::alloc::{AllocError, Global};
use std::collections::{BTreeMap, btree_map};
use std::marker::Model;

/// The maximum number of names in a register.
const REGISTER_CAPACITY: usize = 16_777_216;

/// A map from at most 2^24 names to at most one record each.
///
/// A register allocates memory only in `enter`, `admit` and `copy`.
pub type Register = AccountBook<AccountTree>;

impl Register {
    /// Returns a register with no names.
    pub fn new(alloc: Global) -> Register
        ensures { result ≡ map.empty }
    {
        AccountBook {
            accounts: AccountTree {
                alloc,
                slots: BTreeMap::new(alloc),
            },
        }
    }

    /// Returns the names with their records, in the order of the names.
    pub fn iter(&self) -> btree_map::Iter<'_, Name, Slot>
        ensures { result ≡ map.entries self.now }
    {
        let accounts = &self.accounts;
        accounts.slots.iter()
    }
}

/// Accounts in a tree, which allocates memory for each name.
#[derive(Drop)]
pub struct AccountTree {
    alloc: Global,
    slots: BTreeMap<Name, Slot>,
}

impl Model for AccountTree {
    ghost use Rattle.std.specs.Coded.{coded_ℕ, coded_list, coded_option};
    ghost use Rattle.std.specs.FinMap as map;
    ghost use Rattle.cred_phc.specs.contracts.Record as stored;
    ghost use Rattle.cred_book.specs.Accounts.{Accounts, IsRegister};

    ghost Value = { Accounts };

    ghost coded = { map.code (coded_list coded_ℕ) (coded_option stored.the_row.coded) };

    ghost view = { λ t. map.from_sorted t.slots.entries };

    ghost invariant = { λ t. IsRegister t.slots.entries };
}

impl AccountMap for AccountTree {
    ghost use Rattle.std.specs.Prelude.{⊤};
    ghost use Rattle.cred_book.specs.Accounts.{register_capacity};

    ghost accounts = { λ t. t };

    const CAPACITY: usize = REGISTER_CAPACITY;

    ghost CAPACITY = { register_capacity };

    ghost may_run_out = { ⊤ };

    fn get(&self, name: &Name) -> Option<Option<Record>> {
        match self.slots.get(name) {
            Some(slot) => Some(slot.stored()),
            None => None,
        }
    }

    fn replace(&mut self, name: &Name, stored: Option<Record>) {
        match self.slots.get_mut(name) {
            Some(slot) => slot.replace(stored),
            None => unreachable!(),
        }
    }

    fn enter(&mut self, name: Name, stored: Option<Record>) -> Result<(), BookError> {
        if self.len() >= REGISTER_CAPACITY {
            if self.get(&name).is_some() {
                return Err(BookError::Exists);
            }
            return Err(BookError::Full);
        }
        let Ok(slot) = Slot::new(self.alloc, stored) else {
            if self.get(&name).is_some() {
                return Err(BookError::Exists);
            }
            return Err(BookError::Memory);
        };
        // One search of the tree adds a new name. If the name exists, the code below puts its
        // record back.
        match self.slots.insert(name, slot) {
            Ok(None) => Ok(()),
            Ok(Some(there)) => {
                self.replace(&name, there.stored());
                Err(BookError::Exists)
            }
            Err(_) => Err(BookError::Memory),
        }
    }

    fn remove(&mut self, name: &Name) {
        let _taken = self.slots.remove(name);
    }

    fn len(&self) -> usize {
        self.slots.len()
    }

    fn copy(&self) -> Result<AccountTree, AllocError> {
        let slots = self.slots.clone()?;
        Ok(AccountTree {
            alloc: self.alloc,
            slots,
        })
    }
}

/// A record or none, in a box, so that the nodes of the tree, which are seldom full, hold no
/// records.
#[derive(Clone, Drop)]
pub struct Slot {
    place: Box<Option<Record>>,
}

impl Model for Slot {
    ghost use Rattle.std.specs.Prelude.{Option};
    ghost use Rattle.std.specs.Coded.{coded_option};
    ghost use Rattle.cred_phc.specs.Values.{RecordValue};
    ghost use Rattle.cred_phc.specs.contracts.Record as kept;

    ghost Value = { Option RecordValue };

    ghost coded = { coded_option kept.the_row.coded };

    ghost view = { λ s. s.place.value };
}

impl Slot {
    pub(crate) fn new(alloc: Global, stored: Option<Record>) -> Result<Slot, AllocError>
        ensures { IfOk result (λ slot. slot ≡ stored) }
    {
        let place = Box::new(alloc, stored)?;
        Ok(Slot { place })
    }

    /// Returns the record, if there is one.
    pub fn stored(&self) -> Option<Record>
        ensures { result ≡ self.now }
    {
        *self.place
    }

    pub(crate) fn replace(&mut self, stored: Option<Record>)
        ensures { self.new ≡ stored }
    {
        *self.place = stored;
    }
}
