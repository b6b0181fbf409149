//! The book: the names of all accounts, and the record of each.

ghost use Rattle.std.specs.Prelude.{◌≡◌, ◌⊎◌, ◌<◌, IfOk, IfErr, MatchResult, T};
ghost use Rattle.std.specs.FinMap as map;
ghost use Rattle.std.specs.Slice.Iter.{iter_rest};
ghost use Rattle.cred_book.specs.{Accounts.book_capacity, Accounts.with_entry};
ghost use Rattle.cred_book.specs.{Names.name_cmp, Places.IsGapFor, Places.IsPlaceOf};

use crate::account_book::AccountBook;
use crate::account_map::AccountMap;
use crate::error::BookError;
use crate::name::Name;
use crate::register::Register;
use cred_phc::Record;
use std::alloc::{AllocError, Global};
use std::marker::Model;
use std::slice;

/// The maximum number of names in a book.
const BOOK_CAPACITY: usize = 4096;

/// A map from at most 4096 names to at most one record each.
///
/// A new book allocates all its memory, so no later call on it but `copy` can run out of memory.
pub type Book = AccountBook<AccountArray>;

impl Book {
    /// Returns a book with no names.
    ///
    /// Errors: `Memory` if there is not enough for 4096 accounts.
    pub fn new(alloc: Global) -> Result<Book, BookError>
        ensures empty { IfOk result (λ book. book ≡ map.empty) }
        ensures memory { IfErr result (λ e. e ≡ BookError.Memory) }
    {
        let entries = Vec::with_capacity(alloc, BOOK_CAPACITY)?;
        Ok(AccountBook {
            accounts: AccountArray { entries },
        })
    }

    /// Returns the book of a register, for code that works on a `Book` alone.
    ///
    /// Errors: `Full` if the register has more than 4096 names; `Memory` if there is not enough
    /// for 4096 accounts.
    pub fn from_register(alloc: Global, register: &Register) -> Result<Book, BookError>
        ensures equal { IfOk result (λ book. book ≡ register.now) }
        ensures refused { IfErr result (λ e. (e ≡ BookError.Memory)
            ⊎ ((e ≡ BookError.Full) × (book_capacity < map.len register.now))) }
    {
        if register.len() > BOOK_CAPACITY {
            return Err(BookError::Full);
        }
        let mut copied = Vec::with_capacity(alloc, BOOK_CAPACITY)?;
        for (name, slot) in register.iter() {
            match copied.push((*name, slot.stored())) {
                Ok(()) => {}
                Err(_) => return Err(BookError::Memory),
            }
        }
        Ok(AccountBook {
            accounts: AccountArray { entries: copied },
        })
    }

    /// Returns the names with their records, in the order of the names.
    pub fn iter(&self) -> slice::Iter<'_, (Name, Option<Record>)>
        ensures { iter_rest result ≡ map.entries self.now }
    {
        let accounts = &self.accounts;
        accounts.entries.iter()
    }

    /// Stores this record at the account, or none. The call adds a new name if the book has room,
    /// and otherwise changes nothing.
    pub fn put(&mut self, name: &Name, now: Option<Record>)
        ensures { self.new ≡ with_entry self.old name.now now }
    {
        if self.contains(name) {
            self.replace(name, now);
        } else if !self.is_full() {
            match self.enter(*name, now) {
                Ok(()) => {}
                Err(_) => unreachable!(),
            }
        }
    }
}

/// Accounts in the order of their names, in memory that has room for 4096 from the start.
#[derive(Drop)]
pub struct AccountArray {
    entries: Vec<(Name, Option<Record>)>,
}

impl Model for AccountArray {
    ghost use Rattle.std.specs.Prelude.{ℕ, List, vec_capacity};
    ghost use Rattle.std.specs.Coded.{coded_ℕ, coded_list, coded_option};
    ghost use Rattle.std.specs.FinMap as map;
    ghost use Rattle.cred_phc.specs.contracts.Record as stored;
    ghost use Rattle.cred_book.specs.Accounts.{Accounts, IsKept};

    ghost Value = { Accounts };

    ghost coded = { map.code (coded_list coded_ℕ) (coded_option stored.the_row.coded) };

    ghost view = { λ a. map.from_sorted a.entries.items };

    ghost invariant = { λ a. IsKept a.entries.items (vec_capacity a.entries) };
}

impl AccountMap for AccountArray {
    ghost use Rattle.cred_book.specs.Accounts.{book_capacity};

    ghost accounts = { λ a. a };

    const CAPACITY: usize = BOOK_CAPACITY;

    ghost CAPACITY = { book_capacity };

    ghost may_run_out = { ⊥ };

    fn get(&self, name: &Name) -> Option<Option<Record>> {
        match place_of(&self.entries, name) {
            Ok(place) => Some(self.entries[place].1),
            Err(_) => None,
        }
    }

    fn replace(&mut self, name: &Name, stored: Option<Record>) {
        match place_of(&self.entries, name) {
            Ok(place) => self.entries[place].1 = stored,
            Err(_) => unreachable!(),
        }
    }

    fn enter(&mut self, name: Name, stored: Option<Record>) -> Result<(), BookError> {
        let Err(place) = place_of(&self.entries, &name) else {
            return Err(BookError::Exists);
        };
        if self.len() >= BOOK_CAPACITY {
            return Err(BookError::Full);
        }
        match self.entries.insert(place, (name, stored)) {
            Ok(()) => Ok(()),
            Err(_) => unreachable!(),
        }
    }

    fn remove(&mut self, name: &Name) {
        match place_of(&self.entries, name) {
            Ok(place) => {
                let _taken = self.entries.remove(place);
            }
            Err(_) => {}
        }
    }

    fn len(&self) -> usize {
        self.entries.len()
    }

    fn copy(&self) -> Result<AccountArray, AllocError> {
        let mut entries = Vec::with_capacity(*self.entries.allocator(), BOOK_CAPACITY)?;
        entries.extend_from_slice(&self.entries)?;
        Ok(AccountArray { entries })
    }
}

/// Returns the index of the name, or the index at which it would be inserted.
fn place_of(entries: &[(Name, Option<Record>)], name: &Name) -> Result<usize, usize>
    requires { T (map.is_sorted name_cmp entries.now) }
    ensures { MatchResult result (IsPlaceOf name_cmp entries.now name.now)
        (IsGapFor name_cmp entries.now name.now) }
{
    entries.binary_search_by_key(name, |&(there, _)| there)
}
