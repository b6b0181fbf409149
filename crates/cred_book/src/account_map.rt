//! The map in which a book keeps its accounts.

use crate::error::BookError;
use crate::name::Name;
use cred_phc::Record;
use std::alloc::AllocError;

/// A map from names to at most one record each, in which a book keeps its accounts. Only this
/// crate builds a book over a map.
pub trait AccountMap: Drop {
    ghost use Rattle.std.specs.Prelude.{◌≡◌, ◌≤◌, ℕ, IfOk, true};
    ghost use Rattle.std.specs.FinMap as map;
    ghost use Rattle.cred_book.specs.{Accounts.Accounts, Calls.EntersWithin};

    ghost accounts: { Self → Accounts };

    /// The maximum number of names.
    const CAPACITY: usize;

    ghost CAPACITY: { ℕ };

    /// Whether memory may run out as a name is added.
    ghost may_run_out: { Type 0 };

    /// Returns what the map has at the name: a record or none, if the map has the name.
    fn get(&self, name: &Name) -> Option<Option<Record>>
        ensures { result ≡ map.get (accounts self.now) name.now };

    /// Stores this record at a name that the map has, or none.
    fn replace(&mut self, name: &Name, stored: Option<Record>)
        requires { map.contains_key (accounts self.old) name.now ≡ true }
        ensures { accounts self.new ≡ map.insert (accounts self.old) name.now stored };

    /// Adds a name, with a record or none.
    ///
    /// Errors: `Exists` if the map has the name; `Full` if it has `CAPACITY` names; `Memory` if
    /// memory runs out.
    fn enter(&mut self, name: Name, stored: Option<Record>) -> Result<(), BookError>
        ensures done { EntersWithin CAPACITY (accounts self.old) (accounts self.new) name stored
            result }
        ensures granted { result ≡ Err BookError.Memory → may_run_out };

    /// Removes a name with its record. If the map doesn't have the name, nothing changes.
    fn remove(&mut self, name: &Name)
        ensures { accounts self.new ≡ map.remove (accounts self.old) name.now };

    /// Returns the number of names.
    fn len(&self) -> usize
        ensures len { result ≡ map.len (accounts self.now) }
        ensures few { map.len (accounts self.now) ≤ CAPACITY };

    /// Copies the map.
    fn copy(&self) -> Result<Self, AllocError>
        ensures { IfOk result (λ other. accounts other ≡ accounts self.now) };
}
