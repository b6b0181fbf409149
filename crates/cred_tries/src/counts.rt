//! The counts of names.

ghost use Rattle.std.specs.Prelude.{◌≡◌, ◌<◌, ◌^◌, IfErr, IfOk, length, true};
ghost use Rattle.std.specs.FinMap as map;
ghost use Rattle.cred_tries.specs.CountMaps.{with_count};

use crate::count::Count;
use cred_book::Name;
use std::alloc::{AllocError, Global};
use std::collections::{BTreeMap, btree_map};
use std::marker::Model;

/// A map from names to their counts, without the names at which nothing is counted.
#[derive(Drop)]
pub(crate) struct Counts {
    counts: BTreeMap<Name, Count>,
}

impl Model for Counts {
    ghost use Rattle.std.specs.Prelude.{T};
    ghost use Rattle.std.specs.FinMap as map;
    ghost use Rattle.cred_book.specs.Names.{name_cmp};
    ghost use Rattle.cred_tries.specs.CountMaps.{CountMap, count_map_code};

    ghost Value = { CountMap };

    ghost coded = { count_map_code };

    ghost view = { λ c. map.from_sorted c.counts.entries };

    ghost invariant = { λ c. T (map.is_sorted name_cmp c.counts.entries) };
}

impl Counts {
    /// Returns a map with no names.
    pub(crate) fn new(alloc: Global) -> Counts
        ensures { result ≡ map.empty }
    {
        Counts {
            counts: BTreeMap::new(alloc),
        }
    }

    /// Returns the count of a name, if it has one.
    pub(crate) fn get(&self, name: &Name) -> Option<Count>
        ensures { result ≡ map.get self.now name.now }
    {
        match self.counts.get(name) {
            Some(count) => Some(*count),
            None => None,
        }
    }

    /// Returns the names in their order, with their counts.
    pub(crate) fn iter(&self) -> btree_map::Iter<'_, Name, Count>
        ensures entries { result ≡ map.entries self.now }
        ensures few { length result < 2 ^ 63 }
    {
        self.counts.iter()
    }

    /// Stores this count at a name, which may be new.
    ///
    /// Errors: `AllocError` if memory for a new name runs out; then nothing changes.
    pub(crate) fn insert(&mut self, name: Name, count: Count) -> Result<(), AllocError>
        ensures inserted { IfOk result (λ _. self.new ≡ map.insert self.old name count) }
        ensures memory { IfErr result (λ _. self.new ≡ self.old) }
        ensures absent { IfErr result (λ _. map.get self.old name ≡ None) }
    {
        self.counts.insert(name, count)?;
        Ok(())
    }

    /// Stores this count at a name of the map. If nothing is left to count, the name leaves the
    /// map.
    pub(crate) fn put(&mut self, name: &Name, count: Count)
        requires { map.contains_key self.old name.now ≡ true }
        ensures { self.new ≡ with_count self.old name.now count }
    {
        if count.is_nothing() {
            self.remove(name);
        } else {
            self.replace(name, count);
        }
    }

    fn remove(&mut self, name: &Name)
        ensures { self.new ≡ map.remove self.old name.now }
    {
        let _taken = self.counts.remove(name);
    }

    fn replace(&mut self, name: &Name, count: Count)
        requires { map.contains_key self.old name.now ≡ true }
        ensures { self.new ≡ map.insert self.old name.now count }
    {
        match self.counts.get_mut(name) {
            Some(place) => *place = count,
            None => unreachable!(),
        }
    }
}
