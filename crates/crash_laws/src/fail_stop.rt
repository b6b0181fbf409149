//! A store that stops at one of its calls.

ghost use Rattle.std.specs.Prelude.{◌≡◌, ◌+◌, false, OnOk, OnErr, IfErr, IsTrue};
ghost use Rattle.sqlite_trees.specs.View.{IsClean};

use sqlite_trees::error::StoreError;
use sqlite_trees::schema::Object;
use sqlite_trees::store::{Alter, Direction, Shape, Store};
use sqlite_value::row::Row;
use std::alloc::{AllocError, Global};

/// A fail-stop machine over a store. It passes so many calls on to the store. From the next call on
/// it answers each call with an error, and changes nothing.
#[derive(Drop)]
pub struct FailStop<S: Store> {
    store: S,
    calls_left: u64,
    has_stopped: bool,
    // A failed open returns the store, but doesn't say again that its trees have numbers.
    ghost numbered: { IsClean (S.Store.view store) → IsTrue (S.Store.view store).is_numbered },
    ghost spent: { IsTrue has_stopped → calls_left ≡ 0 },
}

impl<S: Store> FailStop<S> {
    ghost use Rattle.crash_laws.specs.Stops.{refusal, IsCall};

    /// Stops the store after so many calls.
    pub fn new(store: S, calls: u64) -> FailStop<S>
        requires { IsClean (S.Store.view store) → IsTrue (S.Store.view store).is_numbered }
        ensures store { result.store ≡ store }
        ensures calls { result.calls_left ≡ calls }
        ensures running { result.has_stopped ≡ false }
    {
        FailStop {
            store,
            calls_left: calls,
            has_stopped: false,
        }
    }

    /// Whether the store has stopped: it has spent all its calls, and got one more.
    pub fn has_stopped(&self) -> bool
        ensures value { result ≡ self.now.has_stopped }
        ensures spent { IsTrue result → self.now.calls_left ≡ 0 }
    {
        self.has_stopped
    }

    pub fn into_inner(self) -> S
        ensures store { result ≡ self.store }
        ensures numbered { IsClean (S.Store.view result)
            → IsTrue (S.Store.view result).is_numbered }
    {
        self.store
    }

    /// Passes one more call on, or stops the store.
    fn spend(&mut self) -> Result<(), StoreError>
        ensures store { self.new.store ≡ self.old.store }
        ensures passed { OnOk result ((self.old.has_stopped ≡ false)
            × (self.new.has_stopped ≡ false)
            × (self.new.calls_left + 1 ≡ self.old.calls_left)) }
        ensures refused { IfErr result (λ e. e ≡ refusal self.old.has_stopped) }
        ensures stopped { OnErr result (IsTrue self.new.has_stopped) }
        ensures call { OnErr result (IsCall self.old self.new) }
    {
        if self.has_stopped {
            return Err(StoreError::Broken);
        }
        if self.calls_left == 0 {
            self.has_stopped = true;
            return Err(StoreError::Io);
        }
        self.calls_left -= 1;
        Ok(())
    }
}

impl<S: Store> Store for FailStop<S> {
    ghost use Rattle.crash_laws.specs.{Stops.IsCall, Stops.count, Stops.shown};
    ghost use Rattle.crash_laws.specs.StopLaws.{breaks, is_sound, shuts, was_open};

    ghost view = { λ f. shown f.has_stopped (S.Store.view f.store) };

    ghost faults = { λ f. S.Store.faults f.store + count f.has_stopped };

    ghost recovers = { λ f. S.Store.recovers f.store };

    ghost is_shielded = { λ f. S.Store.is_shielded f.store };

    ghost is_step = { λ old new _. IsCall old new };

    ghost ordered = { λ f sound.
        S.Store.ordered f.store (is_sound f.has_stopped (S.Store.view f.store) sound) };

    ghost shut_if_dirty = { λ f dirty.
        shuts f.has_stopped (S.Store.view f.store) (S.Store.shut_if_dirty f.store dirty) };

    ghost empty_if_dirty = { λ f. S.Store.empty_if_dirty f.store };

    ghost broken_if_shut = { λ f.
        breaks f.has_stopped (S.Store.view f.store) (S.Store.broken_if_shut f.store) };

    ghost settled = { λ f db is_open.
        S.Store.settled f.store db (was_open f.has_stopped (S.Store.view f.store) is_open) };

    ghost stays = { λ f is_open.
        S.Store.stays f.store (was_open f.has_stopped (S.Store.view f.store) is_open) };

    ghost survives = { λ f. S.Store.survives f.store };

    ghost unaltered = { λ f sound.
        S.Store.unaltered f.store (is_sound f.has_stopped (S.Store.view f.store) sound) };

    fn is_broken(&self) -> bool {
        self.has_stopped || self.store.is_broken()
    }

    fn shape(&self, tree: u32) -> Shape {
        self.store.shape(tree)
    }

    fn tree_count(&self) -> u64 {
        self.store.tree_count()
    }

    fn reals(&self, tree: u32) -> u64 {
        self.store.reals(tree)
    }

    fn seek(
        &mut self,
        cursor: u16,
        tree: u32,
        key: &Row,
        direction: Direction,
    ) -> Result<(), StoreError> {
        self.spend()?;
        self.store.seek(cursor, tree, key, direction)
    }

    fn next(&mut self, cursor: u16, row: &mut Row) -> Result<bool, StoreError> {
        self.spend()?;
        self.store.next(cursor, row)
    }

    fn get(&mut self, table: u32, id: i64, row: &mut Row) -> Result<bool, StoreError> {
        self.spend()?;
        self.store.get(table, id, row)
    }

    fn put(&mut self, table: u32, row: &Row) -> Result<(), StoreError> {
        self.spend()?;
        self.store.put(table, row)
    }

    fn delete(&mut self, table: u32, id: i64) -> Result<(), StoreError> {
        self.spend()?;
        self.store.delete(table, id)
    }

    fn insert(&mut self, index: u32, entry: &Row) -> Result<(), StoreError> {
        self.spend()?;
        self.store.insert(index, entry)
    }

    fn remove(&mut self, index: u32, entry: &Row) -> Result<(), StoreError> {
        self.spend()?;
        self.store.remove(index, entry)
    }

    fn commit(&mut self) -> Result<(), StoreError> {
        self.spend()?;
        self.store.commit()
    }

    fn rollback(&mut self) {
        if self.spend().is_ok() {
            self.store.rollback();
        }
    }

    fn savepoint(&mut self) -> Result<(), StoreError> {
        self.spend()?;
        self.store.savepoint()
    }

    fn release(&mut self) -> Result<(), StoreError> {
        self.spend()?;
        self.store.release()
    }

    fn rollback_to(&mut self) -> Result<(), StoreError> {
        self.spend()?;
        self.store.rollback_to()
    }
}

impl<S: Alter> Alter for FailStop<S> {
    ghost use Rattle.crash_laws.specs.StopLaws.{is_sound};

    ghost listed = { λ f sound.
        S.Alter.listed f.store (is_sound f.has_stopped (S.Store.view f.store) sound) };

    fn objects(&self, alloc: Global) -> Result<Vec<Row>, AllocError> {
        self.store.objects(alloc)
    }

    fn create(&mut self, tree: u32, object: &Object<'_>) -> Result<(), StoreError> {
        self.spend()?;
        self.store.create(tree, object)
    }

    fn destroy(&mut self, tree: u32) -> Result<(), StoreError> {
        self.spend()?;
        self.store.destroy(tree)
    }

    fn relist(&mut self, changes: &[(u32, Object<'_>)]) -> Result<(), StoreError> {
        self.spend()?;
        self.store.relist(changes)
    }

    fn version(&self) -> u32 {
        self.store.version()
    }

    fn set_version(&mut self, version: u32) -> Result<(), StoreError> {
        self.spend()?;
        self.store.set_version(version)
    }
}
