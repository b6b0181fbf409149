//! A table that is kept from key to key.
ghost use Rattle.std.specs.Prelude.{◌≡◌, ◌≤◌, IfOk, IfSome, [], replicate, vec_capacity};

use std::alloc::{AllocError, Global};
use std::marker::Model;
use std::mem;

/// The number of words of a KiB.
const KIB: usize = 256;

/// The table of keys that [`scrypt_in`](crate::scrypt_in) derives one after another. The scratch
/// keeps the table from key to key, up to a bound, with zeros in its whole room.
#[derive(Drop)]
pub struct ScryptScratch {
    /// The most KiB that are kept.
    most: u32,
    table: Vec<u32>,
}

impl Model for ScryptScratch {
    ghost use Rattle.std.specs.Prelude.{ℕ, vec_capacity};
    ghost use Rattle.cred_scrypt.specs.Scratches.{IsScratch};

    ghost Value = { ℕ };

    ghost view = { λ s. s.most };

    ghost invariant = { λ s. IsScratch s.most s.table.items (vec_capacity s.table) };
}

impl ScryptScratch {
    /// Returns a scratch without a table. Between two keys it keeps at most `most` KiB: a larger
    /// table is freed.
    pub fn new(alloc: Global, most: u32) -> ScryptScratch
        ensures { result ≡ most }
    {
        ScryptScratch {
            most,
            table: Vec::new(alloc),
        }
    }

    /// Returns the number of KiB that are kept now, rounded up.
    pub fn kept(&self) -> usize
        ensures { result ≤ self.now }
    {
        self.table.capacity().div_ceil(KIB)
    }

    /// Returns an empty table with room for so many words, in the kept memory if possible.
    pub(crate) fn take(&mut self, alloc: Global, len: usize) -> Result<Vec<u32>, AllocError>
        ensures most { self.new ≡ self.old }
        ensures none { IfOk result (λ table. table.items ≡ []) }
        ensures room { IfOk result (λ table. len ≤ vec_capacity table) }
    {
        let mut table = mem::replace(&mut self.table, Vec::new(alloc));
        table.clear();
        table.reserve_exact(len)?;
        Ok(table)
    }

    /// Keeps a table, wiped, if it is within the bound. Otherwise frees the table.
    pub(crate) fn keep(&mut self, table: Vec<u32>)
        ensures { self.new ≡ self.old }
    {
        let most = KIB * self.most as usize;
        if table.capacity() > most {
            return;
        }
        match wiped(table) {
            Some(table) if table.capacity() <= most => self.table = table,
            _ => {}
        }
    }
}

/// Returns the table with zeros in its whole room. The zeros stay in the table, so the compiler
/// can't leave them out. A resize within the room moves nothing, but no clause says so: if it moved
/// the table, the function would return none.
fn wiped(mut table: Vec<u32>) -> Option<Vec<u32>>
    ensures { IfSome result (λ table. table.items ≡ replicate (vec_capacity table) 0) }
{
    table.clear();
    let room = table.capacity();
    table.resize(room, 0).ok()?;
    if table.capacity() > room {
        return None;
    }
    Some(table)
}
