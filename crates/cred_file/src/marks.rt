//! The marks of one account, and those of all accounts, in memory beside the register.

ghost use Rattle.std.specs.Prelude.{◌≡◌, true, OnOk};
ghost use Rattle.std.specs.FinMap as map;
ghost use Rattle.cred_file.specs.Cells.{begins, is_marked, mark_at, mark_of, mark_text, marked, past, renewed, renewed_with, rest_of, unmarked};
ghost use Rattle.cred_file.specs.Transactions.{HasRoom, KeepsRoom};

use cred_book::Name;
use std::alloc::{AllocError, Global};
use std::collections::{BTreeMap, btree_map};
use std::marker::Model;

/// An administrator's mark on an account, beside the account's record. In a book's table the mark
/// precedes the record's text, as `!` and `~`.
#[derive(Clone, Copy, Debug, PartialEq, Eq)]
pub struct Mark {
    /// No password opens the account.
    pub locked: bool,
    /// The password opens the account, and must be changed.
    pub must_change: bool,
}

impl Mark {
    /// Returns no marks.
    pub fn none() -> Mark
        ensures { result ≡ unmarked }
    {
        Mark {
            locked: false,
            must_change: false,
        }
    }

    /// Whether the account has any mark.
    pub fn is_marked(self) -> bool
        ensures { result ≡ is_marked self }
    {
        self.locked || self.must_change
    }

    /// Returns the mark after a new record replaces the old one: a lock stays.
    pub fn renewed(self) -> Mark
        ensures { result ≡ renewed self }
    {
        Mark {
            locked: self.locked,
            must_change: false,
        }
    }

    /// Returns the mark after a new record with a mark of its own replaces the old one: a lock
    /// stays.
    pub fn renewed_with(self, given: Mark) -> Mark
        ensures { result ≡ renewed_with given self }
    {
        Mark {
            locked: given.locked || self.locked,
            must_change: given.must_change,
        }
    }

    /// Returns the text that stands for the marks before a record: `!` for a lock, and `~` for a
    /// password that must be changed.
    pub fn text(self) -> &'static [u8]
        ensures { result.now ≡ mark_text self }
    {
        match (self.locked, self.must_change) {
            (true, true) => b"!~",
            (true, false) => b"!",
            (false, true) => b"~",
            (false, false) => b"",
        }
    }

    /// Reads the marks at the front of a text, and returns them with the text behind them.
    pub fn cut(text: &[u8]) -> (Mark, &[u8])
        ensures mark { result.0 ≡ mark_of text.now }
        ensures rest { result.1.now ≡ rest_of text.now }
    {
        let (locked, text) = cut(text, b'!');
        let (must_change, text) = cut(text, b'~');
        (
            Mark {
                locked,
                must_change,
            },
            text,
        )
    }
}

/// Returns whether a text begins with this byte, and the text behind the byte.
fn cut(text: &[u8], byte: u8) -> (bool, &[u8])
    ensures { (result.0 ≡ begins byte text.now) × (result.1.now ≡ past byte text.now) }
{
    match text {
        [first, rest @ ..] if *first == byte => (true, rest),
        _ => (false, text),
    }
}

/// A map from names to their marks. A name that isn't in the map has no mark.
#[derive(Drop)]
pub struct Marks {
    marks: BTreeMap<Name, Mark>,
}

impl Model for Marks {
    ghost use Rattle.std.specs.Prelude.{T};
    ghost use Rattle.std.specs.Coded.{coded_ℕ, coded_list};
    ghost use Rattle.std.specs.FinMap as map;
    ghost use Rattle.cred_book.specs.Names.{name_cmp};
    ghost use Rattle.cred_file.specs.contracts.marks.Mark as kept;
    ghost use Rattle.cred_file.specs.Cells.{Marks};

    ghost Value = { Marks };

    ghost coded = { map.code (coded_list coded_ℕ) kept.the_row.coded };

    ghost view = { λ m. map.from_sorted m.marks.entries };

    ghost invariant = { λ m. T (map.is_sorted name_cmp m.marks.entries) };
}

impl Marks {
    /// Creates a map in which no name is marked.
    pub fn new(alloc: Global) -> Marks
        ensures { result ≡ map.empty }
    {
        Marks {
            marks: BTreeMap::new(alloc),
        }
    }

    /// Returns the mark of a name.
    pub fn at(&self, name: &Name) -> Mark
        ensures { result ≡ mark_at self.now name.now }
    {
        match self.marks.get(name) {
            Some(mark) => *mark,
            None => Mark::none(),
        }
    }

    /// Returns the names with their marks, in the order of the names. A name in the map may have no
    /// mark.
    pub fn iter(&self) -> btree_map::Iter<'_, Name, Mark>
        ensures { result ≡ map.entries self.now }
    {
        self.marks.iter()
    }

    fn holds(&self, name: &Name) -> bool
        ensures { result ≡ map.contains_key self.now name.now }
    {
        self.marks.contains_key(name)
    }

    /// Reserves room for the mark of a name, so that `set` needs no memory.
    pub(crate) fn hold(&mut self, name: &Name) -> Result<(), AllocError>
        ensures held { OnOk result (map.contains_key self.new name.now ≡ true) }
        ensures room { KeepsRoom self.old self.new }
        ensures same { mark_at self.new ≡ mark_at self.old }
    {
        if self.holds(name) {
            return Ok(());
        }
        let Ok(_) = self.marks.insert(*name, Mark::none()) else {
            return Err(AllocError);
        };
        Ok(())
    }

    /// Reserves room for all of these marks.
    pub(crate) fn hold_all(&mut self, given: &Marks) -> Result<(), AllocError>
        ensures held { OnOk result (HasRoom self.new given.now) }
        ensures same { mark_at self.new ≡ mark_at self.old }
    {
        for (name, _) in given.iter() {
            self.hold(name)?;
        }
        Ok(())
    }

    /// Sets the mark of a name for which the map has reserved room, if the mark needs any.
    pub(crate) fn set(&mut self, name: &Name, mark: Mark)
        requires { is_marked mark ≡ true → map.contains_key self.old name.now ≡ true }
        ensures marks { mark_at self.new ≡ marked (mark_at self.old) name.now mark }
        ensures room { KeepsRoom self.old self.new }
    {
        if !self.holds(name) {
            return;
        }
        self.replace(name, mark);
    }

    fn replace(&mut self, name: &Name, mark: Mark)
        requires { map.contains_key self.old name.now ≡ true }
        ensures marks { mark_at self.new ≡ marked (mark_at self.old) name.now mark }
        ensures room { KeepsRoom self.old self.new }
    {
        match self.marks.get_mut(name) {
            Some(place) => *place = mark,
            None => unreachable!(),
        }
    }

    /// Removes the mark that a record must change, which needs no memory.
    pub(crate) fn renew(&mut self, name: &Name)
        ensures { mark_at self.new
            ≡ marked (mark_at self.old) name.now (renewed (mark_at self.old name.now)) }
    {
        if !self.holds(name) {
            return;
        }
        let mark = self.at(name).renewed();
        self.set(name, mark);
    }

    /// Puts the mark of a name, which needs memory only if the name gets a mark.
    pub fn put(&mut self, name: &Name, mark: Mark) -> Result<(), AllocError>
        ensures { OnOk result (mark_at self.new ≡ marked (mark_at self.old) name.now mark) }
    {
        if !mark.is_marked() {
            self.forget(name);
            return Ok(());
        }
        self.hold(name)?;
        self.set(name, mark);
        Ok(())
    }

    /// Removes the mark of a name.
    pub(crate) fn forget(&mut self, name: &Name)
        ensures { mark_at self.new ≡ marked (mark_at self.old) name.now unmarked }
    {
        let _taken = self.marks.remove(name);
    }
}
