//! The calls of every book: the trait of everything that keeps one, and the book over any map of
//! accounts.

ghost use Rattle.std.specs.Prelude.{◌≡◌, ◌+◌, ◌<◌, ◌≤◌, IfErr, IfOk, MatchBool, true};
ghost use Rattle.std.specs.FinMap as map;
ghost use Rattle.cred_book.specs.{Calls.AdmitsWithin, Calls.EntersWithin, Calls.Loads, Calls.Shows};
ghost use Rattle.cred_book.specs.{Commits.Begins, Commits.Sets, Commits.commit_outcome, Commits.judgement, Works.is_for_current};

use crate::account_map::AccountMap;
use crate::error::BookError;
use crate::name::Name;
use crate::request::{Reply, Request};
use crate::ticket::{Ticket, Worked};
use cred_phc::Record;
use std::marker::Model;
use std::sync::Wait;

/// Keeps a book: its calls answer from the book and change it.
///
/// The calls that take `rt` may wait. They answer `Memory` if memory runs out and no other error is
/// due, and then change nothing.
pub trait Keeper {
    ghost use Rattle.cred_book.specs.Accounts.{Accounts, book_capacity};
    ghost use Rattle.std.specs.Prelude.{◌≡◌, ℕ, true};
    ghost use Rattle.cred_book.specs.Calls.{AdmitsWithin, Loads, Shows};
    ghost use Rattle.cred_book.specs.Commits.{Begins, Commits};
    ghost use Rattle.cred_book.specs.Works.{is_for_current};

    ghost book: { Self → Accounts };

    ghost capacity: { ℕ } = { book_capacity };

    /// Adds a name, with no record.
    ///
    /// Errors: `Exists` if the book has the name; `Full` if it has as many names as it can hold,
    /// which is 4096 for a `Book`; `Memory`.
    fn admit<R: Wait>(&mut self, rt: &R, name: Name) -> Result<(), BookError>
        ensures { AdmitsWithin capacity (book self.old) (book self.new) name result };

    /// Stores this record at the account, in place of any other.
    ///
    /// Errors: `NoAccount` if the book doesn't have the name; `Memory`.
    fn load<R: Wait>(&mut self, rt: &R, name: &Name, stored: Record) -> Result<(), BookError>
        ensures { Loads (book self.old) (book self.new) name.now stored result };

    /// Returns the account's record, if it has one.
    ///
    /// Errors: `NoAccount` if the book doesn't have the name.
    fn show(&self, name: &Name) -> Result<Option<Record>, BookError>
        ensures { Shows (book self.now) name.now result };

    /// Copies the record of the request's account into a ticket. A setting in the request must not
    /// be of version 0x10 (`Request::is_for_current`).
    ///
    /// Errors: `NoAccount` if the book doesn't have the name; the request comes back.
    fn begin(&self, request: Request) -> Result<Ticket, (Request, BookError)>
        requires { is_for_current request ≡ true }
        ensures { Begins (book self.now) request result }
    {
        match self.show(&request.name()) {
            Ok(stored) => Ok(Ticket::new(request, stored)),
            Err(_) => Err((request, BookError::NoAccount)),
        }
    }

    /// Does the whole operation if the record still equals the copy, and otherwise nothing.
    ///
    /// Errors: `Memory` if memory runs out; the work comes back.
    fn commit<R: Wait>(&mut self, rt: &R, worked: Worked) -> Result<Reply, (Worked, BookError)>
        ensures { Commits (book self.old) (book self.new) worked result };
}

/// A book that keeps its accounts in the map `M`: [`Book`](crate::Book) and
/// [`Register`](crate::Register).
#[derive(Drop)]
pub struct AccountBook<M: AccountMap> {
    pub(crate) accounts: M,
}

impl<M: AccountMap> Model for AccountBook<M> {
    ghost use Rattle.std.specs.Coded.{coded_ℕ, coded_list, coded_option};
    ghost use Rattle.std.specs.FinMap as map;
    ghost use Rattle.cred_phc.specs.contracts.Record as stored;
    ghost use Rattle.cred_book.specs.Accounts.{Accounts};

    ghost Value = { Accounts };

    ghost coded = { map.code (coded_list coded_ℕ) (coded_option stored.the_row.coded) };

    ghost view = { λ b. M.accounts b.accounts };
}

impl<M: AccountMap> AccountBook<M> {
    /// Adds a name, with no record.
    ///
    /// Errors: `Exists` if the book has the name; `Full` if it has as many as it can hold, which is
    /// 4096 for a `Book` and 2^24 for a `Register`; `Memory` if memory runs out, but never for a
    /// `Book`.
    pub fn admit(&mut self, name: Name) -> Result<(), BookError>
        ensures done { AdmitsWithin M.CAPACITY self.old self.new name result }
        ensures granted { result ≡ Err BookError.Memory → M.may_run_out }
    {
        self.enter(name, None)
    }

    /// Adds a name, with a record or none.
    ///
    /// Errors: those of `admit`.
    pub fn enter(&mut self, name: Name, stored: Option<Record>) -> Result<(), BookError>
        ensures done { EntersWithin M.CAPACITY self.old self.new name stored result }
        ensures granted { result ≡ Err BookError.Memory → M.may_run_out }
    {
        self.accounts.enter(name, stored)
    }

    /// Removes a name with its record. If the book doesn't have the name, nothing changes.
    pub fn remove(&mut self, name: &Name)
        ensures { self.new ≡ map.remove self.old name.now }
    {
        self.accounts.remove(name);
    }

    /// Whether the book has the name.
    pub fn contains(&self, name: &Name) -> bool
        ensures { result ≡ map.contains_key self.now name.now }
    {
        self.accounts.get(name).is_some()
    }

    /// Whether the book has no room for another name.
    pub fn is_full(&self) -> bool
        ensures { MatchBool result (M.CAPACITY ≤ map.len self.now)
            (map.len self.now < M.CAPACITY) }
    {
        self.len() >= M::CAPACITY
    }

    /// Returns the number of names that can still be added.
    pub fn room(&self) -> usize
        ensures { map.len self.now + result ≡ M.CAPACITY }
    {
        M::CAPACITY - self.len()
    }

    /// Returns the number of names.
    pub fn len(&self) -> usize
        ensures len { result ≡ map.len self.now }
        ensures few { map.len self.now ≤ M.CAPACITY }
    {
        self.accounts.len()
    }

    /// Stores this record at the account, in place of any other.
    ///
    /// Errors: `NoAccount` if the book doesn't have the name.
    pub fn load(&mut self, name: &Name, stored: Record) -> Result<(), BookError>
        ensures done { Loads self.old self.new name.now stored result }
        ensures granted { result ≡ Err BookError.Memory → ⊥ }
    {
        self.set(name, Some(stored))
    }

    /// Returns the account's record, if it has one.
    ///
    /// Errors: `NoAccount` if the book doesn't have the name.
    pub fn show(&self, name: &Name) -> Result<Option<Record>, BookError>
        ensures { Shows self.now name.now result }
    {
        self.accounts.get(name).ok_or(BookError::NoAccount)
    }

    /// Copies the record of the request's account into a ticket. A setting in the request must not
    /// be of version 0x10 (`Request::is_for_current`).
    ///
    /// Errors: `NoAccount` if the book doesn't have the name; the request comes back.
    pub fn begin(&self, request: Request) -> Result<Ticket, (Request, BookError)>
        requires { is_for_current request ≡ true }
        ensures { Begins self.now request result }
    {
        Keeper::begin(self, request)
    }

    /// Does the whole operation if the record still equals the copy, and otherwise nothing.
    pub fn commit(&mut self, worked: Worked) -> Reply
        ensures { (result, self.new) ≡ commit_outcome self.old worked }
    {
        let name = worked.request().name();
        match self.show(&name) {
            Ok(now) => {
                let (reply, after, _) = worked.judgement_at(now);
                self.replace(&name, after);
                reply
            }
            Err(_) => Reply::NoAccount,
        }
    }

    /// Returns the reply that a commit of this work would have now, the record that it would leave,
    /// and whether it would be a change. The record is none if the book doesn't have the name.
    pub fn judge(&self, worked: &Worked) -> (Reply, Option<Record>, bool)
        ensures { result ≡ judgement self.now worked.now }
    {
        match self.show(&worked.request().name()) {
            Ok(now) => worked.judgement_at(now),
            Err(_) => (Reply::NoAccount, None, false),
        }
    }

    /// Stores this record at the account, or none.
    ///
    /// Errors: `NoAccount` if the book doesn't have the name.
    pub fn set(&mut self, name: &Name, stored: Option<Record>) -> Result<(), BookError>
        ensures { Sets self.old self.new name.now stored result }
    {
        if !self.contains(name) {
            return Err(BookError::NoAccount);
        }
        self.replace(name, stored);
        Ok(())
    }

    /// Stores this record at the account, or none. The book has to have the name.
    pub fn replace(&mut self, name: &Name, stored: Option<Record>)
        requires { map.contains_key self.old name.now ≡ true }
        ensures { self.new ≡ map.insert self.old name.now stored }
    {
        self.accounts.replace(name, stored);
    }

    /// Copies the book.
    ///
    /// Errors: `Memory` if memory runs out.
    pub fn copy(&self) -> Result<AccountBook<M>, BookError>
        ensures equal { IfOk result (λ book. book ≡ self.now) }
        ensures memory { IfErr result (λ e. e ≡ BookError.Memory) }
    {
        let accounts = self.accounts.copy()?;
        Ok(AccountBook { accounts })
    }
}

/// Such a book is its own keeper, and its calls wait for nobody.
impl<M: AccountMap> Keeper for AccountBook<M> {
    ghost use Rattle.std.specs.Prelude.{◌≡◌, IfErr};
    ghost use Rattle.cred_book.specs.Calls.{AdmitsWithin, Loads};
    ghost use Rattle.cred_book.specs.Commits.{Commits};

    ghost book = { λ b. b };

    ghost capacity = { M.CAPACITY };

    fn admit<R: Wait>(&mut self, _rt: &R, name: Name) -> Result<(), BookError>
        ensures done { AdmitsWithin M.CAPACITY self.old self.new name result }
        ensures granted { result ≡ Err BookError.Memory → M.may_run_out }
    {
        AccountBook::admit(self, name)
    }

    fn load<R: Wait>(&mut self, _rt: &R, name: &Name, stored: Record) -> Result<(), BookError>
        ensures done { Loads self.old self.new name.now stored result }
        ensures granted { result ≡ Err BookError.Memory → ⊥ }
    {
        AccountBook::load(self, name, stored)
    }

    fn show(&self, name: &Name) -> Result<Option<Record>, BookError> {
        AccountBook::show(self, name)
    }

    fn commit<R: Wait>(&mut self, _rt: &R, worked: Worked) -> Result<Reply, (Worked, BookError)>
        ensures done { Commits self.old self.new worked result }
        ensures granted { IfErr result (λ _. ⊥) }
    {
        Ok(AccountBook::commit(self, worked))
    }
}
