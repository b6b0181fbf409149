//! The operations that change an account without its password.

ghost use Rattle.std.specs.Prelude.{◌≡◌};
ghost use Rattle.std.specs.FinMap as map;
ghost use Rattle.cred_book.specs.Accounts.{register_capacity};
ghost use Rattle.cred_cli.specs.Watched.{Basis, writing_on};
ghost use Rattle.cred_admin.specs.{AccountOperations.DisablesShown, AccountOperations.Operates, AccountOperations.OperatesWithin, Marked.expired, Marked.kept_book, Marked.locked, Marked.unlocked};
ghost use Rattle.cred_admin.specs.declared.account_operation.AccountOperation.TheVariants as change;

use crate::account_reply::{AccountReply, account_reply_line, account_reply_status};
use crate::detail::Detail;
use crate::fault::Fault;
use crate::host::Host;
use crate::listing::{LineForm, line_of};
use crate::printing::{tell, write_whole};
use crate::status::Status;
use cred_book::{BookError, Name};
use cred_cli::Watched;
use cred_file::{FileBook, Mark};
use sqlite::Alter;
use std::alloc::Global;
use std::io::Write;

/// An operation on one account, which needs no password.
#[derive(Clone, Copy)]
pub enum AccountOperation {
    /// Removes the record, and leaves the name.
    Disable(Name),
    /// Removes the name with its record.
    Delete(Name),
    /// Renames the account of the first name to the second one.
    Rename(Name, Name),
    /// Locks the account: each password is wrong.
    Lock(Name),
    /// Ends a lock.
    Unlock(Name),
    /// Requires a new password for the account.
    Expire(Name),
}

impl AccountOperation {
    /// Does the operation, and writes the outcome: `disabled`, `deleted`, `renamed`, `locked`,
    /// `unlocked` or `expired`; `absent` if the account has no record to remove or to change,
    /// `none` if the account isn't locked, `exists` if the second name exists, or `noaccount`.
    ///
    /// Errors: `Write`; and, before any output or change, `Memory`, or `Full` if an account would
    /// be renamed and the book has no room for one more name.
    pub fn carry_out<K: Host, W: Write>(
        &self,
        keeper: &mut K,
        writer: &mut Watched<W>,
    ) -> Result<Status, Fault>
        ensures { (basis : Basis)
            → Operates K.capacity (K.book keeper.old) (K.book keeper.new) self.now
            (writing_on basis W.contents writer.old writer.new) result }
    {
        let reply = keeper.operate(self)?;
        tell(
            account_reply_line(reply),
            account_reply_status(reply),
            writer,
        )
    }

    /// Does the operation, and returns the outcome.
    ///
    /// Errors: `Full` if an account would be renamed, and the book has no room for one more name;
    /// `Memory`. The book stays as it was.
    pub(crate) fn work_in<S: Alter>(
        &self,
        book: &mut FileBook<S>,
    ) -> Result<AccountReply, BookError>
        ensures { OperatesWithin register_capacity (kept_book book.old) (kept_book book.new)
            self.now result }
    {
        match *self {
            AccountOperation::Disable(name) => disable(book, &name),
            AccountOperation::Delete(name) => delete(book, &name),
            AccountOperation::Rename(name, other) => rename(book, &name, &other),
            AccountOperation::Lock(name) => lock(book, &name),
            AccountOperation::Unlock(name) => unlock(book, &name),
            AccountOperation::Expire(name) => expire(book, &name),
        }
    }
}

#[tactic(auto, using(crate::proofs::Renaming::disabled))]
fn disable<S: Alter>(book: &mut FileBook<S>, name: &Name) -> Result<AccountReply, BookError>
    ensures { OperatesWithin register_capacity (kept_book book.old) (kept_book book.new)
        (change.Disable name.now) result }
{
    match book.book().show(name) {
        Ok(Some(_)) => {}
        Ok(None) => return Ok(AccountReply::Absent),
        Err(_) => return Ok(AccountReply::NoAccount),
    }
    match book.put(name, None) {
        Ok(()) => Ok(AccountReply::Disabled),
        Err(_) => Err(BookError::Memory),
    }
}

#[tactic(auto, using(crate::proofs::Renaming::deleting))]
fn delete<S: Alter>(book: &mut FileBook<S>, name: &Name) -> Result<AccountReply, BookError>
    ensures { OperatesWithin register_capacity (kept_book book.old) (kept_book book.new)
        (change.Delete name.now) result }
{
    match book.delete(name) {
        Ok(()) => Ok(AccountReply::Deleted),
        Err(BookError::NoAccount) => Ok(AccountReply::NoAccount),
        Err(_) => Err(BookError::Memory),
    }
}

#[tactic(auto, using(crate::proofs::Renaming::renaming))]
fn rename<S: Alter>(
    book: &mut FileBook<S>,
    name: &Name,
    other: &Name,
) -> Result<AccountReply, BookError>
    ensures { OperatesWithin register_capacity (kept_book book.old) (kept_book book.new)
        (change.Rename name.now other.now) result }
{
    let accounts = book.book();
    if !accounts.contains(name) {
        return Ok(AccountReply::NoAccount);
    }
    if accounts.contains(other) {
        return Ok(AccountReply::Exists);
    }
    if accounts.is_full() {
        return Err(BookError::Full);
    }
    match book.rename(name, other) {
        Ok(()) => Ok(AccountReply::Renamed),
        Err(_) => Err(BookError::Memory),
    }
}

#[tactic(auto, using(crate::proofs::Renaming::marking))]
fn lock<S: Alter>(book: &mut FileBook<S>, name: &Name) -> Result<AccountReply, BookError>
    ensures { OperatesWithin register_capacity (kept_book book.old) (kept_book book.new)
        (change.Lock name.now) result }
{
    let mark = locked(book.marks().at(name));
    match book.mark(name, mark) {
        Ok(()) => Ok(AccountReply::Locked),
        Err(BookError::NoAccount) => Ok(AccountReply::NoAccount),
        Err(_) => Err(BookError::Memory),
    }
}

#[tactic(auto, using(crate::proofs::Renaming::marking))]
fn unlock<S: Alter>(book: &mut FileBook<S>, name: &Name) -> Result<AccountReply, BookError>
    ensures { OperatesWithin register_capacity (kept_book book.old) (kept_book book.new)
        (change.Unlock name.now) result }
{
    let mark = book.marks().at(name);
    if !mark.locked {
        if book.book().contains(name) {
            return Ok(AccountReply::NotLocked);
        }
        return Ok(AccountReply::NoAccount);
    }
    match book.mark(name, unlocked(mark)) {
        Ok(()) => Ok(AccountReply::Unlocked),
        Err(BookError::NoAccount) => Ok(AccountReply::NoAccount),
        Err(_) => Err(BookError::Memory),
    }
}

#[tactic(auto, using(crate::proofs::Renaming::marking))]
fn expire<S: Alter>(book: &mut FileBook<S>, name: &Name) -> Result<AccountReply, BookError>
    ensures { OperatesWithin register_capacity (kept_book book.old) (kept_book book.new)
        (change.Expire name.now) result }
{
    match book.book().show(name) {
        Ok(Some(_)) => {}
        Ok(None) => return Ok(AccountReply::Absent),
        Err(_) => return Ok(AccountReply::NoAccount),
    }
    let mark = expired(book.marks().at(name));
    match book.mark(name, mark) {
        Ok(()) => Ok(AccountReply::Expired),
        Err(_) => Err(BookError::Memory),
    }
}

fn locked(mark: Mark) -> Mark
    ensures { result ≡ locked mark }
{
    Mark {
        locked: true,
        must_change: mark.must_change,
    }
}

fn unlocked(mark: Mark) -> Mark
    ensures { result ≡ unlocked mark }
{
    Mark {
        locked: false,
        must_change: mark.must_change,
    }
}

fn expired(mark: Mark) -> Mark
    ensures { result ≡ expired mark }
{
    Mark {
        locked: mark.locked,
        must_change: true,
    }
}

/// Writes the account's line of a passwd-file, and then removes its record. The line comes first,
/// so that a failed write loses no record.
///
/// The answer without a record is `absent` or `noaccount`. Errors: `Memory` and `Write`. The
/// account then stays as it is.
pub fn disable_shown<K: Host, W: Write>(
    alloc: Global,
    keeper: &mut K,
    name: &Name,
    writer: &mut Watched<W>,
) -> Result<Status, Fault>
    ensures { (basis : Basis) → DisablesShown (K.book keeper.old) (K.book keeper.new) name.now
        (map.get (K.book keeper.old).accounts name.now)
        (writing_on basis W.contents writer.old writer.new) result }
{
    let stored = match keeper.accounts().show(name) {
        Ok(Some(stored)) => stored,
        Ok(None) => return tell(
            account_reply_line(AccountReply::Absent),
            Status::No(None),
            writer,
        ),
        Err(_) => return tell(
            account_reply_line(AccountReply::NoAccount),
            Status::No(None),
            writer,
        ),
    };
    let line = line_of(
        alloc,
        LineForm::Passwd(Detail::Record),
        name,
        keeper.mark_of(name),
        Some(stored),
    )?;
    write_whole(writer, &line)?;
    let Ok(_) = keeper.operate(&AccountOperation::Disable(*name)) else {
        return Err(Fault::Memory);
    };
    Ok(Status::Done)
}
