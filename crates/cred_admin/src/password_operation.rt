//! The operations on one account, which read its passwords.

ghost use Rattle.std.specs.Prelude.{◌≡◌, Err, IfOk, OnErr, false, true};
ghost use Rattle.std.specs.FinMap as map;
ghost use Rattle.cred_book.specs.Works.{is_for_current, new_record};
ghost use Rattle.cred_cli.specs.Watched.{Basis, failed_of, reading_on, writing_on};
ghost use Rattle.cred_file.specs.Changes.{has_room_for};
ghost use Rattle.cred_admin.specs.{PasswordOperations.ComesTo, PasswordOperations.Obeys, PasswordOperations.Works, PasswordOperations.as_told, PasswordOperations.enrolment, PasswordOperations.passwords_of, PasswordOperations.reset_step, PasswordOperations.takes_first, Marked.tried, Seen.FitsSince, Seen.seen};

use crate::fault::Fault;
use crate::host::Host;
use crate::password::{NewPassword, Passwords, Typed, read_passwords};
use crate::printing::tell;
use crate::setting::NewSetting;
use crate::status::{Status, hint_of};
use crate::verdict::{Verdict, commit_try, verdict_line, verdict_status};
use cred_book::{Name, Reply, Request};
use cred_cli::{Tools, Watched};
use cred_phc::{Password, Record};
use cred_pool::NoGate;
use std::alloc::AllocError;
use std::io::{Read, Write};
use std::thread::Threads;

/// An operation on one account, which reads each of its passwords from a line.
#[derive(Clone, Copy, Debug, PartialEq, Eq)]
pub enum PasswordOperation {
    /// Stores the first record of the account, and adds the account if it doesn't exist. The answer
    /// is `enrolled`, or `exists`.
    Add(NewPassword),
    /// Asks whether a password is the account's. The answer is `yes` or `no`.
    Check,
    /// Replaces the old password's record by a record of a new password. The answer is `replaced`
    /// or `wrong`.
    Change(NewPassword),
    /// Sets the record of a new password, without the old one. The answer is
    /// `replaced`, or `enrolled` for the first record.
    Reset(NewPassword),
    /// Rehashes the account's password, unless its record has this scheme with these numbers. The
    /// answer is `upgraded`, `kept` or `wrong`.
    Upgrade(NewSetting),
    /// Removes the account's record; the name stays. The answer is `removed` or `wrong`.
    Remove,
}

impl PasswordOperation {
    /// Returns the passwords that the operation reads.
    pub fn passwords(&self) -> Passwords
        ensures { result ≡ passwords_of self.now }
    {
        match self {
            PasswordOperation::Check | PasswordOperation::Upgrade(_) | PasswordOperation::Remove =>
                Passwords::Present,
            PasswordOperation::Add(new) | PasswordOperation::Reset(new) => Passwords::New(
                new.empty,
            ),
            PasswordOperation::Change(new) => Passwords::PresentAndNew(new.empty),
        }
    }

    /// Reads the passwords, does the whole operation, and then writes the answer, which is
    /// `noaccount` or `absent` if the account or its record is missing. A locked account gets the
    /// answers of wrong passwords. A right password that must be changed gets `expired`, and its
    /// change to itself gets `same`.
    ///
    /// Only a call of the reader or the writer may wait: otherwise every body returns, so these
    /// clauses bind it.
    ///
    /// Errors: `Write`; and, before any output or change, `Read`, `NoPassword`, `NoNewPassword`,
    /// `Password`, `Empty`, `Memory`, or `Full` if the book has no room for an account.
    pub fn carry_out<T: Threads + Sync, K: Host, R: Read, W: Write>(
        &self,
        tools: &Tools<'_, T>,
        keeper: &mut K,
        name: &Name,
        reader: &mut Watched<R>,
        writer: &mut Watched<W>,
    ) -> Result<Status, Fault>
        ensures done { (basis : Basis) → FitsSince basis reader.old reader.new
            → Obeys K.capacity name.now self.now
            (seen (reading_on basis R.remaining reader.old reader.new)
            (writing_on basis W.contents writer.old writer.new)
            (K.book keeper.old) (K.book keeper.new)) result }
        ensures memory { result ≡ Err Fault.Memory → failed_of reader.new ≡ failed_of reader.old }
    {
        let typed = read_passwords(tools.alloc, self.passwords(), reader)?;
        let verdict = self.work(tools, keeper, name, &typed)?;
        let hint = hint_of(&typed.first);
        tell(
            verdict_line(&verdict),
            verdict_status(&verdict, hint),
            writer,
        )
    }

    /// Does the operation with these passwords.
    fn work<T: Threads + Sync, K: Host>(
        &self,
        tools: &Tools<'_, T>,
        keeper: &mut K,
        name: &Name,
        typed: &Typed,
    ) -> Result<Verdict, Fault>
        ensures { Works K.capacity (K.book keeper.old) (K.book keeper.new) name.now self.now
            typed.now result }
    {
        let Typed {
            first: pw,
            last: new_pw,
        } = *typed;
        match self {
            PasswordOperation::Add(new) => enrol(tools, keeper, name, &new.setting, &new_pw),
            PasswordOperation::Check => settle(tools, keeper, Request::Verify { name: *name, pw }),
            PasswordOperation::Change(new) => {
                let setting = new.setting.setting();
                let change = Request::Change {
                    name: *name,
                    pw,
                    new_pw,
                    setting,
                };
                settle(tools, keeper, change)
            }
            PasswordOperation::Reset(new) => reset(tools, keeper, name, &new.setting, &new_pw),
            PasswordOperation::Upgrade(new) => {
                let setting = new.setting();
                let upgrade = Request::Upgrade {
                    name: *name,
                    pw,
                    setting,
                };
                settle(tools, keeper, upgrade)
            }
            PasswordOperation::Remove => settle(tools, keeper, Request::Remove { name: *name, pw }),
        }
    }
}

/// Begins an operation, hashes for it and commits it, with nothing between that could change the
/// record.
fn settle<T: Threads + Sync, K: Host>(
    tools: &Tools<'_, T>,
    keeper: &mut K,
    request: Request,
) -> Result<Verdict, Fault>
    requires { is_for_current request ≡ true }
    ensures { ComesTo (tried (K.book keeper.old) request) ⊥ (K.book keeper.old)
        (K.book keeper.new) result }
{
    let Ok(ticket) = keeper.accounts().begin(request) else {
        return Ok(Verdict::Told(Reply::NoAccount));
    };
    let Ok(worked) = ticket.work(tools.rt, tools.alloc, tools.workers, &NoGate) else {
        return Err(Fault::Memory);
    };
    match commit_try(keeper, worked) {
        Ok(verdict) => Ok(verdict),
        Err(_) => Err(Fault::Memory),
    }
}

fn enrol<T: Threads + Sync, K: Host>(
    tools: &Tools<'_, T>,
    keeper: &mut K,
    name: &Name,
    setting: &NewSetting,
    pw: &Password,
) -> Result<Verdict, Fault>
    ensures { ComesTo
        (as_told (enrolment (K.book keeper.old) name.now (new_record setting.now pw.now)))
        (has_room_for K.capacity (K.book keeper.old).accounts name.now ≡ false)
        (K.book keeper.old) (K.book keeper.new) result }
{
    if !takes_first(keeper, name) {
        return Ok(Verdict::Told(Reply::Exists));
    }
    let stored = tools.hashing().made(&setting.setting(), pw)?;
    keeper.put(name, Some(stored))?;
    Ok(Verdict::Told(Reply::Enrolled))
}

/// Whether a first record may be put at a name: it has none, and isn't locked.
fn takes_first<K: Host>(keeper: &K, name: &Name) -> bool
    ensures { result ≡ takes_first (K.book keeper.now) name.now }
{
    match keeper.accounts().show(name) {
        Ok(Some(_)) => false,
        Ok(None) => !keeper.mark_of(name).locked,
        Err(_) => true,
    }
}

fn reset<T: Threads + Sync, K: Host>(
    tools: &Tools<'_, T>,
    keeper: &mut K,
    name: &Name,
    setting: &NewSetting,
    pw: &Password,
) -> Result<Verdict, Fault>
    ensures { ComesTo
        (as_told (reset_step (K.book keeper.old) name.now (new_record setting.now pw.now))) ⊥
        (K.book keeper.old) (K.book keeper.new) result }
{
    if !keeper.accounts().contains(name) {
        return Ok(Verdict::Told(Reply::NoAccount));
    }
    let stored = tools.hashing().made(&setting.setting(), pw)?;
    let reply = put_in_place(keeper, name, stored)?;
    Ok(Verdict::Told(reply))
}

/// Stores this record at the account, in place of any other. Its password need not be changed any
/// more, and a lock stays. If memory runs out, which it does only if the account exists, the book
/// stays as it was.
pub fn put_in_place<K: Host>(
    keeper: &mut K,
    name: &Name,
    stored: Record,
) -> Result<Reply, AllocError>
    ensures done { IfOk result (λ reply.
        (reply, K.book keeper.new) ≡ reset_step (K.book keeper.old) name.now stored) }
    ensures refused { OnErr result (K.book keeper.new ≡ K.book keeper.old) }
    ensures there { OnErr result (map.contains_key (K.book keeper.old).accounts name.now ≡ true) }
{
    let reply = match keeper.accounts().show(name) {
        Ok(None) => Reply::Enrolled,
        Ok(Some(_)) => Reply::Replaced,
        Err(_) => return Ok(Reply::NoAccount),
    };
    match keeper.load(name, stored) {
        Ok(()) => Ok(reply),
        Err(_) => Err(AllocError),
    }
}
