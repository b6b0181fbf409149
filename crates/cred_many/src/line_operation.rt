//! The operation that a tagged line asks for, and how its words are read.

ghost use Rattle.std.specs.Prelude.{◌≡◌, IfOk, IfSome, is_some, map, true};
ghost use Rattle.cred_phc.specs.Ranges.{is_current};
ghost use Rattle.cred_many.specs.LineOperations.{IsSound, operation_of, count_field, disable_operation, hashed_operation, list_operation, marks_operation, rename_operation};
ghost use Rattle.cred_many.specs.{LineOperations.is_costly, LineOperations.is_reset, LineOperations.refused, LineOperations.within, Served.name_asked, Tries.is_try};

use cred_admin::AccountOperation;
use cred_book::{Name, Request};
use cred_cli::{CostBounds, Refusal, exceeds, fields, request_exceeds};
use cred_phc::{Password, PhcError, Record, Setting, decimal};

/// A whole operation with its fields, or the fault of the line.
#[derive(Clone, Copy)]
pub(crate) enum LineOperation {
    /// An operation that needs no hash.
    Quick(QuickOperation),
    /// An operation on an account's record, whose answer is its reply.
    Whole(Request),
    /// Verifies the password, and rehashes a record of other costs if the password is right.
    Login(Name, Password, Setting),
    /// Stores a record of this password at an account, in place of any other.
    Reset(Name, Password, Setting),
    /// Forgives the failed tries at an account.
    Forgive(Name),
    /// A try at this account is too early by this many seconds. No line asks for this operation: it
    /// is the answer to a line that tries a password there.
    Later(Name, u64),
}

/// An operation that needs no hash, or the fault of the line.
#[derive(Clone, Copy)]
pub(crate) enum QuickOperation {
    /// Adds a name without a record.
    Account(Name),
    /// Stores this record at an account.
    Load(Name, Record),
    /// Shows an account's marks and its record.
    Show(Name),
    /// Lists the names from this one on, in their order, at most so many.
    List(Name, u16),
    /// Lists the marked accounts from this name on, with their marks, at most so many.
    ListMarks(Name, u16),
    /// Changes an account without asking for its password.
    OnAccount(AccountOperation),
    /// Removes an account's record, and asks for its line.
    DisableShown(Name),
    /// A line that is refused.
    Bad(Refusal),
}

impl LineOperation {
    /// Returns the operation of a refused line.
    pub(crate) fn refused(why: Refusal) -> LineOperation
        ensures { result ≡ refused why }
    {
        LineOperation::Quick(QuickOperation::Bad(why))
    }

    /// Returns the operation, or a refusal if its setting or record needs more than these bounds.
    pub(crate) fn within(self, most: &CostBounds) -> LineOperation
        requires { IsSound self }
        ensures operation { result ≡ within most.now self }
        ensures sound { IsSound result }
    {
        if self.is_costly(most) {
            return LineOperation::refused(Refusal::Costly);
        }
        self
    }

    /// Whether the operation sets a record in place of any other.
    pub(crate) fn is_reset(&self) -> bool
        ensures { result ≡ is_reset self.now }
    {
        matches!(self, LineOperation::Reset(..))
    }

    /// Whether the scribe does the operation when its line comes, without a hash.
    pub(crate) fn needs_no_hash(&self) -> bool {
        matches!(self, LineOperation::Quick(_) | LineOperation::Forgive(_))
    }

    /// Returns the account whose password the operation tries.
    pub(crate) fn tried(&self) -> Option<Name>
        ensures name { IfSome result (λ name. name ≡ name_asked self.now) }
        ensures tried { is_some result ≡ is_try self.now }
    {
        match self {
            LineOperation::Whole(Request::Enrol { .. }) => None,
            LineOperation::Whole(request) => Some(request.name()),
            LineOperation::Login(name, ..) => Some(*name),
            LineOperation::Quick(_)
            | LineOperation::Reset(..)
            | LineOperation::Forgive(_)
            | LineOperation::Later(..) => None,
        }
    }

    fn is_costly(&self, most: &CostBounds) -> bool
        ensures { result ≡ is_costly most.now self.now }
    {
        match self {
            LineOperation::Quick(QuickOperation::Load(_, stored)) => exceeds(
                most,
                &stored.setting(),
            ),
            LineOperation::Whole(request) => request_exceeds(most, request),
            LineOperation::Reset(_, _, setting) => exceeds(most, setting),
            LineOperation::Quick(_)
            | LineOperation::Login(..)
            | LineOperation::Forgive(_)
            | LineOperation::Later(..) => false,
        }
    }
}

/// The maximum number of names in a list, with their marks or without.
const MOST_LISTED: u64 = 1000;

/// Reads the operation of the words after the tag, with the drawn setting if the words give none.
pub(crate) fn operation_of(drawn: Setting, words: &[&[u8]]) -> Result<LineOperation, Refusal>
    requires { is_current drawn.scheme ≡ true }
    ensures operation { result ≡ operation_of drawn (map (λ s. s.now) words.now) }
    ensures sound { IfOk result IsSound }
{
    let [word, fields @ ..] = words else {
        return Err(Refusal::Line);
    };
    if *word == b"account".as_slice() {
        Ok(LineOperation::Quick(QuickOperation::Account(fields::only_name(fields)?)))
    } else if *word == b"load".as_slice() {
        let (name, stored) = fields::name_and_record(fields)?;
        Ok(LineOperation::Quick(QuickOperation::Load(name, stored)))
    } else if *word == b"show".as_slice() {
        Ok(LineOperation::Quick(QuickOperation::Show(fields::only_name(fields)?)))
    } else if *word == b"list".as_slice() {
        Ok(LineOperation::Quick(list_operation(fields)?))
    } else if *word == b"marks".as_slice() {
        Ok(LineOperation::Quick(marks_operation(fields)?))
    } else if *word == b"disable".as_slice() {
        Ok(LineOperation::Quick(disable_operation(fields)?))
    } else if *word == b"delete".as_slice() {
        let name = fields::only_name(fields)?;
        Ok(LineOperation::Quick(QuickOperation::OnAccount(AccountOperation::Delete(name))))
    } else if *word == b"rename".as_slice() {
        Ok(LineOperation::Quick(rename_operation(fields)?))
    } else if *word == b"lock".as_slice() {
        let name = fields::only_name(fields)?;
        Ok(LineOperation::Quick(QuickOperation::OnAccount(AccountOperation::Lock(name))))
    } else if *word == b"unlock".as_slice() {
        let name = fields::only_name(fields)?;
        Ok(LineOperation::Quick(QuickOperation::OnAccount(AccountOperation::Unlock(name))))
    } else if *word == b"expire".as_slice() {
        let name = fields::only_name(fields)?;
        Ok(LineOperation::Quick(QuickOperation::OnAccount(AccountOperation::Expire(name))))
    } else if *word == b"forgive".as_slice() {
        Ok(LineOperation::Forgive(fields::only_name(fields)?))
    } else {
        hashed_operation(drawn, word, fields)
    }
}

fn list_operation(fields: &[&[u8]]) -> Result<QuickOperation, Refusal>
    ensures { result ≡ list_operation (map (λ s. s.now) fields.now) }
{
    match fields {
        [from, most] => Ok(QuickOperation::List(fields::name(from)?, count(most)?)),
        _ => Err(Refusal::Line),
    }
}

fn marks_operation(fields: &[&[u8]]) -> Result<QuickOperation, Refusal>
    ensures { result ≡ marks_operation (map (λ s. s.now) fields.now) }
{
    match fields {
        [from, most] => Ok(QuickOperation::ListMarks(fields::name(from)?, count(most)?)),
        _ => Err(Refusal::Line),
    }
}

fn count(text: &[u8]) -> Result<u16, Refusal>
    ensures { result ≡ count_field text.now }
{
    match decimal(text) {
        Some(number) if number >= 1 && number <= MOST_LISTED => Ok(number as u16),
        _ => Err(Refusal::Text(PhcError::Range)),
    }
}

fn disable_operation(fields: &[&[u8]]) -> Result<QuickOperation, Refusal>
    ensures { result ≡ disable_operation (map (λ s. s.now) fields.now) }
{
    match fields {
        [name] => Ok(QuickOperation::OnAccount(AccountOperation::Disable(fields::name(name)?))),
        [name, word] if *word == b"show".as_slice() => {
            Ok(QuickOperation::DisableShown(fields::name(name)?))
        }
        _ => Err(Refusal::Line),
    }
}

fn rename_operation(fields: &[&[u8]]) -> Result<QuickOperation, Refusal>
    ensures { result ≡ rename_operation (map (λ s. s.now) fields.now) }
{
    match fields {
        [name, new] => Ok(QuickOperation::OnAccount(AccountOperation::Rename(
            fields::name(name)?,
            fields::name(new)?,
        ))),
        _ => Err(Refusal::Line),
    }
}

/// Reads an operation that needs a hash.
fn hashed_operation(drawn: Setting, word: &[u8], fields: &[&[u8]]) -> Result<LineOperation, Refusal>
    requires { is_current drawn.scheme ≡ true }
    ensures operation { result ≡ hashed_operation drawn word.now (map (λ s. s.now) fields.now) }
    ensures sound { IfOk result IsSound }
{
    if word == b"login".as_slice() {
        let (name, pw) = fields::name_and_password(fields)?;
        Ok(LineOperation::Login(name, pw, drawn))
    } else if word == b"reset".as_slice() {
        let (name, pw, setting) = fields::name_password_setting(Some(drawn), fields)?;
        Ok(LineOperation::Reset(name, pw, setting))
    } else {
        Ok(LineOperation::Whole(fields::request(Some(drawn), word, fields)?))
    }
}
