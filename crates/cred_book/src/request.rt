//! The operations on an account, the replies to their commits, and the change of a commit.

ghost use Rattle.std.specs.Prelude.{◌≡◌};

use crate::name::Name;
use cred_phc::{Password, Record, Setting};

/// An operation on the record of one account.
#[derive(Clone, Copy, Debug, PartialEq, Eq)]
pub enum Request {
    /// Stores the account's first record, under `setting`.
    Enrol {
        name: Name,
        pw: Password,
        setting: Setting,
    },
    /// Asks whether `pw` is the account's password.
    Verify {
        name: Name,
        pw: Password,
    },
    /// Replaces the record of `pw` by one of `new_pw`.
    Change {
        name: Name,
        pw: Password,
        new_pw: Password,
        setting: Setting,
    },
    /// Rehashes the same password, unless its record has this scheme with these costs already.
    Upgrade {
        name: Name,
        pw: Password,
        setting: Setting,
    },
    /// Removes the record; the name stays.
    Remove {
        name: Name,
        pw: Password,
    },
}

impl Request {
    ghost use Rattle.cred_book.specs.Works.{is_for_current, name_of};

    /// Returns the account's name.
    pub fn name(&self) -> Name
        ensures { result ≡ name_of self.now }
    {
        match *self {
            Request::Enrol { name, .. }
            | Request::Verify { name, .. }
            | Request::Change { name, .. }
            | Request::Upgrade { name, .. }
            | Request::Remove { name, .. } => name,
        }
    }

    /// Whether the request has no setting of version 0x10 for a new record: only old records have
    /// that version.
    pub fn is_for_current(&self) -> bool
        ensures { result ≡ is_for_current self.now }
    {
        match self {
            Request::Enrol { setting, .. }
            | Request::Change { setting, .. }
            | Request::Upgrade { setting, .. } => setting.is_current(),
            Request::Verify { .. } | Request::Remove { .. } => true,
        }
    }
}

/// The answer to an operation, at the moment of its commit.
#[derive(Clone, Copy, Debug, PartialEq, Eq)]
pub enum Reply {
    /// The account has its first record now.
    Enrolled,
    /// The account has a record already.
    Exists,
    /// The password is right.
    Yes,
    /// The password is wrong.
    No,
    /// The account has no record.
    Absent,
    /// The account has the new password's record now.
    Replaced,
    /// The password is wrong, and the commit did nothing.
    Wrong,
    /// The record was rehashed.
    Upgraded,
    /// The record has this scheme with these costs already.
    Kept,
    /// The record was removed.
    Removed,
    /// The record is no longer the operation's copy, but `now`; the commit did nothing.
    Changed { now: Option<Record> },
    /// The book doesn't have the name; the commit did nothing.
    NoAccount,
}

impl Reply {
    ghost use Rattle.std.specs.Prelude.{◌≡◌};
    ghost use Rattle.cred_book.specs.Works.{makes_change};

    /// Whether the operation made a change: `Enrolled`, `Replaced`, `Upgraded` or `Removed`.
    pub fn makes_change(&self) -> bool
        ensures { result ≡ makes_change self.now }
    {
        matches!(
            self,
            Reply::Enrolled | Reply::Replaced | Reply::Upgraded | Reply::Removed
        )
    }
}

/// The entry that a commit changes in the book, with the commit's reply.
#[derive(Clone, Copy, Debug, PartialEq, Eq)]
pub struct Change {
    /// The account's name.
    pub name: Name,
    /// The account's record from then on, or none if it was removed.
    pub after: Option<Record>,
    /// The reply to the commit.
    pub reply: Reply,
}
