//! The answer to an operation that changes an account without its password.

ghost use Rattle.std.specs.Prelude.{◌≡◌};
ghost use Rattle.cred_admin.specs.AccountOperations.{account_reply_line, account_reply_status};

use crate::status::Status;

/// The outcome of such an operation.
#[derive(Clone, Copy, Debug, PartialEq, Eq)]
pub enum AccountReply {
    /// The record was removed, and the name stays.
    Disabled,
    /// The name was removed, with its record.
    Deleted,
    /// The record has the other name now.
    Renamed,
    /// The account is locked.
    Locked,
    /// The account isn't locked any more.
    Unlocked,
    /// The password must be changed.
    Expired,
    /// The account has no record.
    Absent,
    /// The account isn't locked.
    NotLocked,
    /// The other name exists already.
    Exists,
    /// The name doesn't exist.
    NoAccount,
}

/// Returns the reply's word with the line end.
pub fn account_reply_line(reply: AccountReply) -> &'static [u8]
    ensures { result.now ≡ account_reply_line reply }
{
    match reply {
        AccountReply::Disabled => b"disabled\n",
        AccountReply::Deleted => b"deleted\n",
        AccountReply::Renamed => b"renamed\n",
        AccountReply::Locked => b"locked\n",
        AccountReply::Unlocked => b"unlocked\n",
        AccountReply::Expired => b"expired\n",
        AccountReply::Absent => b"absent\n",
        AccountReply::NotLocked => b"none\n",
        AccountReply::Exists => b"exists\n",
        AccountReply::NoAccount => b"noaccount\n",
    }
}

/// Returns the exit status for the reply.
pub(crate) fn account_reply_status(reply: AccountReply) -> Status
    ensures { result ≡ account_reply_status reply }
{
    match reply {
        AccountReply::Disabled
        | AccountReply::Deleted
        | AccountReply::Renamed
        | AccountReply::Locked
        | AccountReply::Unlocked
        | AccountReply::Expired => Status::Done,
        AccountReply::Absent
        | AccountReply::NotLocked
        | AccountReply::Exists
        | AccountReply::NoAccount => { Status::No(None) }
    }
}
