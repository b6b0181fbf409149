//! The exit statuses.

ghost use Rattle.std.specs.Prelude.{◌≡◌};
ghost use Rattle.cred_admin.specs.Statuses.{hint_of, number_of, status_of};

use cred_book::Reply;
use cred_phc::Password;

/// The reason why a password may differ from the intended one.
#[derive(Clone, Copy, Debug, PartialEq, Eq)]
pub enum Hint {
    /// The password's last byte is a carriage return, which each line of a Windows file has before
    /// its end.
    CarriageReturn,
}

/// Returns the hint for this password, if any.
pub(crate) fn hint_of(pw: &Password) -> Option<Hint>
    ensures { result ≡ hint_of pw.now }
{
    let last = pw.bytes().last().copied()?;
    if last == b'\r' {
        return Some(Hint::CarriageReturn);
    }
    None
}

/// The exit status of a command.
#[derive(Clone, Copy, Debug, PartialEq, Eq)]
pub enum Status {
    /// The command did its work, or the password is right.
    Done,
    /// The words of the command line are wrong.
    Usage,
    /// Reading or writing failed.
    Io,
    /// Memory ran out.
    Memory,
    /// The book says no: another password (perhaps with a hint), no such account, no record, or an
    /// existing one.
    No(Option<Hint>),
    /// The database failed, is busy, or holds no book.
    Database,
    /// The input is wrong: a bad password or none, a bad line, or one account too many.
    Data,
}

impl Status {
    /// Returns the number of the exit status.
    pub fn number(self) -> u8
        ensures { result ≡ number_of self }
    {
        match self {
            Status::Done => 0,
            Status::Usage => 1,
            Status::Io => 2,
            Status::Memory => 3,
            Status::No(_) => 4,
            Status::Database => 5,
            Status::Data => 6,
        }
    }
}

/// Returns the exit status of a reply, with the hint for the password.
pub(crate) fn status_of(reply: &Reply, hint: Option<Hint>) -> Status
    ensures { result ≡ status_of reply.now hint }
{
    match reply {
        Reply::Enrolled
        | Reply::Yes
        | Reply::Replaced
        | Reply::Upgraded
        | Reply::Kept
        | Reply::Removed => Status::Done,
        Reply::No | Reply::Wrong => Status::No(hint),
        Reply::Exists | Reply::Absent | Reply::Changed { .. } | Reply::NoAccount => {
            Status::No(None)
        }
    }
}
