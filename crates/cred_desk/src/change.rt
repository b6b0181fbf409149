//! The answer and the entry of a commit at a book.

ghost use Rattle.std.specs.Prelude.{◌≡◌, IfSome};
ghost use Rattle.cred_desk.specs.{Commits.HavePasswords, Commits.entry_of, Commits.reply_of, Histories.IsMade};

use crate::entry::{AccountState, Entry};
use cred_book::{Book, Reply, Request, Worked};

/// Returns the answer that the commit of the work has at this book, and the entry that the commit
/// makes if it is a change.
pub(crate) fn judge(book: &Book, work: &Worked) -> (Reply, Option<Entry>)
    ensures reply { result.0 ≡ reply_of book.now work.now }
    ensures entry { result.1 ≡ entry_of book.now work.now }
    ensures made { IfSome result.1 (λ entry. IsMade book.now entry) }
{
    let request = work.request();
    hold_passwords(&request);
    let (reply, now, change) = book.judge(work);
    if !change {
        return (reply, None);
    }
    let name = request.name();
    let now = AccountState::from(now);
    (reply, Some(Entry { name, now }))
}

/// Proves that a request's passwords have at most 256 bytes, as their accessor says.
fn hold_passwords(request: &Request)
    ensures { HavePasswords request.now }
{
    match request {
        Request::Enrol { pw, .. }
        | Request::Verify { pw, .. }
        | Request::Upgrade { pw, .. }
        | Request::Remove { pw, .. } => {
            let _ = pw.bytes();
        }
        Request::Change { pw, new_pw, .. } => {
            let _ = pw.bytes();
            let _ = new_pw.bytes();
        }
    }
}
