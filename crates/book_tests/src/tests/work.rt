//! Whole operations, each begun, worked and committed, and their results.
use cred_book::{Book, BookError, Name, Reply, Request, Ticket, Worked};
use cred_phc::Record;
use cred_pool::NoGate;
use std::alloc::Global;
use std::thread::Threads;

/// A name, and its record.
pub(super) type Entry = (Name, Option<Record>);

/// The results of work that is committed.
#[derive(Clone, Copy, PartialEq)]
pub(super) struct Seen {
    /// The answer that is due, the record that the account should have then, and whether the work
    /// is a change.
    pub(super) judged: (Reply, Option<Record>, bool),
    pub(super) reply: Reply,
    /// The record after it.
    pub(super) shown: Result<Option<Record>, BookError>,
}

/// Returns a book with one account.
pub(super) fn book_with(alloc: Global, account: Entry) -> Result<Book, BookError> {
    let mut book = Book::new(alloc)?;
    book.put(&account.0, account.1);
    Ok(book)
}

/// Returns a ticket of the request; none if the book refuses it.
pub(super) fn begun(book: &Book, request: Request) -> Option<Ticket> {
    if !request.is_for_current() {
        return None;
    }
    book.begin(request).ok()
}

/// Returns the work of the request, begun at the book.
pub(super) fn worked<R: Threads + Sync>(
    rt: &R,
    alloc: Global,
    book: &Book,
    request: Request,
) -> Option<Worked> {
    begun(book, request)?.work(rt, alloc, 2, &NoGate).ok()
}

/// Commits the work.
fn committed(book: &mut Book, work: Worked) -> Seen {
    let name = work.request().name();
    let judged = book.judge(&work);
    let reply = book.commit(work);
    Seen {
        judged,
        reply,
        shown: book.show(&name),
    }
}

/// Does the whole operation at a book with one account, and puts each of these records there before
/// the commit.
pub(super) fn operate<R: Threads + Sync>(
    rt: &R,
    alloc: Global,
    account: Entry,
    request: Request,
    meanwhile: &[Option<Record>],
) -> Option<Seen> {
    let mut book = book_with(alloc, account).ok()?;
    let work = worked(rt, alloc, &book, request)?;
    for now in meanwhile {
        book.put(&account.0, *now);
    }
    Some(committed(&mut book, work))
}
