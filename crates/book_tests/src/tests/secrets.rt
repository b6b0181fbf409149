//! Tests that no value with a password in it shows the password.
use super::work::{begun, book_with, worked};
use super::{name, password, setting, stored};
use cred_book::{Book, Request};
use std::alloc::Global;
use std::process::Abort;
use std::thread::Threads;
use test_samples::{A, A_SETTING, SECRET, shows_secret};

/// Returns one request of each operation, at the account `a`, with the password in each place of a
/// password.
fn requests<R: Abort>(rt: &R) -> [Request; 5] {
    let (name, pw, setting) = (name(rt, "a"), password(rt, SECRET), setting(rt, A_SETTING));
    [
        Request::Enrol { name, pw, setting },
        Request::Verify { name, pw },
        Request::Change {
            name,
            pw,
            new_pw: pw,
            setting,
        },
        Request::Upgrade { name, pw, setting },
        Request::Remove { name, pw },
    ]
}

/// Whether the request, its ticket or its work shows the password; none if the request isn't begun
/// or worked.
fn is_shown<R: Threads + Sync>(
    rt: &R,
    alloc: Global,
    book: &Book,
    request: Request,
) -> Option<bool> {
    let ticket = begun(book, request)?;
    let work = worked(rt, alloc, book, request)?;
    let text = format!(in alloc; "{request:?} {ticket:?} {work:?}").ok()?;
    let verify = format!(in alloc; "{:?}", work.into_verify()).ok()?;
    Some(shows_secret(&text) || shows_secret(&verify))
}

/// Whether the refusal to begin the request at a book without its name shows the password; none if
/// the request is begun.
fn is_shown_in_refusal(alloc: Global, request: Request) -> Option<bool> {
    let book = Book::new(alloc).ok()?;
    if !request.is_for_current() {
        return None;
    }
    let refusal = book.begin(request).err()?;
    let text = format!(in alloc; "{refusal:?}").ok()?;
    Some(shows_secret(&text))
}

#[test]
fn no_operation_shows_a_password(rt: HostRuntime) {
    let account = (name(&rt, "a"), Some(stored(&rt, A)));
    let book = book_with(rt.alloc(), account).expect(&rt, "memory");
    for request in requests(&rt) {
        let seen = is_shown(&rt, rt.alloc(), &book, request);
        assert_eq!(rt; seen, Some(false));
    }
}

#[test]
fn no_refusal_shows_a_password(rt: HostRuntime) {
    for request in requests(&rt) {
        assert_eq!(rt; is_shown_in_refusal(rt.alloc(), request), Some(false));
    }
}
