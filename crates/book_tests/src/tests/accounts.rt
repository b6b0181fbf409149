//! The calls of each keeper on accounts, and a copy of a book.
use super::work::{Entry, book_with};
use super::{name, stored};
use crate::small::SmallBook;
use cred_book::{Book, BookError, Keeper, Name, Register};
use cred_phc::Record;
use std::alloc::Global;
use std::sync::Wait;
use test_samples::A;

/// Whether a keeper admits the name, and loads and shows the record.
fn keeps<R: Wait, K: Keeper>(rt: &R, keeper: &mut K, name: Name, stored: Record) -> bool {
    keeper.admit(rt, name) == Ok(())
        && keeper.load(rt, &name, stored) == Ok(())
        && keeper.show(&name) == Ok(Some(stored))
}

/// Whether each keeper admits the name, and loads and shows the record.
fn all_keep<R: Wait>(
    rt: &R,
    alloc: Global,
    name: Name,
    stored: Record,
) -> Result<[bool; 3], BookError> {
    let mut book = Book::new(alloc)?;
    Ok([
        keeps(rt, &mut book, name, stored),
        keeps(rt, &mut Register::new(alloc), name, stored),
        keeps(rt, &mut SmallBook::new(alloc), name, stored),
    ])
}

#[test]
fn an_account_is_admitted_loaded_and_shown(rt: HostRuntime) {
    let (name, stored) = (name(&rt, "a"), stored(&rt, A));
    let kept = all_keep(&rt, rt.alloc(), name, stored);
    assert_eq!(rt; kept, Ok([true; 3]));
}

/// Returns the records that a book and its copy show after the book's record is removed.
fn shown_then(alloc: Global, account: Entry) -> Result<[Option<Record>; 2], BookError> {
    let mut book = book_with(alloc, account)?;
    let copy = book.copy()?;
    book.set(&account.0, None)?;
    Ok([book.show(&account.0)?, copy.show(&account.0)?])
}

#[test]
fn a_copy_shows_the_record(rt: HostRuntime) {
    let one_lane = stored(&rt, A);
    let shown = shown_then(rt.alloc(), (name(&rt, "a"), Some(one_lane)));
    assert_eq!(rt; shown, Ok([None, Some(one_lane)]));
}
