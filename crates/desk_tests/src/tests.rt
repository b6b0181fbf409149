//! Tests of facts that no clause states: the calls succeed and answer as records from outside
//! demand, and sessions in threads see the settled changes. Others test the values that a lack of
//! memory leaves.

mod committing;
mod ending;
mod floor;
mod kept;
mod lasting;
mod log;
mod scene;
mod threads;
mod under_lock;
mod writer;

use cred_book::{Book, Name, Request};
use cred_desk::{AccountState, Entry};
use cred_phc::{Password, Record, Setting, parse_record, parse_setting};
use ending::Left;
use std::alloc::Global;
use std::process::Abort;
use test_samples::A;

/// Names and their records.
type Accounts<'a> = &'a [(&'a str, Option<&'a str>)];

/// The accounts of the books from which the tests build desks.
const NONE_STANDS: Accounts<'static> = &[("a", None), ("b", None)];

const ONE_STANDS: Accounts<'static> = &[("a", Some(A)), ("b", None)];

const BOTH_STAND: Accounts<'static> = &[("a", Some(A)), ("b", Some(A))];

/// Settings whose hashes need 8 KiB, so that many hashes are done in a moment.
const CHEAP_SETTINGS: [&str; 2] = [
    "$argon2id$v=19$m=8,t=1,p=1$c29tZXNhbHQ",
    "$argon2id$v=19$m=9,t=1,p=1$c29tZXNhbHQ",
];

fn name<R: Abort>(rt: &R, text: &str) -> Name {
    Name::new(text.as_bytes()).expect(rt, "a name")
}

fn stored<R: Abort>(rt: &R, text: &str) -> Record {
    parse_record(text.as_bytes()).expect(rt, "a record")
}

fn setting<R: Abort>(rt: &R, text: &str) -> Setting {
    parse_setting(text.as_bytes()).expect(rt, "a setting")
}

fn password<R: Abort>(rt: &R, text: &str) -> Password {
    Password::new(text.as_bytes()).expect(rt, "a password")
}

fn enrol<R: Abort>(rt: &R, account: &str, new: &str) -> Request {
    Request::Enrol {
        name: name(rt, account),
        pw: password(rt, "password"),
        setting: setting(rt, new),
    }
}

fn verify<R: Abort>(rt: &R, account: &str) -> Request {
    Request::Verify {
        name: name(rt, account),
        pw: password(rt, "password"),
    }
}

/// Returns a change of the password to the other one.
fn change<R: Abort>(rt: &R, account: &str, new: &str) -> Request {
    Request::Change {
        name: name(rt, account),
        pw: password(rt, "password"),
        new_pw: password(rt, "drowssap"),
        setting: setting(rt, new),
    }
}

fn upgrade<R: Abort>(rt: &R, account: &str, new: &str) -> Request {
    Request::Upgrade {
        name: name(rt, account),
        pw: password(rt, "password"),
        setting: setting(rt, new),
    }
}

fn remove<R: Abort>(rt: &R, account: &str) -> Request {
    Request::Remove {
        name: name(rt, account),
        pw: password(rt, "password"),
    }
}

fn standing<R: Abort>(rt: &R, record: Option<&str>) -> Option<Record> {
    match record {
        Some(text) => Some(stored(rt, text)),
        None => None,
    }
}

fn entry<R: Abort>(rt: &R, account: &str, record: Option<&str>) -> Entry {
    Entry {
        name: name(rt, account),
        now: AccountState::from(standing(rt, record)),
    }
}

/// Returns the entry of a deletion.
fn deletion<R: Abort>(rt: &R, account: &str) -> Entry {
    Entry {
        name: name(rt, account),
        now: AccountState::NoAccount,
    }
}

/// Returns a book with these accounts; none if there is no memory for it.
fn book_of<R: Abort>(rt: &R, alloc: Global, accounts: Accounts) -> Option<Book> {
    let mut book = Book::new(alloc).ok()?;
    for (account, record) in accounts {
        book.put(&name(rt, account), standing(rt, *record));
    }
    Some(book)
}

/// Applies these entries to the book.
fn replay(book: &mut Book, entries: &[Entry]) {
    for entry in entries {
        match entry.now {
            AccountState::Record(record) => book.put(&entry.name, Some(record)),
            AccountState::NoRecord => book.put(&entry.name, None),
            AccountState::NoAccount => book.remove(&entry.name),
        }
    }
}

/// Whether two books have the same names with the same records.
fn is_same(one: &Book, other: &Book) -> bool {
    one.len() == other.len()
        && one
            .iter()
            .zip(other.iter())
            .all(|(left, right)| left == right)
}

/// Asserts that the journal of a desk leads from its opening book to the one that is left.
fn judge_replayed<R: Abort>(rt: &R, left: &Left) {
    assert!(rt; is_same(&left.book, &left.journal.book));
}
