//! Tests that the calls succeed, and that whole operations answer as records from outside demand
//! and hash no more often than they must. Others test the values that a lack of memory leaves, and
//! that no text shows a password.
//!
//! `work` plays whole operations; the other files have the tests. A test gets the values that it
//! asserts as plain ones, since its proof is far longer if a book is alive beside an assertion.

mod accounts;
mod gates;
mod operations;
mod registers;
mod scratch;
mod secrets;
mod work;

use cred_book::{Name, Request};
use cred_phc::{Password, Record, Setting, parse_record, parse_setting};
use std::process::Abort;

fn name<R: Abort>(rt: &R, text: &str) -> Name {
    Name::new(text.as_bytes()).expect(rt, "a name")
}

fn stored<R: Abort>(rt: &R, text: &str) -> Record {
    parse_record(text.as_bytes()).expect(rt, "a record")
}

fn setting<R: Abort>(rt: &R, text: &str) -> Setting {
    parse_setting(text.as_bytes()).expect(rt, "a setting")
}

fn password<R: Abort>(rt: &R, text: &str) -> Password {
    Password::new(text.as_bytes()).expect(rt, "a password")
}

fn enrol<R: Abort>(rt: &R, pw: &str, new: &str) -> Request {
    Request::Enrol {
        name: name(rt, "a"),
        pw: password(rt, pw),
        setting: setting(rt, new),
    }
}

fn verify<R: Abort>(rt: &R, pw: &str) -> Request {
    Request::Verify {
        name: name(rt, "a"),
        pw: password(rt, pw),
    }
}
