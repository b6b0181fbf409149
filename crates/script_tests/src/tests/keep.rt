//! Tests of the message of each fault on standard error.

use super::{hold_bytes, name};
use cred_admin::{BadLine, Fault, ImportFault, LineFault};
use cred_book::{BookError, Register};
use cred_file::{Attempt, Lost, Mark, Marks, OpenFault};
use cred_keep::{Failure, explain, refuse};
use cred_phc::PhcError;
use sqlite::{Error, ErrorCode};
use std::alloc::Global;
use std::process::Abort;

/// Compares the bytes on standard error with one line of the program's.
fn hold_line<R: Abort>(rt: &R, alloc: Global, said: &[u8], text: &str) {
    let line = format!(in alloc; "credkeep: {text}\n").expect(rt, "memory");
    hold_bytes(rt, said, &line);
}

fn hold_failure<R: Abort>(
    rt: &R,
    alloc: Global,
    failure: &Failure,
    lost: Option<&Lost>,
    text: &str,
) {
    let mut said: Vec<u8> = Vec::new(alloc);
    explain(&mut said, failure, lost);
    hold_line(rt, alloc, &said, text);
}

/// Tests the messages of commands and imports.
#[test]
fn texts_of_commands(rt: HostRuntime) {
    for (fault, text) in [
        (Fault::Read, "reading failed"),
        (Fault::Write, "writing failed"),
        (Fault::Memory, "out of memory"),
        (Fault::Password, "the password has over 256 bytes"),
        (Fault::NoPassword, "no password on standard input"),
        (Fault::NoNewPassword, "the new password is missing"),
        (
            Fault::Empty,
            "the password is empty: --empty-password accepts it",
        ),
        (Fault::Full, "the book has no room for another account"),
    ] {
        hold_failure(&rt, rt.alloc(), &Failure::Command(fault), None, text);
    }
    for (fault, text) in [
        (ImportFault::Read, "reading failed"),
        (ImportFault::Memory, "out of memory"),
        (
            ImportFault::Full,
            "the book has no room for so many accounts (2 full)",
        ),
    ] {
        hold_failure(&rt, rt.alloc(), &Failure::Import(fault), None, text);
    }
}

#[test]
fn texts_of_lines(rt: HostRuntime) {
    let mut bad = Vec::new(rt.alloc());
    for (number, why) in [
        (1, LineFault::Line),
        (20, LineFault::Text(PhcError::Shape)),
        (21, LineFault::Text(PhcError::Scheme)),
        (22, LineFault::Book(BookError::Name)),
        (300, LineFault::Book(BookError::Exists)),
        (4000, LineFault::Locked),
        (50000, LineFault::Costly),
    ] {
        bad.push(BadLine { number, why }).expect(&rt, "memory");
    }
    let failure = Failure::Import(ImportFault::Lines(bad));
    let text = "line 1: it is neither NAME:RECORD nor NAME: (11 line)\n\
        credkeep: line 20: its record: a field is missing, or there is one too many (1 shape)\n\
        credkeep: line 21: its record is not of Argon2 or scrypt (2 scheme)\n\
        credkeep: line 22: its first field is no name: a name has 1 to 32 of a-z, 0-9, '.', '_', \
        '-' (3 name)\n\
        credkeep: line 300: the name is there already (1 exists)\n\
        credkeep: line 4000: its record is locked, by !, ~, * or a field such as nologin: \
        --disable-locked drops it, and --keep-locked keeps one behind ! or ~ (17 locked)\n\
        credkeep: line 50000: its record asks for more than --most-memory or --most-work (18 costly)";
    hold_failure(&rt, rt.alloc(), &failure, None, text);
}

#[test]
fn texts_of_openings(rt: HostRuntime) {
    for (fault, text) in [
        (OpenFault::NotEmpty, "the database has tables already"),
        (
            OpenFault::NoBook,
            "the database holds no book: it has other tables, columns or indexes than \
             a book's one table",
        ),
        (
            OpenFault::NoName(7),
            "row 7: there is no name; a name has 1 to 32 of a-z, 0-9, '.', '_', '-' (3 name)",
        ),
        (
            OpenFault::NoRecord {
                row: 8,
                why: Some(PhcError::Shape),
            },
            "row 8: the text there is no record: a field is missing, or there is one too many \
             (1 shape)",
        ),
        (
            OpenFault::NoRecord { row: 9, why: None },
            "row 9: its record is no text",
        ),
        (OpenFault::Twice(10), "row 10: another has its name"),
        (OpenFault::TooMany, "the book has over 16777216 accounts"),
        (OpenFault::Memory, "out of memory"),
        (
            OpenFault::Database(Error::SqliteFailure(ErrorCode::DatabaseBusy)),
            "busy: another process has the file open; credkeep-ask --server asks the server",
        ),
        (
            OpenFault::Database(Error::SqliteFailure(ErrorCode::CannotOpen)),
            "the file can't be opened and written",
        ),
    ] {
        let mut said: Vec<u8> = Vec::new(rt.alloc());
        refuse(&mut said, &fault);
        hold_line(&rt, rt.alloc(), &said, text);
    }
}

fn batch(alloc: Global, added: Register, changed: Register) -> Attempt {
    let marks = Marks::new(alloc);
    Attempt::TakeIn {
        added,
        changed,
        marks,
    }
}

/// Tests the message about a change that may be lost, on a full disk.
fn hold_lost<R: Abort>(rt: &R, alloc: Global, attempt: Attempt, what: &str) {
    let error = Error::SqliteFailure(ErrorCode::DiskFull);
    let lost = Lost { error, attempt };
    let text = format!(in alloc; "the database failed: {error}; {what}").expect(rt, "memory");
    hold_failure(rt, alloc, &Failure::Database, Some(&lost), &text);
}

#[test]
fn texts_of_lost_changes(rt: HostRuntime) {
    let alloc = rt.alloc();
    let text = "the database failed";
    hold_failure(&rt, alloc, &Failure::Database, None, text);
    let (name, other) = (name(&rt, "ann"), name(&rt, "bob"));
    let stored = None;
    let what = "the change of ann may be kept or not";
    hold_lost(&rt, alloc, Attempt::Put { name, stored }, what);
    let mark = Mark::none();
    hold_lost(&rt, alloc, Attempt::Mark { name, mark }, what);
    hold_lost(&rt, alloc, Attempt::Delete(name), what);
    hold_lost(&rt, alloc, Attempt::Rename { name, other }, what);
    let mut both = Register::new(alloc);
    both.admit(name).expect(&rt, "room");
    both.admit(other).expect(&rt, "room");
    let added = both.copy().expect(&rt, "memory");
    let changed = Register::new(alloc);
    let what = "the 2 new accounts may be kept or not, all or none of them";
    hold_lost(&rt, alloc, batch(alloc, added, changed), what);
    let (added, changed) = (Register::new(alloc), both);
    let what = "the changes of ann bob may be kept or not, all or none of them";
    hold_lost(&rt, alloc, batch(alloc, added, changed), what);
}
