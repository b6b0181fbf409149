//! Tests of whole operations, each begun, worked and committed: the answer, and the record then.
//! `script_tests` has operations of all kinds.
use super::work::{Seen, operate};
use super::{enrol, name, password, setting, stored, verify};
use cred_book::{Reply, Request};
use cred_phc::Record;
use std::alloc::Global;
use std::process::Abort;
use std::thread::Threads;
use test_samples::{A, A_SETTING, B, B_SETTING, OLD, SCRYPT};

const PASSWORD: &str = "password";

/// `A` with the first 8 bytes of its tag alone, and with the other version.
const SHORT: &str = "$argon2id$v=19$m=256,t=2,p=1$c29tZXNhbHQ$nf65EOgLrQM";

const AS_OLD: &str =
    "$argon2id$v=16$m=256,t=2,p=1$c29tZXNhbHQ$nf65EOgLrQMR/uIPnA4rEsF5h7TKyQwu9U1bMCHGi/4";

pub(super) fn change<R: Abort>(rt: &R, pw: &str, new_pw: &str, new: &str) -> Request {
    Request::Change {
        name: name(rt, "a"),
        pw: password(rt, pw),
        new_pw: password(rt, new_pw),
        setting: setting(rt, new),
    }
}

pub(super) fn upgrade<R: Abort>(rt: &R, pw: &str, new: &str) -> Request {
    Request::Upgrade {
        name: name(rt, "a"),
        pw: password(rt, pw),
        setting: setting(rt, new),
    }
}

pub(super) fn remove<R: Abort>(rt: &R, pw: &str) -> Request {
    Request::Remove {
        name: name(rt, "a"),
        pw: password(rt, pw),
    }
}

pub(super) fn standing<R: Abort>(rt: &R, text: Option<&str>) -> Option<Record> {
    match text {
        Some(text) => Some(stored(rt, text)),
        None => None,
    }
}

/// A whole operation on the account a: the record there, the request, the answer, and the record
/// after it.
type Row = (Option<&'static str>, Request, Reply, Option<&'static str>);

fn hold<R: Threads + Sync + Abort>(rt: &R, alloc: Global, table: &[Row]) {
    for (i, (before, request, reply, after)) in table.iter().enumerate() {
        let (copy, after) = (standing(rt, *before), standing(rt, *after));
        let seen = operate(rt, alloc, (name(rt, "a"), copy), *request, &[]);
        let wanted = Seen {
            judged: (*reply, after, copy != after),
            reply: *reply,
            shown: Ok(after),
        };
        assert!(rt; seen == Some(wanted), "{i}");
    }
}

#[test]
fn enrols_and_verifies(rt: HostRuntime) {
    let pw = PASSWORD;
    let table = [
        (None, enrol(&rt, pw, A_SETTING), Reply::Enrolled, Some(A)),
        (Some(A), enrol(&rt, "", B_SETTING), Reply::Exists, Some(A)),
        (None, verify(&rt, pw), Reply::Absent, None),
        (Some(A), verify(&rt, pw), Reply::Yes, Some(A)),
        (Some(A), verify(&rt, ""), Reply::No, Some(A)),
        (Some(SCRYPT), verify(&rt, pw), Reply::Yes, Some(SCRYPT)),
        (Some(OLD), verify(&rt, pw), Reply::Yes, Some(OLD)),
        (Some(OLD), verify(&rt, ""), Reply::No, Some(OLD)),
        (Some(SHORT), verify(&rt, pw), Reply::No, Some(SHORT)),
        (Some(AS_OLD), verify(&rt, pw), Reply::No, Some(AS_OLD)),
    ];
    hold(&rt, rt.alloc(), &table);
}

#[test]
fn a_commit_meets_another_record(rt: HostRuntime) {
    let (a, b, short) = (stored(&rt, A), stored(&rt, B), stored(&rt, SHORT));
    let table = [
        (Some(a), Reply::Yes),
        (Some(b), Reply::Changed { now: Some(b) }),
        (Some(short), Reply::Changed { now: Some(short) }),
        (None, Reply::Changed { now: None }),
    ];
    for (i, (now, reply)) in table.iter().enumerate() {
        let wanted = Seen {
            judged: (*reply, *now, false),
            reply: *reply,
            shown: Ok(*now),
        };
        let (account, request) = ((name(&rt, "a"), Some(a)), verify(&rt, PASSWORD));
        let seen = operate(&rt, rt.alloc(), account, request, &[None, *now]);
        assert!(rt; seen == Some(wanted), "{i}");
    }
}
