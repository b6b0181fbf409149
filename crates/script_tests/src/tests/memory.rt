//! Tests of the values that a lack of memory leaves. These tests hold whichever request the
//! allocator refuses: tools/refuse_memory.py refuses each in turn.
use super::committers::run_on_committer;
use super::{Ran, hold_bytes, run_in_room};
use cred_book::{Book, Register};
use cred_cli::{End, ScriptFault};
use std::process::Abort;

/// A script, and its answers.
const SCRIPT: &str = "\
account a
load a $argon2id$v=19$m=256,t=2,p=1$c29tZXNhbHQ$nf65EOgLrQMR/uIPnA4rEsF5h7TKyQwu9U1bMCHGi/4
begin 1 verify a cGFzc3dvcmQ
begin 2 upgrade a cGFzc3dvcmQ $argon2id$v=19$m=256,t=2,p=2$c29tZXNhbHQ
commit 2
show a
commit 1
begin 3 remove a cGFzc3dvcmQ
commit 3
show a";

const ANSWERS: &str = "\
ok
ok
begun
begun
upgraded
$argon2id$v=19$m=256,t=2,p=2$c29tZXNhbHQ$bQk8UB/VmZZF4Oo79iDXuL5/0ttZwg2f/5U52iv1cDc
changed
begun
removed
none
";

/// Tests that the bytes are whole answers, from the first of those to the script on.
fn hold_front<R: Abort>(rt: &R, whole: &str, written: &[u8]) {
    assert!(rt; whole.as_bytes().starts_with(written));
    assert!(rt; written.is_empty() || written.ends_with(b"\n"));
}

/// Tests that the answers are whole, or are those that a lack of memory leaves.
fn hold_refused<R: Abort>(rt: &R, ran: Option<Ran>) {
    let Some((end, written)) = ran else {
        return;
    };
    if end == Ok(End { lines: 10 }) {
        hold_bytes(rt, &written, ANSWERS);
    } else {
        assert_eq!(rt; end, Err(ScriptFault::Memory));
        hold_front(rt, ANSWERS, &written);
    }
}

#[test]
fn refused_script(rt: HostRuntime) {
    for workers in [1, 2] {
        if let Ok(mut book) = Book::new(rt.alloc()) {
            let ran = run_in_room(&rt, rt.alloc(), workers, &mut book, SCRIPT.as_bytes());
            hold_refused(&rt, ran);
        }
    }
}

#[test]
fn refused_script_on_a_register(rt: HostRuntime) {
    let mut register = Register::new(rt.alloc());
    let ran = run_in_room(&rt, rt.alloc(), 2, &mut register, SCRIPT.as_bytes());
    hold_refused(&rt, ran);
}

#[test]
fn refused_script_on_a_committer(rt: HostRuntime) {
    hold_refused(&rt, run_on_committer(&rt, rt.alloc(), 2, SCRIPT.as_bytes()));
}
