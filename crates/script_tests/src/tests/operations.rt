//! Tests of operations on an account, begun and committed, and their answers, on each keeper.
//! `book_tests` and tests/operations.py have more tests of one operation alone.
use super::committers::run_on_committer;
use super::{Ran, filled_in, run_in_room, run_on};
use cred_book::{Book, Register};
use cred_cli::{End, ScriptFault};
use cred_file::FileBook;
use sqlite::Connection;
use std::alloc::Global;
use std::process::Abort;
use std::sync::Wait;
use std::thread::Threads;

/// Scripts with settings that are cheap.
const OPERATIONS: &str = "\
# enrol
begin 1 enrol a {PA} {SA} => begun
commit 1 => enrolled
show a => {A}

# verify meets upgrade
load a {A} => ok
begin 1 verify a {PA} => begun
begin 2 upgrade a {PA} {SB} => begun
commit 2 => upgraded
commit 1 => changed

# two enrols
begin 1 enrol a {PA} {SA} => begun
begin 2 enrol a {PA} {SB} => begun
commit 1 => enrolled
commit 2 => changed
show a => {A}

# other account moves
account b => ok
load a {A} => ok
load b {A} => ok
begin 1 verify a {PA} => begun
begin 2 upgrade b {PA} {SB} => begun
commit 2 => upgraded
commit 1 => yes

# changed and back
load a {A} => ok
begin 1 verify a {PA} => begun
begin 2 upgrade a {PA} {SB} => begun
commit 2 => upgraded
begin 3 upgrade a {PA} {SA} => begun
commit 3 => upgraded
commit 1 => yes

# load between
load a {A} => ok
begin 1 verify a {PA} => begun
load a {B} => ok
commit 1 => changed

# load and back
load a {A} => ok
begin 1 verify a {PA} => begun
load a {B} => ok
load a {A} => ok
commit 1 => yes

# upgrade to another kind with the same numbers
load a {A} => ok
begin 1 upgrade a {PA} $argon2i$v=19$m=256,t=2,p=1$c29tZXNhbHQ => begun
commit 1 => upgraded
show a => {I}

# old version upgrade
load a {OLD} => ok
begin 1 upgrade a {PA} $argon2i$v=19$m=256,t=2,p=1$c29tZXNhbHQ => begun
commit 1 => upgraded
show a => {I}

# remove meets verify
load a {A} => ok
begin 1 verify a {PA} => begun
begin 2 remove a {PA} => begun
commit 2 => removed
commit 1 => changed
show a => none

# removed and back
load a {A} => ok
begin 1 verify a {PA} => begun
begin 2 remove a {PA} => begun
commit 2 => removed
begin 3 enrol a {PA} {SA} => begun
commit 3 => enrolled
commit 1 => yes

# enrol after removal
begin 1 enrol a {PA} {SA} => begun
begin 2 enrol a {PA} {SB} => begun
commit 2 => enrolled
begin 3 remove a {PA} => begun
commit 3 => removed
commit 1 => enrolled
show a => {A}

# a commit closes its number
begin 1 enrol a {PA} {SA} => begun
begin 64 enrol a {PA} {SB} => begun
commit 1 => enrolled
commit 1 => bad 15 idle
commit 64 => changed
commit 64 => bad 15 idle
begin 64 verify a {PA} => begun
commit 64 => yes
";

/// Scripts with the setting of scrypt's vector, and with 64 MiB.
const COSTLY: &str = "\
# enrol scrypt
begin 1 enrol a {PA} $scrypt$ln=10,r=8,p=16$TmFDbA => begun
commit 1 => enrolled
show a => $scrypt$ln=10,r=8,p=16$TmFDbA$/bq+HJ00cgB4VucZDQHp/nxq18vII3gw53N2Y0s3MWI

# upgrade scrypt kept
load a {SCRYPT} => ok
begin 1 upgrade a {PA} $scrypt$ln=10,r=8,p=16$c29tZXNhbHQ => begun
commit 1 => kept
show a => {SCRYPT}

# change
load a {A} => ok
begin 1 change a {PA} ZGlmZmVyZW50cGFzc3dvcmQ $argon2id$v=19$m=65536,t=2,p=1$c29tZXNhbHQ => begun
commit 1 => replaced
show a => $argon2id$v=19$m=65536,t=2,p=1$c29tZXNhbHQ$C4TWUs9rDEvq7w3+J4umqA32aWKB1+DSiRuBfYxFj94
";

/// The end of a script, and the bytes that it wrote.
type Seen<'a> = (Result<End, ScriptFault>, &'a [u8]);

fn hold_seen<R: Abort>(rt: &R, name: &str, workers: u8, seen: Seen, want: Seen) {
    assert_eq!(rt; seen, want, "{name}, {workers} workers");
}

/// Adds these texts as lines.
fn add_lines<R: Abort>(rt: &R, text: &mut String, lines: &[&str]) {
    for line in lines {
        text.push_str(line).expect(rt, "memory");
        text.push('\n').expect(rt, "memory");
    }
}

/// A script, and the answers that are due.
#[derive(Drop)]
struct Dialogue<'a> {
    name: &'a str,
    script: String,
    answers: String,
}

impl<'a> Dialogue<'a> {
    /// Reads a script from a text. The first line of the text has the script's name. Then come its
    /// lines after `account a`, each with its answer after ` => `.
    fn read<R: Abort>(rt: &R, alloc: Global, text: &'a str) -> Dialogue<'a> {
        let (name, lines) = text.split_once('\n').expect(rt, "a name");
        let (mut script, mut answers) = (String::new(alloc), String::new(alloc));
        add_lines(rt, &mut script, &["account a"]);
        add_lines(rt, &mut answers, &["ok"]);
        for line in lines.lines() {
            if let Some((asked, answer)) = line.split_once(" => ") {
                add_lines(rt, &mut script, &[asked]);
                add_lines(rt, &mut answers, &[answer]);
            }
        }
        Dialogue {
            name,
            script,
            answers,
        }
    }

    /// Compares the answers with those of a run.
    fn hold_ran<R: Abort>(&self, rt: &R, workers: u8, ran: &Ran) {
        let lines = self.answers.lines().count() as u64;
        let want = (Ok(End { lines }), self.answers.as_bytes());
        hold_seen(rt, self.name, workers, (ran.0, ran.1.as_slice()), want);
    }

    /// Compares the answers with those of runs on an empty book, an empty register, a kept book and
    /// a committer, with one worker and with four.
    fn judge<R: Threads + Wait + Sync + Abort>(&self, rt: &R, alloc: Global) {
        let script = self.script.as_bytes();
        for workers in [1, 4] {
            let book = Book::new(alloc).expect(rt, "memory");
            self.hold_ran(rt, workers, &run_on(rt, alloc, workers, book, script));
            let register = Register::new(alloc);
            self.hold_ran(rt, workers, &run_on(rt, alloc, workers, register, script));
            let ran = run_on_kept_book(rt, alloc, workers, script);
            self.hold_ran(rt, workers, &ran.expect(rt, "memory"));
            let ran = run_on_committer(rt, alloc, workers, script);
            self.hold_ran(rt, workers, &ran.expect(rt, "a committer"));
        }
    }
}

/// Runs a script on an empty book that a database in memory keeps.
fn run_on_kept_book<R: Threads + Wait + Sync + Abort>(
    rt: &R,
    alloc: Global,
    workers: u8,
    script: &[u8],
) -> Option<Ran> {
    let conn = Connection::open_in_memory(alloc).expect(rt, "memory");
    let mut book = FileBook::create(alloc, conn).ok().expect(rt, "a book");
    let ran = run_in_room(rt, alloc, workers, &mut book, script);
    book.close().into_store();
    ran
}

/// Compares the answers of each script of the text with those of its runs.
pub(super) fn judge_all<R: Threads + Wait + Sync + Abort>(rt: &R, alloc: Global, text: &str) {
    let text = filled_in(rt, alloc, text);
    for script in text.split("# ") {
        if !script.is_empty() {
            Dialogue::read(rt, alloc, script).judge(rt, alloc);
        }
    }
}

#[test]
fn operations(rt: HostRuntime) {
    judge_all(&rt, rt.alloc(), OPERATIONS);
}

#[test]
fn costly_operations(rt: HostRuntime) {
    judge_all(&rt, rt.alloc(), COSTLY);
}
