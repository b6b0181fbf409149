//! These tests show what no clause says: a run gets as far as its changes, and stops at each of
//! them; the next run has memory and a disk; and a crash leaves the book with a change and without
//! it.

ghost use Rattle.sqlite.specs.Steps.{IsFresh};
ghost use Rattle.sqlite_trees.specs.Memory.{memory_view};

use crate::{FailStop, Restart, crash_amid};
use cred_book::{BookError, Name, Register};
use cred_file::{Attempt, FileBook, Mark, Marks, reopen};
use cred_phc::{Record, parse_record};
use sqlite::Connection;
use sqlite_trees::memory::MemStore;
use std::alloc::Global;
use std::process::Abort;

/// Records of `password`, by the reference program of Argon2.
const A: &str =
    "$argon2id$v=19$m=256,t=2,p=1$c29tZXNhbHQ$nf65EOgLrQMR/uIPnA4rEsF5h7TKyQwu9U1bMCHGi/4";

const B: &str =
    "$argon2id$v=19$m=256,t=2,p=2$c29tZXNhbHQ$bQk8UB/VmZZF4Oo79iDXuL5/0ttZwg2f/5U52iv1cDc";

/// The accounts a, b and c before a change. A letter stands for the record, and is small under a
/// lock. `-` is an account without a record, `!` is a lock without a record, and a space is no
/// account.
const BEFORE: &str = "A! ";

/// Each change, and the accounts after it.
static CHANGES: [(&str, &str); 10] = [
    ("put a B", "B! "),
    ("put b A", "Aa "),
    ("put c -", "A!-"),
    ("lock a", "a! "),
    ("unlock b", "A- "),
    ("delete a", " ! "),
    ("delete b", "A  "),
    ("rename a c", " !A"),
    ("rename b c", "A !"),
    ("add c a, change a B", "B!a"),
];

/// The changes of a longer run, their answers, and the accounts after each.
static RUN: [(&str, Result<(), BookError>, &str); 9] = [
    ("put c B", Ok(()), "A!B"),
    ("lock a", Ok(()), "a!B"),
    ("rename b c", Err(BookError::Exists), "a!B"),
    ("delete b", Ok(()), "a B"),
    ("delete b", Err(BookError::NoAccount), "a B"),
    ("rename c b", Ok(()), "aB "),
    ("put a B", Ok(()), "bB "),
    ("add c a, change a B", Ok(()), "bBa"),
    ("put b -", Ok(()), "b-a"),
];

/// More calls than a run takes.
const MANY: u64 = 1000;

/// The answers to a run's changes, if the run opened the book; whether its store stopped; and the
/// accounts that the next run finds.
#[derive(Drop)]
struct Outcome {
    answers: Option<Vec<Result<(), BookError>>>,
    has_stopped: bool,
    accounts: [u8; 3],
}

fn name<R: Abort>(rt: &R, text: &str) -> Name {
    Name::new(text.as_bytes()).expect(rt, "a name")
}

fn stored<R: Abort>(rt: &R, letter: &str) -> Option<Record> {
    let text = match letter {
        "A" => A,
        "B" => B,
        _ => return None,
    };
    Some(parse_record(text.as_bytes()).expect(rt, "a record"))
}

fn register<R: Abort>(rt: &R, alloc: Global, at: &str, letter: &str) -> Register {
    let mut book = Register::new(alloc);
    book.enter(name(rt, at), stored(rt, letter))
        .expect(rt, "memory");
    book
}

fn mark(locked: bool) -> Mark {
    Mark {
        locked,
        must_change: false,
    }
}

fn change_of<R: Abort>(rt: &R, alloc: Global, text: &str) -> Attempt {
    let mut words = text.split(' ');
    match (words.next(), words.next(), words.next()) {
        (Some("put"), Some(at), Some(letter)) => Attempt::Put {
            name: name(rt, at),
            stored: stored(rt, letter),
        },
        (Some("lock"), Some(at), None) => Attempt::Mark {
            name: name(rt, at),
            mark: mark(true),
        },
        (Some("unlock"), Some(at), None) => Attempt::Mark {
            name: name(rt, at),
            mark: mark(false),
        },
        (Some("delete"), Some(at), None) => Attempt::Delete(name(rt, at)),
        (Some("rename"), Some(at), Some(other)) => Attempt::Rename {
            name: name(rt, at),
            other: name(rt, other),
        },
        _ => {
            let mut marks = Marks::new(alloc);
            marks.put(&name(rt, "c"), mark(true)).expect(rt, "memory");
            Attempt::TakeIn {
                added: register(rt, alloc, "c", "A"),
                changed: register(rt, alloc, "a", "B"),
                marks,
            }
        }
    }
}

/// Creates a store that keeps the accounts of `BEFORE`.
fn store<R: Abort>(rt: &R, alloc: Global) -> MemStore
    ensures { IsFresh (memory_view result) }
{
    let conn = Connection::open_in_memory(alloc).expect(rt, "memory");
    let mut book = FileBook::create(alloc, conn).ok().expect(rt, "a book");
    book.put(&name(rt, "a"), stored(rt, "A"))
        .expect(rt, "memory");
    book.put(&name(rt, "b"), None).expect(rt, "memory");
    book.mark(&name(rt, "b"), mark(true)).expect(rt, "memory");
    book.close().into_store()
}

fn letter_of<R: Abort>(rt: &R, book: &Register, locked: bool, at: &str) -> u8 {
    match book.show(&name(rt, at)) {
        Ok(None) if locked => b'!',
        Ok(None) => b'-',
        Ok(found) if found == stored(rt, "A") && locked => b'a',
        Ok(found) if found == stored(rt, "A") => b'A',
        Ok(found) if found == stored(rt, "B") && locked => b'b',
        Ok(found) if found == stored(rt, "B") => b'B',
        Ok(_) => b'?',
        Err(_) => b' ',
    }
}

fn crash<R: Abort>(rt: &R, alloc: Global, changes: Vec<Attempt>, calls: u64) -> Outcome {
    let store = FailStop::new(store(rt, alloc), calls);
    let Restart { told, next } = crash_amid(alloc, store, changes, |store: FailStop<MemStore>| {
        (store.has_stopped(), reopen(alloc, store.into_inner()))
    });
    let (has_stopped, opened) = next;
    let book = opened.expect(rt, "memory").ok().expect(rt, "a book");
    let accounts = ["a", "b", "c"].map(|at| {
        let locked = book.mark_of(&name(rt, at)).locked;
        letter_of(rt, book.book(), locked, at)
    });
    Outcome {
        answers: told.ok(),
        has_stopped,
        accounts,
    }
}

/// Crashes a run of one change, compares what is left with the accounts before and after the
/// change, and returns the answer, if the run got as far.
fn hold<R: Abort>(
    rt: &R,
    alloc: Global,
    calls: u64,
    change: &str,
    after: &str,
) -> Option<Result<(), BookError>> {
    let changes = Vec::from_array(alloc, [change_of(rt, alloc, change)]).expect(rt, "memory");
    let found = crash(rt, alloc, changes, calls);
    let answer = found.answers.and_then(|answers| answers.first().copied());
    let wanted = match answer {
        None | Some(Err(BookError::Memory)) => BEFORE,
        Some(Ok(())) => after,
        Some(Err(error)) => panic!(rt; "{change} after {calls} calls: {error}"),
    };
    let accounts = found.accounts.as_slice();
    assert_eq!(rt; accounts, wanted.as_bytes(), "{change} after {calls} calls");
    assert!(rt;
        found.has_stopped || answer == Some(Ok(())),
        "{change} after {calls} calls"
    );
    answer
}

#[test]
fn each_call_of_each_change(rt: HostRuntime) {
    for (change, after) in &CHANGES {
        let (mut unasked, mut refused, mut done) = (false, false, false);
        for calls in 0..MANY {
            let answer = hold(&rt, rt.alloc(), calls, change, after);
            unasked |= answer.is_none();
            refused |= answer.is_some_and(|answer| answer.is_err());
            done = answer == Some(Ok(()));
            if done {
                break;
            }
        }
        assert!(rt; unasked && refused && done, "{change}");
        hold(&rt, rt.alloc(), MANY, change, after);
    }
}

/// Returns the accounts after so many changes of the long run.
fn after<R: Abort>(rt: &R, count: usize) -> &'static str {
    if count == 0 {
        return BEFORE;
    }
    RUN.get(count - 1).expect(rt, "a change").2
}

/// Crashes the long run, and compares its answers and what is left with `RUN`. Returns whether its
/// store stopped, and how many changes had answers before that, if the run opened the book.
fn hold_run<R: Abort>(rt: &R, alloc: Global, calls: u64) -> (bool, Option<usize>) {
    let mut changes = Vec::new(alloc);
    for (change, _, _) in &RUN {
        changes
            .push(change_of(rt, alloc, change))
            .expect(rt, "memory");
    }
    let found = crash(rt, alloc, changes, calls);
    let mut answered: usize = 0;
    for (answer, (change, wanted, _)) in found.answers.iter().flatten().zip(&RUN) {
        if *answer == Err(BookError::Memory) {
            break;
        }
        assert_eq!(rt; answer, wanted, "{change} after {calls} calls");
        answered = answered.saturating_add(1);
    }
    for answer in found.answers.iter().flatten().skip(answered) {
        assert!(rt; answer.is_err(), "{calls} calls");
    }
    let accounts = found.accounts.as_slice();
    assert_eq!(rt; accounts, after(rt, answered).as_bytes(), "{calls} calls");
    assert!(rt; found.has_stopped || answered == RUN.len(), "{calls} calls");
    (found.has_stopped, found.answers.map(|_| answered))
}

#[test]
fn each_call_of_a_run(rt: HostRuntime) {
    let mut seen = [false; RUN.len() + 1];
    for calls in 0..MANY {
        let (has_stopped, answered) = hold_run(&rt, rt.alloc(), calls);
        if let Some(place) = answered.and_then(|count| seen.get_mut(count)) {
            *place = true;
        }
        if !has_stopped {
            break;
        }
    }
    for ((change, answer, _), stops) in RUN.iter().zip(&seen) {
        assert!(rt; answer.is_err() || *stops, "stops at {change}");
    }
    assert!(rt; seen[RUN.len()], "a run to its end");
}
