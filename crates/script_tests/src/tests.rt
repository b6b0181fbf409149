//! Tests of facts that no clause states: whole scripts with their answers as text, the messages of
//! a failure, and results without memory.

mod committers;
mod keep;
mod memory;
mod operations;
mod refusals;
mod watched;

use cred_book::{Keeper, Name};
use cred_cli::{End, ScriptFault, Watched, run_script};
use std::alloc::Global;
use std::process::Abort;
use std::sync::Wait;
use std::thread::Threads;
use test_samples::{A, A_SETTING, B, B_SETTING, INDEPENDENT, OLD, OLD_WRITTEN, SCRYPT};

/// The password `password`.
const PA: &str = "cGFzc3dvcmQ";

/// The names that stand for passwords, settings and records in scripts and answers.
static PLACES: [(&str, &str); 9] = [
    ("{PA}", PA),
    ("{SA}", A_SETTING),
    ("{SB}", B_SETTING),
    ("{A}", A),
    ("{B}", B),
    ("{I}", INDEPENDENT),
    ("{OLD}", OLD),
    ("{OLD_WRITTEN}", OLD_WRITTEN),
    ("{SCRYPT}", SCRYPT),
];

/// Returns the text with passwords, settings and records in place of their names.
fn filled_in<R: Abort>(rt: &R, alloc: Global, text: &str) -> String {
    let mut text = text.to_string(alloc).expect(rt, "memory");
    for (place, value) in &PLACES {
        text = text.replace(alloc, place, value).expect(rt, "memory");
    }
    text
}

fn name<R: Abort>(rt: &R, text: &str) -> Name {
    Name::new(text.as_bytes()).expect(rt, "a name")
}

/// Compares the bytes that were written with the text that is due.
///
/// A test that fails ends here. So no test has an end of its own beside a book or a text.
fn hold_bytes<R: Abort>(rt: &R, written: &[u8], want: &str) {
    assert_eq!(rt; written, want.as_bytes());
}

/// The end of a script, and the bytes that it wrote.
type Ran = (Result<End, ScriptFault>, Vec<u8>);

/// Runs a script on a keeper.
fn run_on<K: Keeper + Drop, R: Threads + Wait + Sync>(
    rt: &R,
    alloc: Global,
    workers: u8,
    mut keeper: K,
    script: &[u8],
) -> Ran {
    let mut reader = Watched::new(script);
    let mut writer = Watched::new(Vec::new(alloc));
    let end = run_script(rt, alloc, workers, &mut keeper, &mut reader, &mut writer);
    (end, writer.into_inner())
}

/// Runs a script on a keeper, with room for 4096 bytes of answers. Returns none if there is no
/// memory for this room.
fn run_in_room<K: Keeper, R: Threads + Wait + Sync>(
    rt: &R,
    alloc: Global,
    workers: u8,
    keeper: &mut K,
    script: &[u8],
) -> Option<Ran> {
    let room = Vec::with_capacity(alloc, 4096).ok()?;
    let (mut reader, mut writer) = (Watched::new(script), Watched::new(room));
    let end = run_script(rt, alloc, workers, keeper, &mut reader, &mut writer);
    Some((end, writer.into_inner()))
}
