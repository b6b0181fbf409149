//! Tests of a log of numbers: that it gets a name at all, and what its beginnings answer.
ghost use Rattle.std.specs.Prelude.{◌≡◌, ℕ, List};

use grow_log::{LogName, NewLog};
use std::marker::Brand;
use std::process::Abort;

/// Adds two numbers to a new log, and keeps its first beginnings. Returns how many entries there
/// are after each of three calls, and whether the first beginning begins the last, the last the
/// first, and the last itself.
fn grow_new<N: LogName<u32>>(new: NewLog<u32>) -> Option<([u64; 3], [bool; 3])>
    requires name { new ≡ N.book }
    requires holds { (entries : List ℕ) → N.holds entries }
{
    let mut log = new.named::<N>()?;
    let none = log.beginning().again();
    log.add(&7);
    let one = log.beginning().again();
    log.covers(&none);
    log.add(&9);
    log.covers(&one);
    let two = log.beginning();
    let begins = [none.begins(two), two.begins(&none), two.begins(two)];
    Some(([none.len(), one.len(), two.len()], begins))
}

#[test]
fn numbers_are_added(rt: HostRuntime) {
    let grown = grow_new::<Brand>(NewLog::new());
    let (lengths, begins) = grown.expect(&rt, "a new log is held by nobody");
    assert_eq!(rt; lengths, [0, 1, 2]);
    assert_eq!(rt; begins, [true, false, true]);
}
