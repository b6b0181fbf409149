//! Waits at a limit of five, and calls that succeed.

use cred_book::{BookError, Name};
use cred_tries::{Ending, Limiter, Turn};
use std::alloc::Global;

const LIMIT: u64 = 5;

/// Returns the answer to one who asks for a try, which ends at once: the seconds to wait, or none
/// if others have to end first.
fn answer(
    limiter: &mut Limiter,
    name: &Name,
    now: u64,
    how: Ending,
) -> Result<Option<u64>, BookError> {
    match limiter.begin(name, now)? {
        Turn::Begun(one) => {
            limiter.end(one, now, how);
            Ok(Some(0))
        }
        Turn::Waits => Ok(None),
        Turn::Later(seconds) => Ok(Some(seconds)),
    }
}

/// Makes so many failures, each as soon as it may come, and returns the moment of the last.
fn last_of(
    limiter: &mut Limiter,
    name: &Name,
    failures: u32,
    begin: u64,
) -> Result<u64, BookError> {
    let mut now = begin;
    for _ in 0..failures {
        if let Some(seconds) = answer(limiter, name, now, Ending::Wrong)? {
            if seconds > 0 {
                now = now.saturating_add(seconds);
                let _begun = answer(limiter, name, now, Ending::Wrong)?;
            }
        }
    }
    Ok(now)
}

fn last_failure(alloc: Global, failures: u32) -> Result<u64, BookError> {
    let mut limiter = Limiter::new(alloc, LIMIT);
    last_of(&mut limiter, &Name::new(b"ann")?, failures, 0)
}

#[test]
fn waits_grow_to_a_quarter_of_an_hour(rt: HostRuntime) {
    // 1, 2, 4 .. 512 s and then 900 s: a hundred in a row take 21 hours and a half.
    for (failures, seconds) in [(5, 0), (6, 1), (7, 3), (15, 1023), (17, 2823), (100, 77523)] {
        assert_eq!(rt;
            last_failure(rt.alloc(), failures),
            Ok(seconds),
            "{failures} failures"
        );
    }
}

/// Asks for so many tries at once, and returns the number that begin.
fn begun(limiter: &mut Limiter, name: &Name, tries: u32) -> Result<u32, BookError> {
    if tries == 0 {
        return Ok(0);
    }
    match limiter.begin(name, 7)? {
        Turn::Begun(one) => {
            let others = begun(limiter, name, tries - 1);
            limiter.end(one, 7, Ending::Unjudged);
            Ok(others?.saturating_add(1))
        }
        Turn::Waits | Turn::Later(_) => begun(limiter, name, tries - 1),
    }
}

/// Returns how many of 128 tries begin, and how many of 128 more, since none of the first was
/// judged.
fn begun_twice(alloc: Global) -> Result<(u32, u32), BookError> {
    let mut limiter = Limiter::new(alloc, LIMIT);
    let name = Name::new(b"ann")?;
    let first = begun(&mut limiter, &name, 128)?;
    Ok((first, begun(&mut limiter, &name, 128)?))
}

#[test]
fn five_of_many_begin(rt: HostRuntime) {
    assert_eq!(rt; begun_twice(rt.alloc()), Ok((5, 5)));
}

/// Returns the answers to tries after seven failures, the last of them at 3 s. The clock is set
/// back by an hour and goes on from there; one try is at another name, and one after a forgiving.
fn answers(alloc: Global) -> Result<[Option<u64>; 6], BookError> {
    let mut limiter = Limiter::new(alloc, LIMIT);
    let (ann, bob) = (Name::new(b"ann")?, Name::new(b"bob")?);
    let last = last_of(&mut limiter, &ann, 7, 3600)?;
    let at_once = answer(&mut limiter, &ann, last, Ending::Wrong)?;
    let set_back = answer(&mut limiter, &ann, 0, Ending::Wrong)?;
    let elsewhere = answer(&mut limiter, &bob, 1, Ending::Right)?;
    let still = answer(&mut limiter, &ann, 1, Ending::Wrong)?;
    let over = answer(&mut limiter, &ann, 4, Ending::Wrong)?;
    let _forgiven = limiter.forgive(&ann);
    let forgiven = answer(&mut limiter, &ann, 4, Ending::Wrong)?;
    Ok([at_once, set_back, elsewhere, still, over, forgiven])
}

#[test]
fn a_clock_that_is_set_back_goes_on(rt: HostRuntime) {
    let wanted = [Some(4), Some(4), Some(0), Some(3), Some(0), Some(0)];
    assert_eq!(rt; answers(rt.alloc()), Ok(wanted));
}

/// Whether failures are forgiven, once and twice, and the moments of the last failure after a right
/// answer and after a day.
fn cleared(alloc: Global) -> Result<(bool, bool, u64, u64), BookError> {
    let mut limiter = Limiter::new(alloc, LIMIT);
    let name = Name::new(b"ann")?;
    let last = last_of(&mut limiter, &name, 5, 0)?;
    let first = limiter.forgive(&name);
    let again = limiter.forgive(&name);
    let _right = answer(&mut limiter, &name, last, Ending::Right)?;
    let moment = last_of(&mut limiter, &name, 6, last)?;
    let day = moment.saturating_add(86400);
    Ok((first, again, moment, last_of(&mut limiter, &name, 5, day)?))
}

#[test]
fn failures_are_cleared(rt: HostRuntime) {
    assert_eq!(rt; cleared(rt.alloc()), Ok((true, false, 1, 86401)));
}

/// Returns the failures and the seconds of the first wait, and the numbers of waits now and four
/// seconds later, after seven failures of ann's and four of bob's.
fn listed(alloc: Global) -> Result<(Option<(u64, u64)>, usize, usize), BookError> {
    let mut limiter = Limiter::new(alloc, LIMIT);
    let last = last_of(&mut limiter, &Name::new(b"ann")?, 7, 0)?;
    let now = last_of(&mut limiter, &Name::new(b"bob")?, 4, last)?;
    let first = match limiter.waits(now).next() {
        Some(wait) => Some((wait.failed, wait.seconds)),
        None => None,
    };
    let later = limiter.waits(now.saturating_add(4)).count();
    Ok((first, limiter.waits(now).count(), later))
}

#[test]
fn waits_are_listed(rt: HostRuntime) {
    assert_eq!(rt; listed(rt.alloc()), Ok((Some((7, 4)), 1, 0)));
}

/// Returns the answers to two who ask for the one try that may run, of which the first may find no
/// memory.
fn begun_behind_refusal(alloc: Global) -> Result<(bool, Option<u64>), BookError> {
    let mut limiter = Limiter::new(alloc, 1);
    let name = Name::new(b"ann")?;
    let first = answer(&mut limiter, &name, 1, Ending::Right);
    let found = first == Ok(Some(0)) || first == Err(BookError::Memory);
    Ok((found, answer(&mut limiter, &name, 1, Ending::Right)?))
}

#[test]
fn refused_memory_takes_no_place(rt: HostRuntime) {
    assert_eq!(rt; begun_behind_refusal(rt.alloc()), Ok((true, Some(0))));
}
