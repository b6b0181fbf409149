//! Tests that as many threads as there are workers for work the lanes of Argon2 and the pieces of
//! scrypt, each behind the gate.

use cred_phc::{Password, Scheme, Scratch, Setting, TagError, Variant, Version, tag_in, tag_of};
use std::alloc::Global;
use std::process::Abort;
use std::thread::Threads;
use test_samples::{Crowd, Visits};

/// Returns a setting of Argon2 with so many lanes: each lane enters in each of four slices.
fn lanes(rt: &impl Abort, p: u8) -> Setting {
    let scheme = Scheme::Argon2 {
        version: Version::V13,
        variant: Variant::Id,
        m: 8 * u32::from(p),
        t: 1,
        p,
    };
    Setting::new(scheme, b"somesalt").expect(rt, "a setting")
}

/// Returns a setting of scrypt with so many pieces: each piece enters once.
fn pieces(rt: &impl Abort, p: u8) -> Setting {
    Setting::new(Scheme::Scrypt { ln: 4, r: 1, p }, b"NaCl").expect(rt, "a setting")
}

/// Returns the visits that a gate counts during a tag, of whose parts so many are to be inside at
/// once.
fn seen<R: Threads + Sync + Abort>(
    rt: &R,
    alloc: Global,
    workers: u8,
    gate: Crowd,
    setting: &Setting,
) -> Result<Visits, TagError> {
    let password = Password::new(b"password").expect(rt, "a password");
    match tag_of(rt, alloc, workers, &gate, setting, 32, &password) {
        Ok(_) => Ok(gate.visits()),
        Err(error) => Err(error),
    }
}

/// Returns the visits of a tag that the caller's thread computes alone.
fn seen_alone(alloc: Global, setting: &Setting) -> Result<Visits, TagError> {
    let gate = Crowd::new(8, 1);
    let mut scratch = Scratch::new(alloc, 0);
    match tag_in(&mut scratch, alloc, &gate, setting, 32, b"password") {
        Ok(_) => Ok(gate.visits()),
        Err(error) => Err(error),
    }
}

/// Parts, workers, and how many parts are inside at once.
const DEALT: [(u8, u8, u64); 6] = [
    (2, 2, 2),
    (8, 3, 3),
    (8, 0, 1),
    (8, 8, 8),
    (5, 8, 5),
    (6, 4, 3),
];

#[test]
fn each_lane_by_the_workers(rt: HostRuntime) {
    for (parts, workers, at_once) in DEALT {
        let gate = Crowd::new(u64::from(parts), at_once);
        let visits = seen(&rt, rt.alloc(), workers, gate, &lanes(&rt, parts));
        let want = Ok(Visits::of(at_once, usize::from(parts), 4));
        assert_eq!(rt; visits, want, "{parts} by {workers}");
    }
}

#[test]
fn each_piece_by_the_workers(rt: HostRuntime) {
    for (parts, workers, at_once) in DEALT {
        let gate = Crowd::new(u64::from(parts), at_once);
        let visits = seen(&rt, rt.alloc(), workers, gate, &pieces(&rt, parts));
        let want = Ok(Visits::of(at_once, usize::from(parts), 1));
        assert_eq!(rt; visits, want, "{parts} by {workers}");
    }
}

#[test]
fn each_part_alone(rt: HostRuntime) {
    let seen = [
        seen_alone(rt.alloc(), &lanes(&rt, 8)),
        seen_alone(rt.alloc(), &pieces(&rt, 8)),
    ];
    // the thread works two lanes at a time, a block of each in turn
    assert_eq!(rt; seen, [Ok(Visits::of(2, 8, 4)), Ok(Visits::of(1, 8, 1))]);
}
