//! These tests show that the exports that need memory get it, with the standards' vectors and the
//! texts of other programs. c/tests shows each fault, and the results of parts that are worked in
//! their order.
//!
//! The tests compare only the first bytes of long tags and keys: a clause covers the others.

use crate::lanes::cred_argon2_end;
use crate::operation::StepInputs;
use crate::parts::{cred_record_fault, cred_setting_fault};
use crate::raw::{ScryptNumbers, cred_argon2, cred_scrypt};
use crate::reading::{RecordReading, SettingReading};
use crate::record_lanes::{cred_check_end, cred_check_read, cred_hash_end};
use crate::records::{cred_check, cred_hash};
use crate::step::cred_step;
use crate::tag_numbers::{Argon2Numbers, TagNumbers};
use crate::texts::cred_write;
use cred_argon::{Block, Inputs};
use std::alloc::Global;

/// The setting and the record of `password` and `somesalt`, by the reference program of Argon2.
const SETTING: &[u8] = b"$argon2id$v=19$m=256,t=2,p=1$c29tZXNhbHQ";

const RECORD: &[u8] =
    b"$argon2id$v=19$m=256,t=2,p=1$c29tZXNhbHQ$nf65EOgLrQMR/uIPnA4rEsF5h7TKyQwu9U1bMCHGi/4";

/// The same for argon2i.
const RENEWED_SETTING: &[u8] = b"$argon2i$v=19$m=256,t=2,p=1$c29tZXNhbHQ";

const RENEWED: &[u8] =
    b"$argon2i$v=19$m=256,t=2,p=1$c29tZXNhbHQ$iekCn0Y3spW+sCcFanM2xBT63UP2sghkUoHLIUpWRS8";

/// The costs of `RECORD` with another salt.
const OTHER_SALT: &[u8] = b"$argon2id$v=19$m=256,t=2,p=1$b3RoZXJzYWx0";

/// The first bytes of the tags of RFC 9106, sections 5.1 to 5.3.
const STANDARD: [[u8; 8]; 3] = [
    [0x51, 0x2b, 0x39, 0x1b, 0x6f, 0x11, 0x62, 0x97],
    [0xc8, 0x14, 0xd9, 0xd1, 0xdc, 0x7f, 0x37, 0xaa],
    [0x0d, 0x64, 0x0d, 0xf5, 0x8d, 0x78, 0x76, 0x6c],
];

/// The first bytes of the second key of RFC 7914, section 12.
const KEY: [u8; 8] = [0xfd, 0xba, 0xbe, 0x1c, 0x9d, 0x34, 0x72, 0x00];

/// The inputs of RFC 9106, section 5.
const INPUTS: Inputs<'static> = Inputs {
    pw: &[1; 32],
    salt: &[2; 16],
    secret: &[3; 8],
    assoc: &[4; 12],
};

/// The inputs of `RECORD`.
const RECORD_INPUTS: Inputs<'static> = Inputs {
    pw: b"password",
    salt: b"somesalt",
    secret: b"",
    assoc: b"",
};

fn numbers(kind: u32, memory: u32, passes: u32, lanes: u32) -> Argon2Numbers {
    Argon2Numbers {
        kind,
        version: 19,
        memory,
        passes,
        lanes,
    }
}

#[test]
fn argon2_tags(rt: HostRuntime) {
    for kind in 0..3u32 {
        let (numbers, mut tag) = (numbers(kind, 32, 3, 4), [0; 32]);
        let answer = cred_argon2(rt.alloc(), &numbers, &INPUTS, &mut tag);
        let is_standard = tag[..8] == STANDARD[kind as usize][..];
        assert_eq!(rt; (answer, is_standard), (0, true), "kind {kind}");
    }
}

#[test]
fn scrypt_keys(rt: HostRuntime) {
    let (ln, r, p, mut key) = (10, 8, 16, [0; 100]);
    let numbers = ScryptNumbers { ln, r, p };
    let answer = cred_scrypt(rt.alloc(), &numbers, b"password", b"NaCl", &mut key);
    assert_eq!(rt; (answer, key[..8] == KEY[..]), (0, true));
}

#[test]
fn records_checked(rt: HostRuntime) {
    let answers = [
        cred_check(rt.alloc(), RECORD, b"password"),
        cred_check(rt.alloc(), RECORD, b"Password"),
        cred_check(rt.alloc(), SETTING, b"password"),
        cred_record_fault(RECORD),
        cred_setting_fault(SETTING),
    ];
    assert_eq!(rt; answers, [0, 10, 1, 0, 0]);
}

/// Writes one record with a single call, and another from a tag.
#[test]
fn records_made(rt: HostRuntime) {
    let (mut out, mut len) = ([b'.'; 86], 7);
    let answer = cred_hash(rt.alloc(), SETTING, 32, b"password", &mut out, &mut len);
    assert_eq!(rt; (answer, len, out.starts_with(RECORD)), (0, 84, true));
    let (numbers, mut tag, mut out) = (numbers(2, 256, 2, 1), [0; 32], [b'.'; 84]);
    let made = cred_argon2(rt.alloc(), &numbers, &RECORD_INPUTS, &mut tag);
    let answer = cred_write(rt.alloc(), &numbers, b"somesalt", &tag, &mut out, &mut len);
    assert_eq!(rt; (made, answer, &out[..] == RECORD), (0, 0, true));
}

/// A reading of no text.
const UNREAD: RecordReading = RecordReading {
    setting: SettingReading {
        numbers: TagNumbers {
            kind: 0,
            version: 0,
            memory: 0,
            passes: 0,
            lanes: 0,
            tag_len: 0,
        },
        salt_len: 0,
        salt: [0; 48],
    },
    tag: [0; 64],
};

/// Checks the results of the last calls over a slice that nobody worked, which has another tag.
#[test]
fn parts_ended(rt: HostRuntime) {
    let (mut read, mut tag, mut out, mut len) = (UNREAD, [0; 32], [b'.'; 86], 7);
    let last = [Block([7; 128]); 64];
    let is_read = cred_check_read(RECORD, &mut read);
    let setting = &read.setting;
    let answers = [
        is_read,
        cred_check_end(rt.alloc(), &read, &last),
        cred_argon2_end(rt.alloc(), &setting.numbers, &last, &mut tag),
        cred_hash_end(rt.alloc(), setting, &last, &mut out, &mut len),
    ];
    assert_eq!(rt; answers, [0, 10, 0, 0]);
    assert_eq!(rt; (len, out.starts_with(SETTING)), (84, true));
}

/// Returns the answer of a step, its reply, and whether the step wrote this text.
fn step(alloc: Global, asked: &StepInputs<'_>, text: &[u8]) -> (u8, u32, bool) {
    let (mut out, mut len, mut reply) = ([b'.'; 96], 9, 77);
    let answer = cred_step(alloc, asked, &mut reply, &mut out, &mut len);
    let is_written = len == text.len() && out.starts_with(text);
    (answer, reply, is_written)
}

/// Takes a step for each operation that makes a change, and for each that makes none. A row has the
/// operation's number, the copy, the password, the setting, the reply and the text.
#[test]
fn steps_taken(rt: HostRuntime) {
    let (right, wrong) = (b"password".as_slice(), b"Password".as_slice());
    for (operation, copy, pw, setting, reply, text) in [
        (1, b"".as_slice(), right, SETTING, 1, RECORD),
        (1, RECORD, right, SETTING, 2, b"".as_slice()),
        (2, RECORD, right, b"", 3, b""),
        (2, RECORD, wrong, b"", 4, b""),
        (2, b"", right, b"", 5, b""),
        (3, RECORD, right, RENEWED_SETTING, 6, RENEWED),
        (4, RECORD, right, RENEWED_SETTING, 8, RENEWED),
        (4, RECORD, right, OTHER_SALT, 9, b""),
        (5, RECORD, right, b"", 10, b""),
    ] {
        let asked = StepInputs {
            operation,
            copy,
            pw,
            new_pw: right,
            setting,
        };
        assert_eq!(rt; step(rt.alloc(), &asked, text), (0, reply, true));
    }
}
