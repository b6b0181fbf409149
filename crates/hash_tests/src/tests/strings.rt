//! Tests of texts of other programs, most of them from `test_samples`: their values, read and
//! written, and their tags. Other tests show that no text shows a password. tests/credbook has the
//! faults of damaged texts.

use super::stored;
use cred_phc::{
    Password, PhcError, Record, Setting, TagError, parse_setting, tag_of, write_record,
    write_setting,
};
use cred_pool::NoGate;
use std::alloc::Global;
use std::process::Abort;
use std::thread::Threads;
use test_samples::{A, A_SETTING, B, INDEPENDENT, OLD, OLD_WRITTEN, SCRYPT, SECRET, shows_secret};

/// Records of `password` by the reference program of Argon2: one of the least memory, whose
/// segments have two blocks, and one of 64 MiB.
const SMALLEST: &str =
    "$argon2id$v=19$m=8,t=1,p=1$c29tZXNhbHQ$8Tf44YakA6Z5zNBgblq13Nr+Q8FkCFWsjG4z6b1j7rM";

pub(super) const LARGE: &str =
    "$argon2id$v=19$m=65536,t=2,p=1$c29tZXNhbHQ$CTFhFdXPJO1aFaMaO6Mm5c8y7cJHAph8ArZWb2GRPPc";

/// Returns the record with a tag that the function computes anew from `password`.
fn made_again<R: Threads + Sync + Abort>(
    rt: &R,
    alloc: Global,
    workers: u8,
    stored: &Record,
) -> Result<Record, TagError> {
    let password = Password::new(b"password").expect(rt, "a password");
    let (setting, tag) = (stored.setting(), stored.tag());
    let length = tag.bytes().len() as u8;
    let made = tag_of(rt, alloc, workers, &NoGate, &setting, length, &password)?;
    Ok(Record::with_tag(setting, made))
}

#[test]
fn known_tags(rt: HostRuntime) {
    for text in [A, B, INDEPENDENT, OLD, SCRYPT, SMALLEST] {
        let stored = stored(&rt, text);
        for workers in [1, 4] {
            let made = made_again(&rt, rt.alloc(), workers, &stored);
            assert_eq!(rt; made, Ok(stored), "{text}");
        }
    }
}

/// Runs under tools/peak_memory.py too, which measures how much memory the hash asks for.
#[test]
fn large_vectors(rt: HostRuntime) {
    let stored = stored(&rt, LARGE);
    assert_eq!(rt; made_again(&rt, rt.alloc(), 1, &stored), Ok(stored));
}

/// Whether `write_record` writes this text for the record.
fn is_record_text(alloc: Global, stored: &Record, text: &str) -> Result<bool, PhcError> {
    Ok(write_record(alloc, stored)?.as_slice() == text.as_bytes())
}

/// Whether `write_setting` writes this text for the setting.
fn is_setting_text(alloc: Global, setting: &Setting, text: &str) -> Result<bool, PhcError> {
    Ok(write_setting(alloc, setting)?.as_slice() == text.as_bytes())
}

/// A setting whose salt is written with each letter of base64 once, in the order of RFC 4648,
/// section 4.
const ALPHABET: &str =
    "$argon2id$v=19$m=256,t=2,p=1$ABCDEFGHIJKLMNOPQRSTUVWXYZabcdefghijklmnopqrstuvwxyz0123456789+/";

const ALPHABET_SALT: &[u8] = b"\x00\x10\x83\x10\x51\x87\x20\x92\x8b\x30\xd3\x8f\x41\x14\x93\x51\
    \x55\x97\x61\x96\x9b\x71\xd7\x9f\x82\x18\xa3\x92\x59\xa7\xa2\x9a\
    \xab\xb2\xdb\xaf\xc3\x1c\xb3\xd3\x5d\xb7\xe3\x9e\xbb\xf3\xdf\xbf";

#[test]
fn alphabet(rt: HostRuntime) {
    let read = parse_setting(ALPHABET.as_bytes()).expect(&rt, "a setting");
    assert_eq!(rt; read.salt(), ALPHABET_SALT);
    assert_eq!(rt; is_setting_text(rt.alloc(), &read, ALPHABET), Ok(true));
}

/// Holds under tools/refuse_memory.py too: the result is a tag or a text, or `Memory`.
#[test]
fn refused_memory(rt: HostRuntime) {
    for text in [B, OLD_WRITTEN, SCRYPT] {
        let stored = stored(&rt, text);
        let made = made_again(&rt, rt.alloc(), 2, &stored);
        assert!(rt;
            made == Ok(stored) || made == Err(TagError::Memory),
            "{text}"
        );
        let is_written = is_record_text(rt.alloc(), &stored, text);
        assert!(rt; matches!(is_written, Ok(true) | Err(PhcError::Memory)));
    }
    let is_written = is_setting_text(rt.alloc(), &stored(&rt, A).setting(), A_SETTING);
    assert!(rt; matches!(is_written, Ok(true) | Err(PhcError::Memory)));
}

#[test]
fn passwords_are_not_shown(rt: HostRuntime) {
    let password = Password::new(SECRET.as_bytes()).expect(&rt, "a password");
    let none = Password::new(b"").expect(&rt, "a password");
    let shown = format!(in rt.alloc(); "{password:?}").expect(&rt, "memory");
    let shown_none = format!(in rt.alloc(); "{none:?}").expect(&rt, "memory");
    assert!(rt; !shows_secret(shown.as_str()));
    assert_eq!(rt; shown.as_str(), shown_none.as_str());
}

/// Tests that `shows_secret` knows each form of the password.
#[test]
fn secrets_would_be_seen(rt: HostRuntime) {
    let bytes = SECRET.as_bytes();
    let numbers = format!(in rt.alloc(); "{bytes:?}").expect(&rt, "memory");
    let letters = format!(in rt.alloc(); "pw {SECRET}").expect(&rt, "memory");
    assert!(rt; shows_secret(numbers.as_str()));
    assert!(rt; shows_secret(letters.as_str()));
    assert!(rt; shows_secret("$Y29ycmVjdCBob3JzZQ$"));
}
