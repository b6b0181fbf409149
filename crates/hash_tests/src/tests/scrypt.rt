//! Tests of `cred_scrypt`: vectors of the standards, keys that OpenSSL made, and the result when
//! memory runs out.
use super::{byte_len, counted, first, is_hex, is_made};
use cred_pool::NoGate;
use cred_scrypt::{ScryptError, ScryptParams, pbkdf2, ro_mix, scrypt};
use std::alloc::Global;
use std::thread::Threads;

/// RFC 7914, section 10: r = 1 and N = 16.
const BLOCKS: [u32; 32] = [
    0x650bcef7, 0xa4722d3d, 0xabf58c10, 0xddff12e9, 0xdb167677, 0x0ea727bb, 0xaef30482, 0xad6f0f2d,
    0x488ff689, 0x7be8d111, 0x40d73bcc, 0x29fd9f0a, 0x84014f09, 0xf3749563, 0x31a1e59a, 0xd7bc1752,
    0x44914989, 0x22bb1372, 0x4db5256c, 0xfb7063a8, 0x804398cd, 0xbb664637, 0xbfb5fc8f, 0xb054c240,
    0x517cd267, 0xfed54ace, 0x0bc929d8, 0x1b575a50, 0xad1c4d7f, 0xda3c526a, 0xbc670e77, 0x897eafea,
];

const BLOCKS_WALKED: [u32; 32] = [
    0x93c1cc79, 0xcaeb9d62, 0x700b7f04, 0xb6f64b60, 0x4adde32c, 0x55e32696, 0x9861fcfa, 0x462beae6,
    0x671384d5, 0x29b0993b, 0x57c365d6, 0x26b41f60, 0xbbf4b2a0, 0x9fee00a2, 0x9bd1430a, 0x719c1a57,
    0xe64211ef, 0x6f265a5d, 0x2c83cadd, 0x7caa9fe5, 0xf19c0bac, 0xcaff2bbe, 0xee010d30, 0xc4197638,
    0x44fd12ae, 0xa003f238, 0x7ec4e1e4, 0x1f8614c3, 0xcb87904e, 0x686a3933, 0xd2f9e873, 0x8e4b9a53,
];

#[test]
fn mixes(rt: HostRuntime) {
    let mut block = BLOCKS;
    let answer = ro_mix(rt.alloc(), 1, 4, &mut block);
    assert_eq!(rt; (block, answer), (BLOCKS_WALKED, Ok(())));
}

/// The second vector of RFC 7914, section 12.
const SECOND_KEY: &str = "fdbabe1c9d3472007856e7190d01e9fe7c6ad7cbc8237830e77376634b373162\
    2eaf30d92e22a3886ff109279d9830dac727afb94a83ee6d8360cbdfa2cc0640";

/// Ln, r and p, the workers, password and salt, and the key.
const KEYS: [((u8, u8, u8), u8, &[u8], &[u8], &str); 3] = [
    ((10, 8, 16), 1, b"password", b"NaCl", SECOND_KEY),
    ((10, 8, 16), 4, b"password", b"NaCl", SECOND_KEY),
    (
        (14, 8, 1),
        1,
        b"pleaseletmein",
        b"SodiumChloride",
        "7023bdcb3afd7348461c06cd81fd38ebfda8fbba904f8e3ea9b543f6545da1f2\
            d5432955613f0fcf62d49705242a9af9e61e85dc0d651e40dfcf017b45575887",
    ),
];

fn key_of<R: Threads + Sync>(
    rt: &R,
    alloc: Global,
    (ln, r, p): (u8, u8, u8),
    len: u32,
    workers: u8,
    (pw, salt): (&[u8], &[u8]),
) -> Result<Vec<u8>, ScryptError> {
    let params = ScryptParams::new(ln, r, p, len)?;
    scrypt(rt, alloc, workers, &NoGate, &params, pw, salt)
}

#[test]
fn scrypt_vectors(rt: HostRuntime) {
    for (numbers, workers, pw, salt, wanted) in KEYS {
        let key = key_of(&rt, rt.alloc(), numbers, 64, workers, (pw, salt));
        assert!(rt; is_made(key, wanted), "{workers} workers");
    }
}

/// Keys by Python's `hashlib`, which calls OpenSSL: ln, r and p, or the turns; the lengths of the
/// password and of the salt, and the seed; and the key. The seed of the salt is 128 more.
const SCRYPT: [((u8, u8, u8), (usize, usize, u8), &str); 3] = [
    ((1, 1, 1), (0, 0, 1), EMPTY_KEY),
    (
        (1, 9, 5),
        (300, 300, 3),
        "71523aa7d1687acb1c9a342d2f70ebdb247668d764611edfbd2ec7bfcea80a94\
            a9f799a1c04bc18d1500e1143d751e2336143cf69f552ad5f4b0f32b00fac801",
    ),
    ((3, 7, 2), (119, 51, 8), "8f31fed06594c84765ee7574f6265440"),
];

/// A key of no password and no salt.
const EMPTY_KEY: &str = "fa76e020";

/// A key of PBKDF2 of no password and no salt, by one turn.
const EMPTY_DERIVED: &str = "f7";

const PBKDF2: [(u32, (usize, usize, u8), &str); 2] = [
    (1, (0, 0, 1), EMPTY_DERIVED),
    (
        1000,
        (65, 300, 10),
        "2eca3952c4eb06bf53c3638b2691e2d07d7c33c82f172ab33c1fe3882a522d50\
            e3bef43f84c4621e3e0b97a8d143a8db3202c1087253c54bde86509b49632c09\
            c326a2ec315550ae63e96b4a54a405044bfa70cffa65b17bb2417c8a1575a064\
            3fb57e80",
    ),
];

#[test]
fn scrypt_keys(rt: HostRuntime) {
    for (numbers, (pw_len, salt_len, seed), wanted) in SCRYPT {
        let (pw, salt) = (counted(seed, 7), counted(seed.wrapping_add(128), 7));
        let inputs = (first(&pw, pw_len), first(&salt, salt_len));
        let key = key_of(
            &rt,
            rt.alloc(),
            numbers,
            byte_len(wanted),
            numbers.2,
            inputs,
        );
        assert!(rt; is_made(key, wanted), "seed {seed}");
    }
}

#[test]
fn pbkdf2_keys(rt: HostRuntime) {
    for (turns, (pw_len, salt_len, seed), wanted) in PBKDF2 {
        let (pw, salt) = (counted(seed, 7), counted(seed.wrapping_add(128), 7));
        let (pw, salt) = (first(&pw, pw_len), first(&salt, salt_len));
        let key = pbkdf2(rt.alloc(), pw, salt, turns.max(1), byte_len(wanted));
        assert!(rt; is_made(key, wanted), "seed {seed}");
    }
}

/// Whether the answer is this key, or that memory ran out. tools/refuse_memory.py refuses each
/// request.
fn is_made_or_refused(key: Result<Vec<u8>, ScryptError>, wanted: &str) -> bool {
    match key {
        Ok(key) => is_hex(&key, wanted),
        Err(error) => error == ScryptError::Memory,
    }
}

#[test]
fn refused_memory(rt: HostRuntime) {
    let key = key_of(&rt, rt.alloc(), (1, 1, 1), 4, 2, (b"", b""));
    assert!(rt; is_made_or_refused(key, EMPTY_KEY));
    let key = pbkdf2(rt.alloc(), b"", b"", 1, 1);
    assert!(rt; is_made_or_refused(key, EMPTY_DERIVED));
}
