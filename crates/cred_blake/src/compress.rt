//! The compression function F of BLAKE2b (RFC 7693, section 3.2), which mixes a block of 128 bytes
//! into the state.

ghost use Rattle.std.specs.Prelude.{◌≡◌, ◌+◌, ◌≤◌, ◌<◌, [], length, slice_index, slice_index_or};
ghost use Rattle.cred_blake.specs.Blake2b.{compress, mix, mixing, round, rounds, schedule, work_vector};
ghost use Rattle.cred_blake.specs.Words.{word_at, words_of};

/// The length of a block in bytes.
pub(crate) const BLOCK_LEN: usize = 128;

/// The initialization vector (RFC 7693, section 2.6).
pub(crate) const IV: [u64; 8] = [
    0x6a09e667f3bcc908,
    0xbb67ae8584caa73b,
    0x3c6ef372fe94f82b,
    0xa54ff53a5f1d36f1,
    0x510e527fade682d1,
    0x9b05688c2b3e6c1f,
    0x1f83d9abfb41bd6b,
    0x5be0cd19137e2179,
];

/// The message schedule SIGMA (RFC 7693, section 2.7). Rounds 10 and 11 take rows 0 and 1 again.
const SIGMA: [[usize; 16]; 10] = [
    [0, 1, 2, 3, 4, 5, 6, 7, 8, 9, 10, 11, 12, 13, 14, 15],
    [14, 10, 4, 8, 9, 15, 13, 6, 1, 12, 0, 2, 11, 7, 5, 3],
    [11, 8, 12, 0, 5, 2, 15, 13, 10, 14, 3, 6, 7, 1, 9, 4],
    [7, 9, 3, 1, 13, 12, 11, 14, 2, 6, 5, 10, 4, 0, 15, 8],
    [9, 0, 5, 7, 2, 4, 10, 15, 14, 1, 11, 12, 6, 8, 3, 13],
    [2, 12, 6, 10, 0, 11, 8, 3, 4, 13, 7, 5, 15, 14, 1, 9],
    [12, 5, 1, 15, 14, 13, 4, 10, 0, 7, 6, 3, 9, 2, 8, 11],
    [13, 11, 7, 14, 12, 1, 3, 9, 5, 0, 15, 4, 8, 6, 2, 10],
    [6, 15, 14, 9, 11, 3, 0, 8, 12, 2, 13, 7, 1, 4, 10, 5],
    [10, 2, 8, 4, 7, 6, 1, 5, 15, 11, 9, 14, 3, 12, 13, 0],
];

/// Applies the mixing function G to four words (RFC 7693, section 3.1).
#[inline(always)]
#[tactic(auto, unfolding(crate::specs::Blake2b::mixing))]
fn mixing(a: u64, b: u64, c: u64, d: u64, x: u64, y: u64) -> (u64, u64, u64, u64)
    ensures { result ≡ mixing a b c d x y }
{
    let a = a.wrapping_add(b).wrapping_add(x);
    let d = (d ^ a).rotate_right(32);
    let c = c.wrapping_add(d);
    let b = (b ^ c).rotate_right(24);
    let a = a.wrapping_add(b).wrapping_add(y);
    let d = (d ^ a).rotate_right(16);
    let c = c.wrapping_add(d);
    let b = (b ^ c).rotate_right(63);
    (a, b, c, d)
}

/// Applies G at the places i, j, k, l of the work vector, with two words of the message.
#[inline(always)]
#[tactic(auto, unfolding(crate::specs::Blake2b::mix))]
fn mix(v: &mut [u64; 16], i: usize, j: usize, k: usize, l: usize, words: (u64, u64))
    requires { (i < 16) × (j < 16) × (k < 16) × (l < 16) }
    ensures { v.new ≡ mix v.old i j k l words.0 words.1 }
{
    let (x, y) = words;
    let (a, b, c, d) = mixing(v[i], v[j], v[k], v[l], x, y);
    v[i] = a;
    v[j] = b;
    v[k] = c;
    v[l] = d;
}

/// Returns the message word that round `r` uses at its place `i`.
#[inline(always)]
fn word(m: &[u64; 16], r: usize, i: usize) -> u64
    requires { (r < 10) × (i < 16) }
    ensures { result ≡ slice_index m.now (slice_index (slice_index_or schedule r []) i) }
{
    m[SIGMA[r][i]]
}

/// Does one round with row `r` of the schedule: the columns, then the diagonals.
#[inline(always)]
#[tactic(auto, unfolding(crate::specs::Blake2b::round))]
fn round(v: &mut [u64; 16], m: &[u64; 16], r: usize)
    requires { r < 10 }
    ensures { v.new ≡ round v.old m.now (slice_index_or schedule r []) }
{
    mix(v, 0, 4, 8, 12, (word(m, r, 0), word(m, r, 1)));
    mix(v, 1, 5, 9, 13, (word(m, r, 2), word(m, r, 3)));
    mix(v, 2, 6, 10, 14, (word(m, r, 4), word(m, r, 5)));
    mix(v, 3, 7, 11, 15, (word(m, r, 6), word(m, r, 7)));
    mix(v, 0, 5, 10, 15, (word(m, r, 8), word(m, r, 9)));
    mix(v, 1, 6, 11, 12, (word(m, r, 10), word(m, r, 11)));
    mix(v, 2, 7, 8, 13, (word(m, r, 12), word(m, r, 13)));
    mix(v, 3, 4, 9, 14, (word(m, r, 14), word(m, r, 15)));
}

/// Does the twelve rounds, unrolled so that each has its row of the schedule as a constant.
#[inline(always)]
#[tactic(auto, unfolding(crate::specs::Blake2b::rounds))]
fn rounds(v: &mut [u64; 16], m: &[u64; 16])
    ensures { v.new ≡ rounds v.old m.now 12 }
{
    round(v, m, 0);
    round(v, m, 1);
    round(v, m, 2);
    round(v, m, 3);
    round(v, m, 4);
    round(v, m, 5);
    round(v, m, 6);
    round(v, m, 7);
    round(v, m, 8);
    round(v, m, 9);
    round(v, m, 0);
    round(v, m, 1);
}

/// Returns the word at byte `i` of a block.
#[inline(always)]
#[tactic(auto, unfolding(crate::specs::Words::word_at))]
fn load(block: &[u8], i: usize) -> u64
    requires { i + 8 ≤ length block.now }
    ensures { result ≡ word_at block.now i }
{
    u64::from_le_bytes([
        block[i],
        block[i + 1],
        block[i + 2],
        block[i + 3],
        block[i + 4],
        block[i + 5],
        block[i + 6],
        block[i + 7],
    ])
}

/// Returns the 16 words of a block.
#[inline(always)]
#[tactic(auto, unfolding(crate::specs::Words::words_of))]
fn words(block: &[u8]) -> [u64; 16]
    requires { length block.now ≡ BLOCK_LEN }
    ensures { result ≡ words_of block.now 16 }
{
    [
        load(block, 0),
        load(block, 8),
        load(block, 16),
        load(block, 24),
        load(block, 32),
        load(block, 40),
        load(block, 48),
        load(block, 56),
        load(block, 64),
        load(block, 72),
        load(block, 80),
        load(block, 88),
        load(block, 96),
        load(block, 104),
        load(block, 112),
        load(block, 120),
    ]
}

/// Returns the work vector for a block with this byte counter. `last` sets the final block flag.
#[inline(always)]
fn work_vector(h: &[u64; 8], counter: u128, last: bool) -> [u64; 16]
    ensures { result ≡ work_vector h.now counter last }
{
    let low = (counter % (1 << 64)) as u64;
    let high = (counter >> 64) as u64;
    let flagged = if last { !IV[6] } else { IV[6] };
    [
        h[0],
        h[1],
        h[2],
        h[3],
        h[4],
        h[5],
        h[6],
        h[7],
        IV[0],
        IV[1],
        IV[2],
        IV[3],
        IV[4] ^ low,
        IV[5] ^ high,
        flagged,
        IV[7],
    ]
}

/// Mixes a block of 128 bytes into the state. `counter` is the number of bytes up to the end of the
/// block, without padding, and `last` is the final block flag.
#[tactic(auto, unfolding(crate::specs::Blake2b::compress))]
pub(crate) fn compress(h: &mut [u64; 8], block: &[u8], counter: u128, last: bool)
    requires { length block.now ≡ BLOCK_LEN }
    ensures { h.new ≡ compress h.old block.now counter last }
{
    let m = words(block);
    let mut v = work_vector(h, counter, last);
    rounds(&mut v, &m);
    *h = [
        h[0] ^ v[0] ^ v[8],
        h[1] ^ v[1] ^ v[9],
        h[2] ^ v[2] ^ v[10],
        h[3] ^ v[3] ^ v[11],
        h[4] ^ v[4] ^ v[12],
        h[5] ^ v[5] ^ v[13],
        h[6] ^ v[6] ^ v[14],
        h[7] ^ v[7] ^ v[15],
    ];
}
