//! Bytes within a value that code can copy without an allocation. Their comparison is generic over
//! secret bytes, so it can't branch on a byte, or use a byte as an index.

ghost use Rattle.std.specs.Prelude.{◌≡◌, ◌↔◌, ◌≤◌, length, map, if◌then◌else◌};
ghost use Rattle.base64.specs.GeneralPurpose.{IsBytes};
ghost use Rattle.cred_phc.specs.{Base64.bytes_of, Ranges.between};

use cred_base64::{decode, decoded_len};
use std::marker::Model;

/// The greatest `CAP` that `from_base64` can decode.
const MOST_BYTES: usize = 256;

/// The number of letters that encode `MOST_BYTES` bytes.
const MOST_LETTERS: usize = 342;

/// At most `CAP` bytes. The room after them is zero, so that equal bytes are equal values.
#[derive(Clone, Copy, Debug)]
pub struct ShortBytes<const CAP: usize> {
    cells: [u8; CAP],
    len: usize,
}

impl<const CAP: usize> Model for ShortBytes<CAP> {
    ghost use Rattle.std.specs.Prelude.{◌≡◌, ◌-◌, ◌≤◌, ◌++◌, List, ℕ, length, take, drop};
    ghost use Rattle.std.specs.Prelude.{replicate};
    ghost use Rattle.cred_phc.specs.Padded.{IsPadded, cells_back, len_back};

    ghost Value = { List ℕ };

    ghost view = { λ s. take s.len s.cells };

    ghost invariant = { λ s. IsPadded CAP s.len s.cells };

    ghost inverse = { λ v. record { cells = v ++ replicate (CAP - length v) 0; len = length v } };

    ghost inverse_ok = { λ s h i. record {
      cells = cells_back CAP s.len s.cells h i;
      len = len_back CAP s.len s.cells h i;
    } };
}

impl<const CAP: usize> ShortBytes<CAP> {
    /// Returns these bytes, if there are at least `low` of them and at most `CAP`.
    pub fn new(bytes: &[u8], low: usize) -> Option<ShortBytes<CAP>>
        ensures { result ≡ (if between low CAP (length bytes.now) then Some bytes.now else None) }
    {
        if bytes.len() < low {
            return None;
        }
        if bytes.len() > CAP {
            return None;
        }
        let mut cells = [0; CAP];
        cells[..bytes.len()].copy_from_slice(bytes);
        Some(ShortBytes {
            cells,
            len: bytes.len(),
        })
    }

    /// Returns the bytes that these letters encode, in base64 with no padding (RFC 4648, section
    /// 4), if there are `low` to `CAP` of them. `CAP` is at most 256.
    pub fn from_base64(letters: &[u8], low: usize) -> Option<ShortBytes<CAP>>
        requires { CAP ≤ 256 }
        ensures { result ≡ bytes_of low CAP letters.now }
    {
        if letters.len() > MOST_LETTERS {
            return None;
        }
        let mut buffer = [0; MOST_BYTES];
        let len = decoded_len(letters.len());
        match decode(letters, &mut buffer[..len]) {
            Ok(()) => ShortBytes::new(&buffer[..len], low),
            Err(_) => None,
        }
    }

    /// Returns the bytes, without the room after them.
    pub fn as_slice(&self) -> &[u8]
        ensures value { result.now ≡ self.now }
        ensures fits { length self.now ≤ CAP }
        ensures bytes { IsBytes self.now }
    {
        &self.cells[..self.len]
    }
}

impl<const CAP: usize> PartialEq for ShortBytes<CAP> {
    ghost use Rattle.std.specs.Str.{bytes_eq};
    ghost use Rattle.std.specs.Cmp.{partial_equiv_from_equiv};
    ghost use Rattle.std.specs.Cmp.Lexicographic.{nat_list_eq_equiv};

    ghost eq = { bytes_eq };

    ghost laws = { partial_equiv_from_equiv nat_list_eq_equiv };

    /// Compares the bytes by [`difference`], which can't look at one. So
    /// no branch depends on a byte, except by the verdict.
    fn eq(&self, other: &Self) -> bool {
        let (these, those) = (self.as_slice(), other.as_slice());
        if these.len() != those.len() {
            return false;
        }
        difference(0, these, those) == 0
    }
}

impl<const CAP: usize> Eq for ShortBytes<CAP> {
    ghost use Rattle.std.specs.Cmp.Lexicographic.{nat_list_eq_equiv};

    ghost laws = { nat_list_eq_equiv };
}

/// A byte that code can only combine with others: no call turns it into a `bool` or a number.
pub(crate) trait SecretByte: Copy {
    ghost use Rattle.std.specs.Prelude.{ℕ};

    ghost value: { Self → ℕ };

    /// Returns zero exactly if the two bytes are equal.
    fn difference(self, other: Self) -> Self
        ensures { (value result ≡ 0) ↔ (value self ≡ value other) };

    /// Returns zero exactly if both bytes are zero.
    fn either(self, other: Self) -> Self
        ensures { (value result ≡ 0) ↔ ((value self ≡ 0) × (value other ≡ 0)) };
}

impl SecretByte for u8 {
    ghost value = { λ byte. byte };

    fn difference(self, other: u8) -> u8 {
        self ^ other
    }

    fn either(self, other: u8) -> u8 {
        self | other
    }
}

/// Returns zero exactly if the bytes are the same. The loop reads each byte even if an early one
/// differs, so the time doesn't tell how far two tags agree. The loop can't end at a byte or branch
/// on one, since the bound of `S` has no call that tells a byte's value.
pub(crate) fn difference<S: SecretByte>(zero: S, these: &[S], those: &[S]) -> S
    requires zero { S.value zero ≡ 0 }
    requires lengths { length these.now ≡ length those.now }
    ensures { (S.value result ≡ 0) ↔ (map S.value these.now ≡ map S.value those.now) }
{
    let mut sum = zero;
    for i in 0..these.len() {
        sum = sum.either(these[i].difference(those[i]));
    }
    sum
}
