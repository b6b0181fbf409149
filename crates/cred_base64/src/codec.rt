//! From bytes to letters, and back.

ghost use Rattle.std.specs.Prelude.{◌≡◌, ◌↔◌, ◌<◌, ◌^◌, ◌*◌, ◌/◌, length, replicate, IsTrue, OnOk, OnErr};
ghost use Rattle.base64.specs.{GeneralPurpose.IsBytes, Rfc4648.unpadded_len};
ghost use Rattle.cred_base64.specs.Letters.{bytes_with, letters_of};

use crate::sextets::{byte, letter, sextet};
use thiserror::Error;

/// Returns the number of letters of so many bytes: four for each three bytes, three for two bytes
/// that are left over, and two for one.
pub fn encoded_len(bytes: usize) -> usize
    requires { bytes < 2 ^ 63 }
    ensures { result ≡ unpadded_len bytes }
{
    bytes / 3 * 4 + (bytes % 3 * 4 + 2) / 3
}

/// Writes the letters of the bytes, of which there are `encoded_len(bytes.len())`.
pub fn encode(bytes: &[u8], letters: &mut [u8])
    requires { length letters.old ≡ unpadded_len (length bytes.now) }
    ensures { letters.new ≡ letters_of bytes.now }
{
    for place in 0..letters.len() {
        letters[place] = letter(sextet(bytes, place));
    }
}

/// A text that isn't base64 with no padding: another letter, `=`, a last letter whose unused bits
/// aren't zero, or a length that no bytes have.
#[derive(Clone, Copy, Debug, PartialEq, Eq, Error)]
#[error("not base64 with no padding")]
pub struct NotBase64;

/// Returns the number of bytes that so many letters encode.
pub fn decoded_len(letters: usize) -> usize
    ensures { result ≡ letters * 3 / 4 }
{
    letters / 4 * 3 + letters % 4 * 3 / 4
}

/// Writes the bytes that the letters encode, of which there are `decoded_len(letters.len())`.
///
/// Errors: `NotBase64` if the letters encode no bytes. Then the bytes are zero.
pub fn decode(letters: &[u8], bytes: &mut [u8]) -> Result<(), NotBase64>
    requires { length bytes.old ≡ length letters.now * 3 / 4 }
    ensures ok { OnOk result (bytes_with letters.now ≡ Some bytes.new) }
    ensures not_base64 { OnErr result (bytes_with letters.now ≡ None) }
    ensures size { length bytes.new ≡ length letters.now * 3 / 4 }
    ensures cleared { OnErr result (bytes.new ≡ replicate (length bytes.old) 0) }
{
    for place in 0..bytes.len() {
        bytes[place] = byte(letters, place);
    }
    if are_letters(letters, bytes) {
        return Ok(());
    }
    bytes.fill(0);
    Err(NotBase64)
}

/// Whether these are the letters of the bytes, by which `decode` judges a text: other letters
/// encode the bytes that were read from a faulty text. The loop compares each letter, even after
/// one that differs.
fn are_letters(letters: &[u8], bytes: &[u8]) -> bool
    ensures same { IsTrue result ↔ (letters.now ≡ letters_of bytes.now) }
    ensures bytes { IsBytes bytes.now }
{
    if letters.len() != encoded_len(bytes.len()) {
        return false;
    }
    let mut same = true;
    for place in 0..letters.len() {
        same &= letters[place] == letter(sextet(bytes, place));
    }
    same
}
