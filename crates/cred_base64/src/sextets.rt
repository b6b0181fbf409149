//! Six bits and their letter, by arithmetic, and bytes in groups of six bits: three bytes are four
//! groups.

ghost use Rattle.std.specs.Prelude.{◌≡◌, ℕ, ◌<◌, List, length, nat_le, slice_index, if◌then◌else◌};
ghost use Rattle.base64.specs.GeneralPurpose.{IsBytes};
ghost use Rattle.cred_base64.specs.{Letters.letter_of, Letters.letters_of, Sextets.sextet_at};

/// Returns the letter of six bits. `A` to `Z`, `a` to `z`, `0` to `9`, `+` and `/` stand for 0 to
/// 63, so there is a step where each of these runs begins.
#[tactic(auto, using(crate::proofs::LetterLaws::letter_code_is))]
pub(crate) fn letter(sextet: u8) -> u8
    requires { sextet < 64 }
    ensures { result ≡ letter_of sextet }
{
    let sextet = u16::from(sextet);
    let lower = 65 + sextet + 6 * reaches(sextet, 26);
    let digits = lower - 75 * reaches(sextet, 52);
    let signs = digits - 15 * reaches(sextet, 62) + 3 * reaches(sextet, 63);
    signs as u8
}

/// Returns the six bits that a letter encodes, and some six bits if the byte is no letter.
pub(crate) fn sextet_of(letter: u8) -> u8
    ensures letters { (sextet : ℕ) → sextet < 64 → letter ≡ letter_of sextet → result ≡ sextet }
    ensures six_bits { result < 64 }
{
    let letter = u16::from(letter);
    let signs = letter + 19 - 3 * reaches(letter, 44);
    let digits = signs - 12 * reaches(letter, 48);
    let upper = digits + 59 * reaches(letter, 58);
    let lower = upper - 6 * reaches(letter, 91);
    (lower % 64) as u8
}

/// Returns 1 if the number is at least `least`, otherwise 0.
fn reaches(number: u16, least: u16) -> u16
    requires number { number < 256 }
    requires least { least < 256 }
    ensures { result ≡ (if nat_le least number then 1 else 0) }
{
    (number + 256 - least) / 256
}

/// Returns the six bits at a place of the bytes, with zero bits after the last byte.
pub(crate) fn sextet(bytes: &[u8], place: usize) -> u8
    ensures value { result ≡ sextet_at bytes.now place }
    ensures six_bits { result < 64 }
{
    let first = place / 4 * 3;
    match place % 4 {
        0 => byte_at(bytes, first) / 4,
        1 => byte_at(bytes, first) % 4 * 16 + byte_at(bytes, first + 1) / 16,
        2 => byte_at(bytes, first + 1) % 16 * 4 + byte_at(bytes, first + 2) / 64,
        _ => byte_at(bytes, first + 2) % 64,
    }
}

/// Returns the byte at a place of those that the letters encode, and some byte if the letters
/// encode none.
pub(crate) fn byte(letters: &[u8], place: usize) -> u8
    requires { place < length letters.now }
    ensures { (bytes : List ℕ) → IsBytes bytes → letters.now ≡ letters_of bytes
        → place < length bytes → result ≡ slice_index bytes place }
{
    let first = place / 3 * 4;
    match place % 3 {
        0 => read(letters, first) * 4 + read(letters, first + 1) / 16,
        1 => read(letters, first + 1) % 16 * 16 + read(letters, first + 2) / 4,
        _ => read(letters, first + 2) % 4 * 64 + read(letters, first + 3),
    }
}

/// Returns the six bits of the letter at a place.
fn read(letters: &[u8], place: usize) -> u8
    ensures letters { (bytes : List ℕ) → IsBytes bytes → letters.now ≡ letters_of bytes
        → place < length letters.now → result ≡ sextet_at bytes place }
    ensures six_bits { result < 64 }
{
    sextet_of(byte_at(letters, place))
}

/// Returns the byte at a place, and 0 after the last.
fn byte_at(bytes: &[u8], place: usize) -> u8
    ensures { result ≡ slice_index bytes.now place }
{
    bytes.get(place).copied().unwrap_or(0)
}
