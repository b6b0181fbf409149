//! The pieces of a text between its separators, and the decimal numbers among them.

ghost use Rattle.std.specs.Prelude.{◌≡◌, ◌<◌, ◌==◌, [], ◌∷◌, length, position, slice_get, IfSome, MatchOption};
ghost use Rattle.std.specs.{Char.is_ascii_digit, List.list_all, Option.option_copied, Option.option_map};
ghost use Rattle.cred_phc.specs.Fields.{labelled_number, numbers_of};
ghost use Rattle.cred_phc.specs.Number.{is_numeral, number_of, saturation, saturation_each};
ghost use Rattle.cred_phc.specs.Pieces.{pieces, pieces_left};

use std::marker::Model;

/// The pieces of a text that are still to be read. A text has at least one piece, which may be
/// empty.
#[derive(Drop)]
pub struct Pieces<'a> {
    rest: Option<&'a [u8]>,
    separator: u8,
}

impl<'a> Model for Pieces<'a> {
    ghost use Rattle.std.specs.Prelude.{List, ℕ};
    ghost use Rattle.std.specs.Option.{option_copied};
    ghost use Rattle.cred_phc.specs.Pieces.{pieces_left};

    ghost Value = { List (List ℕ) };

    ghost view = { λ p. pieces_left p.separator (option_copied p.rest) };
}

impl<'a> Pieces<'a> {
    /// Returns all pieces of the text, between the separators.
    pub fn new(text: &'a [u8], separator: u8) -> Pieces<'a>
        ensures { result ≡ pieces separator text.now }
    {
        Pieces {
            rest: Some(text),
            separator,
        }
    }

    /// Returns the piece that `next` will return.
    pub fn peek(&self) -> Option<&'a [u8]>
        ensures { option_copied result ≡ slice_get self.now 0 }
    {
        let (piece, _) = cut(self.rest?, self.separator);
        Some(piece)
    }

    /// Removes the next piece, and returns it.
    pub fn next(&mut self) -> Option<&'a [u8]>
        ensures { MatchOption result ((self.old ≡ []) × (self.new ≡ []))
            (λ piece. self.old ≡ piece.now ∷ self.new) }
    {
        let text = self.rest?;
        let (piece, rest) = cut(text, self.separator);
        self.rest = rest;
        Some(piece)
    }
}

/// Returns the piece before the first `byte`, and the text after that byte, if the byte occurs.
#[tactic(auto, using(crate::proofs::PieceLaws::cut_first, crate::proofs::PieceLaws::cut_none))]
fn cut(text: &[u8], byte: u8) -> (&[u8], Option<&[u8]>)
    ensures { pieces byte text.now ≡ result.0.now ∷ pieces_left byte (option_copied result.1) }
{
    match first(text, byte) {
        Some(i) => (&text[..i], Some(&text[i + 1..])),
        None => (text, None),
    }
}

fn first(text: &[u8], byte: u8) -> Option<usize>
    ensures value { result ≡ position (λ b. b == byte) text.now }
    ensures within { IfSome result (λ i. i < length text.now) }
{
    text.iter().position(|b| *b == byte)
}

/// Whether the bytes are digits without a leading zero.
fn is_numeral(digits: &[u8]) -> bool
    ensures { result ≡ is_numeral digits.now }
{
    match digits {
        [] => false,
        [b'0', _, ..] => false,
        _ => all_digits(digits),
    }
}

fn all_digits(text: &[u8]) -> bool
    ensures { result ≡ list_all is_ascii_digit text.now }
{
    text.iter().all(|byte| byte.is_ascii_digit())
}

/// Returns the value of a decimal numeral without a leading zero, or the greatest `u64` for a
/// greater value. Returns `None` if the bytes aren't such a numeral.
#[tactic(auto, using(crate::proofs::NumberLaws::push), unfolding(crate::specs::Number::number_of))]
pub fn decimal(digits: &[u8]) -> Option<u64>
    ensures { result ≡ option_map saturation (number_of digits.now) }
{
    if !is_numeral(digits) {
        return None;
    }
    let mut number: u64 = 0;
    for digit in digits {
        number = number
            .saturating_mul(10)
            .saturating_add(u64::from(digit.saturating_sub(b'0')));
    }
    Some(number)
}

fn labelled_number(piece: &[u8], label: &str) -> Option<u64>
    ensures { result ≡ option_map saturation (labelled_number label.now piece.now) }
{
    decimal(piece.strip_prefix(label.as_bytes())?)
}

/// Returns the three numbers of a field, each after its label and with commas between.
#[tactic(auto, unfolding(crate::specs::Fields::numbers_of))]
pub(crate) fn numbers(
    field: &[u8],
    first: &str,
    second: &str,
    third: &str,
) -> Option<(u64, u64, u64)>
    ensures { result
        ≡ option_map saturation_each (numbers_of first.now second.now third.now field.now) }
{
    let mut pieces = Pieces::new(field, b',');
    let a = pieces.next()?;
    let b = pieces.next()?;
    let c = pieces.next()?;
    if pieces.next().is_some() {
        return None;
    }
    Some((
        labelled_number(a, first)?,
        labelled_number(b, second)?,
        labelled_number(c, third)?,
    ))
}
