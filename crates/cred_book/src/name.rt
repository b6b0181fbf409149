//! The names of accounts.

ghost use Rattle.std.specs.{Prelude.◌≡◌, Prelude.IsTrue, List.list_all};
ghost use Rattle.cred_book.specs.Names.{is_name, is_name_byte, made_name};

use crate::error::BookError;
use cred_phc::ShortBytes;
use std::cmp::Ordering;
use std::marker::Model;

/// The maximum length of a name in bytes.
const MAX_NAME: usize = 32;

/// The name of an account: 1 to 32 of the bytes `a-z`, `0-9`, `.`, `_` and `-`.
///
/// Names are ordered by their bytes.
#[derive(Clone, Copy, Debug, PartialEq, Eq)]
pub struct Name {
    bytes: ShortBytes<MAX_NAME>,
}

impl Model for Name {
    ghost use Rattle.std.specs.Prelude.{List, ℕ, IsTrue};
    ghost use Rattle.cred_book.specs.Names.{is_name};

    ghost Value = { List ℕ };

    ghost view = { λ n. n.bytes };

    ghost invariant = { λ n. IsTrue (is_name n.bytes) };

    ghost inverse = { λ v. record { bytes = v } };
}

impl Name {
    /// Returns these bytes as a name.
    ///
    /// Errors: `Name` if the bytes are not a name.
    pub fn new(bytes: &[u8]) -> Result<Name, BookError>
        ensures { result ≡ made_name bytes.now }
    {
        if !has_name_bytes(bytes) {
            return Err(BookError::Name);
        }
        match ShortBytes::new(bytes, 1) {
            Some(bytes) => Ok(Name { bytes }),
            None => Err(BookError::Name),
        }
    }

    /// Returns the bytes, 1 to 32 of them.
    pub fn bytes(&self) -> &[u8]
        ensures value { result.now ≡ self.now }
        ensures is_name { IsTrue (is_name self.now) }
    {
        self.bytes.as_slice()
    }
}

impl PartialOrd for Name {
    ghost use Rattle.std.specs.Prelude.{Some};
    ghost use Rattle.std.specs.Cmp.Lexicographic.{texts_po};
    ghost use Rattle.cred_book.specs.Names.{name_cmp};

    ghost partial_cmp = { λ a b. Some (name_cmp a b) };

    ghost laws = { texts_po };

    fn partial_cmp(&self, other: &Self) -> Option<Ordering> {
        Some(self.cmp(other))
    }
}

impl Ord for Name {
    ghost use Rattle.std.specs.Prelude.{refl};
    ghost use Rattle.std.proofs.Common.{sym};
    ghost use Rattle.std.proofs.lemmas.Map.Text.{is_eq-slice_cmp};
    ghost use Rattle.std.specs.Cmp.Lexicographic.{nat_list_cmp_total};
    ghost use Rattle.cred_book.specs.Names.{name_cmp};

    ghost cmp = { name_cmp };

    ghost total = { nat_list_cmp_total };

    ghost matches_partial_cmp = { λ _ _. refl };

    ghost matches_eq = { λ a b. sym (is_eq-slice_cmp a b) };

    fn cmp(&self, other: &Self) -> Ordering {
        self.bytes().cmp(&other.bytes())
    }
}

/// Whether a name may contain each of the bytes.
fn has_name_bytes(bytes: &[u8]) -> bool
    ensures { result ≡ list_all is_name_byte bytes.now }
{
    bytes.iter().all(|&b| is_name_byte(b))
}

fn is_name_byte(byte: u8) -> bool
    ensures { result ≡ is_name_byte byte }
{
    matches!(byte, b'a'..=b'z' | b'0'..=b'9' | b'.' | b'_' | b'-')
}
