//! The password that is hashed.

ghost use Rattle.std.specs.Prelude.{◌≡◌};
ghost use Rattle.cred_phc.specs.{Base64.bytes_of, Ranges.MAX_PASSWORD, Values.IsPassword, Values.made_password};

use crate::short_bytes::ShortBytes;
use std::fmt;
use std::marker::Model;

/// The length of the longest password in bytes, which gives passwords a fixed size.
pub const MAX_PASSWORD: usize = 256;

/// At most 256 bytes of any value. `{:?}` shows none of them.
#[derive(Clone, Copy, PartialEq, Eq)]
pub struct Password {
    bytes: ShortBytes<MAX_PASSWORD>,
}

impl Model for Password {
    ghost use Rattle.std.specs.Prelude.{List, ℕ};
    ghost use Rattle.cred_phc.specs.Values.{IsPassword};

    ghost Value = { List ℕ };

    ghost view = { λ p. p.bytes };

    ghost invariant = { λ p. IsPassword p.bytes };

    ghost inverse = { λ v. record { bytes = v } };
}

impl fmt::Debug for Password {
    ghost use Rattle.std.specs.Prelude.{codes, Some};

    /// The same text for every password, so that none gets into a log.
    ghost debug_output = { λ _. Some (codes "Password(..)") };

    fn fmt<W: fmt::Write>(&self, f: &mut fmt::Formatter<W>) -> fmt::Result {
        f.write_str("Password(..)")
    }
}

impl Password {
    /// Returns a password of these bytes, if there are at most 256 of them.
    pub fn new(bytes: &[u8]) -> Option<Password>
        ensures { result ≡ made_password bytes.now }
    {
        let bytes = ShortBytes::new(bytes, 0)?;
        Some(Password { bytes })
    }

    /// Returns the password of the 1 to 256 bytes that these letters encode, in base64 with no
    /// padding (RFC 4648, section 4).
    pub fn from_base64(letters: &[u8]) -> Option<Password>
        ensures { result ≡ bytes_of 1 MAX_PASSWORD letters.now }
    {
        let bytes = ShortBytes::from_base64(letters, 1)?;
        Some(Password { bytes })
    }

    /// Returns the bytes, at most 256.
    pub fn bytes(&self) -> &[u8]
        ensures value { result.now ≡ self.now }
        ensures ranges { IsPassword self.now }
    {
        self.bytes.as_slice()
    }
}
