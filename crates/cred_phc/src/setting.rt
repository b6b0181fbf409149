//! The setting of a password's hash: a scheme, which is the function with its numbers, and a salt.

ghost use Rattle.std.specs.{Prelude.◌≡◌, Prelude.IfOk, Prelude.IfSome, Prelude.IsTrue, Option.option_map};
ghost use Rattle.rand_core.specs.Stream.{fill_bytes};
ghost use Rattle.cred_phc.specs.{Base64.bytes_of, Names.variant_name, Names.version_text, Reading.argon_of, Reading.scrypt_of};
ghost use Rattle.cred_phc.specs.Ranges.{MAX_SALT, argon_fits, is_current, salt_low, scheme_fits, scrypt_fits};
ghost use Rattle.cred_phc.specs.Values.{IsSetting, made_setting, setting_of};

use crate::error::PhcError;
use crate::short_bytes::ShortBytes;
use cred_argon::{Kind, MIN_TAG, Params, Version};
use cred_scrypt::{MIN_LEN, ScryptParams};
use rand_core::Rng;
use std::marker::Model;

/// The length of the longest salt in bytes, which gives settings a fixed size.
pub(crate) const MAX_SALT: usize = 48;

/// A scheme with its numbers, all in their ranges, and a salt: 8 to 48 bytes for Argon2, 1 to 48
/// for scrypt.
#[derive(Clone, Copy, Debug, PartialEq, Eq)]
pub struct Setting {
    scheme: Scheme,
    salt: ShortBytes<MAX_SALT>,
}

impl Model for Setting {
    ghost use Rattle.cred_phc.specs.Values.{SettingValue, IsSetting};

    ghost Value = { SettingValue };

    ghost view = { λ s. record { scheme = s.scheme; salt = s.salt } };

    ghost invariant = { λ s. IsSetting (record { scheme = s.scheme; salt = s.salt }) };

    ghost inverse = { λ v. record { scheme = v.scheme; salt = v.salt } };
}

impl Setting {
    /// Returns the setting of this scheme with this salt.
    ///
    /// Errors: `Range` if one of the scheme's numbers is outside its range; otherwise `Salt` if the
    /// salt's length is outside its range.
    pub fn new(scheme: Scheme, salt: &[u8]) -> Result<Setting, PhcError>
        ensures made { result ≡ made_setting scheme salt.now }
        ensures ranges { IfOk result IsSetting }
    {
        if !scheme.fits() {
            return Err(PhcError::Range);
        }
        let Some(salt) = ShortBytes::new(salt, scheme.least_salt()) else {
            return Err(PhcError::Salt);
        };
        Ok(Setting { scheme, salt })
    }

    /// Returns the setting of this scheme, whose numbers are in their ranges, with the salt that
    /// these letters encode.
    pub(crate) fn from_base64(scheme: Scheme, letters: &[u8]) -> Option<Setting>
        requires { IsTrue (scheme_fits scheme) }
        ensures { result
            ≡ option_map (setting_of scheme) (bytes_of (salt_low scheme) MAX_SALT letters.now) }
    {
        let salt = ShortBytes::from_base64(letters, scheme.least_salt())?;
        Some(Setting { scheme, salt })
    }

    /// Returns the scheme with its numbers.
    pub fn scheme(&self) -> Scheme
        ensures value { result ≡ self.now.scheme }
        ensures ranges { IsSetting self.now }
    {
        self.scheme
    }

    /// Returns the bytes of the salt, at most 48.
    pub fn salt(&self) -> &[u8]
        ensures value { result.now ≡ self.now.salt }
        ensures ranges { IsSetting self.now }
    {
        self.salt.as_slice()
    }

    /// Whether new records may have this setting: its version isn't 0x10.
    pub fn is_current(&self) -> bool
        ensures { result ≡ is_current self.now.scheme }
    {
        self.scheme.is_current()
    }
}

/// Returns the next 16 bytes of the source, as many as RFC 9106, section 3.1 recommends for a salt.
pub fn draw_salt<R: Rng>(source: &mut R) -> [u8; 16]
    ensures { (result, R.stream source.new) ≡ fill_bytes 16 (R.stream source.old) }
{
    let mut salt = [0; 16];
    source.fill_bytes(&mut salt);
    salt
}

/// The variants of Argon2 (RFC 9106, section 1).
#[derive(Clone, Copy, Debug, PartialEq, Eq)]
pub enum Variant {
    D,
    I,
    Id,
}

/// The fewest bytes of a salt of Argon2 (RFC 9106, section 3.1).
pub(crate) const MIN_ARGON2_SALT: usize = 8;

/// The fewest bytes of a salt of scrypt, so that each record has a salt.
pub(crate) const MIN_SCRYPT_SALT: usize = 1;

/// A function of passwords with its cost.
///
/// - Argon2 (RFC 9106, section 3.1): memory `m` in KiB, from 8 for each lane to 2097152; `t` passes
///   and `p` lanes, at least 1 of each.
/// - scrypt (RFC 7914, section 2): `ln`, the logarithm to the base 2 of the cost, at least 1 and
///   below 16 `r`; the block size `r` and the parallelization `p`, each at least 1. `r` times the
///   cost is at most 2^24, so that `ln` is at most 23 and memory at most 2 GiB.
///
/// A `Scheme` may be outside these ranges, but the scheme of a `Setting` isn't.
#[derive(Clone, Copy, Debug, PartialEq, Eq)]
pub enum Scheme {
    Argon2 {
        version: Version,
        variant: Variant,
        m: u32,
        t: u32,
        p: u8,
    },
    Scrypt {
        ln: u8,
        r: u8,
        p: u8,
    },
}

/// The names that a text may begin with.
#[derive(Clone, Copy)]
pub(crate) enum SchemeName {
    Argon2(Variant),
    Scrypt,
}

/// The name of scrypt in a text.
pub(crate) const SCRYPT: &str = "scrypt";

/// The label of the version in a text.
pub(crate) const VERSION_LABEL: &str = "v=";

/// The label of Argon2's memory in a text.
pub(crate) const MEMORY_LABEL: &str = "m=";

/// The label of Argon2's passes.
pub(crate) const PASSES_LABEL: &str = "t=";

/// The label of the logarithm of scrypt's cost.
pub(crate) const COST_LABEL: &str = "ln=";

/// The label of scrypt's block size.
pub(crate) const BLOCK_SIZE_LABEL: &str = "r=";

/// The label of Argon2's lanes, and of scrypt's parallelization.
pub(crate) const PARALLELISM_LABEL: &str = "p=";

/// Returns the field that names the version in a text.
pub(crate) fn version_text(version: Version) -> &'static str
    ensures { result.now ≡ version_text version }
{
    match version {
        Version::V10 => "v=16",
        Version::V13 => "v=19",
    }
}

impl Variant {
    /// Returns the name of Argon2 with this variant in a text.
    pub(crate) fn name(self) -> &'static str
        ensures { result.now ≡ variant_name self }
    {
        match self {
            Variant::D => "argon2d",
            Variant::I => "argon2i",
            Variant::Id => "argon2id",
        }
    }
}

impl Scheme {
    /// Returns Argon2 with these numbers, if they are in their ranges.
    pub(crate) fn argon(
        version: Version,
        variant: Variant,
        m: u64,
        t: u64,
        p: u64,
    ) -> Option<Scheme>
        ensures value { result ≡ argon_of version variant (m, t, p) }
        ensures ranges { IfSome result (λ scheme. IsTrue (scheme_fits scheme)) }
    {
        let (m, t, p) = (
            u32::try_from(m).ok()?,
            u32::try_from(t).ok()?,
            u8::try_from(p).ok()?,
        );
        if !argon_fits(m, t, p) {
            return None;
        }
        Some(Scheme::Argon2 {
            version,
            variant,
            m,
            t,
            p,
        })
    }

    /// Returns scrypt with these numbers, if they are in their ranges.
    pub(crate) fn scrypt(ln: u64, r: u64, p: u64) -> Option<Scheme>
        ensures value { result ≡ scrypt_of (ln, r, p) }
        ensures ranges { IfSome result (λ scheme. IsTrue (scheme_fits scheme)) }
    {
        let (ln, r, p) = (
            u8::try_from(ln).ok()?,
            u8::try_from(r).ok()?,
            u8::try_from(p).ok()?,
        );
        if !scrypt_fits(ln, r, p) {
            return None;
        }
        Some(Scheme::Scrypt { ln, r, p })
    }

    /// Whether the numbers are in their ranges.
    pub(crate) fn fits(&self) -> bool
        ensures { result ≡ scheme_fits self.now }
    {
        match *self {
            Scheme::Argon2 { m, t, p, .. } => argon_fits(m, t, p),
            Scheme::Scrypt { ln, r, p } => scrypt_fits(ln, r, p),
        }
    }

    /// Returns the least number of bytes of a salt.
    pub(crate) fn least_salt(&self) -> usize
        ensures { result ≡ salt_low self.now }
    {
        match self {
            Scheme::Argon2 { .. } => MIN_ARGON2_SALT,
            Scheme::Scrypt { .. } => MIN_SCRYPT_SALT,
        }
    }

    /// Whether new records may have this scheme: its version isn't 0x10.
    pub(crate) fn is_current(&self) -> bool
        ensures { result ≡ is_current self.now }
    {
        match self {
            Scheme::Argon2 { version, .. } => *version == Version::V13,
            Scheme::Scrypt { .. } => true,
        }
    }
}

/// Whether Argon2 accepts these numbers, as [`Params`] says.
fn argon_fits(m: u32, t: u32, p: u8) -> bool
    ensures { result ≡ argon_fits m t p }
{
    Params::new(Kind::Id, m, t, u32::from(p), MIN_TAG).is_ok()
}

/// Whether scrypt accepts these numbers, as [`ScryptParams`] says.
fn scrypt_fits(ln: u8, r: u8, p: u8) -> bool
    ensures { result ≡ scrypt_fits ln r p }
{
    ScryptParams::new(ln, r, p, MIN_LEN).is_ok()
}
