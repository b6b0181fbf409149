//! The record of a password: a setting, and the tag of the password under it.

ghost use Rattle.std.specs.Prelude.{◌≡◌, IfOk, if◌then◌else◌};
ghost use Rattle.cred_phc.specs.{Base64.bytes_of, Ranges.MIN_TAG, Ranges.MAX_TAG};
ghost use Rattle.cred_phc.specs.Values.{IsRecord, IsTag, made_record, record_of, tag_fits};

use crate::error::PhcError;
use crate::setting::{MAX_SALT, Setting};
use crate::short_bytes::ShortBytes;
use std::marker::Model;

/// A setting, and the tag of a password under it.
#[derive(Clone, Copy, Debug, PartialEq, Eq)]
pub struct Record {
    setting: Setting,
    tag: Tag,
}

impl Model for Record {
    ghost use Rattle.cred_phc.specs.Values.{RecordValue, IsRecord};

    ghost Value = { RecordValue };

    ghost view = { λ r. record { setting = r.setting; tag = r.tag } };

    ghost invariant = { λ r. IsRecord (record { setting = r.setting; tag = r.tag }) };

    ghost inverse = { λ v. record { setting = v.setting; tag = v.tag } };
}

impl Record {
    /// Returns the record of this setting with a tag of 4 to 64 bytes.
    ///
    /// Errors: `Tag` if the tag has another length.
    pub fn new(setting: Setting, tag: &[u8]) -> Result<Record, PhcError>
        ensures made { result ≡ made_record setting tag.now }
        ensures ranges { IfOk result IsRecord }
    {
        let Some(tag) = Tag::new(tag) else {
            return Err(PhcError::Tag);
        };
        Ok(Record::with_tag(setting, tag))
    }

    /// Returns the record of this setting with this tag.
    pub fn with_tag(setting: Setting, tag: Tag) -> Record
        ensures made { result ≡ record_of setting tag }
        ensures ranges { IsRecord result }
    {
        // A setting and a tag are in their ranges, as their accessors say.
        prove!(setting.salt().len() <= MAX_SALT);
        prove!(tag.bytes().len() <= MAX_TAG);
        Record { setting, tag }
    }

    /// Returns the setting under which the password was hashed.
    pub fn setting(&self) -> Setting
        ensures value { result ≡ self.now.setting }
        ensures ranges { IsRecord self.now }
    {
        self.setting
    }

    /// Returns the tag of the password.
    pub fn tag(&self) -> Tag
        ensures value { result ≡ self.now.tag }
        ensures ranges { IsRecord self.now }
    {
        self.tag
    }
}

/// The length of the shortest tag in bytes: of Argon2 by RFC 9106, section 3.1, and here of scrypt
/// too.
const MIN_TAG: usize = cred_argon::MIN_TAG as usize;

/// The length of the longest tag in bytes, which gives records a fixed size.
pub(crate) const MAX_TAG: usize = cred_argon::MAX_TAG as usize;

/// The output of a password hashing function: 4 to 64 bytes.
#[derive(Clone, Copy, Debug, PartialEq, Eq)]
pub struct Tag {
    bytes: ShortBytes<MAX_TAG>,
}

impl Model for Tag {
    ghost use Rattle.std.specs.Prelude.{List, ℕ};
    ghost use Rattle.cred_phc.specs.Values.{IsTag};

    ghost Value = { List ℕ };

    ghost view = { λ t. t.bytes };

    ghost invariant = { λ t. IsTag t.bytes };

    ghost inverse = { λ v. record { bytes = v } };
}

impl Tag {
    /// Returns a tag of these bytes, if there are 4 to 64 of them.
    pub fn new(bytes: &[u8]) -> Option<Tag>
        ensures { result ≡ (if tag_fits bytes.now then Some bytes.now else None) }
    {
        let bytes = ShortBytes::new(bytes, MIN_TAG)?;
        Some(Tag { bytes })
    }

    /// Returns the tag of the 4 to 64 bytes that these letters encode.
    pub(crate) fn from_base64(letters: &[u8]) -> Option<Tag>
        ensures { result ≡ bytes_of MIN_TAG MAX_TAG letters.now }
    {
        let bytes = ShortBytes::from_base64(letters, MIN_TAG)?;
        Some(Tag { bytes })
    }

    /// Returns the 4 to 64 bytes.
    pub fn bytes(&self) -> &[u8]
        ensures value { result.now ≡ self.now }
        ensures ranges { IsTag self.now }
    {
        self.bytes.as_slice()
    }
}
