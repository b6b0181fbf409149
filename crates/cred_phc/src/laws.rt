//! Laws of `==`, and laws of the definitions that contracts cite. A law about definitions is a
//! function that does nothing.

ghost use Rattle.std.specs.Prelude.{◌≡◌, ◌↔◌, ◌++◌, codes, false, replicate, true, IsTrue, List, ℕ};
ghost use Rattle.base64.specs.GeneralPurpose.{IsBytes};
ghost use Rattle.cred_phc.specs.Faults.{record_fault, setting_fault};
ghost use Rattle.cred_phc.specs.Ranges.{MAX_PASSWORD, MAX_SALT, MAX_TAG, MAX_TEXT, MIN_ARGON2_SALT, MIN_SCRYPT_SALT, MIN_TAG, is_current};
ghost use Rattle.cred_phc.specs.Reading.{read_record, read_setting};
ghost use Rattle.cred_phc.specs.Text.{IsRecordText, IsSettingText, bare_text, record_text, setting_text};
ghost use Rattle.cred_phc.specs.Vectors.{argon2d_record, argon2id_record, old_argon2i_record, scrypt_record};
ghost use Rattle.cred_phc.specs.Values.{IsRecord, IsSetting, RecordValue, SettingValue};

use crate::error::PhcError;
use crate::password::Password;
use crate::record::{Record, Tag};
use crate::setting::{Scheme, Setting, Variant};
use cred_argon::Version;

/// Compares records by `==`, which is equality of all their parts.
pub fn equal_records(a: &Record, b: &Record) -> bool
    ensures { IsTrue result ↔ (a.now ≡ b.now) }
{
    a == b
}

/// Compares schemes by `==`, which is equality of name, version and numbers.
pub fn equal_schemes(x: Scheme, y: Scheme) -> bool
    ensures { IsTrue result ↔ (x ≡ y) }
{
    x == y
}

/// Compares settings by `==`, which is equality of scheme and salt.
pub fn equal_settings(setting: &Setting, other: &Setting) -> bool
    ensures { IsTrue result ↔ (setting.now ≡ other.now) }
{
    setting == other
}

/// Compares tags by `==`, which is equality of their bytes.
pub fn equal_tags(tag: &Tag, other: &Tag) -> bool
    ensures { IsTrue result ↔ (tag.now ≡ other.now) }
{
    tag == other
}

/// Compares passwords by `==`, which is equality of their bytes.
pub fn equal_passwords(password: &Password, other: &Password) -> bool
    ensures { IsTrue result ↔ (password.now ≡ other.now) }
{
    password == other
}

/// Compares variants by `==`, which is equality.
pub fn equal_variants(variant: Variant, other: Variant) -> bool
    ensures { IsTrue result ↔ (variant ≡ other) }
{
    variant == other
}

/// Compares versions by `==`, which is equality.
pub fn equal_versions(version: Version, other: Version) -> bool
    ensures { IsTrue result ↔ (version ≡ other) }
{
    version == other
}

/// Reading a written text gives its value: a record, or a setting that isn't of version 0x10.
pub fn read_as_written()
    ensures records { (v : RecordValue) → IsRecord v → read_record (record_text v) ≡ Ok v }
    ensures settings { (v : SettingValue) → IsSetting v → is_current v.scheme ≡ true
        → read_setting (setting_text v) ≡ Ok v }
{}

/// A record of version 0x10 has two texts, with its version and without it, and they differ.
#[tactic(auto, using(crate::proofs::RecordLaws::old_texts_differ))]
pub fn two_old_texts()
    ensures texts { (v : RecordValue) → is_current v.setting.scheme ≡ false
        → IsRecordText (record_text v) v × IsRecordText (bare_text v) v }
    ensures differ { (v : RecordValue) → is_current v.setting.scheme ≡ false
        → record_text v ≡ bare_text v → ⊥ }
{}

/// Reading is the grammar: a value that a call reads has the text as one of its texts. Each text of
/// a value in its ranges is read as that value, and a text is refused exactly with its first fault.
/// The contracts of `parse_setting` and `parse_record` say that a value that they return is in its
/// ranges.
pub fn reading_is_the_grammar()
    ensures setting_found { (text : List ℕ) (v : SettingValue) → IsBytes text
        → read_setting text ≡ Ok v → IsSettingText text v }
    ensures setting_only { (text : List ℕ) (v : SettingValue) → IsSetting v
        → IsSettingText text v → read_setting text ≡ Ok v }
    ensures setting_fault { (text : List ℕ) (fault : PhcError)
        → (read_setting text ≡ Err fault) ↔ (setting_fault text ≡ Some fault) }
    ensures record_found { (text : List ℕ) (v : RecordValue) → IsBytes text
        → read_record text ≡ Ok v → IsRecordText text v }
    ensures record_only { (text : List ℕ) (v : RecordValue) → IsRecord v
        → IsRecordText text v → read_record text ≡ Ok v }
    ensures record_fault { (text : List ℕ) (fault : PhcError)
        → (read_record text ≡ Err fault) ↔ (record_fault text ≡ Some fault) }
{}

/// No text stands for two settings, or for two records.
pub fn one_value_each()
    ensures settings { (text : List ℕ) (v w : SettingValue) → IsSetting v → IsSetting w
        → IsSettingText text v → IsSettingText text w → v ≡ w }
    ensures records { (text : List ℕ) (v w : RecordValue) → IsRecord v → IsRecord w
        → IsRecordText text v → IsRecordText text w → v ≡ w }
{}

/// The written text of a setting of version 0x10 is refused.
#[tactic(auto, using(crate::proofs::RecordLaws::old_setting))]
pub fn old_not_read()
    ensures { (v : SettingValue) → IsSetting v → is_current v.scheme ≡ false
        → read_setting (setting_text v) ≡ Err PhcError.Version }
{}

/// States the texts that other programs write of these records, and of the setting of one.
pub fn known_texts()
    ensures argon2id { record_text argon2id_record
        ≡ codes
        "$argon2id$v=19$m=256,t=2,p=1$c29tZXNhbHQ$nf65EOgLrQMR/uIPnA4rEsF5h7TKyQwu9U1bMCHGi/4" }
    ensures argon2d { record_text argon2d_record
        ≡ codes "$argon2d$v=19$m=32,t=3,p=4$AgICAgICAgICAgICAgICAg$"
        ++ codes "USs5G28RYpdTcdMJGXNClPho4745hPPBoTpNufq+Sss" }
    ensures old_argon2i { bare_text old_argon2i_record
        ≡ codes "$argon2i$m=256,t=2,p=1$c29tZXNhbHQ$/U3YPXYsSb3q9XxHvc0MLxur+GP960kN9j7emXX8zwY" }
    ensures written_old_argon2i { record_text old_argon2i_record
        ≡ codes
        "$argon2i$v=16$m=256,t=2,p=1$c29tZXNhbHQ$/U3YPXYsSb3q9XxHvc0MLxur+GP960kN9j7emXX8zwY" }
    ensures scrypt { record_text scrypt_record
        ≡ codes "$scrypt$ln=10,r=8,p=16$TmFDbA$"
        ++ codes
        "/bq+HJ00cgB4VucZDQHp/nxq18vII3gw53N2Y0s3MWIurzDZLiKjiG/xCSedmDDaxyevuUqD7m2DYMvfoswGQA" }
    ensures setting { setting_text argon2id_record.setting
        ≡ codes "$argon2id$v=19$m=256,t=2,p=1$c29tZXNhbHQ" }
{}

/// States the faults of some damaged texts: the first from the left. A record of version 0x10 that
/// leaves its version out has no fault.
pub fn known_faults()
    ensures only_a_dollar { record_fault (codes "$") ≡ Some PhcError.Scheme }
    ensures no_version_number { record_fault (codes
        "$argon2id$v=$m=256,t=2,p=1$c29tZXNhbHQ$nf65EOgLrQM")
        ≡ Some PhcError.Version }
    ensures memory_below_no_salt { record_fault (codes "$argon2id$v=19$m=7,t=2,p=1")
        ≡ Some PhcError.Range }
    ensures thirty_digits { setting_fault (codes
        "$argon2id$v=19$m=100000000000000000000000000000,t=2,p=1$c29tZXNhbHQ")
        ≡ Some PhcError.Range }
    ensures leading_zero { record_fault (codes
        "$argon2id$v=19$m=0256,t=2,p=1$c29tZXNhbHQ$nf65EOgLrQM")
        ≡ Some PhcError.Params }
    ensures trailing_bits { record_fault (codes
        "$argon2id$v=19$m=256,t=2,p=1$c29tZXNhbHQ$nf65EOgLrQN")
        ≡ Some PhcError.Tag }
    ensures no_version_record { record_fault (codes
        "$argon2i$m=256,t=2,p=1$c29tZXNhbHQ$/U3YPXYsSb3q9XxHvc0MLxur+GP960kN9j7emXX8zwY")
        ≡ None }
    ensures no_version_setting { setting_fault (codes "$argon2i$m=256,t=2,p=1$c29tZXNhbHQ")
        ≡ Some PhcError.Version }
    ensures longest { record_fault (replicate 512 120) ≡ Some PhcError.Shape }
    ensures too_long { record_fault (replicate 513 120) ≡ Some PhcError.TooLong }
{}

/// States a law: this crate's constants, which bound the bytes of a text, a password and a salt in
/// the definitions, have these values.
pub fn ranges_are_these_numbers()
    ensures text { MAX_TEXT ≡ 512 }
    ensures password { MAX_PASSWORD ≡ 256 }
    ensures argon2_salt { MIN_ARGON2_SALT ≡ 8 }
    ensures scrypt_salt { MIN_SCRYPT_SALT ≡ 1 }
    ensures longest_salt { MAX_SALT ≡ 48 }
    ensures shortest_tag { MIN_TAG ≡ 4 }
    ensures longest_tag { MAX_TAG ≡ 64 }
{}
