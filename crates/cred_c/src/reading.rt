//! The values that a program in C keeps of a text of Argon2 between the calls for its lanes, so
//! that the calls read each text once.
ghost use Rattle.std.specs.Prelude.{◌≡◌, ◌≤◌, IfSome, IsTrue, Some, length, take};
ghost use Rattle.cred_c.specs.{Lanes.AreNumbers, Lanes.record_parameters, Readings.IsReadRecord, Readings.IsReadSetting, Readings.tag_numbers};
ghost use Rattle.cred_phc.specs.{Ranges.scheme_fits, Tags.argon_parameters, Values.IsRecord, Values.IsSetting, Values.RecordValue, Values.SettingValue};
ghost use Rattle.cred_phc.specs.declared.setting.Scheme.{Scheme};

use crate::numbers::{DONE, variant_of, version_of};
use crate::part_fault::PartFault;
use crate::tag_numbers::{TagNumbers, numbers_of};
use cred_phc::{Record, Scheme, Setting, Tag, argon2_params};

/// The maximum length of a salt in bytes.
const MOST_SALT: usize = 48;

/// The maximum length of a tag in bytes.
const MOST_TAG: usize = 64;

/// A setting of Argon2, and the length of the tag to make under it. Zeros follow the salt.
#[repr(C)]
#[derive(Clone, Copy)]
pub struct SettingReading {
    pub numbers: TagNumbers,
    /// The length of the salt in bytes.
    pub salt_len: u32,
    pub salt: [u8; MOST_SALT],
}

/// A record of Argon2. Zeros follow the tag.
#[repr(C)]
#[derive(Clone, Copy)]
pub struct RecordReading {
    pub setting: SettingReading,
    pub tag: [u8; MOST_TAG],
}

impl SettingReading {
    /// Keeps a setting of Argon2. Answers 0, or 2 for a setting of scrypt.
    pub(crate) fn keep(&mut self, setting: &Setting, tag_len: u8) -> u8
        requires low { 4 ≤ tag_len }
        requires high { tag_len ≤ 64 }
        ensures numbers { AreNumbers (argon_parameters setting.now.scheme tag_len) result
            self.new.numbers }
        ensures read { result ≡ 0 → IsReadSetting self.new setting.now }
        ensures len { result ≡ 0 → self.new.numbers.tag_len ≡ tag_len }
        ensures kept { (result ≡ 0 → ⊥) → self.new ≡ self.old }
    {
        match argon2_params(setting, tag_len) {
            Some(params) => {
                let salt = setting.salt();
                *self = SettingReading {
                    numbers: numbers_of(&params),
                    salt_len: salt.len() as u32,
                    salt: padded(salt),
                };
                DONE
            }
            None => PartFault::Scrypt.number(),
        }
    }

    /// Returns the setting that was read, if one was.
    pub(crate) fn setting(&self) -> Option<Setting>
        ensures found { (s : SettingValue) → IsSetting s → IsReadSetting self.now s
            → result ≡ Some s }
        ensures only { IfSome result (λ s. IsSetting s × IsReadSetting self.now s) }
    {
        let tag_len = self.numbers.tag_len;
        let salt_len = self.salt_len as usize;
        if tag_len < 4 || tag_len > 64 || salt_len > MOST_SALT {
            return None;
        }
        let scheme = scheme_of(&self.numbers)?;
        Setting::new(scheme, &self.salt[..salt_len]).ok()
    }
}

impl RecordReading {
    /// Keeps a record of Argon2. Answers 0, or 2 for a record of scrypt.
    pub(crate) fn keep(&mut self, stored: &Record) -> u8
        ensures numbers { AreNumbers (record_parameters stored.now) result
            self.new.setting.numbers }
        ensures read { result ≡ 0 → IsReadRecord self.new stored.now }
        ensures kept { (result ≡ 0 → ⊥) → self.new ≡ self.old }
    {
        let tag = stored.tag();
        let bytes = tag.bytes();
        let answer = self.setting.keep(&stored.setting(), bytes.len() as u8);
        if answer == DONE {
            self.tag = padded(bytes);
        }
        answer
    }

    /// Returns the record that was read, if one was.
    pub(crate) fn record(&self) -> Option<Record>
        ensures found { (v : RecordValue) → IsRecord v → IsReadRecord self.now v
            → result ≡ Some v }
        ensures only { IfSome result (λ v. IsRecord v × IsReadRecord self.now v) }
    {
        let setting = self.setting.setting()?;
        let tag = Tag::new(&self.tag[..self.setting.numbers.tag_len as usize])?;
        Some(Record::with_tag(setting, tag))
    }
}

/// Returns these bytes with zeros after them.
fn padded<const LEN: usize>(bytes: &[u8]) -> [u8; LEN]
    requires { length bytes.now ≤ LEN }
    ensures { take (length bytes.now) result ≡ bytes.now }
{
    let mut cells = [0; LEN];
    cells[..bytes.len()].copy_from_slice(bytes);
    cells
}

/// Returns the scheme of Argon2 with these numbers.
fn scheme_of(numbers: &TagNumbers) -> Option<Scheme>
    ensures found { (scheme : Scheme) → IsTrue (scheme_fits scheme)
        → tag_numbers scheme numbers.now.tag_len ≡ Some numbers.now → result ≡ Some scheme }
    ensures only { IfSome result (λ scheme. tag_numbers scheme numbers.now.tag_len
        ≡ Some numbers.now) }
{
    let variant = variant_of(numbers.kind)?;
    let version = version_of(numbers.version)?;
    let lanes = u8::try_from(numbers.lanes).ok()?;
    Some(Scheme::Argon2 {
        version,
        variant,
        m: numbers.memory,
        t: numbers.passes,
        p: lanes,
    })
}
