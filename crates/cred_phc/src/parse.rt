//! From text to settings and records.

ghost use Rattle.std.specs.Prelude.{◌≡◌, IfOk, IfErr, OnOk, IsTrue};
ghost use Rattle.cred_phc.specs.{Faults.record_fault, Faults.setting_fault, Fields.name_of, Ranges.scheme_fits};
ghost use Rattle.cred_phc.specs.Reading.{Gives, argon_at, end, fields_of, may_be_old, next, read_record, read_setting, scheme_at, scrypt_at, setting_at, tag_at, version_at};
ghost use Rattle.cred_phc.specs.{Text.IsRecordText, Text.IsSettingText, Values.IsRecord, Values.IsSetting, Values.RecordValue, Values.SettingValue};

use crate::error::PhcError;
use crate::pieces::{Pieces, numbers};
use crate::record::{Record, Tag};
use crate::setting::{
    BLOCK_SIZE_LABEL, COST_LABEL, MEMORY_LABEL, PARALLELISM_LABEL, PASSES_LABEL, SCRYPT, Scheme,
    SchemeName, Setting, VERSION_LABEL, Variant, version_text,
};
use cred_argon::Version;

/// The length in bytes over which the readers refuse a text unread. No text of a value has even
/// half as many bytes.
const MAX_TEXT: usize = 512;

/// The kind of value that a text is read as.
#[derive(Clone, Copy)]
enum Form {
    Setting,
    Record,
}

impl Form {
    /// Whether the version may be 0x10, or be left out: records alone may be old.
    fn may_be_old(self) -> bool
        ensures { result ≡ may_be_old self }
    {
        match self {
            Form::Setting => false,
            Form::Record => true,
        }
    }
}

/// Returns the setting of a text, such as `$argon2id$v=19$m=256,t=2,p=1$c29tZXNhbHQ`. The function
/// refuses a text of version 0x10: new records are of version 0x13.
///
/// Errors: `TooLong` if the text has over 512 bytes; otherwise, by the first field from the left
/// that is wrong or missing, `Shape`, `Scheme`, `Version`, `Params`, `Range` or `Salt`.
pub fn parse_setting(text: &[u8]) -> Result<Setting, PhcError>
    ensures found { IfOk result (λ v. IsSetting v × IsSettingText text.now v) }
    ensures only { (v : SettingValue) → IsSetting v → IsSettingText text.now v → result ≡ Ok v }
    ensures fault { IfErr result (λ fault. setting_fault text.now ≡ Some fault) }
    ensures none { OnOk result (setting_fault text.now ≡ None) }
    ensures exact { result ≡ read_setting text.now }
{
    whole_setting(text)
}

/// Returns the record that a text stands for: a setting's text, then `$` and the tag in base64. A
/// record of version 0x10 has `$v=16` or no version.
///
/// Errors: `TooLong` if the text has over 512 bytes; otherwise, by the first field from the left
/// that is wrong or missing, `Shape`, `Scheme`, `Version`, `Params`, `Range`, `Salt` or `Tag`.
pub fn parse_record(text: &[u8]) -> Result<Record, PhcError>
    ensures found { IfOk result (λ v. IsRecord v × IsRecordText text.now v) }
    ensures only { (v : RecordValue) → IsRecord v → IsRecordText text.now v → result ≡ Ok v }
    ensures fault { IfErr result (λ fault. record_fault text.now ≡ Some fault) }
    ensures none { OnOk result (record_fault text.now ≡ None) }
    ensures exact { result ≡ read_record text.now }
{
    whole_record(text)
}

/// Reads settings, as `parse_setting` describes.
#[tactic(auto, unfolding(crate::specs::Reading::read_setting))]
fn whole_setting(text: &[u8]) -> Result<Setting, PhcError>
    ensures exact { result ≡ read_setting text.now }
    ensures ranges { IfOk result IsSetting }
{
    let mut fields = fields(text)?;
    let setting = setting(&mut fields, Form::Setting)?;
    last_field(&mut fields)?;
    Ok(setting)
}

/// Reads records, as `parse_record` describes.
#[tactic(auto, unfolding(crate::specs::Reading::read_record))]
fn whole_record(text: &[u8]) -> Result<Record, PhcError>
    ensures exact { result ≡ read_record text.now }
    ensures ranges { IfOk result IsRecord }
{
    let mut fields = fields(text)?;
    let setting = setting(&mut fields, Form::Record)?;
    let tag = tag(&mut fields)?;
    last_field(&mut fields)?;
    Ok(Record::with_tag(setting, tag))
}

/// Returns the fields of a text, with `$` between them.
#[tactic(auto, unfolding(crate::specs::Reading::fields_of))]
fn fields(text: &[u8]) -> Result<Pieces<'_>, PhcError>
    ensures { Gives (λ v. v) result (fields_of text.now) }
{
    if text.len() > MAX_TEXT {
        return Err(PhcError::TooLong);
    }
    Ok(Pieces::new(text, b'$'))
}

fn next_field<'a>(fields: &mut Pieces<'a>) -> Result<&'a [u8], PhcError>
    ensures { Gives (λ field. (field.now, fields.new)) result (next fields.old) }
{
    fields.next().ok_or(PhcError::Shape)
}

fn last_field(fields: &mut Pieces<'_>) -> Result<(), PhcError>
    ensures { Gives (λ v. v) result (end fields.old) }
{
    match fields.next() {
        Some(_) => Err(PhcError::Shape),
        None => Ok(()),
    }
}

fn name(field: &[u8]) -> Option<SchemeName>
    ensures { result ≡ name_of field.now }
{
    if field == Variant::D.name().as_bytes() {
        Some(SchemeName::Argon2(Variant::D))
    } else if field == Variant::I.name().as_bytes() {
        Some(SchemeName::Argon2(Variant::I))
    } else if field == Variant::Id.name().as_bytes() {
        Some(SchemeName::Argon2(Variant::Id))
    } else if field == SCRYPT.as_bytes() {
        Some(SchemeName::Scrypt)
    } else {
        None
    }
}

/// Returns the version of Argon2.
#[tactic(auto, unfolding(crate::specs::Reading::version_at))]
fn version(fields: &mut Pieces<'_>, form: Form) -> Result<Version, PhcError>
    ensures { Gives (λ version. (version, fields.new)) result
        (version_at (may_be_old form) fields.old) }
{
    let field = fields.peek().ok_or(PhcError::Shape)?;
    if field == version_text(Version::V13).as_bytes() {
        let _ = fields.next();
        return Ok(Version::V13);
    }
    if !form.may_be_old() {
        return Err(PhcError::Version);
    }
    if field == version_text(Version::V10).as_bytes() {
        let _ = fields.next();
        return Ok(Version::V10);
    }
    if field.starts_with(VERSION_LABEL.as_bytes()) {
        return Err(PhcError::Version);
    }
    Ok(Version::V10)
}

#[tactic(auto, unfolding(crate::specs::Reading::argon_at, crate::specs::Reading::numbers_at))]
fn argon(fields: &mut Pieces<'_>, form: Form, variant: Variant) -> Result<Scheme, PhcError>
    ensures read { Gives (λ scheme. (scheme, fields.new)) result
        (argon_at (may_be_old form) variant fields.old) }
    ensures ranges { IfOk result (λ scheme. IsTrue (scheme_fits scheme)) }
{
    let version = version(fields, form)?;
    let field = next_field(fields)?;
    let written = numbers(field, MEMORY_LABEL, PASSES_LABEL, PARALLELISM_LABEL);
    let (m, t, p) = written.ok_or(PhcError::Params)?;
    Scheme::argon(version, variant, m, t, p).ok_or(PhcError::Range)
}

#[tactic(auto, unfolding(crate::specs::Reading::scrypt_at, crate::specs::Reading::numbers_at))]
fn scrypt(fields: &mut Pieces<'_>) -> Result<Scheme, PhcError>
    ensures read { Gives (λ scheme. (scheme, fields.new)) result (scrypt_at fields.old) }
    ensures ranges { IfOk result (λ scheme. IsTrue (scheme_fits scheme)) }
{
    let field = next_field(fields)?;
    let written = numbers(field, COST_LABEL, BLOCK_SIZE_LABEL, PARALLELISM_LABEL);
    let (ln, r, p) = written.ok_or(PhcError::Params)?;
    Scheme::scrypt(ln, r, p).ok_or(PhcError::Range)
}

#[tactic(auto, unfolding(crate::specs::Reading::scheme_at))]
fn scheme(fields: &mut Pieces<'_>, form: Form) -> Result<Scheme, PhcError>
    ensures read { Gives (λ scheme. (scheme, fields.new)) result
        (scheme_at (may_be_old form) fields.old) }
    ensures ranges { IfOk result (λ scheme. IsTrue (scheme_fits scheme)) }
{
    let front = next_field(fields)?;
    if !front.is_empty() {
        return Err(PhcError::Shape);
    }
    let field = next_field(fields)?;
    match name(field).ok_or(PhcError::Scheme)? {
        SchemeName::Argon2(variant) => argon(fields, form, variant),
        SchemeName::Scrypt => scrypt(fields),
    }
}

#[tactic(auto, unfolding(crate::specs::Reading::setting_at))]
fn setting(fields: &mut Pieces<'_>, form: Form) -> Result<Setting, PhcError>
    ensures { Gives (λ setting. (setting, fields.new)) result
        (setting_at (may_be_old form) fields.old) }
{
    let scheme = scheme(fields, form)?;
    let field = next_field(fields)?;
    Setting::from_base64(scheme, field).ok_or(PhcError::Salt)
}

#[tactic(auto, unfolding(crate::specs::Reading::tag_at))]
fn tag(fields: &mut Pieces<'_>) -> Result<Tag, PhcError>
    ensures { Gives (λ tag. (tag, fields.new)) result (tag_at fields.old) }
{
    let field = next_field(fields)?;
    Tag::from_base64(field).ok_or(PhcError::Tag)
}
