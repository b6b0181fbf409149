//! From settings and records to text.

ghost use Rattle.std.specs.Prelude.{◌≡◌, ◌≤◌, ◌∷◌, ◌++◌, length, IfErr, IfOk, OnOk};
ghost use Rattle.std.specs.String.{string_bytes};
ghost use Rattle.cred_phc.specs.{Base64.base64, Text.label, Text.numbers_text, Text.record_text, Text.scheme_text, Text.setting_text};
ghost use Rattle.cred_phc.specs.Values.{IsRecord, IsSetting};

use crate::error::PhcError;
use crate::record::{MAX_TAG, Record};
use crate::setting::{
    BLOCK_SIZE_LABEL, COST_LABEL, MEMORY_LABEL, PARALLELISM_LABEL, PASSES_LABEL, SCRYPT, Scheme,
    Setting, version_text,
};
use cred_base64::{encode, encoded_len};
use itoa::Buffer;
use std::alloc::{AllocError, Global};

/// The length of the longest text of a setting: `$argon2id$v=19$m=2097152,t=4294967295,p=255$` and
/// the 64 letters of a salt.
const LONGEST_SETTING: usize = 108;

/// The length of the longest text of a record: that of a setting, `$` and the letters of a tag.
const LONGEST_RECORD: usize = 195;

/// The number of letters of the longest tag.
const LONGEST_LETTERS: usize = 86;

/// Returns the text of a setting, such as `$scrypt$ln=10,r=8,p=16$TmFDbA`. `parse_setting` refuses
/// the text of a setting of version 0x10.
///
/// Errors: `Memory` if memory for the text runs out.
pub fn write_setting(alloc: Global, setting: &Setting) -> Result<Vec<u8>, PhcError>
    ensures text { IfOk result (λ text. text.items ≡ setting_text setting.now) }
    ensures memory { IfErr result (λ fault. fault ≡ PhcError.Memory) }
    ensures ranges { OnOk result (IsSetting setting.now) }
{
    Ok(setting_in(alloc, LONGEST_SETTING, setting)?)
}

/// Returns the text of a record, which `parse_record` reads as this record: the setting's text,
/// then `$` and the tag in base64. The text of a record of version 0x10 has `$v=16`.
///
/// Errors: `Memory` if memory for the text runs out.
#[tactic(auto, using(crate::proofs::WritingLaws::record_written))]
pub fn write_record(alloc: Global, stored: &Record) -> Result<Vec<u8>, PhcError>
    ensures text { IfOk result (λ text. text.items ≡ record_text stored.now) }
    ensures memory { IfErr result (λ fault. fault ≡ PhcError.Memory) }
    ensures ranges { OnOk result (IsRecord stored.now) }
{
    let mut text = setting_in(alloc, LONGEST_RECORD, &stored.setting())?;
    push_bytes(&mut text, stored.tag().bytes())?;
    Ok(text)
}

/// Returns the text of a setting, with room for `capacity` bytes.
fn setting_in(alloc: Global, capacity: usize, setting: &Setting) -> Result<Vec<u8>, AllocError>
    ensures text { IfOk result (λ text. text.items ≡ setting_text setting.now) }
    ensures ranges { OnOk result (IsSetting setting.now) }
{
    let mut scheme = String::with_capacity(alloc, capacity)?;
    push_scheme(&mut scheme, setting.scheme())?;
    let mut text = scheme.into_bytes();
    push_bytes(&mut text, setting.salt())?;
    Ok(text)
}

#[tactic(auto, unfolding(crate::specs::Text::scheme_text))]
fn push_scheme(text: &mut String, scheme: Scheme) -> Result<(), AllocError>
    ensures { OnOk result (string_bytes text.new ≡ string_bytes text.old ++ scheme_text scheme) }
{
    match scheme {
        Scheme::Argon2 {
            version,
            variant,
            m,
            t,
            p,
        } => {
            push_field(text, variant.name())?;
            push_field(text, version_text(version))?;
            push_numbers(
                text,
                Labelled::new(MEMORY_LABEL, m),
                Labelled::new(PASSES_LABEL, t),
                Labelled::new(PARALLELISM_LABEL, u32::from(p)),
            )
        }
        Scheme::Scrypt { ln, r, p } => {
            push_field(text, SCRYPT)?;
            push_numbers(
                text,
                Labelled::new(COST_LABEL, u32::from(ln)),
                Labelled::new(BLOCK_SIZE_LABEL, u32::from(r)),
                Labelled::new(PARALLELISM_LABEL, u32::from(p)),
            )
        }
    }
}

fn push_field(text: &mut String, field: &str) -> Result<(), AllocError>
    ensures { OnOk result (string_bytes text.new ≡ string_bytes text.old ++ 36 ∷ field.now) }
{
    text.push('$')?;
    text.push_str(field)
}

/// A number after its label.
#[derive(Clone, Copy)]
struct Labelled {
    label: &'static str,
    number: u32,
}

impl Labelled {
    fn new(label: &'static str, number: u32) -> Self
        ensures label { result.label.now ≡ label.now }
        ensures number { result.number ≡ number }
    {
        Labelled { label, number }
    }
}

/// Appends a field with three numbers, each after its label.
fn push_numbers(
    text: &mut String,
    first: Labelled,
    second: Labelled,
    third: Labelled,
) -> Result<(), AllocError>
    ensures { OnOk result (string_bytes text.new
        ≡ string_bytes text.old ++ 36 ∷ numbers_text first.label.now first.number
        second.label.now second.number third.label.now third.number) }
{
    text.push('$')?;
    push_number(text, first)?;
    text.push(',')?;
    push_number(text, second)?;
    text.push(',')?;
    push_number(text, third)
}

fn push_number(text: &mut String, number: Labelled) -> Result<(), AllocError>
    ensures { OnOk result (string_bytes text.new
        ≡ string_bytes text.old ++ label number.label.now number.number) }
{
    text.push_str(number.label)?;
    text.push_str(Buffer::new().format(number.number))
}

/// Appends a field with the letters of the bytes, at most as many bytes as a tag may have.
#[tactic(auto, unfolding(crate::specs::Base64::base64, cred_base64::specs::Letters::letters_of))]
fn push_bytes(text: &mut Vec<u8>, bytes: &[u8]) -> Result<(), AllocError>
    requires { length bytes.now ≤ MAX_TAG }
    ensures { OnOk result (text.new.items ≡ text.old.items ++ 36 ∷ base64 bytes.now) }
{
    let mut letters = [0; LONGEST_LETTERS];
    let len = encoded_len(bytes.len());
    encode(bytes, &mut letters[..len]);
    text.push(b'$')?;
    text.extend_from_slice(&letters[..len])
}
