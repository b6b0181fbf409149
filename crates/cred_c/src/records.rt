//! Checks passwords against records, and makes records under settings.
ghost use Rattle.std.specs.Prelude.{◌≡◌, ◌<◌, ◌≤◌, ◌^◌, ◌⊎◌, ◌↔◌, None, Some, drop, length};
ghost use Rattle.cred_c.specs.Answers.{IsRight, IsVerdict, IsWritten, output};
ghost use Rattle.cred_phc.specs.{Errors.error_number, Faults.record_fault, Faults.setting_fault, Tags.tag};
ghost use Rattle.cred_phc.specs.Text.{IsRecordText, IsSettingText, record_text};
ghost use Rattle.cred_phc.specs.Values.{IsRecord, IsSetting, RecordValue, SettingValue, record_of};
ghost use Rattle.cred_phc.specs.declared.error.PhcError.{PhcError};

use crate::numbers::{DONE, WRONG, argon_number};
use crate::texts::put_record;
use cred_argon::ArgonError;
use cred_phc::{PhcError, Record, Scratch, Setting, parse_record, parse_setting, tag_in};
use cred_pool::NoGate;
use std::alloc::Global;

/// Checks a password against a record's text.
///
/// Answers 0 for the record's password and 10 for any other, or the first of these faults: 1 to 9
/// for the text, and last 18 if the password has 2^32 bytes or more or 8 if memory is short.
#[unsafe(no_mangle)]
pub extern "C" fn cred_check(alloc: Global, text: &[u8], pw: &[u8]) -> u8
    ensures fault { (e : PhcError) → record_fault text.now ≡ Some e → result ≡ error_number e }
    ensures verdict { record_fault text.now ≡ None → (v : RecordValue) × IsRecord v
        × IsRecordText text.now v × IsVerdict v pw.now result }
{
    match parse_record(text) {
        Ok(stored) => check(alloc, &stored, pw),
        Err(fault) => fault.number(),
    }
}

/// Checks a password against a record.
fn check(alloc: Global, stored: &Record, pw: &[u8]) -> u8
    ensures verdict { IsVerdict stored.now pw.now result }
    ensures ranges { IsRecord stored.now }
{
    let kept = stored.tag();
    if u32::try_from(pw.len()).is_err() {
        return argon_number(ArgonError::InputLen);
    }
    match tag_in(
        &mut Scratch::new(alloc, 0),
        alloc,
        &NoGate,
        &stored.setting(),
        kept.bytes().len() as u8,
        pw,
    ) {
        Ok(made) if made == kept => DONE,
        Ok(_) => WRONG,
        Err(_) => PhcError::Memory.number(),
    }
}

/// Builds a record of the password under the setting of a text, with a tag of `tag_len` bytes, 4 to
/// 64, and writes its text over the front of `out` and its length into `len`.
///
/// Answers 0, or the first of these faults: 1 to 9 for the text, 7 if `tag_len` is outside its
/// range, 18 if the password has 2^32 bytes or more, and last 8 if memory is short or 11 if `out`
/// has too little room.
#[unsafe(no_mangle)]
pub extern "C" fn cred_hash(
    alloc: Global,
    text: &[u8],
    tag_len: u32,
    pw: &[u8],
    out: &mut [u8],
    len: &mut usize,
) -> u8
    ensures fault { (e : PhcError) → setting_fault text.now ≡ Some e → result ≡ error_number e }
    ensures tag { setting_fault text.now ≡ None
        → (result ≡ 7) ↔ ((tag_len < 4) ⊎ (64 < tag_len)) }
    ensures long { setting_fault text.now ≡ None → 4 ≤ tag_len → tag_len ≤ 64
        → (result ≡ 18) ↔ (2 ^ 32 ≤ length pw.now) }
    ensures made { setting_fault text.now ≡ None → 4 ≤ tag_len → tag_len ≤ 64
        → length pw.now < 2 ^ 32 → (s : SettingValue) × IsSetting s × IsSettingText text.now s
        × IsWritten (record_text (record_of s (tag s tag_len pw.now)))
        (output result out.old out.new len.new) }
    ensures kept { (result ≡ 0 → ⊥) → (len.new ≡ 0) × (out.new ≡ out.old) }
    ensures rest { drop len.new out.new ≡ drop len.new out.old }
{
    *len = 0;
    match parse_setting(text) {
        Ok(setting) => hash(alloc, &setting, tag_len, pw, out, len),
        Err(fault) => fault.number(),
    }
}

/// Writes such a record under a setting.
fn hash(
    alloc: Global,
    setting: &Setting,
    tag_len: u32,
    pw: &[u8],
    out: &mut [u8],
    len: &mut usize,
) -> u8
    requires { len.old ≡ 0 }
    ensures tag { (result ≡ 7) ↔ ((tag_len < 4) ⊎ (64 < tag_len)) }
    ensures long { 4 ≤ tag_len → tag_len ≤ 64 → (result ≡ 18) ↔ (2 ^ 32 ≤ length pw.now) }
    ensures made { 4 ≤ tag_len → tag_len ≤ 64 → length pw.now < 2 ^ 32
        → IsWritten (record_text (record_of setting.now (tag setting.now tag_len pw.now)))
        (output result out.old out.new len.new) }
    ensures kept { (result ≡ 0 → ⊥) → (len.new ≡ 0) × (out.new ≡ out.old) }
    ensures rest { drop len.new out.new ≡ drop len.new out.old }
{
    if tag_len < 4 || tag_len > 64 {
        return PhcError::Tag.number();
    }
    if u32::try_from(pw.len()).is_err() {
        return argon_number(ArgonError::InputLen);
    }
    let mut none = Scratch::new(alloc, 0);
    match tag_in(&mut none, alloc, &NoGate, setting, tag_len as u8, pw) {
        Ok(made) => put_record(alloc, &Record::with_tag(*setting, made), out, len),
        Err(_) => PhcError::Memory.number(),
    }
}
