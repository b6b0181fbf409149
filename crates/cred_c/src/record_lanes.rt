//! Checks a password against a record of Argon2, or makes a record under a setting, with a tag that
//! is worked in parts. The begin and the end are calls of this module. Between them the caller
//! works the segments as for any tag.
ghost use Rattle.std.specs.Prelude.{◌≡◌, ℕ, ◌<◌, ◌≤◌, ◌⊎◌, ◌↔◌, List, IfErr, IfOk, None, Some, MatchResult, drop, length};
ghost use Rattle.cred_argon.specs.Parameters.{Parameters};
ghost use Rattle.cred_c.specs.Answers.{output};
ghost use Rattle.cred_c.specs.Lanes.{AreNumbers, IsBegunUnder, IsEndUnder, IsFilled, IsSlice, IsRecordEndUnder, part_fault_number, record_inputs, record_parameters};
ghost use Rattle.cred_c.specs.Readings.{IsReadRecord, IsReadSetting};
ghost use Rattle.cred_phc.specs.{Errors.error_number, Faults.record_fault, Faults.setting_fault, Tags.argon_parameters, Tags.tag};
ghost use Rattle.cred_phc.specs.Text.{IsRecordText, IsSettingText, record_text};
ghost use Rattle.cred_phc.specs.Values.{IsRecord, IsSetting, RecordValue, SettingValue, record_of};
ghost use Rattle.cred_phc.specs.declared.error.PhcError.{PhcError};

use crate::lanes::{begin, is_slice};
use crate::numbers::{DONE, NO_PLACE, WRONG};
use crate::part_fault::PartFault;
use crate::reading::{RecordReading, SettingReading};
use crate::texts::put_record;
use cred_argon::{ArgonError, Block, Inputs, tag_of_lanes};
use cred_phc::{PhcError, Record, Setting, Tag, argon2_params, parse_record, parse_setting};
use std::alloc::Global;

/// Reads a record's text, for the calls that check a password against it.
///
/// Answers 0, the number of the text's fault, 1 to 9, or 2 for a record of scrypt.
#[unsafe(no_mangle)]
pub extern "C" fn cred_check_read(text: &[u8], reading: &mut RecordReading) -> u8
    ensures fault { (e : PhcError) → record_fault text.now ≡ Some e → result ≡ error_number e }
    ensures read { record_fault text.now ≡ None → (v : RecordValue) × IsRecord v
        × IsRecordText text.now v
        × AreNumbers (record_parameters v) result reading.new.setting.numbers
        × (result ≡ 0 → IsReadRecord reading.new v) }
    ensures kept { (result ≡ 0 → ⊥) → reading.new ≡ reading.old }
{
    match parse_record(text) {
        Ok(stored) => reading.keep(&stored),
        Err(fault) => fault.number(),
    }
}

/// Reads the text of a setting, for the calls that make a record under this setting with a tag of
/// `tag_len` bytes, 4 to 64.
///
/// Answers 0, or the first of these faults: 1 to 9 for the text, 7 if `tag_len` is outside its
/// range, and 2 for a setting of scrypt.
#[unsafe(no_mangle)]
pub extern "C" fn cred_hash_read(text: &[u8], tag_len: u32, reading: &mut SettingReading) -> u8
    ensures fault { (e : PhcError) → setting_fault text.now ≡ Some e → result ≡ error_number e }
    ensures tag { setting_fault text.now ≡ None → (tag_len < 4) ⊎ (64 < tag_len) → result ≡ 7 }
    ensures read { setting_fault text.now ≡ None → 4 ≤ tag_len → tag_len ≤ 64
        → (s : SettingValue) × IsSetting s × IsSettingText text.now s
        × AreNumbers (argon_parameters s.scheme tag_len) result reading.new.numbers
        × (result ≡ 0 → IsReadSetting reading.new s) }
    ensures kept { (result ≡ 0 → ⊥) → reading.new ≡ reading.old }
{
    match parse_setting(text) {
        Ok(_) if tag_len < 4 || tag_len > 64 => PhcError::Tag.number(),
        Ok(setting) => reading.keep(&setting, tag_len as u8),
        Err(fault) => fault.number(),
    }
}

/// Writes the first two blocks of each lane into the first slice, for the password's tag under the
/// setting that was read.
///
/// Answers 0, or the first of these faults: 27 if nothing was read or `first` isn't a slice, and 18
/// if the password has 2^32 bytes or more.
#[unsafe(no_mangle)]
pub extern "C" fn cred_read_begin(reading: &SettingReading, pw: &[u8], first: &mut [Block]) -> u8
    ensures begun { (s : SettingValue) → IsSetting s → IsReadSetting reading.now s
        → IsBegunUnder (argon_parameters s.scheme reading.now.numbers.tag_len)
        (record_inputs pw.now s.salt) result first.old first.new }
    ensures unread { ((s : SettingValue) → IsSetting s → IsReadSetting reading.now s → ⊥)
        → result ≡ 27 }
    ensures kept { (result ≡ 0 → ⊥) → first.new ≡ first.old }
{
    match reading.setting() {
        Some(setting) => begin_under(&setting, reading.numbers.tag_len as u8, pw, first),
        None => NO_PLACE,
    }
}

/// Tells from the last slice, after the last pass, whether the password with which the caller began
/// the memory is that of the record that was read.
///
/// Answers 0 for the record's password and 10 for any other, or the first of these faults: 27 if
/// nothing was read or `last` isn't a slice, and 8 if there is too little memory.
#[unsafe(no_mangle)]
pub extern "C" fn cred_check_end(alloc: Global, reading: &RecordReading, last: &[Block]) -> u8
    ensures verdict { (v : RecordValue) → IsRecord v → IsReadRecord reading.now v
        → IsEndUnder v (record_parameters v) last.now result }
    ensures unread { ((v : RecordValue) → IsRecord v → IsReadRecord reading.now v → ⊥)
        → result ≡ 27 }
{
    match reading.record() {
        Some(stored) => check_end(alloc, &stored, last),
        None => NO_PLACE,
    }
}

/// Writes the text of the record over the front of `out` and its length into `len`, if `last` is
/// the last slice after the last pass.
///
/// Answers 0, 27 if nothing was read or `last` isn't a slice, or otherwise 8 if there is too little
/// memory or 11 if `out` has too little room.
#[unsafe(no_mangle)]
pub extern "C" fn cred_hash_end(
    alloc: Global,
    reading: &SettingReading,
    last: &[Block],
    out: &mut [u8],
    len: &mut usize,
) -> u8
    ensures made { (s : SettingValue) → IsSetting s → IsReadSetting reading.now s
        → IsRecordEndUnder s reading.now.numbers.tag_len
        (argon_parameters s.scheme reading.now.numbers.tag_len) last.now
        (output result out.old out.new len.new) }
    ensures unread { ((s : SettingValue) → IsSetting s → IsReadSetting reading.now s → ⊥)
        → result ≡ 27 }
    ensures kept { (result ≡ 0 → ⊥) → (len.new ≡ 0) × (out.new ≡ out.old) }
    ensures rest { drop len.new out.new ≡ drop len.new out.old }
{
    *len = 0;
    match reading.setting() {
        Some(setting) => {
            let tag_len = reading.numbers.tag_len as u8;
            hash_end(alloc, &setting, tag_len, last, out, len)
        }
        None => NO_PLACE,
    }
}

/// Judges the last slice by a record.
fn check_end(alloc: Global, stored: &Record, last: &[Block]) -> u8
    ensures verdict { IsEndUnder stored.now (record_parameters stored.now) last.now result }
    ensures ranges { IsRecord stored.now }
{
    match tag_from(alloc, &stored.setting(), tag_len_of(stored), last) {
        Ok(made) => verdict(made, stored.tag()),
        Err(fault) => fault.number(),
    }
}

fn verdict(made: Tag, kept: Tag) -> u8
    ensures right { (result ≡ 0) ↔ (made ≡ kept) }
    ensures one_of { (result ≡ 0) ⊎ (result ≡ 10) }
{
    if made == kept { DONE } else { WRONG }
}

/// Writes the record under a setting.
fn hash_end(
    alloc: Global,
    setting: &Setting,
    tag_len: u8,
    last: &[Block],
    out: &mut [u8],
    len: &mut usize,
) -> u8
    requires low { 4 ≤ tag_len }
    requires high { tag_len ≤ 64 }
    requires empty { len.old ≡ 0 }
    ensures made { IsRecordEndUnder setting.now tag_len
        (argon_parameters setting.now.scheme tag_len) last.now
        (output result out.old out.new len.new) }
    ensures kept { (result ≡ 0 → ⊥) → (len.new ≡ 0) × (out.new ≡ out.old) }
    ensures rest { drop len.new out.new ≡ drop len.new out.old }
{
    match tag_from(alloc, setting, tag_len, last) {
        Ok(made) => put_record(alloc, &Record::with_tag(*setting, made), out, len),
        Err(fault) => fault.number(),
    }
}

/// Returns the number of bytes of a record's tag: 4 to 64.
fn tag_len_of(stored: &Record) -> u8
    ensures value { result ≡ length stored.now.tag }
    ensures low { 4 ≤ result }
    ensures high { result ≤ 64 }
{
    stored.tag().bytes().len() as u8
}

/// Writes the first two blocks of each lane for a setting of Argon2.
fn begin_under(setting: &Setting, tag_len: u8, pw: &[u8], first: &mut [Block]) -> u8
    requires low { 4 ≤ tag_len }
    requires high { tag_len ≤ 64 }
    ensures begun { IsBegunUnder (argon_parameters setting.now.scheme tag_len)
        (record_inputs pw.now setting.now.salt) result first.old first.new }
    ensures kept { (result ≡ 0 → ⊥) → first.new ≡ first.old }
{
    match argon2_params(setting, tag_len) {
        Some(params) => {
            let (salt, secret, assoc) = (setting.salt(), b"", b"");
            let inputs = Inputs {
                pw,
                salt,
                secret,
                assoc,
            };
            begin(&params, &inputs, first)
        }
        None => PartFault::Scrypt.number(),
    }
}

/// Computes the tag of the last slice, worked under a setting of Argon2.
fn tag_from(alloc: Global, setting: &Setting, tag_len: u8, last: &[Block]) -> Result<Tag, PartFault>
    requires low { 4 ≤ tag_len }
    requires high { tag_len ≤ 64 }
    ensures made { (a : Parameters) → argon_parameters setting.now.scheme tag_len ≡ Some a
        → (pw : List ℕ) → IsFilled a (record_inputs pw setting.now.salt) last.now
        → IfOk result (λ t. t ≡ tag setting.now tag_len pw) }
    ensures scheme { argon_parameters setting.now.scheme tag_len ≡ None
        → result ≡ Err PartFault.Scrypt }
    ensures place { (a : Parameters) → argon_parameters setting.now.scheme tag_len ≡ Some a
        → (IsSlice a last.now → ⊥) → result ≡ Err PartFault.Place }
    ensures memory { (a : Parameters) → argon_parameters setting.now.scheme tag_len ≡ Some a
        → IsSlice a last.now → IfErr result (λ f. f ≡ PartFault.Argon ArgonError.Memory) }
{
    let Some(params) = argon2_params(setting, tag_len) else {
        return Err(PartFault::Scrypt);
    };
    if !is_slice(&params, last) {
        return Err(PartFault::Place);
    }
    match tag_of_lanes(alloc, &params, last) {
        Ok(bytes) => Ok(tag_of_bytes(&bytes)),
        Err(error) => Err(PartFault::Argon(error)),
    }
}

fn tag_of_bytes(bytes: &[u8]) -> Tag
    requires low { 4 ≤ length bytes.now }
    requires high { length bytes.now ≤ 64 }
    ensures { result ≡ bytes.now }
{
    match Tag::new(bytes) {
        Some(tag) => tag,
        None => unreachable!(),
    }
}
