//! The fields of a line. A function refuses more or fewer fields than it reads as `Line`. Otherwise
//! it refuses them with the fault of the first bad field from the left.

ghost use Rattle.std.specs.Prelude.{◌≡◌, ◌≤◌, IfOk, IfSome, map, true};
ghost use Rattle.cred_phc.specs.Ranges.{is_current};
ghost use Rattle.cred_book.specs.Works.{is_for_current};
ghost use Rattle.cred_cli.specs.Events.{change_request, key_field, name_and_password, name_and_record, name_field, name_password_setting, only_name, own_setting, password_field, password_of, record_field, request_of, setting_field};

use crate::refusal::Refusal;
use crate::tickets::Key;
use cred_book::{Name, Request};
use cred_phc::{Password, Record, Setting, parse_record, parse_setting};

pub(crate) fn key(text: &[u8]) -> Result<Key, Refusal>
    ensures value { result ≡ key_field text.now }
    ensures range { IfOk result (λ key. (1 ≤ key) × (key ≤ 64)) }
{
    Key::parse(text).ok_or(Refusal::Key)
}

pub fn name(text: &[u8]) -> Result<Name, Refusal>
    ensures { result ≡ name_field text.now }
{
    Name::new(text).map_err(|refusal| Refusal::Book(refusal))
}

pub fn password(text: &[u8]) -> Result<Password, Refusal>
    ensures { result ≡ password_field text.now }
{
    parse_password(text).ok_or(Refusal::Password)
}

#[tactic(auto, unfolding(crate::specs::Events::password_of))]
fn parse_password(text: &[u8]) -> Option<Password>
    ensures { result ≡ password_of text.now }
{
    if text == b"-".as_slice() {
        Password::new(b"")
    } else {
        Password::from_base64(text)
    }
}

pub fn setting(text: &[u8]) -> Result<Setting, Refusal>
    ensures value { result ≡ setting_field text.now }
    ensures current { IfOk result (λ setting. is_current setting.scheme ≡ true) }
{
    parse_setting(text).map_err(|fault| Refusal::Text(fault))
}

pub fn stored(text: &[u8]) -> Result<Record, Refusal>
    ensures { result ≡ record_field text.now }
{
    parse_record(text).map_err(|fault| Refusal::Text(fault))
}

/// Reads a name alone.
pub fn only_name(fields: &[&[u8]]) -> Result<Name, Refusal>
    ensures { result ≡ only_name (map (λ s. s.now) fields.now) }
{
    match fields {
        [text] => name(text),
        _ => Err(Refusal::Line),
    }
}

/// Reads a name and a record.
pub fn name_and_record(fields: &[&[u8]]) -> Result<(Name, Record), Refusal>
    ensures { result ≡ name_and_record (map (λ s. s.now) fields.now) }
{
    match fields {
        [account, text] => {
            let account = name(account)?;
            let stored = stored(text)?;
            Ok((account, stored))
        }
        _ => Err(Refusal::Line),
    }
}

/// Reads a name and its password.
pub fn name_and_password(fields: &[&[u8]]) -> Result<(Name, Password), Refusal>
    ensures { result ≡ name_and_password (map (λ s. s.now) fields.now) }
{
    match fields {
        [account, pw] => {
            let account = name(account)?;
            let pw = password(pw)?;
            Ok((account, pw))
        }
        _ => Err(Refusal::Line),
    }
}

/// Reads a name, a password and a setting, or takes the drawn setting if the line gives none.
pub fn name_password_setting(
    drawn: Option<Setting>,
    fields: &[&[u8]],
) -> Result<(Name, Password, Setting), Refusal>
    requires { IfSome drawn (λ s. is_current s.scheme ≡ true) }
    ensures read { result ≡ name_password_setting drawn (map (λ s. s.now) fields.now) }
    ensures current { IfOk result (λ read. is_current read.2.scheme ≡ true) }
{
    let [account, pw, own @ ..] = fields else {
        return Err(Refusal::Line);
    };
    let setting = own_setting(own, drawn)?;
    let account = name(account)?;
    let pw = password(pw)?;
    let setting = setting?;
    Ok((account, pw, setting))
}

/// Returns the setting that a line gives after its other fields, or the drawn one. Refuses too many
/// fields before it reads any.
fn own_setting(own: &[&[u8]], drawn: Option<Setting>) -> Result<Result<Setting, Refusal>, Refusal>
    requires { IfSome drawn (λ s. is_current s.scheme ≡ true) }
    ensures read { result ≡ own_setting (map (λ s. s.now) own.now) drawn }
    ensures current { IfOk result (λ read. IfOk read (λ s. is_current s.scheme ≡ true)) }
{
    match own {
        [] => match drawn {
            Some(drawn) => Ok(Ok(drawn)),
            None => Err(Refusal::Line),
        },
        [text] => Ok(setting(text)),
        _ => Err(Refusal::Line),
    }
}

/// Reads an operation on an account's record from its word and the fields after it. Without a
/// setting in the fields the operation has the drawn one.
pub fn request(drawn: Option<Setting>, word: &[u8], fields: &[&[u8]]) -> Result<Request, Refusal>
    requires { IfSome drawn (λ s. is_current s.scheme ≡ true) }
    ensures request { result ≡ request_of drawn word.now (map (λ s. s.now) fields.now) }
    ensures current { IfOk result (λ request. is_for_current request ≡ true) }
{
    if word == b"verify".as_slice() {
        let (name, pw) = name_and_password(fields)?;
        Ok(Request::Verify { name, pw })
    } else if word == b"remove".as_slice() {
        let (name, pw) = name_and_password(fields)?;
        Ok(Request::Remove { name, pw })
    } else if word == b"enrol".as_slice() {
        let (name, pw, setting) = name_password_setting(drawn, fields)?;
        Ok(Request::Enrol { name, pw, setting })
    } else if word == b"upgrade".as_slice() {
        let (name, pw, setting) = name_password_setting(drawn, fields)?;
        Ok(Request::Upgrade { name, pw, setting })
    } else if word == b"change".as_slice() {
        change_request(drawn, fields)
    } else {
        Err(Refusal::Line)
    }
}

fn change_request(drawn: Option<Setting>, fields: &[&[u8]]) -> Result<Request, Refusal>
    requires { IfSome drawn (λ s. is_current s.scheme ≡ true) }
    ensures request { result ≡ change_request drawn (map (λ s. s.now) fields.now) }
    ensures current { IfOk result (λ request. is_for_current request ≡ true) }
{
    let [account, pw, new_pw, own @ ..] = fields else {
        return Err(Refusal::Line);
    };
    let setting = own_setting(own, drawn)?;
    let name = name(account)?;
    let pw = password(pw)?;
    let new_pw = password(new_pw)?;
    let setting = setting?;
    Ok(Request::Change {
        name,
        pw,
        new_pw,
        setting,
    })
}
