//! The setting of a new record.

ghost use Rattle.std.specs.Prelude.{◌≡◌, ◌⊎◌, ◌++◌, Err, IfErr, IfOk, Ok, true};
ghost use Rattle.cred_phc.specs.Ranges.{is_current};
ghost use Rattle.cred_admin.specs.Settings.{any_salt, setting_for};

use cred_phc::{PhcError, Setting, parse_setting};
use std::alloc::{AllocError, Global};
use std::marker::Model;

/// A salt for a text that has none: 8 bytes of zero in base64.
const ANY_SALT: &[u8] = b"$AAAAAAAAAAA";

/// A setting for new records, whose version isn't 0x10.
#[derive(Clone, Copy, Debug, PartialEq, Eq)]
pub struct NewSetting {
    setting: Setting,
}

impl Model for NewSetting {
    ghost use Rattle.std.specs.Prelude.{◌≡◌, true};
    ghost use Rattle.cred_phc.specs.{Ranges.is_current, Values.SettingValue};

    ghost Value = { SettingValue };

    ghost view = { λ s. s.setting };

    ghost invariant = { λ s. is_current s.setting.scheme ≡ true };

    ghost inverse = { λ v. record { setting = v } };
}

impl NewSetting {
    /// Returns the setting.
    pub fn setting(&self) -> Setting
        ensures value { result ≡ self.now }
        ensures current { is_current self.now.scheme ≡ true }
    {
        self.setting
    }
}

/// Reads the setting of a text. A text that ends before its salt, such as
/// `$argon2id$v=19$m=65536,t=3,p=4`, gets this salt.
///
/// Errors: those of `parse_setting`; `Memory`.
pub fn setting_of(alloc: Global, text: &[u8], salt: &[u8]) -> Result<NewSetting, PhcError>
    ensures value { IfOk result (λ setting. setting_for text.now salt.now ≡ Ok setting) }
    ensures fault { IfErr result (λ e. (e ≡ PhcError.Memory)
        ⊎ (setting_for text.now salt.now ≡ Err e)) }
{
    let first = match parse_setting(text) {
        Ok(setting) => return Ok(NewSetting { setting }),
        Err(fault) => fault,
    };
    let salted = with_any_salt(alloc, text)?;
    match parse_setting(&salted) {
        Ok(other) => {
            let setting = Setting::new(other.scheme(), salt)?;
            Ok(NewSetting { setting })
        }
        Err(_) => Err(first),
    }
}

fn with_any_salt(alloc: Global, text: &[u8]) -> Result<Vec<u8>, AllocError>
    ensures { IfOk result (λ salted. salted.items ≡ text.now ++ any_salt) }
{
    let mut salted = Vec::new(alloc);
    salted.extend_from_slice(text)?;
    salted.extend_from_slice(ANY_SALT)?;
    Ok(salted)
}
