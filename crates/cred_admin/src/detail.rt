//! The part of a record that is shown.

ghost use Rattle.std.specs.Prelude.{◌≡◌, ◌++◌, ◌∷◌, ◌≤◌, List, ℕ, IfOk, length};
ghost use Rattle.cred_phc.specs.{Base64.base64, Text.scheme_text};
ghost use Rattle.cred_admin.specs.Listing.{detail_text};

use cred_phc::{Record, Setting, write_record, write_setting};
use std::alloc::{AllocError, Global};

/// The part of a record that is shown.
#[derive(Clone, Copy, Debug, PartialEq, Eq)]
pub enum Detail {
    /// The scheme and its costs, as `$argon2id$v=19$m=65536,t=3,p=4`.
    Costs,
    /// The whole record.
    Record,
}

pub(crate) fn detail_text(
    alloc: Global,
    stored: &Record,
    detail: Detail,
) -> Result<Vec<u8>, AllocError>
    ensures { IfOk result (λ text. text.items ≡ detail_text detail stored.now) }
{
    match detail {
        Detail::Costs => costs_text(alloc, &stored.setting()),
        Detail::Record => match write_record(alloc, stored) {
            Ok(text) => Ok(text),
            Err(_) => Err(AllocError),
        },
    }
}

/// Returns the text of the setting without its last field, the salt.
fn costs_text(alloc: Global, setting: &Setting) -> Result<Vec<u8>, AllocError>
    ensures { IfOk result (λ text. text.items ≡ scheme_text setting.now.scheme) }
{
    let Ok(text) = write_setting(alloc, setting) else {
        return Err(AllocError);
    };
    let mut costs = Vec::new(alloc);
    costs.extend_from_slice(before_salt(&text, setting.salt()))?;
    Ok(costs)
}

/// Returns the text before the `$` and the salt, in base64, that end a setting's text.
fn before_salt<'a>(text: &'a [u8], salt: &[u8]) -> &'a [u8]
    requires { length salt.now ≤ 48 }
    ensures { (front : List ℕ) → text.now ≡ front ++ 36 ∷ base64 salt.now
        → result.now ≡ front }
{
    let letters = (4 * salt.len() + 2) / 3;
    let (front, _) = text.split_at(text.len().saturating_sub(letters + 1));
    front
}
