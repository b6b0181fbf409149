//! The costs of new records.

ghost use Rattle.std.specs.Prelude.{◌≡◌, false, IfNone, IfSome, true};
ghost use Rattle.cred_phc.specs.{Ranges.is_current, Values.setting_of};
ghost use Rattle.cred_cli.specs.Costs.{memory_alone};

use cred_cli::memory_alone;
use cred_phc::{Scheme, Setting};
use std::marker::Model;

/// A salt for settings that nobody keeps.
pub(crate) const NO_SALT: [u8; 16] = [0; 16];

/// The scheme and the numbers of new records, for lines without a setting.
#[derive(Clone, Copy)]
pub struct Costs {
    scheme: Scheme,
}

impl Model for Costs {
    ghost use Rattle.cred_phc.specs.declared.setting.Scheme.{Scheme};
    ghost use Rattle.cred_many.specs.Costs.{IsForNew};

    ghost Value = { Scheme };

    ghost view = { λ c. c.scheme };

    ghost invariant = { λ c. IsForNew c.scheme };

    ghost inverse = { λ scheme. record { scheme = scheme } };
}

impl Costs {
    /// Returns the costs of a setting, unless it is of version 0x10, which only old records have.
    pub fn of(setting: &Setting) -> Option<Costs>
        ensures same { IfSome result (λ costs. costs ≡ setting.now.scheme) }
        ensures old { IfNone result (is_current setting.now.scheme ≡ false) }
    {
        if !setting.is_current() {
            return None;
        }
        Some(Costs {
            scheme: setting.scheme(),
        })
    }

    /// Returns the scheme with its numbers.
    pub fn scheme(&self) -> Scheme
        ensures { result ≡ self.now }
    {
        self.scheme
    }

    /// Returns the memory of a hash with these costs in KiB.
    pub fn memory(&self) -> u64
        ensures { result ≡ memory_alone self.now }
    {
        memory_alone(&self.setting(&NO_SALT))
    }

    /// Returns a setting with this salt.
    pub(crate) fn setting(&self, salt: &[u8; 16]) -> Setting
        ensures setting { result ≡ setting_of self.now salt.now }
        ensures current { is_current result.scheme ≡ true }
    {
        match Setting::new(self.scheme, salt) {
            Ok(setting) => setting,
            Err(_) => unreachable!(),
        }
    }
}
