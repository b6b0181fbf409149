//! The inputs of a step: an operation by its number, with passwords and texts.
ghost use Rattle.std.specs.Prelude.{◌≡◌, ◌↔◌, IfErr, IfOk, IfSome, None, OnOk, Some, false, true};
ghost use Rattle.cred_c.specs.Steps.{AsksFor, IsCopy, IsOperation, copy_fault, fault_number, new_setting_fault, operation_number, request_fault};
ghost use Rattle.cred_phc.specs.{Text.IsSettingText, Values.IsSetting, Values.password_fits};

use cred_book::{Name, Request};
use cred_phc::{Password, PhcError, Record, Setting, parse_record, parse_setting};

/// An operation on the record of one account.
#[derive(Clone, Copy, PartialEq, Eq)]
pub enum RecordOperation {
    Enrol,
    Verify,
    Change,
    Upgrade,
    Remove,
}

/// The inputs of a step.
#[repr(C)]
#[derive(Clone, Copy, Drop)]
pub struct StepInputs<'a> {
    /// The number 1 to 5 of enrol, verify, change, upgrade or remove.
    pub operation: u32,
    /// The text of the account's record, or an empty text without a record.
    pub copy: &'a [u8],
    pub pw: &'a [u8],
    /// The new password, which only a change reads.
    pub new_pw: &'a [u8],
    /// The text of the setting for the new record of an enrol, a change or an upgrade.
    pub setting: &'a [u8],
}

/// The reason why a step isn't taken.
#[derive(Clone, Copy, PartialEq, Eq)]
pub enum StepFault {
    /// The copy's text isn't a record.
    Copy,
    /// A password has over 256 bytes.
    Long,
    /// The setting's text has this fault.
    Setting(PhcError),
}

impl StepFault {
    /// Returns the number of the fault: 24, 25, or the number of the setting's fault.
    pub(crate) fn number(self) -> u8
        ensures { result ≡ fault_number self }
    {
        match self {
            StepFault::Copy => 24,
            StepFault::Long => 25,
            StepFault::Setting(fault) => fault.number(),
        }
    }
}

/// Returns the operation of a number: 1 to 5.
pub(crate) fn operation_of(number: u32) -> Option<RecordOperation>
    ensures found { (o : RecordOperation) → number ≡ operation_number o → result ≡ Some o }
    ensures only { IfSome result (λ o. number ≡ operation_number o) }
    ensures none { (result ≡ None) ↔ (IsOperation number → ⊥) }
{
    match number {
        1 => Some(RecordOperation::Enrol),
        2 => Some(RecordOperation::Verify),
        3 => Some(RecordOperation::Change),
        4 => Some(RecordOperation::Upgrade),
        5 => Some(RecordOperation::Remove),
        _ => None,
    }
}

/// Reads the record of a copy's text, if the text isn't empty.
pub(crate) fn copy_of(text: &[u8]) -> Result<Option<Record>, StepFault>
    ensures copy { IfOk result (λ copy. IsCopy text.now copy) }
    ensures fault { IfErr result (λ fault. copy_fault text.now ≡ Some fault) }
    ensures none { OnOk result (copy_fault text.now ≡ None) }
{
    if text.is_empty() {
        return Ok(None);
    }
    match parse_record(text) {
        Ok(stored) => Ok(Some(stored)),
        Err(_) => Err(StepFault::Copy),
    }
}

/// Returns the request of a step, for an account whose name doesn't matter.
pub(crate) fn request_of(
    operation: RecordOperation,
    inputs: &StepInputs<'_>,
) -> Result<Request, StepFault>
    ensures asked { IfOk result (AsksFor operation inputs.now) }
    ensures fault { IfErr result (λ fault. request_fault operation inputs.now ≡ Some fault) }
    ensures none { OnOk result (request_fault operation inputs.now ≡ None) }
{
    let name = any_name();
    let pw = password_of(inputs.pw)?;
    match operation {
        RecordOperation::Verify => Ok(Request::Verify { name, pw }),
        RecordOperation::Remove => Ok(Request::Remove { name, pw }),
        RecordOperation::Enrol => {
            let setting = setting_of(inputs.setting)?;
            Ok(Request::Enrol { name, pw, setting })
        }
        RecordOperation::Upgrade => {
            let setting = setting_of(inputs.setting)?;
            Ok(Request::Upgrade { name, pw, setting })
        }
        RecordOperation::Change => {
            let new_pw = password_of(inputs.new_pw)?;
            let setting = setting_of(inputs.setting)?;
            Ok(Request::Change {
                name,
                pw,
                new_pw,
                setting,
            })
        }
    }
}

fn any_name() -> Name {
    match Name::new(b"x") {
        Ok(name) => name,
        Err(_) => unreachable!(),
    }
}

fn password_of(bytes: &[u8]) -> Result<Password, StepFault>
    ensures same { IfOk result (λ pw. (pw ≡ bytes.now) × (password_fits bytes.now ≡ true)) }
    ensures fault { IfErr result (λ fault.
        (fault ≡ StepFault.Long) × (password_fits bytes.now ≡ false)) }
{
    match Password::new(bytes) {
        Some(pw) => Ok(pw),
        None => Err(StepFault::Long),
    }
}

fn setting_of(text: &[u8]) -> Result<Setting, StepFault>
    ensures read { IfOk result (λ setting. IsSetting setting × IsSettingText text.now setting) }
    ensures fault { IfErr result (λ fault. new_setting_fault text.now ≡ Some fault) }
    ensures none { OnOk result (new_setting_fault text.now ≡ None) }
{
    match parse_setting(text) {
        Ok(setting) => Ok(setting),
        Err(fault) => Err(StepFault::Setting(fault)),
    }
}
