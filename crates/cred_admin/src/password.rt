//! Reads passwords, a line each.

ghost use Rattle.std.specs.Prelude.{◌≡◌, ◌<◌, ◌&&◌, ◌++◌, ◌∷◌, [], IfErr, IfOk, IfSome, OnOk, Some, false, length, not, true};
ghost use Rattle.cred_cli.specs.Watched.{Basis, ended_of, failed_of, left_on, reading_on};
ghost use Rattle.cred_admin.specs.Lines.{IsMisread, IsOpen, MissesLine, ReadFails, Reads, Takes, TakesLine, is_barred};
ghost use Rattle.cred_admin.specs.Seen.{FitsSince, GivesMore};
ghost use Rattle.cred_phc.specs.declared.password.TheConstants.{MAX_PASSWORD};

use crate::fault::Fault;
use crate::setting::NewSetting;
use cred_cli::Watched;
use cred_phc::{MAX_PASSWORD, Password};
use std::alloc::Global;
use std::io::Read;

/// The rules for a new password.
#[derive(Clone, Copy, Debug, PartialEq, Eq)]
pub struct NewPassword {
    /// The setting of its record.
    pub setting: NewSetting,
    /// Whether the password may be empty.
    pub empty: EmptyPassword,
}

/// The treatment of an empty new password.
#[derive(Clone, Copy, Debug, PartialEq, Eq)]
pub enum EmptyPassword {
    /// An empty password is refused.
    Refused,
    /// An empty password is accepted like any other.
    Taken,
}

/// The passwords that a command reads, a line each.
#[derive(Clone, Copy, Debug, PartialEq, Eq)]
pub enum Passwords {
    /// The account's password.
    Present,
    /// A new password.
    New(EmptyPassword),
    /// The account's password, and then a new one.
    PresentAndNew(EmptyPassword),
}

/// The passwords of the first line and of the last line, which may be the same line.
#[derive(Clone, Copy)]
pub(crate) struct Typed {
    pub(crate) first: Password,
    pub(crate) last: Password,
}

/// Reads passwords, a line each, and no byte after the last line.
///
/// Errors: those of [`read_password`]; `NoNewPassword` if the input ends after the first line of
/// two; `Empty` if a new password is empty, and empty ones are refused.
pub(crate) fn read_passwords<R: Read>(
    alloc: Global,
    wanted: Passwords,
    reader: &mut Watched<R>,
) -> Result<Typed, Fault>
    ensures read { (basis : Basis) → FitsSince basis reader.old reader.new
        → IfOk result (Reads wanted (reading_on basis R.remaining reader.old reader.new)) }
    ensures misread { (basis : Basis) → FitsSince basis reader.old reader.new
        → IfErr result (IsMisread wanted (reading_on basis R.remaining reader.old reader.new)) }
    ensures kept { OnOk result (failed_of reader.new ≡ failed_of reader.old) }
    ensures faults { IfErr result (ReadFails (failed_of reader.old) (failed_of reader.new)) }
{
    let was_ended = reader.ended();
    let first = read_password(alloc, reader)?;
    let empty = match wanted {
        Passwords::Present => return Ok(Typed { first, last: first }),
        Passwords::New(empty) if is_barred(empty, &first) => return Err(Fault::Empty),
        Passwords::New(_) => return Ok(Typed { first, last: first }),
        Passwords::PresentAndNew(empty) => empty,
    };
    if came_to_end(was_ended, reader) {
        return Err(Fault::NoNewPassword);
    }
    match read_password(alloc, reader) {
        Ok(last) if is_barred(empty, &last) => Err(Fault::Empty),
        Ok(last) => Ok(Typed { first, last }),
        Err(fault) => match fault {
            Fault::NoPassword => Err(Fault::NoNewPassword),
            _ => Err(fault),
        },
    }
}

/// Whether a new password is empty, and empty ones are refused.
fn is_barred(empty: EmptyPassword, pw: &Password) -> bool
    ensures { result ≡ is_barred empty pw.now }
{
    match empty {
        EmptyPassword::Refused => pw.bytes().is_empty(),
        EmptyPassword::Taken => false,
    }
}

/// Whether the reader came to its end in these calls. Then no line follows, even if a terminal
/// gives more bytes after its end.
fn came_to_end<R>(was_ended: bool, reader: &Watched<R>) -> bool
    ensures { result ≡ (not was_ended && ended_of reader.now) }
{
    !was_ended && reader.ended()
}

/// Reads one line: the bytes before the next line end, and that line end, or the bytes before the
/// end of the input. Reads no byte after the line.
///
/// Errors: `Read`; `Memory`; `NoPassword` at the end of the input; `Password` if the line has
/// over 256 bytes.
fn read_password<R: Read>(alloc: Global, reader: &mut Watched<R>) -> Result<Password, Fault>
    ensures line { (basis : Basis) → FitsSince basis reader.old reader.new
        → IfOk result (TakesLine (reading_on basis R.remaining reader.old reader.new)) }
    ensures misread { (basis : Basis) → FitsSince basis reader.old reader.new
        → IfErr result (MissesLine (reading_on basis R.remaining reader.old reader.new)) }
    ensures end { (basis : Basis) → FitsSince basis reader.old reader.new
        → ended_of reader.old ≡ false → ended_of reader.new ≡ true
        → OnOk result (IfSome (left_on basis R.remaining reader.old)
        (λ bytes. left_on basis R.remaining reader.new ≡ Some [])) }
    ensures given { GivesMore reader.old reader.new }
    ensures kept { OnOk result (failed_of reader.new ≡ failed_of reader.old) }
    ensures faults { IfErr result (ReadFails (failed_of reader.old) (failed_of reader.new)) }
{
    let mut line = Vec::new(alloc);
    for taken in 0..=MAX_PASSWORD {
        let Some(byte) = next_byte(reader)? else {
            if taken == 0 {
                return Err(Fault::NoPassword);
            }
            return password(&line);
        };
        if byte == b'\n' {
            return password(&line);
        }
        keep(&mut line, byte)?;
    }
    Err(Fault::Password)
}

/// Reads the next byte, or none at the end.
fn next_byte<R: Read>(reader: &mut Watched<R>) -> Result<Option<u8>, Fault>
    ensures byte { (basis : Basis) → FitsSince basis reader.old reader.new
        → IfOk result (λ byte. IfSome (left_on basis R.remaining reader.old)
        (λ bytes. Takes bytes (left_on basis R.remaining reader.new) byte)) }
    ensures goes_on { IfOk result (IsOpen (ended_of reader.old) (ended_of reader.new)) }
    ensures given { GivesMore reader.old reader.new }
    ensures kept { OnOk result (failed_of reader.new ≡ failed_of reader.old) }
    ensures fault { IfErr result (λ e. (e ≡ Fault.Read) × (failed_of reader.new ≡ true)) }
{
    let mut byte = [0];
    match reader.read(&mut byte) {
        Ok(0) => Ok(None),
        Ok(_) => Ok(Some(byte[0])),
        Err(_) => Err(Fault::Read),
    }
}

/// Builds the password of these bytes.
fn password(bytes: &[u8]) -> Result<Password, Fault>
    ensures value { IfOk result (λ pw. pw ≡ bytes.now) }
    ensures long { IfErr result (λ e.
        (e ≡ Fault.Password) × (MAX_PASSWORD < length bytes.now)) }
{
    Password::new(bytes).ok_or(Fault::Password)
}

fn keep(line: &mut Vec<u8>, byte: u8) -> Result<(), Fault>
    ensures kept { OnOk result (line.new.items ≡ line.old.items ++ byte ∷ []) }
    ensures memory { IfErr result (λ e. e ≡ Fault.Memory) }
{
    match line.push(byte) {
        Ok(()) => Ok(()),
        Err(_) => Err(Fault::Memory),
    }
}
