//! The subcommands on one setting or record: `hash` and `check`.

ghost use Rattle.std.specs.{Prelude.◌≡◌, Prelude.IfOk, Prelude.codes, Prelude.option_map, Io.KnownBytes.Keeps};
ghost use Rattle.clap.specs.Words.{first_of, found_of, rows_of};
ghost use Rattle.cred_book.specs.Works.{new_record};
ghost use Rattle.cred_cli.specs.Commands.{Checks, Hashes, password_word, record_line, to_check, to_hash};
ghost use Rattle.cred_cli.specs.{Statuses.status_number, Watched.Basis, Watched.TakesAsContracted, Watched.writing_on};

use crate::answer::record_line;
use crate::arguments::value;
use crate::exit_status::ExitStatus;
use crate::fault::ScriptFault;
use crate::fields;
use crate::printing::{failed, print, refused};
use crate::refusal::Refusal;
use crate::tools::Tools;
use crate::watched::Watched;
use clap::ArgMatches;
use cred_phc::{Password, Record, Setting};
use std::alloc::AllocError;
use std::io::Write;
use std::thread::Threads;

/// Prints the record of the password under the setting, with a tag of 32 bytes.
pub(crate) fn hash<T: Threads + Sync, W: Write, F: Write>(
    tools: &Tools<'_, T>,
    values: &ArgMatches<'_>,
    writer: &mut Watched<W>,
    faults: &mut F,
) -> ExitStatus
    ensures hashes { (basis : Basis)
        → Hashes (first_of (codes "setting") (rows_of (found_of values.now)))
        (first_of (codes "password") (rows_of (found_of values.now)))
        (writing_on basis W.contents writer.old writer.new) (status_number result) }
    ensures takes { TakesAsContracted W.contents writer.old writer.new }
{
    let Some(text) = value(values, "setting") else {
        return ExitStatus::Refused;
    };
    match to_hash(text, value(values, "password")) {
        Ok((setting, pw)) => match hash_line(tools, &setting, &pw) {
            Ok(line) => print(writer, faults, &line, ExitStatus::Done),
            Err(_) => failed(faults, ScriptFault::Memory),
        },
        Err(why) => refused(faults, why),
    }
}

/// Prints whether the record is the password's.
pub(crate) fn check<T: Threads + Sync, W: Write, F: Write>(
    tools: &Tools<'_, T>,
    values: &ArgMatches<'_>,
    writer: &mut Watched<W>,
    faults: &mut F,
) -> ExitStatus
    ensures checks { (basis : Basis)
        → Checks (first_of (codes "record") (rows_of (found_of values.now)))
        (first_of (codes "password") (rows_of (found_of values.now)))
        (writing_on basis W.contents writer.old writer.new) (status_number result) }
    ensures takes { TakesAsContracted W.contents writer.old writer.new }
{
    let Some(text) = value(values, "record") else {
        return ExitStatus::Refused;
    };
    match to_check(text, value(values, "password")) {
        Ok((stored, pw)) => match tools.hashing().is_right(&stored, &pw) {
            Ok(true) => print(writer, faults, b"yes\n", ExitStatus::Done),
            Ok(false) => print(writer, faults, b"no\n", ExitStatus::No),
            Err(_) => failed(faults, ScriptFault::Memory),
        },
        Err(why) => refused(faults, why),
    }
}

fn to_hash(text: &str, pw: Option<&str>) -> Result<(Setting, Password), Refusal>
    ensures { result ≡ to_hash text.now (option_map (λ s. s.now) pw.entry) }
{
    let setting = fields::setting(text.as_bytes())?;
    Ok((setting, password_word(pw)?))
}

fn to_check(text: &str, pw: Option<&str>) -> Result<(Record, Password), Refusal>
    ensures { result ≡ to_check text.now (option_map (λ s. s.now) pw.entry) }
{
    let stored = fields::stored(text.as_bytes())?;
    Ok((stored, password_word(pw)?))
}

fn password_word(pw: Option<&str>) -> Result<Password, Refusal>
    ensures { result ≡ password_word (option_map (λ s. s.now) pw.entry) }
{
    let read = match pw {
        None => Password::new(b""),
        Some(text) => Password::from_base64(text.as_bytes()),
    };
    read.ok_or(Refusal::Password)
}

fn hash_line<T: Threads + Sync>(
    tools: &Tools<'_, T>,
    setting: &Setting,
    pw: &Password,
) -> Result<Vec<u8>, AllocError>
    ensures { IfOk result (λ line. line.items ≡ record_line (new_record setting.now pw.now)) }
{
    let stored = tools.hashing().made(setting, pw).map_err(|_| AllocError)?;
    record_line(tools.alloc, &stored)
}
