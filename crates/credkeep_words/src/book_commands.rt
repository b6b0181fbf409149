//! Finds the command that a name and its options ask for.

use crate::command_line::{Command, Echo, Service};
use crate::commands::CommandName;
use crate::options::{
    either, importing_in, line_in, most_in, name_in, size_in, text_in, threads_in, tries_in,
};
use crate::refusal::WordsRefusal;
use clap::ArgMatches;
use cred_admin::{
    AccountOperation, Detail, EmptyPassword, LineForm, NewPassword, NewSetting, PasswordOperation,
    setting_of,
};
use cred_book::Name;
use cred_cli::{exceeds, memory_alone};
use cred_keep::BookCommand;
use cred_phc::{PhcError, draw_salt};
use rand::rngs::StdRng;
use rand::{Rng, make_rng};
use std::alloc::Global;
use std::random::RandomSource;

/// RFC 9106's second recommended choice: Argon2id, 64 MiB, three passes, four lanes.
pub(crate) const DEFAULT_SETTING: &str = "$argon2id$v=19$m=65536,t=3,p=4";

/// The default memory of all hashes of tagged lines together, in KiB.
const DEFAULT_MEMORY: u64 = 2097152;

/// Reads the command of this name with these options.
pub(crate) fn read_command<'a, R: RandomSource + AllocGlobal>(
    rt: &R,
    name: CommandName,
    values: &ArgMatches<'a>,
) -> Result<Command<'a>, WordsRefusal<'a>> {
    match name {
        CommandName::Init => Ok(Command::Init),
        CommandName::Backup => Ok(Command::Backup(text_in(values, "to"))),
        CommandName::Restore => Ok(Command::Restore(text_in(values, "from"))),
        CommandName::Verify => Ok(Command::Verify),
        CommandName::Serve if values.get_flag("tagged") => Ok(Command::Tagged(service_in(
            rt, values,
        )?)),
        CommandName::Serve => Err(WordsRefusal::Untagged),
        CommandName::List => list(values, line_in(values)),
        CommandName::Export => list(values, LineForm::Passwd(Detail::Record)),
        CommandName::Import => {
            let how = importing_in(values)?;
            on_book(values, BookCommand::Import { how })
        }
        CommandName::Show => show(values, name_in(values, "name")?),
        CommandName::Disable => disable(values, name_in(values, "name")?),
        CommandName::Delete => account(values, AccountOperation::Delete(name_in(values, "name")?)),
        CommandName::Rename => rename(values, name_in(values, "name")?),
        CommandName::Lock => account(values, AccountOperation::Lock(name_in(values, "name")?)),
        CommandName::Unlock => account(values, AccountOperation::Unlock(name_in(values, "name")?)),
        CommandName::Expire => account(values, AccountOperation::Expire(name_in(values, "name")?)),
        CommandName::Check => password(values, PasswordOperation::Check),
        CommandName::Remove => password(values, PasswordOperation::Remove),
        CommandName::Add => password(values, PasswordOperation::Add(new_password_in(rt, values)?)),
        CommandName::Change => password(
            values,
            PasswordOperation::Change(new_password_in(rt, values)?),
        ),
        CommandName::Reset => password(
            values,
            PasswordOperation::Reset(new_password_in(rt, values)?),
        ),
        CommandName::Upgrade => password(
            values,
            PasswordOperation::Upgrade(setting_in(rt, values)?),
        ),
    }
}

fn on_book<'a>(
    values: &ArgMatches<'a>,
    command: BookCommand,
) -> Result<Command<'a>, WordsRefusal<'a>> {
    Ok(Command::OnBook {
        command,
        echo: either(values, "echo", Echo::Taken, Echo::Refused),
    })
}

fn list<'a>(values: &ArgMatches<'a>, line: LineForm) -> Result<Command<'a>, WordsRefusal<'a>> {
    on_book(values, BookCommand::List { line })
}

fn account<'a>(
    values: &ArgMatches<'a>,
    operation: AccountOperation,
) -> Result<Command<'a>, WordsRefusal<'a>> {
    on_book(values, BookCommand::Account { operation })
}

fn password<'a>(
    values: &ArgMatches<'a>,
    operation: PasswordOperation,
) -> Result<Command<'a>, WordsRefusal<'a>> {
    let name = name_in(values, "name")?;
    on_book(values, BookCommand::Password { name, operation })
}

fn show<'a>(values: &ArgMatches<'a>, name: Name) -> Result<Command<'a>, WordsRefusal<'a>> {
    let detail = either(values, "record", Detail::Record, Detail::Costs);
    if values.get_flag("json") {
        on_book(values, BookCommand::ShowJson { name, detail })
    } else {
        on_book(values, BookCommand::Show { name, detail })
    }
}

fn disable<'a>(values: &ArgMatches<'a>, name: Name) -> Result<Command<'a>, WordsRefusal<'a>> {
    if values.get_flag("show") {
        on_book(values, BookCommand::DisableShown { name })
    } else {
        account(values, AccountOperation::Disable(name))
    }
}

fn rename<'a>(values: &ArgMatches<'a>, name: Name) -> Result<Command<'a>, WordsRefusal<'a>> {
    account(
        values,
        AccountOperation::Rename(name, name_in(values, "new")?),
    )
}

/// Reads the service of tagged lines, and checks that new records are within the bounds and have
/// room.
fn service_in<'a, R: RandomSource + AllocGlobal>(
    rt: &R,
    values: &ArgMatches<'a>,
) -> Result<Service, WordsRefusal<'a>> {
    let memory = size_in(values, "memory")?.unwrap_or(DEFAULT_MEMORY);
    let most = most_in(values)?;
    let setting = setting_in(rt, values)?;
    if exceeds(&most, &setting.setting()) {
        return Err(WordsRefusal::Costly);
    }
    let least = memory_alone(&setting.setting());
    if memory < least {
        return Err(WordsRefusal::Crowded(least));
    }
    Ok(Service {
        at_once: threads_in(values, "at-once", 255)?,
        memory,
        setting,
        most,
        tries: tries_in(values)?,
    })
}

fn new_password_in<'a, R: RandomSource + AllocGlobal>(
    rt: &R,
    values: &ArgMatches<'a>,
) -> Result<NewPassword, WordsRefusal<'a>> {
    Ok(NewPassword {
        setting: setting_in(rt, values)?,
        empty: either(
            values,
            "empty-password",
            EmptyPassword::Taken,
            EmptyPassword::Refused,
        ),
    })
}

/// Reads the setting of new records, with its own salt or a drawn one.
fn setting_in<'a, R: RandomSource + AllocGlobal>(
    rt: &R,
    values: &ArgMatches<'a>,
) -> Result<NewSetting, WordsRefusal<'a>> {
    let text = values.get_str("setting").unwrap_or(DEFAULT_SETTING);
    let Ok(mut source) = make_rng::<StdRng, R>(rt) else {
        return Err(WordsRefusal::Salt);
    };
    match salted(rt.alloc(), text, &mut source) {
        Ok(setting) => Ok(setting),
        Err(PhcError::Memory) => Err(WordsRefusal::Memory),
        Err(why) => Err(WordsRefusal::Setting { text, why }),
    }
}

/// Reads the setting of a text, with the source's next salt if the text has none.
fn salted<G: Rng>(alloc: Global, text: &str, source: &mut G) -> Result<NewSetting, PhcError> {
    setting_of(alloc, text.as_bytes(), &draw_salt(source))
}
