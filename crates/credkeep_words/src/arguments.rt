//! The command line of `credkeep`, as `clap` reads it.

use crate::commands::{COMMANDS, CommandText};
use clap::{Arg, ArgAction, Command};
use std::alloc::{AllocError, Global};

const ABOUT: &str = "Keeps the password records of accounts in a database file";

const AFTER_HELP: &str = "\
A password is the bytes of one line of standard input, without its line end. At
a terminal use credkeep-ask, which takes the same commands and hides what you
type.

Examples:
  credkeep users.db init
  credkeep-ask users.db add ann
  printf '%s\\n' \"$pw\" | credkeep users.db add ann
  printf '%s\\n' \"$pw\" | credkeep users.db check ann
  printf '%s\\n%s\\n' \"$old\" \"$new\" | credkeep users.db change ann
  printf '%s\\n' \"$new\" | credkeep users.db reset ann
  printf '%s\\n' \"$pw\" | credkeep users.db add bob \\
    --setting '$argon2id$v=19$m=19456,t=2,p=1'
  credkeep users.db disable bob --show > bob.line
  credkeep users.db import --update < bob.line
  credkeep users.db rename ann anna
  credkeep users.db import < passwd
  credkeep users.db backup /backup/users.db
  credkeep users.db restore /backup/users.db
  credkeep users.db serve --tagged
  sqlite3 users.db 'SELECT name FROM account'

Exit statuses:
  0  the command succeeded, or `check` printed yes
  1  an argument was refused
  2  reading or writing failed
  3  out of memory
  4  no: a wrong password, no such account, no record, or one that exists
  5  the database failed, is busy, is missing, or holds no book
  6  the input was refused: no password, too many lines, a password that is
     empty or has over 256 bytes, a bad line of an import, or no room for an
     account

If the database fails during a change, the message names that change, which may
or may not be stored. Every change that was answered before is stored.
docs/ERRORS.md says what to do about each message.";

const FILE_HELP: &str = "The database file";

const NAME_HELP: &str = "The account: 1 to 32 of a-z, 0-9, '.', '_', '-'";

const NEW_NAME_HELP: &str = "The account's new name";

const SETTING_HELP: &str = "The scheme, the costs and, optionally, the salt of the new record;\n\
    without a salt, credkeep draws a random one\n\
    [default: $argon2id$v=19$m=65536,t=3,p=4]";

const TAGGED_HELP: &str = "Answers tagged lines: verify, login, enrol, change, reset and others;\n\
    required, since serve answers no other lines";

const AT_ONCE_HELP: &str = "Hashes at most this many lines at once, from 1 to 255\n\
    [default: as many as there are processors, and as --memory allows]";

const TRIES_HELP: &str = "After this many failed tries at an account, from 1 to 86, the next try\n\
    must wait [default: no limit]";

const MEMORY_HELP: &str = "Uses at most this memory for all hashes together: a number of KiB, or\n\
    one with the unit M or G, such as 512M [default: 2G]";

const MOST_MEMORY_HELP: &str = "Refuses each line whose setting or record needs more memory than\n\
    this: a number of KiB, or one with the unit M or G, such as 256M";

const MOST_WORK_HELP: &str = "Refuses each line whose setting or record needs more work than\n\
    this: the m of Argon2 times its t, or twice the memory of scrypt, as\n\
    a number of KiB, or one with the unit M or G, such as 1G";

const EMPTY_HELP: &str = "Accepts an empty line as the new password";

const ECHO_HELP: &str = "Asks at a terminal, which shows what is typed";

const SHOW_HELP: &str = "Writes the line NAME:RECORD before the record is removed";

const RECORD_HELP: &str = "The whole record, with its salt and its hash";

const SKIP_HELP: &str = "Leaves existing accounts as they are";

const UPDATE_HELP: &str = "Gives existing accounts the records of their lines";

const SKIP_BAD_HELP: &str = "Leaves bad lines out, and names each on standard error";

const DISABLE_LOCKED_HELP: &str =
    "Reads an account whose record is behind !, ~ or *, as passwd -l\n\
    writes it, as one without a record; otherwise such a line is bad";

const KEEP_LOCKED_HELP: &str = "Keeps the marks ! and ~ before a record, as export writes them:\n\
    an account behind ! is locked, and has its record";

const DRY_RUN_HELP: &str = "Changes nothing, and prints what the import would do";

const COSTS_HELP: &str = "Adds the scheme and the costs of each record, as NAME:COSTS";

const JSON_HELP: &str = "Answers in JSON, one object per line";

const QUIET_HELP: &str = "Writes no counts, warnings or progress";

const WAIT_HELP: &str =
    "Tries for so many seconds, from 0 to 3600, if another process has\nthe file open";

const TO_HELP: &str = "The file of the copy, which replaces an existing file in one step";

const FROM_HELP: &str = "The file of the copy, which is only read";

/// An operand or an option of the program, or of a command.
#[derive(Clone, Copy)]
pub(crate) enum Argument {
    File,
    Wait,
    Quiet,
    To,
    From,
    Name,
    NewName,
    Setting,
    Tagged,
    AtOnce,
    Tries,
    Memory,
    MostMemory,
    MostWork,
    EmptyPassword,
    Echo,
    Show,
    Record,
    SkipExisting,
    Update,
    SkipBad,
    DisableLocked,
    KeepLocked,
    DryRun,
    Costs,
    Json,
}

/// The form of an argument.
#[derive(Clone, Copy)]
enum Form {
    /// A word at its place, with the name of its value in help.
    Operand(&'static str),
    /// An option with a value, and the value's name in help.
    Valued(&'static str),
    /// An option with a value, the value's name in help, and its default.
    Defaulted(&'static str, &'static str),
    Flag,
}

/// The arguments that may stand before the command.
pub(crate) static PROGRAM: [Argument; 3] = [Argument::Wait, Argument::Quiet, Argument::File];

impl Argument {
    /// Returns the name of the argument, its form, and its text in help.
    fn text(self) -> (&'static str, Form, &'static str) {
        match self {
            Argument::File => ("file", Form::Operand("FILE"), FILE_HELP),
            Argument::Wait => ("wait", Form::Defaulted("SECONDS", "0"), WAIT_HELP),
            Argument::Quiet => ("quiet", Form::Flag, QUIET_HELP),
            Argument::To => ("to", Form::Operand("TO"), TO_HELP),
            Argument::From => ("from", Form::Operand("FROM"), FROM_HELP),
            Argument::Name => ("name", Form::Operand("NAME"), NAME_HELP),
            Argument::NewName => ("new", Form::Operand("NEW"), NEW_NAME_HELP),
            Argument::Setting => ("setting", Form::Valued("TEXT"), SETTING_HELP),
            Argument::Tagged => ("tagged", Form::Flag, TAGGED_HELP),
            Argument::AtOnce => ("at-once", Form::Valued("N"), AT_ONCE_HELP),
            Argument::Tries => ("tries", Form::Valued("N"), TRIES_HELP),
            Argument::Memory => ("memory", Form::Valued("SIZE"), MEMORY_HELP),
            Argument::MostMemory => ("most-memory", Form::Valued("SIZE"), MOST_MEMORY_HELP),
            Argument::MostWork => ("most-work", Form::Valued("SIZE"), MOST_WORK_HELP),
            Argument::EmptyPassword => ("empty-password", Form::Flag, EMPTY_HELP),
            Argument::Echo => ("echo", Form::Flag, ECHO_HELP),
            Argument::Show => ("show", Form::Flag, SHOW_HELP),
            Argument::Record => ("record", Form::Flag, RECORD_HELP),
            Argument::SkipExisting => ("skip-existing", Form::Flag, SKIP_HELP),
            Argument::Update => ("update", Form::Flag, UPDATE_HELP),
            Argument::SkipBad => ("skip-bad", Form::Flag, SKIP_BAD_HELP),
            Argument::DisableLocked => ("disable-locked", Form::Flag, DISABLE_LOCKED_HELP),
            Argument::KeepLocked => ("keep-locked", Form::Flag, KEEP_LOCKED_HELP),
            Argument::DryRun => ("dry-run", Form::Flag, DRY_RUN_HELP),
            Argument::Costs => ("costs", Form::Flag, COSTS_HELP),
            Argument::Json => ("json", Form::Flag, JSON_HELP),
        }
    }

    /// Returns the name of the argument, if the argument is an option.
    pub(crate) fn option(self) -> Option<&'static str> {
        match self.text() {
            (_, Form::Operand(_), _) => None,
            (name, _, _) => Some(name),
        }
    }
}

/// Builds the program, with all its commands.
pub(crate) fn credkeep<'a>(alloc: Global) -> Result<Command<'a>, AllocError> {
    let mut command = without_commands(alloc)?;
    for text in &COMMANDS {
        command = with_command(alloc, command, text)?;
    }
    Ok(command)
}

fn without_commands<'a>(alloc: Global) -> Result<Command<'a>, AllocError> {
    let command = Command::new(alloc, "credkeep")
        .version("0.2.0")
        .about(ABOUT)
        .after_help(AFTER_HELP)
        .subcommand_required(true)
        .disable_help_subcommand(true)
        .override_usage("credkeep [--wait <SECONDS>] <FILE> <COMMAND>");
    with_arguments(alloc, command, &PROGRAM)
}

/// Adds a command to the program. This function builds the command, so that no second one lives
/// while the caller may end early.
fn with_command<'a>(
    alloc: Global,
    command: Command<'a>,
    text: &CommandText,
) -> Result<Command<'a>, AllocError> {
    command.subcommand(command_of(alloc, text)?)
}

fn command_of<'a>(alloc: Global, text: &CommandText) -> Result<Command<'a>, AllocError> {
    let command = Command::new(alloc, text.name.word())
        .about(text.about)
        .long_about(text.long)
        .override_usage(text.usage);
    with_arguments(alloc, command, text.arguments)
}

fn with_arguments<'a>(
    alloc: Global,
    command: Command<'a>,
    arguments: &[Argument],
) -> Result<Command<'a>, AllocError> {
    let mut command = command;
    for argument in arguments {
        command = command.arg(arg_of(alloc, *argument))?;
    }
    Ok(command)
}

fn arg_of<'a>(alloc: Global, argument: Argument) -> Arg<'a> {
    let (name, form, help) = argument.text();
    let arg = match form {
        Form::Operand(value) => operand(alloc, name, value),
        Form::Valued(value) => option(alloc, name, value),
        Form::Defaulted(value, default) => defaulted(alloc, name, value, default),
        Form::Flag => flag(alloc, name),
    };
    arg.help(help)
        .next_line_help(true)
        .global(matches!(argument, Argument::Quiet))
}

fn operand<'a>(alloc: Global, id: &'static str, value: &'static str) -> Arg<'a> {
    Arg::new(alloc, id).value_name(value).required(true)
}

/// Builds an option with a value. A negative number is a value, which the option then refuses.
fn option<'a>(alloc: Global, id: &'static str, value: &'static str) -> Arg<'a> {
    Arg::new(alloc, id)
        .long(id)
        .value_name(value)
        .allow_negative_numbers(true)
}

fn defaulted<'a>(
    alloc: Global,
    id: &'static str,
    value: &'static str,
    default: &'static str,
) -> Arg<'a> {
    option(alloc, id, value).default_value(default)
}

fn flag<'a>(alloc: Global, id: &'static str) -> Arg<'a> {
    Arg::new(alloc, id).long(id).action(ArgAction::SetTrue)
}
