//! The commands, and their help.

use crate::arguments::Argument;
use std::io;
use std::io::Write;

/// The name of a command.
#[derive(Clone, Copy)]
pub(crate) enum CommandName {
    Init,
    Serve,
    Add,
    Check,
    Change,
    Reset,
    Upgrade,
    Remove,
    Disable,
    Delete,
    Rename,
    Lock,
    Unlock,
    Expire,
    Show,
    List,
    Export,
    Import,
    Backup,
    Restore,
    Verify,
}

impl CommandName {
    /// Returns the word of the command.
    pub(crate) fn word(self) -> &'static str {
        match self {
            CommandName::Init => "init",
            CommandName::Serve => "serve",
            CommandName::Add => "add",
            CommandName::Check => "check",
            CommandName::Change => "change",
            CommandName::Reset => "reset",
            CommandName::Upgrade => "upgrade",
            CommandName::Remove => "remove",
            CommandName::Disable => "disable",
            CommandName::Delete => "delete",
            CommandName::Rename => "rename",
            CommandName::Lock => "lock",
            CommandName::Unlock => "unlock",
            CommandName::Expire => "expire",
            CommandName::Show => "show",
            CommandName::List => "list",
            CommandName::Export => "export",
            CommandName::Import => "import",
            CommandName::Backup => "backup",
            CommandName::Restore => "restore",
            CommandName::Verify => "verify",
        }
    }
}

/// A command, its help with lines of at most 80 columns, and its arguments.
pub(crate) struct CommandText {
    pub(crate) name: CommandName,
    pub(crate) about: &'static str,
    pub(crate) long: &'static str,
    pub(crate) usage: &'static str,
    pub(crate) arguments: &'static [Argument],
}

pub(crate) static COMMANDS: [CommandText; 21] = [
    CommandText {
        name: CommandName::Init,
        about: "Creates an empty book in a new file",
        long: "Creates an empty book in a new file, which only its owner may read and write.",
        usage: "credkeep <FILE> init",
        arguments: &[],
    },
    CommandText {
        name: CommandName::Serve,
        about: "Answers the lines of many clients until the input ends",
        long: "Answers the lines of many clients, each TAG OPERATION .., in any order, until\n\
            the input ends. Each change is on the disk before its line gets an answer.\n\
            docs/SERVING.md has the operations and their answers.",
        usage: "credkeep <FILE> serve --tagged [OPTIONS]",
        arguments: &[
            Argument::Tagged,
            Argument::AtOnce,
            Argument::Tries,
            Argument::Memory,
            Argument::MostMemory,
            Argument::MostWork,
            Argument::Setting,
        ],
    },
    CommandText {
        name: CommandName::Add,
        about: "Gives an account its first password",
        long: "Gives an account its first password, one line of standard input. An account\n\
            that doesn't exist is added first.\n\
            Prints enrolled, or exists with status 4.",
        usage: "credkeep <FILE> add [OPTIONS] <NAME>",
        arguments: &[
            Argument::Name,
            Argument::Setting,
            Argument::EmptyPassword,
            Argument::Echo,
        ],
    },
    CommandText {
        name: CommandName::Check,
        about: "Prints whether a password is right",
        long: "Prints whether a password, one line of standard input, is right.\n\
            Prints yes, or one of these with status 4: no, expired (right, but it must be\n\
            changed), absent (no record) or noaccount. A locked account has no right\n\
            password.",
        usage: "credkeep <FILE> check [OPTIONS] <NAME>",
        arguments: &[Argument::Name, Argument::Echo],
    },
    CommandText {
        name: CommandName::Change,
        about: "Replaces a password by a new one",
        long: "Replaces a password, the first line of standard input, by a new one, the second.\n\
            Prints replaced, or one of these with status 4: wrong, same (the new password\n\
            must differ), absent or noaccount.",
        usage: "credkeep <FILE> change [OPTIONS] <NAME>",
        arguments: &[
            Argument::Name,
            Argument::Setting,
            Argument::EmptyPassword,
            Argument::Echo,
        ],
    },
    CommandText {
        name: CommandName::Reset,
        about: "Gives an account a new password, without the old one",
        long: "Gives an account a new password, one line of standard input, without the old\n\
            one. A lock stays.\n\
            Prints replaced, enrolled if there was no record, or noaccount with status 4.",
        usage: "credkeep <FILE> reset [OPTIONS] <NAME>",
        arguments: &[
            Argument::Name,
            Argument::Setting,
            Argument::EmptyPassword,
            Argument::Echo,
        ],
    },
    CommandText {
        name: CommandName::Upgrade,
        about: "Rehashes a password with another scheme or other costs",
        long: "Rehashes a password, one line of standard input, if its record has another\n\
            scheme or other costs than --setting.\n\
            Prints upgraded or kept, or one of these with status 4: wrong, expired, absent\n\
            or noaccount.",
        usage: "credkeep <FILE> upgrade [OPTIONS] <NAME>",
        arguments: &[Argument::Name, Argument::Setting, Argument::Echo],
    },
    CommandText {
        name: CommandName::Remove,
        about: "Removes the record of an account, with its password",
        long: "Removes the record of an account if the password, one line of standard input, is\n\
            right. The name stays.\n\
            Prints removed, or one of these with status 4: wrong, expired, absent or\n\
            noaccount.",
        usage: "credkeep <FILE> remove [OPTIONS] <NAME>",
        arguments: &[Argument::Name, Argument::Echo],
    },
    CommandText {
        name: CommandName::Disable,
        about: "Removes the record of an account, without its password",
        long: "Removes the record of an account without asking for its password. The name\n\
            stays, and no password is right for it.\n\
            Prints disabled, or one of these with status 4: absent or noaccount. With\n\
            --show the command prints the line NAME:RECORD instead, which import --update\n\
            puts back.",
        usage: "credkeep <FILE> disable [OPTIONS] <NAME>",
        arguments: &[Argument::Name, Argument::Show],
    },
    CommandText {
        name: CommandName::Delete,
        about: "Deletes an account with its record",
        long: "Deletes an account with its record, without asking for its password.\n\
            Prints deleted, or noaccount with status 4.",
        usage: "credkeep <FILE> delete <NAME>",
        arguments: &[Argument::Name],
    },
    CommandText {
        name: CommandName::Rename,
        about: "Gives an account another name",
        long: "Gives an account another name, which no account has yet.\n\
            Prints renamed, or one of these with status 4: exists or noaccount.",
        usage: "credkeep <FILE> rename <NAME> <NEW>",
        arguments: &[Argument::Name, Argument::NewName],
    },
    CommandText {
        name: CommandName::Lock,
        about: "Locks an account: each password is wrong",
        long: "Locks an account: each password is wrong from now on. The record stays, and\n\
            reset doesn't end the lock.\n\
            Prints locked, or noaccount with status 4.",
        usage: "credkeep <FILE> lock <NAME>",
        arguments: &[Argument::Name],
    },
    CommandText {
        name: CommandName::Unlock,
        about: "Unlocks an account",
        long: "Unlocks an account: its password is right again.\n\
            Prints unlocked, or one of these with status 4: none (no lock) or noaccount.",
        usage: "credkeep <FILE> unlock <NAME>",
        arguments: &[Argument::Name],
    },
    CommandText {
        name: CommandName::Expire,
        about: "Requires another password for an account",
        long: "Requires another password for an account: check prints expired for the present\n\
            one until change or reset sets another.\n\
            Prints expired, or one of these with status 4: absent (no record) or noaccount.",
        usage: "credkeep <FILE> expire <NAME>",
        arguments: &[Argument::Name],
    },
    CommandText {
        name: CommandName::Show,
        about: "Shows the costs of a record, or the record",
        long: "Shows the scheme and the costs of an account's record, or the whole record.\n\
            Prints, with status 4, absent if there is no record, or noaccount if there is no\n\
            such account.",
        usage: "credkeep <FILE> show [OPTIONS] <NAME>",
        arguments: &[Argument::Name, Argument::Record, Argument::Json],
    },
    CommandText {
        name: CommandName::List,
        about: "Lists the names, a line each",
        long: "Lists the names, a line each, in their order.",
        usage: "credkeep <FILE> list [OPTIONS]",
        arguments: &[Argument::Costs, Argument::Json],
    },
    CommandText {
        name: CommandName::Export,
        about: "Writes the accounts, a line NAME:RECORD each",
        long: "Writes the accounts, a line NAME:RECORD each, or NAME: if there is no record. A\n\
            record comes after ! if its account is locked, and after ~ if its password must\n\
            be changed: import --keep-locked reads both.",
        usage: "credkeep <FILE> export",
        arguments: &[],
    },
    CommandText {
        name: CommandName::Import,
        about: "Adds the accounts of lines NAME:RECORD",
        long: "Adds the accounts of lines NAME:RECORD from standard input. Lines in the form of\n\
            htpasswd's, Dovecot's or Django's are read too, if their records are of Argon2\n\
            or scrypt. If a line is bad, the command reports each bad line and adds\n\
            nothing. It skips empty lines and lines that begin with #.\n\
            Prints the numbers of accounts added and updated, of lines left out\n\
            because their accounts exist, and of bad lines.",
        usage: "credkeep <FILE> import [OPTIONS]",
        arguments: &[
            Argument::SkipExisting,
            Argument::Update,
            Argument::SkipBad,
            Argument::DisableLocked,
            Argument::KeepLocked,
            Argument::MostMemory,
            Argument::MostWork,
            Argument::DryRun,
            Argument::Json,
        ],
    },
    CommandText {
        name: CommandName::Backup,
        about: "Copies the book into another file, even while a server has it open",
        long: "Copies the book into another file, even while a server has it open. The copy\n\
            is whole and has no log.\n\
            Prints the numbers of its accounts and of changes in the log.",
        usage: "credkeep <FILE> backup <TO>",
        arguments: &[Argument::To],
    },
    CommandText {
        name: CommandName::Restore,
        about: "Replaces the book by a copy",
        long: "Replaces the book, which no process may have open, by a copy, and removes the\n\
            old log.\n\
            Prints the number of its accounts.",
        usage: "credkeep [--wait <SECONDS>] <FILE> restore <FROM>",
        arguments: &[Argument::From],
    },
    CommandText {
        name: CommandName::Verify,
        about: "Reads the whole book, even while a server has it open",
        long: "Reads the whole book and its log, even while a server has it open.\n\
            Prints the numbers of accounts and of changes in the log, or names the damage.",
        usage: "credkeep <FILE> verify [OPTIONS]",
        arguments: &[Argument::Json],
    },
];

/// Returns the command that this word names, if any.
pub(crate) fn command_named(word: &str) -> Option<&'static CommandText> {
    for text in &COMMANDS {
        if text.name.word() == word {
            return Some(text);
        }
    }
    None
}

/// Returns the command of the first word that names one, if any.
pub(crate) fn command_in(words: &[String]) -> Option<&'static CommandText> {
    for word in words {
        if let Some(text) = command_named(word.as_str()) {
            return Some(text);
        }
    }
    None
}

/// Writes the words of all commands, in a line.
pub(crate) fn write_commands<W: Write>(out: &mut W) -> io::Result<()> {
    write!(out, "The commands:")?;
    for text in &COMMANDS {
        write!(out, " {}", text.name.word())?;
    }
    writeln!(out)
}
