//! The texts on refused words, and their exit statuses.

use crate::book_commands::DEFAULT_SETTING;
use crate::commands::{CommandName, CommandText, command_in, write_commands};
use crate::costs::write_range;
use crate::slip::{Slip, slip_in};
use clap::Error;
use clap::error::ErrorKind;
use cred_admin::Status;
use cred_book::BookError;
use cred_keep::NAME_RULE;
use cred_phc::PhcError;
use std::alloc::Global;
use std::io;
use std::io::Write;

/// The reason why the words of the command line are refused.
#[derive(Drop)]
pub(crate) enum WordsRefusal<'a> {
    /// The words don't parse, or they ask for help or the version.
    Words(Error),
    /// No word is a command.
    NoCommand,
    /// The words ask for a service of lines without tags.
    Untagged,
    /// This command has a word or an option too many.
    Unknown(&'static CommandText, Slip),
    /// No account can have this name.
    Name { text: &'a str, why: BookError },
    /// The text of the setting has this fault.
    Setting { text: &'a str, why: PhcError },
    /// The text of this option isn't a size.
    Size(&'static str),
    /// The text of this option isn't a number in this range.
    Number(&'static str, u16, u16),
    /// The setting needs more memory or work than the bound on the lines.
    Costly,
    /// A hash under the setting needs so many KiB, which is more than all hashes together may need.
    Crowded(u64),
    /// Existing accounts can't both stay as they are and be updated.
    Existing,
    /// Locked records can't both be dropped and kept.
    Locked,
    /// The system has no random bytes for a salt.
    Salt,
    /// Memory ran out.
    Memory,
}

impl<'a> WordsRefusal<'a> {
    /// Returns the reason why the words don't parse. The reason doesn't repeat an excess word,
    /// which may be a password.
    pub(crate) fn of_words(alloc: Global, words: &[String], error: Error) -> WordsRefusal<'a> {
        match error.kind() {
            ErrorKind::UnknownArgument | ErrorKind::InvalidSubcommand => match command_in(words) {
                Some(command) => WordsRefusal::Unknown(command, slip_in(alloc, words, command)),
                None => WordsRefusal::NoCommand,
            },
            ErrorKind::OutOfMemory => WordsRefusal::Memory,
            _ => WordsRefusal::Words(error),
        }
    }

    /// Writes the reason on standard error, but help and the version on standard output.
    pub(crate) fn tell(&self, host: &HostRuntime) -> Status {
        match self {
            WordsRefusal::Words(error) => return tell_words(host, error),
            WordsRefusal::Memory => return say(host, "out of memory", Status::Memory),
            WordsRefusal::Salt => return say(host, "the system has no random bytes", Status::Io),
            _ => {}
        }
        let _ = self.write(&mut host.stderr());
        Status::Usage
    }

    fn write<W: Write>(&self, out: &mut W) -> io::Result<()> {
        match self {
            WordsRefusal::NoCommand => write_no_command(out),
            WordsRefusal::Untagged => writeln!(
                out,
                "credkeep: serve: it answers tagged lines alone: write serve --tagged"
            ),
            WordsRefusal::Unknown(command, slip) => write_unknown(out, command, *slip),
            WordsRefusal::Name { text, why } => write_name(out, text, *why),
            WordsRefusal::Setting { text, why } => write_setting(out, text, *why),
            WordsRefusal::Size(option) => writeln!(
                out,
                "credkeep: --{option}: a size is a number of KiB, or one with K, M or G behind it"
            ),
            WordsRefusal::Number(option, low, high) => writeln!(
                out,
                "credkeep: --{option}: give a number from {low} to {high}"
            ),
            WordsRefusal::Costly => writeln!(
                out,
                "credkeep: --setting: its hash needs more than --most-memory or --most-work \
                 allows (18 costly)"
            ),
            WordsRefusal::Crowded(kib) => writeln!(
                out,
                "credkeep: --memory: a hash under --setting needs more: {kib} KiB (4 memory)"
            ),
            WordsRefusal::Existing => writeln!(
                out,
                "credkeep: --skip-existing and --update exclude each other: an existing account \
                 stays as it is, or is updated"
            ),
            WordsRefusal::Locked => writeln!(
                out,
                "credkeep: --disable-locked and --keep-locked exclude each other: a locked record \
                 is dropped, or kept"
            ),
            WordsRefusal::Words(_) | WordsRefusal::Salt | WordsRefusal::Memory => Ok(()),
        }
    }
}

fn tell_words(host: &HostRuntime, error: &Error) -> Status {
    let written = error.print(host);
    match error.kind() {
        ErrorKind::DisplayHelp | ErrorKind::DisplayVersion => match written {
            Ok(()) => Status::Done,
            Err(_) => say(host, "writing failed", Status::Io),
        },
        _ => Status::Usage,
    }
}

fn write_no_command<W: Write>(out: &mut W) -> io::Result<()> {
    writeln!(out, "credkeep: no word is a command")?;
    write_commands(out)?;
    writeln!(out, "\nFor more information, try '--help'.")
}

fn write_unknown<W: Write>(out: &mut W, command: &CommandText, slip: Slip) -> io::Result<()> {
    write_slip(out, command.name, slip)?;
    writeln!(
        out,
        "\nUsage: {}\n\nFor more information, try '--help'.",
        command.usage
    )
}

/// Names the option that is safe to name, but never a word of the command line.
fn write_slip<W: Write>(out: &mut W, name: CommandName, slip: Slip) -> io::Result<()> {
    let word = name.word();
    write!(out, "credkeep: {word}: ")?;
    match slip {
        Slip::Unnamed => write_unnamed(out, name),
        Slip::Late(option) => writeln!(out, "write --{option} before FILE"),
        Slip::Early(option) => writeln!(out, "write --{option} behind {word}"),
        Slip::Elsewhere(option) => writeln!(out, "it has no option --{option}"),
        Slip::Misspelt(option) => writeln!(
            out,
            "an unknown option, which isn't shown; --{option} is similar"
        ),
    }
}

fn write_unnamed<W: Write>(out: &mut W, name: CommandName) -> io::Result<()> {
    writeln!(
        out,
        "a word or an option too many, which isn't shown: it may be a password"
    )?;
    match name {
        CommandName::Serve | CommandName::Import => {
            writeln!(out, "The input is read from standard input: write < INPUT")
        }
        CommandName::Verify => writeln!(
            out,
            "verify reads the whole book; write check NAME to check a password."
        ),
        _ => writeln!(out, "A password is read from standard input."),
    }
}

fn write_name<W: Write>(out: &mut W, text: &str, why: BookError) -> io::Result<()> {
    let (number, word) = (why.number(), why.word());
    write!(out, "credkeep: {NAME_RULE}; this ")?;
    write_bad_byte(out, text)?;
    writeln!(out, " ({number} {word})")
}

fn write_bad_byte<W: Write>(out: &mut W, text: &str) -> io::Result<()> {
    match text.as_bytes().iter().find(|byte| !is_name_byte(**byte)) {
        Some(b'\r') => write!(out, "has a carriage return"),
        Some(b'A'..=b'Z') => write!(out, "has a capital letter"),
        Some(byte @ 32..=126) => write!(out, "has '{}'", char::from(*byte)),
        Some(128..=255) => write!(out, "has a letter that isn't ASCII"),
        Some(byte) => write!(out, "has the byte {byte}"),
        None => write!(out, "has {}", text.len()),
    }
}

fn is_name_byte(byte: u8) -> bool {
    matches!(byte, b'a'..=b'z' | b'0'..=b'9' | b'.' | b'_' | b'-')
}

fn write_setting<W: Write>(out: &mut W, text: &str, why: PhcError) -> io::Result<()> {
    let (number, word) = (why.number(), why.word());
    write!(out, "credkeep: --setting: ")?;
    write_fault(out, text, why)?;
    writeln!(out, " ({number} {word})")
}

/// Writes the number that is outside its range, the form of a setting, or the fault.
fn write_fault<W: Write>(out: &mut W, text: &str, why: PhcError) -> io::Result<()> {
    match why {
        PhcError::Range => write_range(out, text),
        PhcError::Shape => write!(
            out,
            "write it as '{DEFAULT_SETTING}' or '$scrypt$ln=17,r=8,p=1', in single quotes"
        ),
        PhcError::Version => write!(
            out,
            "write v=19 behind the scheme, as in '{DEFAULT_SETTING}'"
        ),
        PhcError::Params => write!(
            out,
            "the costs are written as m=65536,t=3,p=4, or ln=17,r=8,p=1 for scrypt"
        ),
        _ => write!(out, "{why}"),
    }
}

/// Writes a text on standard error, and returns the exit status.
pub fn say(host: &HostRuntime, text: &str, status: Status) -> Status {
    let _ = writeln!(host.stderr(), "credkeep: {text}");
    status
}
