//! The command of the command line.

use crate::arguments::credkeep;
use crate::book_commands::read_command;
use crate::commands::command_named;
use crate::options::{counts_in, either, number_in, text_in};
use crate::refusal::WordsRefusal;
use clap::{ArgMatches, Error};
use cred_admin::{NewSetting, Status};
use cred_cli::CostBounds;
use cred_keep::{BookCommand, CountsForm};
use cred_tries::TryLimit;
use std::alloc::Global;
use std::random::RandomSource;

/// A file, and a command on it.
#[derive(Drop)]
pub struct CommandLine<'a> {
    pub file: &'a str,
    /// The number of seconds for which the program tries a busy file.
    pub wait: u16,
    pub remarks: Remarks,
    pub counts: CountsForm,
    pub command: Command<'a>,
}

/// Whether a user may type passwords at a terminal, which shows them.
#[derive(Clone, Copy, PartialEq, Eq)]
pub enum Echo {
    Refused,
    Taken,
}

/// Whether the program writes warnings and progress.
#[derive(Clone, Copy, PartialEq, Eq)]
pub enum Remarks {
    Told,
    Hidden,
}

/// A command on a file.
#[derive(Drop)]
pub enum Command<'a> {
    /// Creates a book.
    Init,
    /// Writes a copy of the book to this place.
    Backup(&'a str),
    /// Replaces the book by this copy.
    Restore(&'a str),
    /// Reads the whole book and its log.
    Verify,
    /// Answers tagged lines of many clients.
    Tagged(Service),
    /// Does a command on a book.
    OnBook { command: BookCommand, echo: Echo },
}

/// The service of tagged lines.
#[derive(Clone, Copy)]
pub struct Service {
    /// The number of lines that are hashed at once, if the words have one.
    pub at_once: Option<u8>,
    /// The memory of all hashes together in KiB. A hash under the setting needs no more.
    pub memory: u64,
    /// The costs of new records, which are within the bounds.
    pub setting: NewSetting,
    /// The bounds on the setting or the record of a line.
    pub most: CostBounds,
    /// The number of failed tries at an account until the next has to wait, if there is a limit.
    pub tries: Option<TryLimit>,
}

/// Reads the process's words. Answers refused words and calls for help, and returns the exit status
/// of such an answer.
pub fn read_words<'a>(host: &HostRuntime, words: &'a [String]) -> Result<CommandLine<'a>, Status> {
    match line_of(host, words) {
        Ok(line) => Ok(line),
        Err(refusal) => Err(refusal.tell(host)),
    }
}

fn line_of<'a, R: RandomSource + AllocGlobal>(
    rt: &R,
    words: &'a [String],
) -> Result<CommandLine<'a>, WordsRefusal<'a>> {
    let matches = match parse(rt.alloc(), words) {
        Ok(matches) => matches,
        Err(error) => return Err(WordsRefusal::of_words(rt.alloc(), words, error)),
    };
    let Some((word, values)) = matches.subcommand() else {
        return Err(WordsRefusal::NoCommand);
    };
    let Some(text) = command_named(word) else {
        return Err(WordsRefusal::NoCommand);
    };
    Ok(CommandLine {
        file: text_in(&matches, "file"),
        wait: number_in(&matches, "wait", 0, 3600)?.unwrap_or(0),
        remarks: either(&matches, "quiet", Remarks::Hidden, Remarks::Told),
        counts: counts_in(values),
        command: read_command(rt, text.name, values)?,
    })
}

static HELP: [&str; 2] = ["credkeep", "--help"];

static VERSION: [&str; 2] = ["credkeep", "--version"];

fn parse<'a>(alloc: Global, words: &'a [String]) -> Result<ArgMatches<'a>, Error> {
    let command = credkeep(alloc)?;
    match meant_by(words) {
        Some(others) => command.try_get_matches_from(others),
        None => command.try_get_matches_from(words),
    }
}

/// Returns the words that a single word means: in other programs `help` and `version` are commands.
fn meant_by(words: &[String]) -> Option<&'static [&'static str]> {
    match words {
        [_, word] if word.as_str() == "help" => Some(&HELP),
        [_, word] if word.as_str() == "version" => Some(&VERSION),
        _ => None,
    }
}
