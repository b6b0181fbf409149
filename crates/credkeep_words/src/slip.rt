//! The meaning of a refused word. A text must not repeat the word, which may be a password.

use crate::arguments::{Argument, PROGRAM};
use crate::commands::{COMMANDS, CommandText};
use std::alloc::Global;
use strsim::osa_distance;

/// A name with so many wrong letters isn't similar to an option.
const FAR: usize = 3;

/// The fault of a word, and the option that the word is or resembles.
#[derive(Clone, Copy)]
pub(crate) enum Slip {
    /// The word is one too many.
    Unnamed,
    /// An option of the program, after the command.
    Late(&'static str),
    /// An option of the command, before it.
    Early(&'static str),
    /// An option of other commands.
    Elsewhere(&'static str),
    /// No option, but a word similar to this option.
    Misspelt(&'static str),
}

/// Returns the fault of the first option that is refused at its place, beside this command.
pub(crate) fn slip_in(alloc: Global, words: &[String], command: &CommandText) -> Slip {
    let mut is_behind = false;
    for word in words {
        if word.as_str() == command.name.word() {
            is_behind = true;
        }
        if let Some(text) = word.as_str().strip_prefix("--") {
            match slip_of(alloc, name_in(text), command, is_behind) {
                Slip::Unnamed => {}
                slip => return slip,
            }
        }
    }
    Slip::Unnamed
}

/// Returns the name of an option, without a value after it.
fn name_in(text: &str) -> &str {
    match text.split_once('=') {
        Some((name, _)) => name,
        None => text,
    }
}

fn slip_of(alloc: Global, name: &str, command: &CommandText, is_behind: bool) -> Slip {
    let Some(option) = option_like(alloc, name) else {
        return Slip::Unnamed;
    };
    if option != name {
        return Slip::Misspelt(option);
    }
    let is_programs = has(&PROGRAM, option);
    let is_commands = has(command.arguments, option) || has(&[Argument::Quiet], option);
    match (is_behind, is_programs, is_commands) {
        (false, true, _) | (true, _, true) => Slip::Unnamed,
        (true, true, false) => Slip::Late(option),
        (false, false, true) => Slip::Early(option),
        (_, false, false) => Slip::Elsewhere(option),
    }
}

/// Whether one of the arguments is this option.
fn has(arguments: &[Argument], option: &str) -> bool {
    for argument in arguments {
        if argument.option() == Some(option) {
            return true;
        }
    }
    false
}

/// Returns the option with the most similar name, if one is similar.
fn option_like(alloc: Global, name: &str) -> Option<&'static str> {
    let mut best = nearer(alloc, &PROGRAM, name, (FAR, None));
    for command in &COMMANDS {
        best = nearer(alloc, command.arguments, name, best);
    }
    best.1
}

/// Returns the option of these arguments with the most similar name, if this name is more similar
/// than the best so far.
fn nearer(
    alloc: Global,
    arguments: &[Argument],
    name: &str,
    best: (usize, Option<&'static str>),
) -> (usize, Option<&'static str>) {
    let (mut least, mut found) = best;
    for argument in arguments {
        let Some(option) = argument.option() else {
            continue;
        };
        let distance = osa_distance(alloc, option, name).unwrap_or(FAR);
        if distance < least {
            least = distance;
            found = Some(option);
        }
    }
    (least, found)
}
