//! Reads the passwords of a command: lines of standard input, or lines that a user types at a
//! terminal that shows them.

use crate::command_line::Echo;
use crate::refusal::say;
use cred_admin::{Passwords, Status};
use cred_keep::BookCommand;
use cred_phc::MAX_PASSWORD;
use std::io::{BufRead, ErrorKind, IsTerminal, Read, Write};

const PRESENT: &str = "Password: ";

/// The size of the longest password line in bytes, with its end.
const LONGEST: u64 = MAX_PASSWORD as u64 + 1;

/// Reads the password lines of a command on a book, if the command reads any. The input must end
/// after them: a line end within a password would cut the password there. At a terminal, asks for
/// each password on standard error, and for a new one twice.
pub fn read_passwords(
    host: &HostRuntime,
    file: &str,
    command: &BookCommand,
    echo: Echo,
) -> Result<Option<Vec<u8>>, Status> {
    let BookCommand::Password { operation, .. } = command else {
        return Ok(None);
    };
    let passwords = operation.passwords();
    if !host.stdin().is_terminal() {
        return Ok(Some(read_lines(host, passwords)?));
    }
    match echo {
        Echo::Refused => Err(refuse_terminal(host, file)),
        Echo::Taken => Ok(Some(ask_lines(host, passwords)?)),
    }
}

/// Warns if the new password of a command ends in a carriage return.
pub fn advise(host: &HostRuntime, command: &BookCommand, lines: &[u8]) {
    let BookCommand::Password { operation, .. } = command else {
        return;
    };
    let is_new = match operation.passwords() {
        Passwords::Present => false,
        Passwords::New(_) | Passwords::PresentAndNew(_) => true,
    };
    let last = lines.strip_suffix(b"\n".as_slice()).unwrap_or(lines);
    if is_new && last.last() == Some(&b'\r') {
        let _ = writeln!(
            host.stderr(),
            "credkeep: hint: the new password ends in a carriage return, which counts: \
             tr -d '\\r' removes it"
        );
    }
}

/// Reads the input to its end, or to a byte that these passwords can't have. The input may still be
/// too short or too long: the command reports that.
fn read_lines(host: &HostRuntime, passwords: Passwords) -> Result<Vec<u8>, Status> {
    let (count, most, too_many) = match passwords {
        Passwords::Present | Passwords::New(_) => {
            (1, LONGEST + 1, "more than one line on standard input")
        }
        Passwords::PresentAndNew(_) => {
            (2, 2 * LONGEST + 1, "more than two lines on standard input")
        }
    };
    let mut lines = Vec::new(host.alloc());
    let mut input = host.stdin().take(most);
    match input.read_to_end(&mut lines) {
        Ok(_) if has_more(&lines, count) => Err(say(host, too_many, Status::Data)),
        Ok(_) => Ok(lines),
        Err(error) if error.kind() == ErrorKind::OutOfMemory => {
            Err(say(host, "out of memory", Status::Memory))
        }
        Err(_) => Err(say(host, "reading failed", Status::Io)),
    }
}

/// Whether the input goes on after so many lines.
fn has_more(bytes: &[u8], lines: u64) -> bool {
    let mut left = lines;
    for byte in bytes {
        if left == 0 {
            return true;
        }
        if *byte == b'\n' {
            left = left.saturating_sub(1);
        }
    }
    false
}

fn refuse_terminal(host: &HostRuntime, file: &str) -> Status {
    let _ = writeln!(
        host.stderr(),
        "credkeep: standard input is a terminal, which shows a password as it is typed: \
         write credkeep-ask in the place of credkeep, or\n  \
         systemd-ask-password | credkeep {file} ..\n\
         --echo asks here and shows it"
    );
    Status::Usage
}

/// Asks for the passwords at a terminal.
fn ask_lines(host: &HostRuntime, passwords: Passwords) -> Result<Vec<u8>, Status> {
    match passwords {
        Passwords::Present => ask_line(host, PRESENT),
        Passwords::New(_) => ask_new_line(host),
        Passwords::PresentAndNew(_) => {
            let mut lines = ask_line(host, PRESENT)?;
            let new = ask_new_line(host)?;
            match lines.extend_from_slice(&new) {
                Ok(()) => Ok(lines),
                Err(_) => Err(say(host, "out of memory", Status::Memory)),
            }
        }
    }
}

fn ask_new_line(host: &HostRuntime) -> Result<Vec<u8>, Status> {
    let new = ask_line(host, "New password: ")?;
    let again = ask_line(host, "The same again: ")?;
    if new != again {
        return Err(say(host, "the two new passwords differ", Status::Data));
    }
    Ok(new)
}

/// Asks for one line, and returns the line with its end.
fn ask_line(host: &HostRuntime, prompt: &str) -> Result<Vec<u8>, Status> {
    let _ = write!(host.stderr(), "{prompt}");
    let mut line = Vec::new(host.alloc());
    if host.stdin().lock().read_until(b'\n', &mut line).is_err() {
        return Err(say(host, "reading failed", Status::Io));
    }
    if line.last() != Some(&b'\n') {
        return Err(say(host, "no password on standard input", Status::Data));
    }
    Ok(line)
}
