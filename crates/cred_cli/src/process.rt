//! The program as a process, with the words of its command line and a status for the shell.

ghost use Rattle.std.specs.{Prelude.◌≡◌, Prelude.◌⊎◌, Prelude.MatchResult, Process.exit_status};
ghost use Rattle.cred_cli.specs.Statuses.{status_number};

use crate::exit_status::ExitStatus;
use crate::program::command;
use crate::watched::Watched;
use std::env::Env;
use std::io::{ErrorKind, Read, Write};
use std::process::ExitCode;
use std::sync::Wait;
use std::thread::Threads;
use std::{env, io};

/// Runs [`command`] on the words of the process's command line, and returns its status to the
/// shell. The status is 1 for a word that isn't UTF-8, which `faults` reports, and 3 if memory for
/// the words runs out.
pub fn run_program<R, I, O, F>(rt: &R, input: I, output: O, faults: &mut F) -> ExitCode
where
    R: Env + AllocGlobal + Threads + Wait + Sync,
    I: Read + Drop,
    O: Write + Drop,
    F: Write,
{
    let ended = run_words(rt, input, output, faults);
    if let Err(error) = &ended {
        let what = match error.kind() {
            ErrorKind::OutOfMemory => "memory",
            _ => "a word is not UTF-8",
        };
        let _ = writeln!(faults, "credbook: {what}");
    }
    exit_code(&ended)
}

/// Returns the status of the command, if its words are UTF-8 and memory for them suffices.
fn exit_code(ended: &io::Result<u8>) -> ExitCode
    ensures { MatchResult ended.now (λ status. exit_status result ≡ status)
        (λ _. (exit_status result ≡ status_number ExitStatus.Refused)
        ⊎ (exit_status result ≡ status_number ExitStatus.OutOfMemory)) }
{
    match ended {
        Ok(status) => ExitCode::from(*status),
        Err(error) if error.kind() == ErrorKind::OutOfMemory => {
            ExitCode::from(ExitStatus::OutOfMemory.number())
        },
        Err(_) => ExitCode::from(ExitStatus::Refused.number()),
    }
}

fn run_words<R, I, O, F>(rt: &R, input: I, output: O, faults: &mut F) -> io::Result<u8>
where
    R: Env + AllocGlobal + Threads + Wait + Sync,
    I: Read + Drop,
    O: Write + Drop,
    F: Write,
{
    let args: Vec<String> = env::args(rt)?.skip(1).collect(rt.alloc())?;
    let words: Vec<&str> = args.iter().map(|word| word.as_str()).collect(rt.alloc())?;
    let mut reader = Watched::new(input);
    let mut writer = Watched::new(output);
    Ok(command(rt, rt.alloc(), &words, &mut reader, &mut writer, faults))
}
