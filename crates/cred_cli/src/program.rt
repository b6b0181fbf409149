//! The program behind `main`.

ghost use Rattle.std.specs.Prelude.{◌≡◌, ◌⊎◌, ℕ, List, [], false, map};
ghost use Rattle.clap.specs.Words.{fault_of, subcommand_of, subcommand_rows_of};
ghost use Rattle.cred_cli.specs.{Arguments.credbook, Commands.Acts, Commands.Ends, Commands.Runs, Commands.is_run, Statuses.status_number};
ghost use Rattle.cred_cli.specs.Watched.{GivesAsContracted, IsLogged, IsNew, MayFollow, TakesAsContracted, reading, transcript_reading, transcript_writing, writing};

use crate::arguments::{matches_of, workers_of};
use crate::exit_status::ExitStatus;
use crate::fault::ScriptFault;
use crate::printing::failed;
use crate::script::run_script;
use crate::single::{check, hash};
use crate::tools::Tools;
use crate::watched::Watched;
use clap::ArgMatches;
use clap::error::ErrorKind;
use cred_book::Book;
use std::alloc::Global;
use std::io::{Read, Write};
use std::sync::Wait;
use std::thread::Threads;

/// Runs the program on the words after its name, and returns its exit status. The caller has made
/// no call on the reader or the writer.
///
/// `run` runs a script on an empty book, with status 0 if it answers the whole script, and 2 after
/// the faults `Read`, `Write` and `TooLong`. `hash` prints the record of a password, with status 0.
/// `check` prints `yes` with status 0, or `no` with status 4. A bad setting, record or password,
/// and words that don't parse, have status 1, a failed write has 2, and lack of memory has 3. Only
/// `run` calls the reader. `faults` gets the cause of the end, such as `credbook: read`, or
/// `clap`'s text. A failure of `faults` changes nothing.
pub fn command<T: Threads + Wait + Sync, R: Read, W: Write, F: Write>(
    rt: &T,
    alloc: Global,
    words: &[&str],
    reader: &mut Watched<R>,
    writer: &mut Watched<W>,
    faults: &mut F,
) -> u8
    requires new_reader { IsNew reader.old }
    requires new_writer { IsNew writer.old }
    ensures acts { fault_of credbook (map (λ s. s.now) words.entry.now) ≡ []
        → Acts (subcommand_of credbook (map (λ s. s.now) words.entry.now))
        (reading R.remaining reader.old reader.new)
        (writing W.contents writer.old writer.new) result
        ⊎ Ends ExitStatus.OutOfMemory (writing W.contents writer.old writer.new) result }
    ensures refused { (fault_of credbook (map (λ s. s.now) words.entry.now) ≡ [] → ⊥)
        → Ends ExitStatus.Refused (writing W.contents writer.old writer.new) result
        ⊎ Ends ExitStatus.OutOfMemory (writing W.contents writer.old writer.new) result }
    ensures unread { is_run (subcommand_of credbook (map (λ s. s.now) words.entry.now)) ≡ false
        → reader.new ≡ reader.old }
    ensures unparsed { (fault_of credbook (map (λ s. s.now) words.entry.now) ≡ [] → ⊥)
        → reader.new ≡ reader.old }
    ensures transcript { fault_of credbook (map (λ s. s.now) words.entry.now) ≡ []
        → (rest : List ℕ) → MayFollow rest reader.new
        → Acts (subcommand_of credbook (map (λ s. s.now) words.entry.now))
        (transcript_reading rest reader.new) (transcript_writing writer.old writer.new) result
        ⊎ Ends ExitStatus.OutOfMemory (transcript_writing writer.old writer.new) result }
    ensures transcript_refused { (fault_of credbook (map (λ s. s.now) words.entry.now) ≡ [] → ⊥)
        → Ends ExitStatus.Refused (transcript_writing writer.old writer.new) result
        ⊎ Ends ExitStatus.OutOfMemory (transcript_writing writer.old writer.new) result }
    ensures logged { IsLogged reader.old reader.new }
    ensures gives { GivesAsContracted R.remaining reader.old reader.new }
    ensures takes { TakesAsContracted W.contents writer.old writer.new }
{
    match matches_of(alloc, words) {
        Ok(matches) => act(rt, alloc, &matches, reader, writer, faults).number(),
        Err(error) => {
            if error.kind() == ErrorKind::OutOfMemory {
                return failed(faults, ScriptFault::Memory).number();
            }
            let _ = write!(faults, "{error}");
            ExitStatus::Refused.number()
        }
    }
}

fn act<T: Threads + Wait + Sync, R: Read, W: Write, F: Write>(
    rt: &T,
    alloc: Global,
    matches: &ArgMatches<'_>,
    reader: &mut Watched<R>,
    writer: &mut Watched<W>,
    faults: &mut F,
) -> ExitStatus
    requires new_reader { IsNew reader.old }
    requires new_writer { IsNew writer.old }
    ensures acts { Acts (subcommand_rows_of matches.now)
        (reading R.remaining reader.old reader.new)
        (writing W.contents writer.old writer.new) (status_number result) }
    ensures transcript { (rest : List ℕ) → MayFollow rest reader.new
        → Acts (subcommand_rows_of matches.now) (transcript_reading rest reader.new)
        (transcript_writing writer.old writer.new) (status_number result) }
    ensures logged { IsLogged reader.old reader.new }
    ensures gives { GivesAsContracted R.remaining reader.old reader.new }
    ensures takes { TakesAsContracted W.contents writer.old writer.new }
    ensures unread { is_run (subcommand_rows_of matches.now) ≡ false
        → reader.new ≡ reader.old }
{
    let Some((word, values)) = matches.subcommand() else {
        return ExitStatus::Refused;
    };
    let tools = Tools {
        rt,
        alloc,
        workers: workers_of(values),
    };
    if word == "run" {
        return run(&tools, reader, writer, faults);
    }
    if word == "hash" {
        return hash(&tools, values, writer, faults);
    }
    check(&tools, values, writer, faults)
}

fn run<T: Threads + Wait + Sync, R: Read, W: Write, F: Write>(
    tools: &Tools<'_, T>,
    reader: &mut Watched<R>,
    writer: &mut Watched<W>,
    faults: &mut F,
) -> ExitStatus
    requires new_reader { IsNew reader.old }
    requires new_writer { IsNew writer.old }
    ensures runs { Runs (reading R.remaining reader.old reader.new)
        (writing W.contents writer.old writer.new) (status_number result) }
    ensures transcript { (rest : List ℕ) → MayFollow rest reader.new
        → Runs (transcript_reading rest reader.new) (transcript_writing writer.old writer.new)
        (status_number result) }
    ensures logged { IsLogged reader.old reader.new }
    ensures gives { GivesAsContracted R.remaining reader.old reader.new }
    ensures takes { TakesAsContracted W.contents writer.old writer.new }
{
    let Ok(mut book) = Book::new(tools.alloc) else {
        return failed(faults, ScriptFault::Memory);
    };
    match run_script(
        tools.rt,
        tools.alloc,
        tools.workers,
        &mut book,
        reader,
        writer,
    ) {
        Ok(_) => ExitStatus::Done,
        Err(fault) => failed(faults, fault),
    }
}
