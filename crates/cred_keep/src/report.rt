//! The texts on standard error.

ghost use Rattle.std.specs.Prelude.{◌≡◌, option_map};
ghost use Rattle.cred_keep.specs.BookCommands.{status_of_end, status_of_open, unless_lost};

use crate::import::{Effect, Imported};
use crate::outcome::{CommandResult, Failure};
use cred_admin::{BadLine, Fault, Hint, ImportFault, LineFault, Status};
use cred_book::{BookError, Register};
use cred_file::{Attempt, Lost, OpenFault};
use cred_phc::PhcError;
use sqlite::{Error, ErrorCode};
use std::io;
use std::io::Write;

/// The maximum number of accounts that a message names when their changes were lost together.
const MOST_NAMED: usize = 64;

/// The rule for names, in the words of refusals.
pub const NAME_RULE: &str = "a name has 1 to 32 of a-z, 0-9, '.', '_', '-'";

/// Writes the remarks on a command's end, and returns the status: `Database` if a change is lost.
/// A failure of `faults` changes nothing.
pub(crate) fn tell_end<F: Write>(
    faults: &mut F,
    ended: Result<CommandResult, Failure>,
    lost: Option<&Lost>,
) -> Status
    ensures { result ≡ status_of_end (unless_lost (option_map (λ l. l.now) lost.entry) ended) }
{
    match (lost, ended) {
        (Some(_), _) => {
            explain(faults, &Failure::Database, lost);
            Failure::Database.status()
        }
        (None, Ok(command_result)) => {
            advise(faults, &command_result);
            command_result.status()
        }
        (None, Err(failure)) => {
            explain(faults, &failure, lost);
            failure.status()
        }
    }
}

/// Writes the remarks on the result of a command: the reason why a refused password may be wrong,
/// and the lines that an import left out. A failure of `faults` changes nothing.
fn advise<F: Write>(faults: &mut F, command_result: &CommandResult) {
    let _ = match command_result {
        CommandResult::Answered(Status::No(Some(Hint::CarriageReturn))) => writeln!(
            faults,
            "credkeep: hint: the password that was read ends in a carriage return, which counts: \
             tr -d '\\r' removes it"
        ),
        CommandResult::Answered(_) => Ok(()),
        CommandResult::Imported(made) => tell_imported(faults, made),
    };
}

fn tell_imported<F: Write>(faults: &mut F, made: &Imported) -> io::Result<()> {
    tell_lines(faults, &made.bad)?;
    match made.effect {
        Effect::Made => Ok(()),
        Effect::Foretold => writeln!(faults, "credkeep: a dry run: nothing was changed"),
    }
}

/// Writes the fault of a command, with the book's lost change if the database failed. A failure of
/// `faults` changes nothing.
pub fn explain<F: Write>(faults: &mut F, failure: &Failure, lost: Option<&Lost>) {
    let _ = match failure {
        Failure::Database => match lost {
            Some(lost) => tell_lost(faults, lost),
            None => writeln!(faults, "credkeep: the database failed"),
        },
        Failure::Command(Fault::Empty) => writeln!(
            faults,
            "credkeep: the password is empty: --empty-password accepts it"
        ),
        Failure::Command(fault) => writeln!(faults, "credkeep: {fault}"),
        Failure::Import(ImportFault::Read) => writeln!(faults, "credkeep: reading failed"),
        Failure::Import(ImportFault::Memory) => writeln!(faults, "credkeep: out of memory"),
        Failure::Import(ImportFault::Full) => writeln!(
            faults,
            "credkeep: the book has no room for so many accounts (2 full)"
        ),
        Failure::Import(ImportFault::Lines(bad)) => tell_lines(faults, bad),
    };
}

fn tell_lost<F: Write>(faults: &mut F, lost: &Lost) -> io::Result<()> {
    write!(faults, "credkeep: the database failed: {}; ", lost.error)?;
    match &lost.attempt {
        Attempt::Put { name, .. }
        | Attempt::Mark { name, .. }
        | Attempt::Delete(name)
        | Attempt::Rename { name, .. } => {
            write!(faults, "the change of ")?;
            faults.write_all(name.bytes())?;
            writeln!(faults, " may be kept or not")
        }
        Attempt::TakeIn { added, changed, .. } if added.len() == 0 => {
            tell_lost_changes(faults, changed)
        }
        Attempt::TakeIn { added, changed, .. } => tell_lost_import(
            faults,
            added.len(),
            changed.len(),
        ),
    }
}

/// Names the accounts whose records an update would have replaced together, unless there are too
/// many.
fn tell_lost_changes<F: Write>(faults: &mut F, changed: &Register) -> io::Result<()> {
    write!(faults, "the changes of")?;
    for (name, _) in changed.iter().take(MOST_NAMED) {
        write!(faults, " ")?;
        faults.write_all(name.bytes())?;
    }
    let others = changed.len().saturating_sub(MOST_NAMED);
    if others > 0 {
        write!(faults, " and {others} others")?;
    }
    writeln!(faults, " may be kept or not, all or none of them")
}

fn tell_lost_import<F: Write>(faults: &mut F, added: usize, changed: usize) -> io::Result<()> {
    write!(faults, "the {added} new accounts ")?;
    if changed > 0 {
        write!(faults, "and the records of {changed} others ")?;
    }
    writeln!(faults, "may be kept or not, all or none of them")
}

fn tell_lines<F: Write>(faults: &mut F, lines: &[BadLine]) -> io::Result<()> {
    for line in lines {
        let (number, word) = (line.why.number(), line.why.word());
        write!(faults, "credkeep: line {}: ", line.number)?;
        tell_why(faults, line.why)?;
        writeln!(faults, " ({number} {word})")?;
    }
    Ok(())
}

fn tell_why<F: Write>(faults: &mut F, why: LineFault) -> io::Result<()> {
    match why {
        LineFault::Line => write!(faults, "it is neither NAME:RECORD nor NAME:"),
        LineFault::Text(PhcError::Scheme) => {
            write!(faults, "its record is not of Argon2 or scrypt")
        }
        LineFault::Text(fault) => write!(faults, "its record: {fault}"),
        LineFault::Book(BookError::Name) => write!(
            faults,
            "its first field is no name: {NAME_RULE}"
        ),
        LineFault::Book(refusal) => write!(faults, "{refusal}"),
        LineFault::Locked => write!(
            faults,
            "its record is locked, by !, ~, * or a field such as nologin: --disable-locked drops \
             it, and --keep-locked keeps one behind ! or ~"
        ),
        LineFault::Costly => write!(
            faults,
            "its record asks for more than --most-memory or --most-work"
        ),
    }
}

/// Writes why no book was created or opened, and returns the exit status.
pub fn refuse<F: Write>(faults: &mut F, why: &OpenFault) -> Status
    ensures { result ≡ status_of_open why.now }
{
    let _ = match why {
        OpenFault::NoName(row) => writeln!(
            faults,
            "credkeep: row {row}: there is no name; {NAME_RULE} ({} {})",
            BookError::Name.number(),
            BookError::Name.word()
        ),
        OpenFault::NoRecord { row, why: None } => {
            writeln!(faults, "credkeep: row {row}: its record is no text")
        }
        OpenFault::NoRecord {
            row,
            why: Some(fault),
        } => writeln!(
            faults,
            "credkeep: row {row}: the text there is no record: {fault} ({} {})",
            fault.number(),
            fault.word()
        ),
        OpenFault::Twice(row) => writeln!(faults, "credkeep: row {row}: another has its name"),
        OpenFault::Database(error) => tell_database(faults, *error),
        OpenFault::NotEmpty => writeln!(faults, "credkeep: the database has tables already"),
        OpenFault::NoBook => writeln!(
            faults,
            "credkeep: the database holds no book: it has other tables, columns or indexes than \
             a book's one table"
        ),
        OpenFault::TooMany => writeln!(faults, "credkeep: the book has over 16777216 accounts"),
        OpenFault::Memory => writeln!(faults, "credkeep: out of memory"),
    };
    status_of_open(why)
}

fn tell_database<F: Write>(faults: &mut F, error: Error) -> io::Result<()> {
    match error {
        Error::SqliteFailure(ErrorCode::DatabaseBusy) => {
            writeln!(
                faults,
                "credkeep: busy: another process has the file open; credkeep-ask --server asks \
                 the server"
            )
        }
        Error::SqliteFailure(ErrorCode::DatabaseCorrupt | ErrorCode::NotADatabase) => {
            writeln!(
                faults,
                "credkeep: the file is damaged, or holds no book: {error}"
            )
        }
        Error::SqliteFailure(ErrorCode::CannotOpen) => {
            writeln!(faults, "credkeep: the file can't be opened and written")
        }
        _ => writeln!(faults, "credkeep: {error}"),
    }
}

fn status_of_open(why: &OpenFault) -> Status
    ensures { result ≡ status_of_open why.now }
{
    match why {
        OpenFault::Memory | OpenFault::Database(Error::SqliteFailure(ErrorCode::OutOfMemory)) => {
            Status::Memory
        }
        _ => Status::Database,
    }
}
