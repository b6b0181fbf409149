//! Imports the lines of a passwd-file, all or none.

ghost use Rattle.std.specs.Prelude.{◌≡◌, IfErr, IfOk, false, length, string_bytes};
ghost use Rattle.cred_admin.specs.{Marked.kept_book, Seen.FitsSince};
ghost use Rattle.cred_cli.specs.Watched.{Basis, failed_of, reading_on};
ghost use Rattle.cred_file.specs.Cells.{mark_at};
ghost use Rattle.cred_keep.specs.Imports.{Imports, Takes, counts_text};

use cred_admin::{BadLine, Gathered, ImportFault, Rules, gather};
use cred_book::{BookError, Register};
use cred_cli::Watched;
use cred_file::{FileBook, Marks};
use sqlite::Alter;
use std::alloc::{AllocError, Global};
use std::io::Read;

/// The treatment of bad lines in an import.
#[derive(Clone, Copy, Debug, PartialEq, Eq)]
pub enum BadLines {
    /// The import refuses bad lines, and changes nothing.
    Refused,
    /// The import leaves bad lines out.
    LeftOut,
}

/// The effect of an import.
#[derive(Clone, Copy, Debug, PartialEq, Eq)]
pub enum Effect {
    Made,
    /// None: the import only reports the changes that it would make.
    Foretold,
}

/// The form of an import's counts.
#[derive(Clone, Copy, Debug, PartialEq, Eq)]
pub enum CountsForm {
    Hidden,
    /// In words, in a line.
    Plain,
    /// In JSON, in a line.
    Json,
}

/// The options of an import.
#[derive(Clone, Copy, Debug, PartialEq, Eq)]
pub struct Importing {
    pub rules: Rules,
    pub bad: BadLines,
    pub effect: Effect,
    pub counts: CountsForm,
}

/// The changes that an import made, or would make.
#[derive(Debug, Drop)]
pub struct Imported {
    pub effect: Effect,
    /// The number of new accounts.
    pub added: usize,
    /// The number of existing accounts that get the record of their line.
    pub changed: usize,
    /// The number of lines whose account exists and stays as it is.
    pub kept: u64,
    /// The bad lines that were left out, in their order.
    pub bad: Vec<BadLine>,
    /// The text of these counts.
    pub text: Vec<u8>,
}

/// Imports the lines of the reader in one transaction of the database: a crash leaves the book
/// without these lines, or with all good ones.
///
/// Errors: `Lines` with all bad lines, unless the options leave them out; `Full` if the book would
/// have over 2^24 accounts; `Read`; `Memory`. The book is then as it was.
pub(crate) fn import<S: Alter, R: Read>(
    alloc: Global,
    book: &mut FileBook<S>,
    how: Importing,
    reader: &mut Watched<R>,
) -> Result<Imported, ImportFault>
    requires { failed_of reader.old ≡ false }
    ensures { (basis : Basis) → FitsSince basis reader.old reader.new
        → Imports how (reading_on basis R.remaining reader.old reader.new) (kept_book book.old)
        (kept_book book.new) result }
{
    let Gathered {
        accounts,
        changed,
        marks,
        kept,
        bad,
    } = gather(alloc, book.book(), how.rules, reader)?;
    match how.bad {
        BadLines::Refused if !bad.is_empty() => return Err(ImportFault::Lines(bad)),
        BadLines::Refused | BadLines::LeftOut => {}
    }
    let mut made = Imported {
        effect: how.effect,
        added: accounts.len(),
        changed: changed.len(),
        kept,
        bad,
        text: Vec::new(alloc),
    };
    made.text = counts_text(alloc, how.counts, &made)?.into_bytes();
    take(book, how.effect, accounts, changed, marks)?;
    Ok(made)
}

fn counts_text(alloc: Global, counts: CountsForm, made: &Imported) -> Result<String, AllocError>
    ensures { IfOk result (λ text. string_bytes text ≡ counts_text counts made.now.added
        made.now.changed made.now.kept (length made.now.bad.items)) }
{
    match counts {
        CountsForm::Hidden => Ok(String::new(alloc)),
        CountsForm::Plain => plain_counts(
            alloc,
            made.added,
            made.changed,
            made.kept,
            made.bad.len(),
        ),
        CountsForm::Json => json_counts(alloc, made.added, made.changed, made.kept, made.bad.len()),
    }
}

fn plain_counts(
    alloc: Global,
    added: usize,
    changed: usize,
    kept: u64,
    bad: usize,
) -> Result<String, AllocError>
    ensures { IfOk result (λ text.
        string_bytes text ≡ counts_text CountsForm.Plain added changed kept bad) }
{
    format!(in alloc; "{added} added, {changed} updated, {kept} there already, {bad} bad\n")
}

fn json_counts(
    alloc: Global,
    added: usize,
    changed: usize,
    kept: u64,
    bad: usize,
) -> Result<String, AllocError>
    ensures { IfOk result (λ text.
        string_bytes text ≡ counts_text CountsForm.Json added changed kept bad) }
{
    format!(in alloc;
        "{{\"added\":{added},\"updated\":{changed},\"there\":{kept},\"bad\":{bad}}}\n"
    )
}

/// Adds accounts and replaces the records of others, with these marks, or checks that the book has
/// room for them.
fn take<S: Alter>(
    book: &mut FileBook<S>,
    effect: Effect,
    added: Register,
    changed: Register,
    marks: Marks,
) -> Result<(), ImportFault>
    ensures { Takes effect (kept_book book.old) (kept_book book.new) added changed (mark_at marks)
        result }
{
    match effect {
        Effect::Foretold if book.has_room_for(&added) => Ok(()),
        Effect::Foretold => Err(ImportFault::Full),
        Effect::Made => match book.take_in(added, changed, marks) {
            Ok(()) => Ok(()),
            Err(BookError::Full) => Err(ImportFault::Full),
            Err(_) => Err(ImportFault::Memory),
        },
    }
}
