//! The accounts in the lines of a passwd-file, before they are imported.

ghost use Rattle.std.specs.Prelude.{◌≡◌, ◌⊎◌, ◌<◌, IfErr, IfOk, IfSome, List, OnOk, true, ℕ};
ghost use Rattle.std.specs.FinMap as map;
ghost use Rattle.cred_book.specs.Accounts.{register_capacity};
ghost use Rattle.cred_cli.specs.Watched.{Basis, failed_of, left_on};
ghost use Rattle.cred_admin.specs.Import.{Comes, GatherFails, is_costly, nothing_yet, said_of, tally, tally_of, with_bad, with_entry, with_existing, with_line, with_mark};
ghost use Rattle.cred_admin.specs.{Seen.FitsSince, declared.import.ImportFault.TheVariants.Memory as OutOfMemory};

use crate::entry::{LineAccount, LineFault, Said, said_of};
use cred_book::{BookError, Register};
use cred_cli::{CostBounds, Watched, exceeds};
use cred_file::Marks;
use cred_phc::{Pieces, Record};
use std::alloc::{AllocError, Global};
use std::io::Read;

/// The size of one read in bytes.
const CHUNK: usize = 65536;

/// The treatment of a line whose account exists already.
#[derive(Clone, Copy, Debug, PartialEq, Eq)]
pub enum Existing {
    /// The line is refused.
    Refused,
    /// The account stays as it is.
    Kept,
    /// The account gets the record of the line, or none.
    Updated,
}

/// The treatment of a locked record: a record after `!`, `~` or `*`, or of a user whom a field
/// bars.
#[derive(Clone, Copy, Debug, PartialEq, Eq)]
pub enum LockedRecords {
    /// The line is refused.
    Refused,
    /// The account gets no record.
    Disabled,
    /// The account has its record, and the marks `!` and `~`, as an export writes them. The import
    /// refuses a line with `*`, or with a field that bars the user.
    Kept,
}

/// The rules of an import.
#[derive(Clone, Copy, Debug, PartialEq, Eq)]
pub struct Rules {
    pub existing: Existing,
    pub locked: LockedRecords,
    /// The bounds on a record; a line whose record needs more is refused.
    pub most: CostBounds,
}

impl Rules {
    fn is_costly(&self, stored: &Option<Record>) -> bool
        ensures { result ≡ is_costly self.now.most stored.now }
    {
        match stored {
            Some(stored) => exceeds(&self.most, &stored.setting()),
            None => false,
        }
    }
}

/// A refused line.
#[derive(Clone, Copy, Debug, PartialEq, Eq)]
pub struct BadLine {
    /// Counted from 1.
    pub number: u64,
    pub why: LineFault,
}

/// The reason why an import changes nothing.
#[derive(Debug, Drop)]
pub enum ImportFault {
    /// Reading failed.
    Read,
    /// Memory ran out.
    Memory,
    /// The book has no room for so many accounts.
    Full,
    /// These lines are refused.
    Lines(Vec<BadLine>),
}

impl From<AllocError> for ImportFault {
    ghost from_gives = { λ _ e. e ≡ OutOfMemory };

    fn from(_error: AllocError) -> Self {
        ImportFault::Memory
    }
}

/// The result of reading the lines of an import.
#[derive(Drop)]
pub struct Gathered {
    /// The new accounts.
    pub accounts: Register,
    /// The existing accounts that change, with their new records.
    pub changed: Register,
    /// The marks of the new and the changed accounts.
    pub marks: Marks,
    /// The number of lines whose account exists and stays as it is.
    pub kept: u64,
    /// The refused lines, in their order.
    pub bad: Vec<BadLine>,
}

/// Gathers the accounts in the lines of the reader, `NAME:RECORD` or `NAME:` each, beside this
/// book.
///
/// Errors: `Read`; `Memory`; `Full` for over 2^24 accounts.
pub fn gather<R: Read>(
    alloc: Global,
    book: &Register,
    rules: Rules,
    reader: &mut Watched<R>,
) -> Result<Gathered, ImportFault>
    ensures done { (basis : Basis) → FitsSince basis reader.old reader.new
        → IfOk result (λ g. (text : List ℕ)
        × IfSome (left_on basis R.remaining reader.old) (λ bytes. text ≡ bytes)
        × (tally_of g ≡ tally rules book.now text)) }
    ensures kept { OnOk result (failed_of reader.new ≡ failed_of reader.old) }
    ensures fault { (basis : Basis) → FitsSince basis reader.old reader.new
        → IfErr result (GatherFails rules book.now (left_on basis R.remaining reader.old)
        (failed_of reader.old) (failed_of reader.new)) }
{
    let text = read_all(alloc, reader)?;
    gather_lines(alloc, book, rules, &text)
}

/// Reads the input to its end.
fn read_all<R: Read>(alloc: Global, reader: &mut Watched<R>) -> Result<Vec<u8>, ImportFault>
    ensures text { (basis : Basis) → FitsSince basis reader.old reader.new
        → IfOk result (λ text. IfSome (left_on basis R.remaining reader.old)
        (λ bytes. text.items ≡ bytes)) }
    ensures kept { OnOk result (failed_of reader.new ≡ failed_of reader.old) }
    ensures fault { IfErr result (λ e. ((e ≡ ImportFault.Read) × (failed_of reader.new ≡ true))
        ⊎ ((e ≡ ImportFault.Memory) × (failed_of reader.new ≡ failed_of reader.old))) }
{
    let mut text = Vec::new(alloc);
    let mut chunk = [0; CHUNK];
    for _call in 0..u64::MAX {
        match reader.read(&mut chunk) {
            Ok(0) => return Ok(text),
            Ok(n) => text.extend_from_slice(&chunk[..n])?,
            Err(_) => return Err(ImportFault::Read),
        }
    }
    unreachable!()
}

/// Reads the lines in turn.
fn gather_lines(
    alloc: Global,
    book: &Register,
    rules: Rules,
    text: &[u8],
) -> Result<Gathered, ImportFault>
    ensures done { IfOk result (λ g. tally_of g ≡ tally rules book.now text.now) }
    ensures fault { IfErr result (λ e. (e ≡ ImportFault.Memory) ⊎ ((e ≡ ImportFault.Full)
        × (register_capacity < map.len (tally rules book.now text.now).accounts))) }
{
    let mut found = Gathered::new(alloc);
    let mut lines = Pieces::new(text, b'\n');
    for number in 1..u64::MAX {
        match lines.next() {
            Some(line) => found.take_line(book, rules, number, line)?,
            None => return Ok(found),
        }
    }
    match lines.next() {
        Some(_) => Err(ImportFault::Memory),
        None => Ok(found),
    }
}

impl Gathered {
    fn new(alloc: Global) -> Gathered
        ensures { tally_of result ≡ nothing_yet }
    {
        Gathered {
            accounts: Register::new(alloc),
            changed: Register::new(alloc),
            marks: Marks::new(alloc),
            kept: 0,
            bad: Vec::new(alloc),
        }
    }

    /// Adds the account of a line.
    fn take_line(
        &mut self,
        book: &Register,
        rules: Rules,
        number: u64,
        line: &[u8],
    ) -> Result<(), ImportFault>
        requires { self.old.kept < number }
        ensures { Comes (with_line rules book.now (tally_of self.old) number
            (said_of rules.locked line.now)) (tally_of self.new) result }
    {
        let said = match said_of(line, rules.locked) {
            Ok(said) => said,
            Err(why) => return self.refuse(number, why),
        };
        match &said {
            Said::Nothing => Ok(()),
            Said::Account(entry) if rules.is_costly(&entry.stored) => {
                self.refuse(number, LineFault::Costly)
            }
            Said::Account(entry) => self.take_entry(book, rules.existing, number, *entry),
        }
    }

    fn take_entry(
        &mut self,
        book: &Register,
        how: Existing,
        number: u64,
        entry: LineAccount,
    ) -> Result<(), ImportFault>
        requires { self.old.kept < number }
        ensures { Comes (with_entry how book.now (tally_of self.old) number entry)
            (tally_of self.new) result }
    {
        if book.contains(&entry.name) {
            return self.take_existing(how, number, entry);
        }
        match self.accounts.enter(entry.name, entry.stored) {
            Ok(()) => self.mark(entry),
            Err(BookError::Exists) => self.refuse(number, LineFault::Book(BookError::Exists)),
            Err(BookError::Full) => Err(ImportFault::Full),
            Err(_) => Err(ImportFault::Memory),
        }
    }

    /// Adds a line whose account exists already, as `how` says.
    fn take_existing(
        &mut self,
        how: Existing,
        number: u64,
        entry: LineAccount,
    ) -> Result<(), ImportFault>
        requires { self.old.kept < number }
        ensures { Comes (with_existing how (tally_of self.old) number entry)
            (tally_of self.new) result }
    {
        match how {
            Existing::Kept => {
                self.kept += 1;
                Ok(())
            }
            Existing::Refused => self.refuse(number, LineFault::Book(BookError::Exists)),
            Existing::Updated => match self.changed.enter(entry.name, entry.stored) {
                Ok(()) => self.mark(entry),
                Err(BookError::Exists) => self.refuse(number, LineFault::Book(BookError::Exists)),
                Err(_) => Err(ImportFault::Memory),
            },
        }
    }

    /// Adds the mark of an account.
    fn mark(&mut self, entry: LineAccount) -> Result<(), ImportFault>
        ensures { Comes (with_mark (tally_of self.old) entry) (tally_of self.new) result }
    {
        match self.marks.put(&entry.name, entry.mark) {
            Ok(()) => Ok(()),
            Err(_) => Err(ImportFault::Memory),
        }
    }

    /// Adds a refused line.
    fn refuse(&mut self, number: u64, why: LineFault) -> Result<(), ImportFault>
        ensures { Comes (with_bad (tally_of self.old) number why) (tally_of self.new) result }
    {
        match self.bad.push(BadLine { number, why }) {
            Ok(()) => Ok(()),
            Err(_) => Err(ImportFault::Memory),
        }
    }
}
