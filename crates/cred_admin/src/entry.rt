//! A line of a passwd-file: `NAME:RECORD`, or `NAME:` without a record.
//!
//! The reader skips additions of other programs: a carriage return at the end, further fields, and
//! before the record Dovecot's scheme in braces or Django's word `argon2`. But a line with
//! `nologin`, or with another of Dovecot's fields that bars the user, is locked. An empty line and
//! a line that begins with `#` say nothing.

ghost use Rattle.std.specs.{Prelude.◌≡◌, List.list_any};
ghost use Rattle.cred_admin.specs.Import.{bars, behind_braces, behind_word, has_bar, is_barred, is_locked, is_remark, is_star, line_number, line_word, record_part, said_as, said_locked, said_of, said_with, stored_at, without_return};
ghost use Rattle.cred_book.specs.Names.{made_name};
ghost use Rattle.cred_phc.specs.Pieces.{pieces};

use crate::import::LockedRecords;
use cred_book::{BookError, Name};
use cred_file::Mark;
use cred_phc::{PhcError, Pieces, Record, parse_record};

/// The fault of a line.
#[derive(Clone, Copy, Debug, PartialEq, Eq)]
pub enum LineFault {
    /// The line has no colon.
    Line,
    /// The text of the record has this fault.
    Text(PhcError),
    /// The name isn't valid, or the book refuses the name.
    Book(BookError),
    /// The record is locked, or a field of Dovecot's bars its user.
    Locked,
    /// The record needs more memory or work than the bound.
    Costly,
}

impl LineFault {
    /// Returns the number of the fault, as in the answers to a script: 1 to 9, 11, 17 or 18.
    pub fn number(self) -> u8
        ensures { result ≡ line_number self }
    {
        match self {
            LineFault::Line => 11,
            LineFault::Text(fault) => fault.number(),
            LineFault::Book(refusal) => refusal.number(),
            LineFault::Locked => 17,
            LineFault::Costly => 18,
        }
    }

    /// Returns the name of the fault in lower case.
    pub fn word(self) -> &'static str
        ensures { result.now ≡ line_word self }
    {
        match self {
            LineFault::Line => "line",
            LineFault::Text(fault) => fault.word(),
            LineFault::Book(refusal) => refusal.word(),
            LineFault::Locked => "locked",
            LineFault::Costly => "costly",
        }
    }
}

/// The content of a line.
#[derive(Clone, Copy, Debug, PartialEq, Eq)]
pub(crate) enum Said {
    /// Nothing: the line is empty, or a remark.
    Nothing,
    /// An account.
    Account(LineAccount),
}

/// An account of a line, with its record, if any, and its mark.
#[derive(Clone, Copy, Debug, PartialEq, Eq)]
pub(crate) struct LineAccount {
    pub(crate) name: Name,
    pub(crate) stored: Option<Record>,
    pub(crate) mark: Mark,
}

/// Reads a line, whose fields end at colons: the first field is the name, and the second one has
/// the record. The name is judged before the record. The other fields count only if they bar the
/// user.
#[tactic(auto, unfolding(crate::specs::Import::said_of))]
pub(crate) fn said_of(line: &[u8], locked: LockedRecords) -> Result<Said, LineFault>
    ensures { result ≡ said_of locked line.now }
{
    let line = without_return(line);
    if is_remark(line) {
        return Ok(Said::Nothing);
    }
    let mut fields = Pieces::new(line, b':');
    match (fields.next(), fields.next()) {
        (Some(name), Some(text)) => said_as(locked, name, is_barred(fields), text),
        _ => Err(LineFault::Line),
    }
}

/// Whether a line is a remark for human readers.
fn is_remark(line: &[u8]) -> bool
    ensures { result ≡ is_remark line.now }
{
    line.is_empty() || line.starts_with(b"#")
}

fn said_as(locked: LockedRecords, name: &[u8], barred: bool, text: &[u8]) -> Result<Said, LineFault>
    ensures { result ≡ said_as locked (made_name name.now) barred text.now }
{
    let name = Name::new(name).map_err(|refusal| LineFault::Book(refusal))?;
    if barred || is_locked(text) {
        return said_locked(locked, name, barred, text);
    }
    said_with(name, Mark::none(), text)
}

/// Returns the account of a line whose record is locked, or whose user a field bars.
fn said_locked(
    locked: LockedRecords,
    name: Name,
    barred: bool,
    text: &[u8],
) -> Result<Said, LineFault>
    ensures { result ≡ said_locked locked name barred text.now }
{
    match locked {
        LockedRecords::Disabled => Ok(Said::Account(LineAccount {
            name,
            stored: None,
            mark: Mark::none(),
        })),
        LockedRecords::Kept if !barred && !is_star(text) => {
            let (mark, text) = Mark::cut(text);
            said_with(name, mark, text)
        }
        LockedRecords::Refused | LockedRecords::Kept => Err(LineFault::Locked),
    }
}

fn said_with(name: Name, mark: Mark, text: &[u8]) -> Result<Said, LineFault>
    ensures { result ≡ said_with name mark (stored_at text.now) }
{
    let stored = stored_at(text)?;
    Ok(Said::Account(LineAccount { name, stored, mark }))
}

/// Whether a second field has a record that `passwd -l` or an export marked, or `*` instead of a
/// record.
fn is_locked(text: &[u8]) -> bool
    ensures { result ≡ is_locked text.now }
{
    text.starts_with(b"!") || (is_star(text) || text.starts_with(b"~"))
}

fn is_star(text: &[u8]) -> bool
    ensures { result ≡ is_star text.now }
{
    text.starts_with(b"*")
}

/// Whether one of the fields behind the record bars the user.
fn is_barred(fields: Pieces<'_>) -> bool
    ensures { result ≡ is_barred fields.entry }
{
    let mut fields = fields;
    while let Some(field) = fields.next() {
        if has_bar(field) {
            return true;
        }
    }
    false
}

/// Whether a field has an item that bars the user; a space ends an item.
fn has_bar(field: &[u8]) -> bool
    ensures { result ≡ has_bar field.now }
{
    let mut items = Pieces::new(field, b' ');
    while let Some(item) = items.next() {
        if bars(item) {
            return true;
        }
    }
    false
}

/// Whether an item of Dovecot's extra fields bars its user everywhere, or allows only some
/// networks.
fn bars(item: &[u8]) -> bool
    ensures { result ≡ bars item.now }
{
    item.starts_with(b"nologin")
        || (item.starts_with(b"noauthenticate") || item.starts_with(b"allow_"))
}

fn stored_at(text: &[u8]) -> Result<Option<Record>, LineFault>
    ensures { result ≡ stored_at text.now }
{
    if text.is_empty() {
        return Ok(None);
    }
    match parse_record(record_part(text)) {
        Ok(stored) => Ok(Some(stored)),
        Err(fault) => Err(LineFault::Text(fault)),
    }
}

/// Returns a line without the carriage return before its end.
fn without_return(line: &[u8]) -> &[u8]
    ensures { result.now ≡ without_return line.now }
{
    if line.ends_with(b"\r") {
        let (front, _) = line.split_at(line.len() - 1);
        front
    } else {
        line
    }
}

/// Returns the text of the record in a second field.
fn record_part(text: &[u8]) -> &[u8]
    ensures { result.now ≡ record_part text.now }
{
    behind_word(behind_braces(text))
}

/// Returns the text after a scheme in braces, if the text begins with one.
fn behind_braces(text: &[u8]) -> &[u8]
    ensures { result.now ≡ behind_braces (pieces 125 text.now) text.now }
{
    let mut parts = Pieces::new(text, b'}');
    match (parts.next(), parts.next(), parts.next()) {
        (Some(scheme), Some(behind), None) if scheme.starts_with(b"{") => behind,
        _ => text,
    }
}

/// Returns the text after Django's word, if the text begins with this word.
fn behind_word(text: &[u8]) -> &[u8]
    ensures { result.now ≡ behind_word text.now }
{
    if text.starts_with(b"argon2") {
        let (_, behind) = text.split_at(6);
        behind
    } else {
        text
    }
}
