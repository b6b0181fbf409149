//! The commands that write the accounts, in the order of their names.

ghost use Rattle.std.specs.Prelude.{◌≡◌, ◌++◌, ◌<◌, length, IfErr, IfOk, OnErr, OnOk, true};
ghost use Rattle.std.specs.FinMap as map;
ghost use Rattle.cred_phc.specs.Values.{RecordValue};
ghost use Rattle.cred_cli.specs.{Outcome.FrontWritten, Watched.Basis, Watched.failed_of, Watched.held_on, Watched.writing_on};
ghost use Rattle.cred_admin.specs.Listing.{IsPiece, Prints, json_detail, json_marks, line_text, detail_word, marked_line};
ghost use Rattle.cred_admin.specs.declared.listing.TheConstants.{PIECE};

use crate::detail::{Detail, detail_text};
use crate::fault::Fault;
use crate::host::Host;
use crate::printing::write_whole;
use crate::status::Status;
use cred_book::Name;
use cred_cli::Watched;
use cred_file::Mark;
use cred_phc::Record;
use std::alloc::{AllocError, Global};
use std::io::Write;

/// The size of the pieces in which lines are written, in bytes.
const PIECE: usize = 65536;

/// The law that a piece has 64 KiB, in the form that contracts take from the constant.
pub fn a_piece_has_64_kib()
    ensures { PIECE ≡ 65536 }
{}

/// The form of an account's line.
#[derive(Clone, Copy, Debug, PartialEq, Eq)]
pub enum LineForm {
    /// The account's name.
    Name,
    /// A line of a passwd-file: `NAME:` and this detail of its record, if it has one. Before the
    /// detail there is `!` if the account is locked, and `~` if its password must be changed.
    Passwd(Detail),
    /// JSON: `{"name":"NAME","record":"RECORD"}`, or with `"costs"`; `null` stands for no record. A
    /// locked account has `"locked":true`, and one whose password must be changed has
    /// `"expired":true`.
    Json(Detail),
}

/// Writes a line for each account, in the order of the names. However many accounts there are, the
/// call holds only about 64 KiB of lines in memory. `import` reads the lines of
/// `LineForm::Passwd(Detail::Record)`.
///
/// Errors: `Memory`, after some of the lines, perhaps none, but never all; `Write`.
pub fn list<K: Host, W: Write>(
    alloc: Global,
    keeper: &K,
    line: LineForm,
    writer: &mut Watched<W>,
) -> Result<Status, Fault>
    ensures { (basis : Basis) → Prints (marked_line line (K.book keeper.now))
        (map.entries (K.book keeper.now).accounts)
        (writing_on basis W.contents writer.old writer.new) result }
{
    let mut text = Vec::new(alloc);
    for (name, slot) in keeper.accounts().iter() {
        push_line(
            alloc,
            &mut text,
            line,
            name,
            keeper.mark_of(name),
            slot.stored(),
        )?;
        write_piece(writer, &mut text)?;
    }
    write_whole(writer, &text)?;
    Ok(Status::Done)
}

/// Writes the collected lines once they fill a piece, and drops them.
fn write_piece<W: Write>(writer: &mut Watched<W>, text: &mut Vec<u8>) -> Result<(), Fault>
    ensures done { (basis : Basis) → OnOk result (IsPiece (held_on basis W.contents writer.old)
        (held_on basis W.contents writer.new) text.old.items text.new.items) }
    ensures small { OnOk result (length text.new.items < PIECE) }
    ensures cut { (basis : Basis) → OnErr result (FrontWritten (held_on basis W.contents writer.old)
        (held_on basis W.contents writer.new) text.old.items) }
    ensures fault { IfErr result (λ e. (e ≡ Fault.Write) × (failed_of writer.new ≡ true)) }
{
    if text.len() < PIECE {
        return Ok(());
    }
    write_whole(writer, text)?;
    text.clear();
    Ok(())
}

/// Writes the line of one account.
pub fn line_of(
    alloc: Global,
    line: LineForm,
    name: &Name,
    mark: Mark,
    stored: Option<Record>,
) -> Result<Vec<u8>, AllocError>
    ensures { IfOk result (λ text. text.items ≡ line_text line mark (name.now, stored)) }
{
    let mut text = Vec::new(alloc);
    push_line(alloc, &mut text, line, name, mark, stored)?;
    Ok(text)
}

fn push_line(
    alloc: Global,
    text: &mut Vec<u8>,
    line: LineForm,
    name: &Name,
    mark: Mark,
    stored: Option<Record>,
) -> Result<(), AllocError>
    ensures { OnOk result
        (text.new.items ≡ text.old.items ++ line_text line mark (name.now, stored)) }
{
    match line {
        LineForm::Name => {
            text.extend_from_slice(name.bytes())?;
            text.push(b'\n')?;
            Ok(())
        }
        LineForm::Passwd(detail) => {
            text.extend_from_slice(name.bytes())?;
            text.push(b':')?;
            text.extend_from_slice(mark.text())?;
            if let Some(stored) = stored {
                let shown = detail_text(alloc, &stored, detail)?;
                text.extend_from_slice(&shown)?;
            }
            text.push(b'\n')?;
            Ok(())
        }
        LineForm::Json(detail) => {
            text.extend_from_slice(b"{\"name\":\"")?;
            text.extend_from_slice(name.bytes())?;
            text.extend_from_slice(b"\",\"")?;
            text.extend_from_slice(detail_word(detail))?;
            text.extend_from_slice(b"\":")?;
            push_json_detail(alloc, text, detail, stored)?;
            text.extend_from_slice(json_marks(mark))?;
            text.extend_from_slice(b"}\n")?;
            Ok(())
        }
    }
}

/// Returns the marks that an account has, as members of its object.
fn json_marks(mark: Mark) -> &'static [u8]
    ensures { result.now ≡ json_marks mark }
{
    match (mark.locked, mark.must_change) {
        (true, true) => b",\"locked\":true,\"expired\":true",
        (true, false) => b",\"locked\":true",
        (false, true) => b",\"expired\":true",
        (false, false) => b"",
    }
}

fn detail_word(detail: Detail) -> &'static [u8]
    ensures { result.now ≡ detail_word detail }
{
    match detail {
        Detail::Costs => b"costs",
        Detail::Record => b"record",
    }
}

/// Adds a record's detail as a string, or null.
fn push_json_detail(
    alloc: Global,
    text: &mut Vec<u8>,
    detail: Detail,
    stored: Option<Record>,
) -> Result<(), AllocError>
    ensures { OnOk result (text.new.items ≡ text.old.items ++ json_detail detail stored) }
{
    let Some(stored) = stored else {
        return text.extend_from_slice(b"null");
    };
    let shown = detail_text(alloc, &stored, detail)?;
    text.push(b'"')?;
    text.extend_from_slice(&shown)?;
    text.push(b'"')?;
    Ok(())
}
