//! The commands that show one account.

ghost use Rattle.std.specs.Prelude.{◌≡◌};
ghost use Rattle.std.specs.FinMap as map;
ghost use Rattle.cred_cli.specs.Watched.{Basis, writing_on};
ghost use Rattle.cred_admin.specs.Listing.{Tells, json_at, shown_at};

use crate::detail::{Detail, detail_text};
use crate::fault::Fault;
use crate::host::Host;
use crate::listing::{LineForm, line_of};
use crate::printing::tell;
use crate::status::Status;
use cred_book::{Name, Reply};
use cred_cli::{Watched, reply_line};
use std::alloc::Global;
use std::io::Write;

/// Writes a line with this detail of an account's record behind its mark: `!` if the account is
/// locked, and `~` if its password must be changed.
///
/// The line is `absent` without a record, or `noaccount`. Errors: `Memory`, without any output;
/// `Write`.
pub fn show<K: Host, W: Write>(
    alloc: Global,
    keeper: &K,
    name: &Name,
    detail: Detail,
    writer: &mut Watched<W>,
) -> Result<Status, Fault>
    ensures { (basis : Basis) → Tells (shown_at detail ((K.book keeper.now).marks name.now)
        (map.get (K.book keeper.now).accounts name.now))
        (writing_on basis W.contents writer.old writer.new) result }
{
    match keeper.accounts().show(name) {
        Err(_) => tell(reply_line(&Reply::NoAccount), Status::No(None), writer),
        Ok(None) => tell(reply_line(&Reply::Absent), Status::No(None), writer),
        Ok(Some(stored)) => {
            let mut text = Vec::new(alloc);
            text.extend_from_slice(keeper.mark_of(name).text())?;
            let shown = detail_text(alloc, &stored, detail)?;
            text.extend_from_slice(&shown)?;
            text.extend_from_slice(b"\n")?;
            tell(&text, Status::Done, writer)
        }
    }
}

/// Writes a line of JSON with an account and this detail of its record.
///
/// The line is `null` if no such account exists. Errors: `Memory`, without any output; `Write`.
pub fn show_json<K: Host, W: Write>(
    alloc: Global,
    keeper: &K,
    name: &Name,
    detail: Detail,
    writer: &mut Watched<W>,
) -> Result<Status, Fault>
    ensures { (basis : Basis)
        → Tells (json_at detail name.now ((K.book keeper.now).marks name.now)
        (map.get (K.book keeper.now).accounts name.now))
        (writing_on basis W.contents writer.old writer.new) result }
{
    match keeper.accounts().show(name) {
        Err(_) => tell(b"null\n", Status::No(None), writer),
        Ok(None) => {
            let text = line_of(
                alloc,
                LineForm::Json(detail),
                name,
                keeper.mark_of(name),
                None,
            )?;
            tell(&text, Status::No(None), writer)
        }
        Ok(Some(stored)) => {
            let text = line_of(
                alloc,
                LineForm::Json(detail),
                name,
                keeper.mark_of(name),
                Some(stored),
            )?;
            tell(&text, Status::Done, writer)
        }
    }
}
