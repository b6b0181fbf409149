//! Writes whole texts, and answers with them.

ghost use Rattle.std.specs.{Prelude.◌≡◌, Prelude.IfErr, Prelude.OnErr, Prelude.OnOk, Prelude.true, Io.KnownBytes.Appends};
ghost use Rattle.cred_cli.specs.{Outcome.FrontWritten, Watched.Basis, Watched.failed_of, Watched.held_on, Watched.writing_on};
ghost use Rattle.cred_admin.specs.Listing.{Tells};

use crate::fault::Fault;
use crate::status::Status;
use cred_cli::Watched;
use std::io::Write;

/// Writes all the bytes, as `cred_cli` writes its answers.
pub(crate) fn write_whole<W: Write>(writer: &mut Watched<W>, bytes: &[u8]) -> Result<(), Fault>
    ensures done { (basis : Basis) → OnOk result (Appends (held_on basis W.contents writer.old)
        (held_on basis W.contents writer.new) bytes.now) }
    ensures cut { (basis : Basis) → OnErr result (FrontWritten (held_on basis W.contents writer.old)
        (held_on basis W.contents writer.new) bytes.now) }
    ensures fault { IfErr result (λ e. (e ≡ Fault.Write) × (failed_of writer.new ≡ true)) }
{
    match cred_cli::write_whole(writer, bytes) {
        Ok(()) => Ok(()),
        Err(_) => Err(Fault::Write),
    }
}

/// Writes a whole text, and returns its status.
///
/// Errors: `Write`.
pub fn tell<W: Write>(text: &[u8], status: Status, writer: &mut Watched<W>) -> Result<Status, Fault>
    ensures told { (basis : Basis) → Tells (text.now, status)
        (writing_on basis W.contents writer.old writer.new) result }
    ensures fault { IfErr result (λ e. e ≡ Fault.Write) }
{
    write_whole(writer, text)?;
    Ok(status)
}
