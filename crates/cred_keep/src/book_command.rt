//! The commands on a kept book.

ghost use Rattle.std.specs.Prelude.{◌≡◌, ◌⊎◌, ℕ, List, false, true};
ghost use Rattle.cred_cli.specs.Watched.{Basis, IsNew, MayFollow, reading, reading_on, transcript_reading, transcript_writing, writing, writing_on};
ghost use Rattle.cred_admin.specs.{Marked.kept_book, Seen.FitsSince, Seen.seen};
ghost use Rattle.cred_keep.specs.BookCommands.{IsCarriedOut, IsRefused, Performs, is_unread};

use crate::import::{Importing, import};
use crate::outcome::{CommandResult, Failure, command_end, import_end};
use crate::report::{refuse, tell_end};
use cred_admin::{
    AccountOperation, Detail, LineForm, PasswordOperation, Status, disable_shown, list, show,
    show_json,
};
use cred_book::Name;
use cred_cli::{Tools, Watched};
use cred_file::FileBook;
use sqlite::{Alter, Connection};
use std::io::{Read, Write};
use std::thread::Threads;

/// A command on a kept book.
#[derive(Clone, Copy)]
pub enum BookCommand {
    /// Does an operation on one account, with its passwords.
    Password {
        name: Name,
        operation: PasswordOperation,
    },
    /// Disables, deletes, renames, locks, unlocks or expires an account without its password.
    Account {
        operation: AccountOperation,
    },
    /// Writes the account's line of a passwd-file, and removes its record without its password.
    DisableShown {
        name: Name,
    },
    /// Writes this detail of the account's record.
    Show {
        name: Name,
        detail: Detail,
    },
    /// Writes the account with this detail of its record in JSON.
    ShowJson {
        name: Name,
        detail: Detail,
    },
    /// Writes a line of each account.
    List {
        line: LineForm,
    },
    /// Imports a passwd-file.
    Import {
        how: Importing,
    },
}

impl BookCommand {
    /// Opens the book of a database, and carries out the command on it. The connection comes back.
    /// If the database holds no book, `faults` says why, and the call reads and writes nothing. The
    /// caller has made no call on the reader or the writer. Only a call of these two may wait:
    /// otherwise every body returns, so these clauses bind it.
    ///
    /// `faults` also gets the fault that ended the command, the reason why a password may be wrong,
    /// or the lines that an import left out. A failure of `faults` changes nothing. The status is
    /// `Database` if a change is lost; otherwise the table stands for the book, and a crash leaves
    /// it.
    pub fn carry_out<T: Threads + Sync, S: Alter, R: Read, W: Write, F: Write>(
        &self,
        tools: &Tools<'_, T>,
        conn: Connection<S>,
        reader: &mut Watched<R>,
        writer: &mut Watched<W>,
        faults: &mut F,
    ) -> (Connection<S>, Status)
        requires new_reader { IsNew reader.old }
        requires new_writer { IsNew writer.old }
        requires autocommit { conn.in_transaction ≡ false }
        ensures done { IsCarriedOut S.Store self.now (reading R.remaining reader.old reader.new)
            (writing W.contents writer.old writer.new) conn result.0 result.1
            ⊎ (IsRefused S.Store conn result.0 result.1 × (reader.new ≡ reader.old)
            × (writer.new ≡ writer.old)) }
        ensures transcript { (rest : List ℕ) → MayFollow rest reader.new
            → IsCarriedOut S.Store self.now (transcript_reading rest reader.new)
            (transcript_writing writer.old writer.new) conn result.0 result.1
            ⊎ (IsRefused S.Store conn result.0 result.1 × (reader.new ≡ reader.old)
            × (writer.new ≡ writer.old)) }
        ensures unread { is_unread self.now ≡ true → reader.new ≡ reader.old }
    {
        match FileBook::open(tools.alloc, conn) {
            Ok(mut book) => {
                let ended = perform(tools, &mut book, self, reader, writer);
                let status = tell_end(faults, ended, book.lost());
                (book.close(), status)
            }
            Err((why, conn)) => (conn, refuse(faults, &why)),
        }
    }
}

/// Does a command on a kept book.
fn perform<T: Threads + Sync, S: Alter, R: Read, W: Write>(
    tools: &Tools<'_, T>,
    book: &mut FileBook<S>,
    command: &BookCommand,
    reader: &mut Watched<R>,
    writer: &mut Watched<W>,
) -> Result<CommandResult, Failure>
    requires new_reader { IsNew reader.old }
    requires new_writer { IsNew writer.old }
    ensures done { (basis : Basis) → FitsSince basis reader.old reader.new
        → Performs command.now (seen (reading_on basis R.remaining reader.old reader.new)
        (writing_on basis W.contents writer.old writer.new) (kept_book book.old)
        (kept_book book.new)) result }
    ensures unread { is_unread command.now ≡ true → reader.new ≡ reader.old }
{
    match command {
        BookCommand::Password { name, operation } => {
            command_end(operation.carry_out(tools, book, name, reader, writer))
        }
        BookCommand::Account { operation } => command_end(operation.carry_out(book, writer)),
        BookCommand::DisableShown { name } => {
            command_end(disable_shown(tools.alloc, book, name, writer))
        }
        BookCommand::Show { name, detail } => {
            command_end(show(tools.alloc, book, name, *detail, writer))
        }
        BookCommand::ShowJson { name, detail } => {
            command_end(show_json(tools.alloc, book, name, *detail, writer))
        }
        BookCommand::List { line } => command_end(list(tools.alloc, book, *line, writer)),
        BookCommand::Import { how } => import_end(import(tools.alloc, book, *how, reader), writer),
    }
}
