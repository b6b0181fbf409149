//! Operations without hashing, each done in one call.

ghost use Rattle.std.specs.Prelude.{◌≡◌, ◌++◌, ◌∷◌, IfOk, is_some, OnErr, OnOk, [], false, true};
ghost use Rattle.cred_admin.specs.{AccountOperations.disabling, Marked.mark_in};
ghost use Rattle.cred_cli.specs.Answers.{line_bytes};
ghost use Rattle.cred_many.specs.{Served.NeedsMemory, Served.disabled_line, Served.done, Served.record_at, Served.shown_line, declared.line_operation.LineOperation.TheVariants.Quick};
ghost use Rattle.cred_file.specs.Cells.{cell, is_blank, mark_text};
ghost use Rattle.std.specs.FinMap as map;

use crate::line_operation::QuickOperation;
use crate::listing::{marks_line, names_line};
use cred_admin::{
    AccountOperation, AccountReply, Detail, Host, LineForm, account_reply_line, line_of,
};
use cred_book::{BookError, Name};
use cred_cli::{AnswerLine, Refusal};
use cred_file::Mark;
use cred_phc::write_record;
use std::alloc::{AllocError, Global};

/// Does an operation that needs no hash. If memory runs out, the book stays as it was.
pub(crate) fn do_operation<K: Host>(
    alloc: Global,
    keeper: &mut K,
    operation: QuickOperation,
) -> Result<AnswerLine, AllocError>
    ensures answer { IfOk result
        (λ line. line_bytes line ≡ (done K.capacity (K.book keeper.old) (Quick operation)).0) }
    ensures book { OnOk result
        (K.book keeper.new ≡ (done K.capacity (K.book keeper.old) (Quick operation)).1) }
    ensures refused { OnErr result (K.book keeper.new ≡ K.book keeper.old) }
    ensures needs { OnErr result (NeedsMemory K.capacity (K.book keeper.old) (Quick operation)) }
{
    match operation {
        QuickOperation::Account(name) => match keeper.admit(name) {
            Ok(()) => Ok(AnswerLine::Fixed(b"ok\n")),
            Err(BookError::Memory) => Err(AllocError),
            Err(refusal) => Ok(AnswerLine::bad(Refusal::Book(refusal))),
        },
        QuickOperation::Load(name, stored) => match keeper.load(&name, stored) {
            Ok(()) => Ok(AnswerLine::Fixed(b"ok\n")),
            Err(BookError::Memory) => Err(AllocError),
            Err(refusal) => Ok(AnswerLine::bad(Refusal::Book(refusal))),
        },
        QuickOperation::Show(name) => show(alloc, keeper, &name),
        QuickOperation::List(from, most) => {
            let line = names_line(alloc, keeper.accounts(), &from, most)?;
            Ok(AnswerLine::Made(line))
        }
        QuickOperation::ListMarks(from, most) => {
            let line = marks_line(alloc, keeper, &from, most)?;
            Ok(AnswerLine::Made(line))
        }
        QuickOperation::OnAccount(operation) => match keeper.operate(&operation) {
            Ok(reply) => Ok(AnswerLine::Fixed(account_reply_line(reply))),
            Err(BookError::Memory) => Err(AllocError),
            Err(refusal) => Ok(AnswerLine::bad(Refusal::Book(refusal))),
        },
        QuickOperation::DisableShown(name) => disable_with_line(alloc, keeper, name),
        QuickOperation::Bad(why) => Ok(AnswerLine::bad(why)),
    }
}

/// Answers with an account's marks and its record behind them, as the book's file has them, or with
/// `none` if it has neither.
fn show<K: Host>(alloc: Global, keeper: &K, name: &Name) -> Result<AnswerLine, AllocError>
    ensures answer { IfOk result (λ line.
        line_bytes line ≡ shown_line ((K.book keeper.now).marks name.now)
        (map.get (K.book keeper.now).accounts name.now)) }
    ensures needs { OnErr result (is_blank (cell (record_at (K.book keeper.now) name.now)
        (mark_in (K.book keeper.now) name.now)) ≡ false) }
{
    let mark = keeper.mark_of(name);
    match keeper.accounts().show(name) {
        Ok(Some(stored)) => {
            let text = write_record(alloc, &stored).map_err(|_| AllocError)?;
            behind_marks(alloc, mark, &text)
        }
        Ok(None) if mark.is_marked() => behind_marks(alloc, mark, b""),
        Ok(None) => Ok(AnswerLine::Fixed(b"none\n")),
        Err(refusal) => Ok(AnswerLine::bad(Refusal::Book(refusal))),
    }
}

/// Writes a line with these marks and a text behind them.
fn behind_marks(alloc: Global, mark: Mark, text: &[u8]) -> Result<AnswerLine, AllocError>
    ensures { IfOk result
        (λ line. line_bytes line ≡ mark_text mark ++ text.now ++ 10 ∷ []) }
{
    let mut line = Vec::new(alloc);
    line.extend_from_slice(mark.text())?;
    line.extend_from_slice(text)?;
    line.push(b'\n')?;
    Ok(AnswerLine::Made(line))
}

/// Removes an account's record, and answers with its line. If memory runs out, the book stays as it
/// was.
fn disable_with_line<K: Host>(
    alloc: Global,
    keeper: &mut K,
    name: Name,
) -> Result<AnswerLine, AllocError>
    ensures answer { IfOk result (λ line.
        line_bytes line ≡ disabled_line name ((K.book keeper.old).marks name)
        (map.get (K.book keeper.old).accounts name)) }
    ensures book { OnOk result (K.book keeper.new ≡ (disabling (K.book keeper.old) name).1) }
    ensures refused { OnErr result (K.book keeper.new ≡ K.book keeper.old) }
    ensures needs { OnErr result (is_some (record_at (K.book keeper.old) name) ≡ true) }
{
    let stored = match keeper.accounts().show(&name) {
        Ok(Some(stored)) => stored,
        Ok(None) => return Ok(AnswerLine::Fixed(account_reply_line(AccountReply::Absent))),
        Err(_) => return Ok(AnswerLine::Fixed(account_reply_line(AccountReply::NoAccount))),
    };
    let mark = keeper.mark_of(&name);
    let line = line_of(
        alloc,
        LineForm::Passwd(Detail::Record),
        &name,
        mark,
        Some(stored),
    )?;
    match keeper.operate(&AccountOperation::Disable(name)) {
        Ok(_) => Ok(AnswerLine::Made(line)),
        Err(_) => Err(AllocError),
    }
}
