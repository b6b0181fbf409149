//! Answers that list names.

ghost use Rattle.std.specs.Prelude.{◌≡◌, ◌∷◌, ◌++◌, ◌&&◌, not, IfOk, OnOk};
ghost use Rattle.std.specs.FinMap as map;
ghost use Rattle.std.specs.Ordering.{is_lt};
ghost use Rattle.cred_book.specs.Names.{name_cmp};
ghost use Rattle.cred_file.specs.Cells.{is_marked, mark_text};
ghost use Rattle.cred_many.specs.Names.{marked_page, marks_line, names_line, page, spaced, spaced_marks};

use cred_admin::Host;
use cred_book::{Name, Register};
use cred_file::Mark;
use std::alloc::{AllocError, Global};

/// Writes a line of the word `names` and the names from this one on, at most so many.
pub(crate) fn names_line(
    alloc: Global,
    accounts: &Register,
    from: &Name,
    most: u16,
) -> Result<Vec<u8>, AllocError>
    ensures { IfOk result
        (λ line. line.items ≡ names_line (page from.now most (map.keys accounts.now))) }
{
    let mut line = Vec::new(alloc);
    line.extend_from_slice(b"names")?;
    push_names(&mut line, accounts, from, most)?;
    line.push(b'\n')?;
    Ok(line)
}

/// Adds a space and a name for each of these names.
fn push_names(
    line: &mut Vec<u8>,
    accounts: &Register,
    from: &Name,
    most: u16,
) -> Result<(), AllocError>
    ensures { OnOk result (line.new.items
        ≡ line.old.items ++ spaced (page from.now most (map.keys accounts.now))) }
{
    let mut left = most;
    for (name, _) in accounts.iter() {
        if left == 0 {
            return Ok(());
        }
        if !name.cmp(from).is_lt() {
            line.push(b' ')?;
            line.extend_from_slice(name.bytes())?;
            left -= 1;
        }
    }
    Ok(())
}

/// Writes a line of the word `marks` and the marked names from this one on, at most so many, with
/// their marks.
pub(crate) fn marks_line<K: Host>(
    alloc: Global,
    keeper: &K,
    from: &Name,
    most: u16,
) -> Result<Vec<u8>, AllocError>
    ensures { IfOk result (λ line. line.items ≡ marks_line (K.book keeper.now).marks
        (marked_page (K.book keeper.now).marks from.now most
        (map.keys (K.book keeper.now).accounts))) }
{
    let mut line = Vec::new(alloc);
    line.extend_from_slice(b"marks")?;
    push_marks(&mut line, keeper, from, most)?;
    line.push(b'\n')?;
    Ok(line)
}

/// Adds a space, a name and its mark for each of these names.
fn push_marks<K: Host>(
    line: &mut Vec<u8>,
    keeper: &K,
    from: &Name,
    most: u16,
) -> Result<(), AllocError>
    ensures { OnOk result (line.new.items ≡ line.old.items
        ++ spaced_marks (K.book keeper.now).marks (marked_page (K.book keeper.now).marks from.now
        most (map.keys (K.book keeper.now).accounts))) }
{
    let mut left = most;
    for (name, _) in keeper.accounts().iter() {
        if left == 0 {
            return Ok(());
        }
        let mark = keeper.mark_of(name);
        if is_listed(mark, from, name) {
            push_mark(line, name, mark)?;
            left -= 1;
        }
    }
    Ok(())
}

/// Whether a name has a mark, and doesn't come before the first one that is asked for.
fn is_listed(mark: Mark, from: &Name, name: &Name) -> bool
    ensures { result ≡ (is_marked mark && not (is_lt (name_cmp name.now from.now))) }
{
    mark.is_marked() && !name.cmp(from).is_lt()
}

fn push_mark(line: &mut Vec<u8>, name: &Name, mark: Mark) -> Result<(), AllocError>
    ensures { OnOk result
        (line.new.items ≡ line.old.items ++ (32 ∷ name.now ++ 58 ∷ mark_text mark)) }
{
    line.push(b' ')?;
    line.extend_from_slice(name.bytes())?;
    line.push(b':')?;
    line.extend_from_slice(mark.text())
}
