//! Builds a publisher and its sessions from a book.

ghost use Rattle.std.specs.Prelude.{◌≡◌, [], All, IfErr, IfOk, true, vec_len};
ghost use Rattle.cred_desk.specs.{Naming.IsNamed, Naming.StartsAt, Refusals.IsRefusedToMake, Standing.IsNew};

use crate::error::DeskError;
use crate::list::Front;
use crate::naming::{Naming, Opened};
use crate::published::{BookWriter, Shown, show_copy};
use crate::publisher::Publisher;
use crate::session::Session;
use cred_book::Book;
use std::alloc::{AllocError, Global};
use std::sync::Wait;
use std::sync::ledger::{Blank, Book as Total, Share};

/// The most sessions that a desk or a committer has.
pub(crate) const MOST_SESSIONS: u8 = 128;

/// A publisher with its sessions, and the tokens that count what they do.
pub(crate) struct Made<J: Naming> {
    pub(crate) publisher: Publisher<J>,
    pub(crate) sessions: Vec<Session<J>>,
    pub(crate) total: Total<J>,
    pub(crate) spare: Share<J>,
    /// The token for the count of what is handed out.
    pub(crate) handouts: Blank,
}

/// Copies the book, and shows it to so many sessions.
///
/// Errors: `Memory` if memory runs out; `Reader` if a session gets no place to read. The first
/// error that occurs is the answer.
pub(crate) fn make<J: Naming, R: Wait>(
    rt: &R,
    alloc: Global,
    opened: Opened,
    book: &Book,
    sessions: u8,
) -> Result<Made<J>, DeskError>
    requires name { IsNamed J.Naming opened }
    requires opening { StartsAt J.Naming book.now sessions }
    ensures list { IfOk result (λ made. made.publisher ≡ []) }
    ensures sessions { IfOk result
        (λ made. (vec_len made.sessions ≡ sessions) × All IsNew made.sessions.items) }
    ensures count { IfOk result
        (λ made. (made.total.total ≡ 0) × (made.spare.parts ≡ 0) × (made.spare.amount ≡ 0)) }
    ensures handouts { IfOk result
        (λ made. (made.handouts.name ≡ J.handouts) × (made.handouts.parts ≡ 1)) }
    ensures refused { IfErr result (λ e. IsRefusedToMake true e) }
{
    let (history, blank, handouts) = opened.named::<J>();
    let Some(history) = history else {
        return Err(DeskError::Memory);
    };
    let (total, mut spare) = blank.open::<J>();
    let writer = open_writer(alloc, rt, history.beginning(), book, sessions)?;
    match seats(alloc, &writer, history.beginning(), &mut spare, sessions) {
        Ok(sessions) => Ok(Made {
            publisher: Publisher::new(writer, history),
            sessions,
            total,
            spare,
            handouts,
        }),
        Err(error) => {
            drop(writer.take(rt));
            Err(error)
        }
    }
}

/// Copies the book twice, and shows readers one of the copies.
fn open_writer<J: Naming, R: Wait>(
    alloc: Global,
    rt: &R,
    front: &Front<J>,
    book: &Book,
    sessions: u8,
) -> Result<BookWriter<J>, AllocError>
    requires empty { front.now ≡ [] }
    requires opening { book.now ≡ J.opening }
    ensures shown { IfOk result
        (λ w. (w.desk.shown.value.front ≡ []) × (w.desk.shown.value.book ≡ J.opening)) }
    ensures spare { IfOk result (λ w. w.desk.spare.value.book ≡ J.opening) }
{
    let first = Shown::of(book, front)?;
    let second = Shown::of(book, front)?;
    // The contract of a writer doesn't say what becomes of the second value.
    let unsaid = Shown::empty(alloc, front)?;
    let readers = usize::from(sessions.max(1));
    let mut writer = BookWriter::<J>::new(alloc, first, unsaid, readers)?;
    show_copy(&mut writer, rt, second);
    Ok(writer)
}

/// Returns so many sessions, each with a part of the share.
fn seats<J: Naming>(
    alloc: Global,
    writer: &BookWriter<J>,
    front: &Front<J>,
    spare: &mut Share<J>,
    count: u8,
) -> Result<Vec<Session<J>>, DeskError>
    requires empty { front.now ≡ [] }
    requires spare { (spare.old.parts ≡ count) × (spare.old.amount ≡ 0) }
    ensures sessions { IfOk result
        (λ made. (vec_len made ≡ count) × All IsNew made.items) }
    ensures spare { IfOk result (λ _. (spare.new.parts ≡ 0) × (spare.new.amount ≡ 0)) }
    ensures refused { IfErr result (λ e. IsRefusedToMake true e) }
{
    let mut sessions = Vec::with_capacity(alloc, usize::from(count))?;
    for _index in 0..count {
        let reader = writer.factory().reader().map_err(|_| DeskError::Reader)?;
        let share = spare.split_off(1, 0);
        sessions.push_reserved(Session::new(reader, front.again(), share));
    }
    Ok(sessions)
}
