//! The end of a kept desk, and the values that it leaves.

use super::replay;
use super::writer::Log;
use cred_book::Book;
use cred_desk::{Entry, Finished, Handed, Kept, KeptDesk, Naming, Remains, Session, Unclosed};
use std::alloc::Global;
use std::sync::Wait;

/// The end of a kept desk.
#[derive(Clone, Copy)]
pub(super) enum Ending {
    /// Closes the desk with all sessions, in their order.
    Close,
    /// Finishes the desk, with so many of the last sessions lost.
    Finish { lost: usize },
    /// Gives the desk up, without counts.
    GiveUp,
    /// Ends the desk without a result, once all is handed out.
    End,
}

/// The entries that a desk handed out, piece by piece.
#[derive(Drop)]
pub(super) struct Journal {
    alloc: Global,
    /// The opening book with the changes of the entries.
    pub(super) book: Book,
    pub(super) entries: Vec<Entry>,
    /// The number of entries of each piece.
    pub(super) pieces: Vec<usize>,
}

impl Journal {
    /// Returns an empty journal, or none if there is no memory.
    pub(super) fn new(alloc: Global, opening: &Book) -> Option<Journal> {
        Some(Journal {
            alloc,
            book: opening.copy().ok()?,
            entries: Vec::new(alloc),
            pieces: Vec::new(alloc),
        })
    }

    /// Adds a piece. Returns none if there is no memory.
    pub(super) fn add(&mut self, piece: Vec<Entry>) -> Option<()> {
        self.pieces.push(piece.len()).ok()?;
        replay(&mut self.book, &piece);
        for entry in piece {
            self.entries.push(entry).ok()?;
        }
        Some(())
    }
}

/// The values that a kept desk leaves.
#[derive(Drop)]
pub(super) struct Left {
    pub(super) book: Book,
    /// All entries; the last piece has those that weren't handed out.
    pub(super) journal: Journal,
    /// The changes of each session, as the desk counted them if it was closed.
    pub(super) counts: Vec<u64>,
    pub(super) additions: Vec<u64>,
    /// The number of entries of the sessions that the desk missed.
    pub(super) missing: u64,
    pub(super) log: Log,
}

/// The counts of each session: its changes and its additions.
type Tallies = (Vec<u64>, Vec<u64>);

fn counted<J: Naming>(alloc: Global, sessions: &[Session<J>]) -> Option<Tallies> {
    let (mut counts, mut additions) = (Vec::new(alloc), Vec::new(alloc));
    for session in sessions {
        counts.push(session.count()).ok()?;
        additions.push(session.additions()).ok()?;
    }
    Some((counts, additions))
}

/// Ends a desk that has handed out this journal. Returns none if memory runs out or the desk fails.
pub(super) fn end<J: Naming, R: Wait>(
    rt: &R,
    desk: KeptDesk<J, Log>,
    handed: Handed<J>,
    sessions: Vec<Session<J>>,
    journal: Journal,
    ending: Ending,
) -> Option<Left> {
    let tallies = counted(journal.alloc, &sessions);
    let (mut handed, mut sessions) = (handed, sessions);
    match ending {
        Ending::Close => {
            let Kept {
                closed,
                additions,
                writer,
            } = close(rt, desk, handed, sessions)?;
            let (book, rest) = (closed.book, closed.journal);
            let remains = Remains {
                book,
                journal: rest,
            };
            remaining(
                journal,
                (closed.counts, additions),
                finished(remains, writer),
            )
        }
        Ending::Finish { lost } => {
            sessions.truncate(sessions.len().saturating_sub(lost));
            let finished = desk.finish(rt, handed, sessions);
            remaining(journal, tallies?, finished)
        }
        Ending::GiveUp => {
            let (remains, log) = desk.give_up(rt, handed, &sessions);
            remaining(journal, tallies?, finished(remains, log))
        }
        Ending::End => {
            let rest = desk.checkpoint(rt, &mut handed);
            let log = desk.end(rt, handed);
            let mut book = journal.book.copy().ok()?;
            replay(&mut book, &rest);
            let remains = Remains {
                book,
                journal: rest,
            };
            remaining(journal, tallies?, finished(remains, log))
        }
    }
}

fn close<J: Naming, R: Wait>(
    rt: &R,
    desk: KeptDesk<J, Log>,
    handed: Handed<J>,
    sessions: Vec<Session<J>>,
) -> Option<Kept<Log>> {
    match desk.close(rt, handed, sessions) {
        Ok(kept) => Some(kept),
        Err(unclosed) => {
            let Unclosed {
                desk,
                handed,
                sessions: _,
                error: _,
            } = unclosed;
            let _log = desk.end(rt, handed);
            None
        }
    }
}

/// Returns the values left by a desk that missed nothing.
fn finished(remains: Remains, writer: Log) -> Finished<Log> {
    Finished {
        remains,
        missing: 0,
        writer,
    }
}

fn remaining(journal: Journal, tallies: Tallies, finished: Finished<Log>) -> Option<Left> {
    let mut journal = journal;
    let remains = finished.remains;
    journal.add(remains.journal)?;
    Some(Left {
        book: remains.book,
        journal,
        counts: tallies.0,
        additions: tallies.1,
        missing: finished.missing,
        log: finished.writer,
    })
}
