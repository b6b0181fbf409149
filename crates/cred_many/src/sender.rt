//! Hands out lines from the thread that reads.

ghost use Rattle.std.specs.Prelude.{◌≡◌, ◌+◌, ◌^◌, ◌<◌, OnOk, false, length};
ghost use Rattle.crossbeam_channel.specs.Claims.{view};
ghost use Rattle.cred_many.specs.Inbox.{no_progress};

use crate::inbox::ReaderEnd;
use crate::line::Line;
use crate::service_id::ServiceId;
use crossbeam_channel::Receiver;
use std::marker::Model;
use std::sync::Wait;

/// The number of lines that were handed out.
#[derive(Drop)]
pub struct LineCount {
    lines: u64,
}

impl Model for LineCount {
    ghost use Rattle.std.specs.Prelude.{ℕ};

    ghost Value = { ℕ };

    ghost view = { λ h. h.lines };
}

impl LineCount {
    /// Returns the number of lines.
    pub(crate) fn lines(&self) -> u64
        ensures { result ≡ self.now }
    {
        self.lines
    }
}

/// The proof that nobody takes lines any more. Only `LineSender::hand_out` builds one.
#[derive(Clone, Copy)]
pub(crate) struct Gone(());

/// Hands lines to the thread that has the book, but no more than may be open.
#[derive(Drop)]
pub(crate) struct LineSender<J: ServiceId> {
    /// A token for each line that the scribe may open now.
    room: Receiver<()>,
    book: ReaderEnd<J>,
    handed: LineCount,

    ghost counted: { length (view book.pass).sent.lines ≡ handed },
    ghost going: { (view book.pass).sent.ended ≡ false },
}

impl<J: ServiceId> LineSender<J> {
    /// Creates the sender, before the first line.
    pub(crate) fn new(room: Receiver<()>, book: ReaderEnd<J>) -> LineSender<J>
        requires { (view book.pass).sent ≡ no_progress }
        ensures handed { result.handed ≡ 0 }
        ensures channel { result.book.end ≡ book.end }
    {
        let handed = LineCount { lines: 0 };
        LineSender { room, book, handed }
    }

    /// Returns the number of lines that were handed out.
    pub(crate) fn handed(&self) -> &LineCount
        ensures { result.now ≡ self.now.handed }
    {
        &self.handed
    }

    /// Hands out the next line once there is room for it, and counts the line. A counted line was
    /// sent.
    pub(crate) fn hand_out<T: Wait>(&mut self, rt: &T, line: Line<J>) -> Result<(), Gone>
        requires next { line.number ≡ self.old.handed }
        requires few { self.old.handed + 1 < 2 ^ 64 }
        ensures handed { OnOk result (self.new.handed ≡ self.old.handed + 1) }
        ensures channel { self.new.book.end ≡ self.old.book.end }
    {
        let LineSender { room, book, handed } = self;
        if room.recv(rt).is_err() || book.send_line(rt, line).is_err() {
            return Err(Gone(()));
        }
        handed.lines += 1;
        Ok(())
    }

    /// Announces that no more lines come, and returns the end of the channel.
    pub(crate) fn end<T: Wait>(self, rt: &T) -> ReaderEnd<J>
        ensures lines { length (view result.pass).sent.lines ≡ self.handed }
        ensures channel { result.end ≡ self.book.end }
    {
        let LineSender {
            room: _room,
            book,
            handed: _handed,
        } = self;
        let mut book = book;
        book.send_end(rt);
        book
    }
}
