//! The progress of a command, written on a terminal.

ghost use Rattle.std.specs.{Io.ReadsAtMost, Io.KnownBytes.ReadConsumes, Prelude.◌≡◌};

use crate::command_line::Remarks;
use std::io;
use std::io::{IsTerminal, Read, Write};
use std::time::Instant;

/// The seconds before the first line of progress, and between two of them.
const PAUSE: u64 = 1;

/// An import of more lines than this takes long after it has read them.
const MANY_LINES: u64 = 10_000;

const LINES: &str = "lines read, which are stored together";

/// A line on standard error, which the program overwrites as a command goes on.
#[derive(Drop)]
pub struct ProgressLine<'a> {
    host: &'a HostRuntime,
    /// The time of the last line, or of the command's start. `None` without a terminal.
    last: Option<Instant>,
    shown: bool,
}

impl<'a> ProgressLine<'a> {
    pub fn new(host: &'a HostRuntime, remarks: Remarks) -> ProgressLine<'a> {
        let mut last = None;
        if remarks == Remarks::Told && host.stderr().is_terminal() {
            last = Instant::now(host).ok();
        }
        ProgressLine {
            host,
            last,
            shown: false,
        }
    }

    /// Writes how much is done, if the last such line is a second old.
    pub fn tell(&mut self, done: u64, what: &str) {
        let Some(last) = self.last else {
            return;
        };
        match last.elapsed(self.host) {
            Ok(passed) if passed.as_secs() >= PAUSE => self.write(done, what),
            _ => {}
        }
    }

    /// Writes how much is done.
    pub fn write(&mut self, done: u64, what: &str) {
        if self.last.is_none() {
            return;
        }
        let _ = write!(self.host.stderr(), "\rcredkeep: {done} {what}");
        self.last = Instant::now(self.host).ok();
        self.shown = true;
    }

    /// Ends the line.
    pub fn end(&mut self) {
        if self.shown {
            let _ = writeln!(self.host.stderr());
        }
        self.shown = false;
    }
}

/// A reader that counts its lines.
#[derive(Drop)]
pub struct Counted<'a, R> {
    inner: R,
    lines: u64,
    progress: ProgressLine<'a>,
}

impl<'a, R> Counted<'a, R> {
    pub fn new(inner: R, progress: ProgressLine<'a>) -> Counted<'a, R> {
        Counted {
            inner,
            lines: 0,
            progress,
        }
    }

    /// Writes how many lines were read before a read of so many bytes.
    fn tell(&mut self, count: usize)
        ensures same_reader { self.new.inner ≡ self.old.inner }
    {
        if count != 0 {
            self.progress.tell(self.lines, LINES);
            return;
        }
        if self.lines > MANY_LINES {
            self.progress.write(self.lines, LINES);
        }
        self.progress.end();
    }
}

impl<R: Read> Read for Counted<'_, R> {
    ghost remaining = { λ c. R.remaining c.inner };

    fn read(&mut self, buf: &mut [u8]) -> io::Result<usize>
        ensures bound { ReadsAtMost result buf.new }
        ensures bytes { ReadConsumes (R.remaining self.old.inner)
            (R.remaining self.new.inner) result buf.new }
    {
        let taken = self.inner.read(buf);
        if let Ok(count) = &taken {
            let (read, _) = buf.split_at(*count);
            self.lines = lines_with(self.lines, read);
            self.tell(*count);
        }
        taken
    }
}

/// Returns the number of lines after these bytes.
fn lines_with(lines: u64, read: &[u8]) -> u64 {
    let mut lines = lines;
    for byte in read {
        if *byte == b'\n' {
            lines = lines.saturating_add(1);
        }
    }
    lines
}
