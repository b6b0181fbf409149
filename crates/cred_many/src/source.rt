//! The source of lines.

ghost use Rattle.std.specs.Prelude.{◌≡◌, ◌≤◌, false, length};
ghost use Rattle.cred_cli.specs.Script.{line_ends};

use crate::sender::LineCount;
use std::io;
use std::io::Read;

/// The source of the lines of many clients.
///
/// Before a call, the caller owes three things. Each whole line that came was handed on, the source
/// neither ended nor failed, and the bytes that it gives can be counted.
pub trait Source {
    ghost use Rattle.std.specs.Prelude.{◌≡◌, ◌+◌, ◌^◌, ◌<◌, ◌==◌, ℕ, Bool, false, true, List, Option, length, IfOk, MatchResult, take};
    ghost use Rattle.std.specs.{Io.ReadsAtMost, Io.KnownBytes.ReadConsumes};
    ghost use Rattle.cred_cli.specs.Script.{line_ends};

    /// The bytes that the source will give, if they are known.
    ghost remaining: { Self → Option (List ℕ) };

    /// The number of line ends that the source gave.
    ghost given: { Self → ℕ };

    /// Whether the source has reported its end.
    ghost ended: { Self → Bool };

    /// Whether a call on the source failed.
    ghost failed: { Self → Bool };

    /// Reads like [`Read::read`], once so many lines have been handed on.
    fn read(&mut self, handed: &LineCount, buf: &mut [u8]) -> io::Result<usize>
        requires handed { handed.now ≡ given self.old }
        requires going { (ended self.old ≡ false) × (failed self.old ≡ false) }
        requires few { given self.old + length buf.old < 2 ^ 64 }
        ensures bound { ReadsAtMost result buf.new }
        ensures bytes { ReadConsumes (remaining self.old) (remaining self.new) result buf.new }
        ensures given { IfOk result
            (λ n. given self.new ≡ given self.old + line_ends (take n buf.new)) }
        ensures ended { IfOk result (λ n. ended self.new ≡ (n == 0)) }
        ensures failed { MatchResult result
            (λ _. failed self.new ≡ false) (λ _. failed self.new ≡ true) };
}

/// A reader that counts its line ends.
#[derive(Drop)]
pub struct LineReader<R> {
    reader: R,
    given: u64,
    ended: bool,
    failed: bool,
}

impl<R: Read> LineReader<R> {
    /// Wraps a reader that has given nothing yet.
    pub fn new(reader: R) -> LineReader<R>
        ensures remaining { ⟦<LineReader<R> as Source>⟧.remaining result ≡ R.remaining reader }
        ensures given { ⟦<LineReader<R> as Source>⟧.given result ≡ 0 }
        ensures going { (⟦<LineReader<R> as Source>⟧.ended result ≡ false)
            × (⟦<LineReader<R> as Source>⟧.failed result ≡ false) }
    {
        LineReader {
            reader,
            given: 0,
            ended: false,
            failed: false,
        }
    }
}

impl<R: Read> Source for LineReader<R> {
    ghost remaining = { λ l. R.remaining l.reader };

    ghost given = { λ l. l.given };

    ghost ended = { λ l. l.ended };

    ghost failed = { λ l. l.failed };

    fn read(&mut self, _handed: &LineCount, buf: &mut [u8]) -> io::Result<usize> {
        match self.reader.read(buf) {
            Ok(n) => {
                self.given += line_ends(&buf[..n]);
                self.ended = n == 0;
                Ok(n)
            }
            Err(error) => {
                self.failed = true;
                Err(error)
            }
        }
    }
}

/// Returns the number of line ends in these bytes.
fn line_ends(bytes: &[u8]) -> u64
    ensures ends { result ≡ line_ends bytes.now }
    ensures few { result ≤ length bytes.now }
{
    bytes.iter().filter(|byte| **byte == b'\n').count() as u64
}
