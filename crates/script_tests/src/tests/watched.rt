//! Tests of the calls that a watched reader or writer passes on, counts and remembers.
use cred_cli::Watched;
use std::io;
use std::io::{Read, Write};
use std::process::Abort;

/// The result of a call, or none if it failed; the number of calls so far; and whether one has
/// failed.
type Seen = (Option<usize>, u64, bool);

fn hold_seen<R: Abort>(rt: &R, seen: Seen, want: Seen) {
    assert_eq!(rt; seen, want);
}

fn after_read<S: Read>(reader: &mut Watched<S>) -> Seen {
    let given = reader.read(&mut [0; 8]).ok();
    (given, reader.calls(), reader.failed())
}

fn after_write<W: Write>(writer: &mut Watched<W>, bytes: &[u8]) -> Seen {
    let taken = writer.write(bytes).ok();
    (taken, writer.calls(), writer.failed())
}

fn after_flush<W: Write>(writer: &mut Watched<W>) -> Seen {
    let flushed = writer.flush().ok().map(|()| 0);
    (flushed, writer.calls(), writer.failed())
}

#[test]
fn reads_are_counted(rt: HostRuntime) {
    let mut reader = Watched::new(b"ab".as_slice());
    hold_seen(&rt, after_read(&mut reader), (Some(2), 1, false));
    hold_seen(&rt, after_read(&mut reader), (Some(0), 2, false));
}

/// A stream that fails the first call, and passes on the calls after it.
#[derive(Drop)]
struct Stumbling<X> {
    inner: X,
    has_failed: bool,
}

impl<X> Stumbling<X> {
    fn step(&mut self) -> io::Result<()> {
        if self.has_failed {
            return Ok(());
        }
        self.has_failed = true;
        Err(io::Error::from(io::ErrorKind::Interrupted))
    }
}

impl<X: Read> Read for Stumbling<X> {
    fn read(&mut self, buf: &mut [u8]) -> io::Result<usize> {
        self.step()?;
        self.inner.read(buf)
    }
}

impl<X: Write> Write for Stumbling<X> {
    fn write(&mut self, buf: &[u8]) -> io::Result<usize> {
        self.step()?;
        self.inner.write(buf)
    }

    fn flush(&mut self) -> io::Result<()> {
        self.step()?;
        self.inner.flush()
    }
}

fn failing_once<X>(inner: X) -> Watched<Stumbling<X>> {
    Watched::new(Stumbling {
        inner,
        has_failed: false,
    })
}

/// Tests that a reader or writer reports a call that fails, and doesn't make it again.
#[test]
fn failures_are_told(rt: HostRuntime) {
    let mut reader = failing_once(b"ab".as_slice());
    hold_seen(&rt, after_read(&mut reader), (None, 1, true));
    hold_seen(&rt, after_read(&mut reader), (Some(2), 2, true));
    let mut writer = failing_once::<Vec<u8>>(Vec::new(rt.alloc()));
    hold_seen(&rt, after_write(&mut writer, b"a"), (None, 1, true));
    hold_seen(&rt, after_write(&mut writer, b"a"), (Some(1), 2, true));
    let mut writer = failing_once::<Vec<u8>>(Vec::new(rt.alloc()));
    hold_seen(&rt, after_flush(&mut writer), (None, 1, true));
    hold_seen(&rt, after_flush(&mut writer), (Some(0), 2, true));
}
