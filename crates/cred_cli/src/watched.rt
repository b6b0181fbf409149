//! A reader or a writer that counts its calls, and remembers whether one failed. Proofs also see
//! all bytes that passed.

ghost use Rattle.std.specs.Prelude.{◌≡◌, ◌+◌, ◌-◌, ◌^◌, ◌<◌, ◌∷◌, min, true, length, IfOk, OnOk, OnErr};
ghost use Rattle.std.specs.{Io.ReadsAtMost, Io.WritesAtMost, Io.KnownBytes.Keeps, Io.KnownBytes.ReadConsumes, Io.KnownBytes.WriteAppends};
ghost use Rattle.cred_cli.specs.Watched.{IsNew, calls_of, failed_of, inner_of, name_of, Passes, ended_of, given_of, log_of, taken_of};

use crate::past::{Note, Past};
use cred_book::Keeper;
use std::io;
use std::io::{Read, Write};

/// A reader or a writer whose calls are watched.
#[derive(Drop)]
pub struct Watched<X> {
    inner: X,
    calls: u64,
    failed: bool,
    ended: bool,
    past: Past,
}

/// The bytes that a call on a reader gave.
#[derive(Clone, Copy)]
struct Given<'a> {
    bytes: &'a [u8],
}

impl Note for Given<'_> {
    ghost use Rattle.std.specs.Prelude.{◌++◌};
    ghost use Rattle.cred_cli.specs.Pasts.{given_more};

    ghost noted = { λ n past. record past { given = past.given ++ n.bytes.now } };

    ghost goes_on = { λ n past. given_more past n.bytes.now };
}

/// The bytes that a call on a writer took.
#[derive(Clone, Copy)]
struct Taken<'a> {
    bytes: &'a [u8],
}

impl Note for Taken<'_> {
    ghost use Rattle.std.specs.Prelude.{◌++◌};
    ghost use Rattle.cred_cli.specs.Pasts.{taken_more};

    ghost noted = { λ n past. record past { taken = past.taken ++ n.bytes.now } };

    ghost goes_on = { λ n past. taken_more past n.bytes.now };
}

/// A call on a reader beside a keeper and a writer.
#[derive(Clone, Copy)]
struct Called<'a, K, R, W> {
    keeper: &'a K,
    reader: &'a R,
    writer: &'a Watched<W>,
}

impl<K: Keeper, R: Read, W: Write> Note for Called<'_, K, R, W> {
    ghost use Rattle.std.specs.Prelude.{◌∷◌};
    ghost use Rattle.cred_cli.specs.{Pasts.called_more, Watched.inner_of, Watched.name_of, Watched.taken_of};

    ghost noted = { λ n past. record past {
      calls = (record {
        left = R.remaining n.reader.now;
        given = past.given;
        beside = name_of n.writer.now;
        written = W.contents (inner_of n.writer.now);
        taken = taken_of n.writer.now;
        accounts = K.book n.keeper.now;
      }) ∷ past.calls;
    } };

    ghost goes_on = { λ n past. called_more past (record {
      left = R.remaining n.reader.now;
      given = past.given;
      beside = name_of n.writer.now;
      written = W.contents (inner_of n.writer.now);
      taken = taken_of n.writer.now;
      accounts = K.book n.keeper.now;
    }) };
}

impl<X> Watched<X> {
    /// Returns a watched `inner`, with no call counted yet.
    pub fn new(inner: X) -> Watched<X>
        ensures new { IsNew result }
        ensures inner { inner_of result ≡ inner }
    {
        Watched {
            inner,
            calls: 0,
            failed: false,
            ended: false,
            past: Past::new(),
        }
    }

    /// Returns the number of calls, which stays at `u64::MAX`.
    pub fn calls(&self) -> u64
        ensures { result ≡ calls_of self.now }
    {
        self.calls
    }

    /// Whether a call failed, or a write accepted none of one or more bytes.
    pub fn failed(&self) -> bool
        ensures { result ≡ failed_of self.now }
    {
        self.failed
    }

    /// Whether a call gave no byte though the buffer had room.
    pub fn ended(&self) -> bool
        ensures { result ≡ ended_of self.now }
    {
        self.ended
    }

    /// Returns the reader or writer itself.
    pub fn into_inner(self) -> X
        ensures { result ≡ inner_of self }
    {
        let Watched { inner, .. } = self;
        inner
    }
}

impl<R: Read> Watched<R> {
    /// Reads like [`Read::read`], and logs the state of the writer and the keeper, neither of which
    /// it changes.
    pub fn read_beside<K: Keeper, W: Write>(
        &mut self,
        keeper: &K,
        writer: &Watched<W>,
        buf: &mut [u8],
    ) -> io::Result<usize>
        ensures bound { ReadsAtMost result buf.new }
        ensures bytes { ReadConsumes (R.remaining (inner_of self.old))
            (R.remaining (inner_of self.new)) result buf.new }
        ensures passed { Passes (given_of self.old) (given_of self.new) result buf.new }
        ensures logged { log_of self.new ≡ (record {
          left = R.remaining (inner_of self.old);
          given = given_of self.old;
          beside = name_of writer.now;
          written = W.contents (inner_of writer.now);
          taken = taken_of writer.now;
          accounts = K.book keeper.now;
        }) ∷ log_of self.old }
        ensures named { name_of self.new ≡ name_of self.old }
        ensures calls { calls_of self.new ≡ min (calls_of self.old + 1) (2 ^ 64 - 1) }
        ensures failed { OnErr result (failed_of self.new ≡ true) }
        ensures kept { OnOk result (failed_of self.new ≡ failed_of self.old) }
        ensures end { IfOk result (λ n. n ≡ 0 → 0 < length buf.new → ended_of self.new ≡ true) }
        ensures goes_on { IfOk result (λ n. 0 < n → ended_of self.new ≡ ended_of self.old) }
        ensures nothing { OnOk result (length buf.new ≡ 0 → ended_of self.new ≡ ended_of self.old) }
        ensures broken { OnErr result (ended_of self.new ≡ ended_of self.old) }
    {
        self.past = self.past.and(&Called {
            keeper,
            reader: &self.inner,
            writer,
        });
        self.read(buf)
    }
}

impl<R: Read> Read for Watched<R> {
    ghost remaining = { λ w. R.remaining w.inner };

    fn read(&mut self, buf: &mut [u8]) -> io::Result<usize>
        ensures bound { ReadsAtMost result buf.new }
        ensures bytes { ReadConsumes (R.remaining self.old.inner)
            (R.remaining self.new.inner) result buf.new }
        ensures passed { Passes self.old.past.given self.new.past.given result buf.new }
        ensures logged { self.new.past.calls ≡ self.old.past.calls }
        ensures named { self.new.past.name ≡ self.old.past.name }
        ensures calls { self.new.calls ≡ min (self.old.calls + 1) (2 ^ 64 - 1) }
        ensures failed { OnErr result (self.new.failed ≡ true) }
        ensures kept { OnOk result (self.new.failed ≡ self.old.failed) }
        ensures end { IfOk result (λ n. n ≡ 0 → 0 < length buf.new → self.new.ended ≡ true) }
        ensures goes_on { IfOk result (λ n. 0 < n → self.new.ended ≡ self.old.ended) }
        ensures nothing { OnOk result (length buf.new ≡ 0 → self.new.ended ≡ self.old.ended) }
        ensures broken { OnErr result (self.new.ended ≡ self.old.ended) }
    {
        let read = self.inner.read(buf);
        if let Ok(n) = read {
            self.past = self.past.and(&Given { bytes: &buf[..n] });
            self.ended |= n == 0 && !buf.is_empty();
        }
        self.calls = self.calls.saturating_add(1);
        self.failed |= read.is_err();
        read
    }
}

impl<W: Write> Write for Watched<W> {
    ghost contents = { λ w. W.contents w.inner };

    fn write(&mut self, buf: &[u8]) -> io::Result<usize>
        ensures bound { WritesAtMost result buf.now }
        ensures bytes { WriteAppends (W.contents self.old.inner)
            (W.contents self.new.inner) result buf.now }
        ensures passed { Passes self.old.past.taken self.new.past.taken result buf.now }
        ensures named { self.new.past.name ≡ self.old.past.name }
        ensures calls { self.new.calls ≡ min (self.old.calls + 1) (2 ^ 64 - 1) }
        ensures failed { OnErr result (self.new.failed ≡ true) }
        ensures none { IfOk result (λ n. n ≡ 0 → 0 < length buf.now → self.new.failed ≡ true) }
        ensures kept { IfOk result (λ n. 0 < n → self.new.failed ≡ self.old.failed) }
        ensures nothing { OnOk result (length buf.now ≡ 0 → self.new.failed ≡ self.old.failed) }
    {
        let written = self.inner.write(buf);
        let failed = match written {
            Ok(n) => n == 0 && !buf.is_empty(),
            Err(_) => true,
        };
        if let Ok(n) = written {
            self.past = self.past.and(&Taken { bytes: &buf[..n] });
        }
        self.calls = self.calls.saturating_add(1);
        self.failed |= failed;
        written
    }

    fn flush(&mut self) -> io::Result<()>
        ensures bytes { Keeps (W.contents self.old.inner) (W.contents self.new.inner) }
        ensures passed { self.new.past.taken ≡ self.old.past.taken }
        ensures named { self.new.past.name ≡ self.old.past.name }
        ensures calls { self.new.calls ≡ min (self.old.calls + 1) (2 ^ 64 - 1) }
        ensures failed { OnErr result (self.new.failed ≡ true) }
        ensures kept { OnOk result (self.new.failed ≡ self.old.failed) }
    {
        let flushed = self.inner.flush();
        self.calls = self.calls.saturating_add(1);
        self.failed |= flushed.is_err();
        flushed
    }
}
