//! The thread that reads.

ghost use Rattle.std.specs.Prelude.{◌≡◌, ◌+◌, ◌^◌, ◌<◌, [], ◌∷◌, OnOk, false, length, true};
ghost use Rattle.crossbeam_channel.specs.{Claims.view, Ends.receives_on, Ends.sends_on};
ghost use Rattle.cred_cli.specs.Script.{line_ends};
ghost use Rattle.cred_many.specs.Reading.{HasHanded, IsEnd, IsOfReading, MovesOver, NothingIsLeft, ComesNext, place};

use crate::ending::{End, MOST_LINES};
use crate::inbox::{Inbox, ReaderEnd};
use crate::line::LineDecoder;
use crate::sender::{Gone, LineSender};
use crate::service_id::ServiceId;
use crate::source::Source;
use rand_core::Rng;
use std::marker::{Model, PhantomData};
use std::snapshot::Snapshot;
use std::sync::Wait;
use std::thread::{Promise, PromisedHandle, SpawnError, Threads};

/// The number of bytes that one read asks for.
const CHUNK: usize = 4096;

/// The end of the reading. Only the reading builds such a value, and only the scribe opens it.
/// Other ends stand for the reasons why nobody waits for a reading.
#[derive(Drop)]
pub struct Ending<J: ServiceId, S: Source> {
    end: End<S>,
    of: PhantomData<J>,
}

impl<J: ServiceId, S: Source> Model for Ending<J, S> {
    ghost use Rattle.cred_many.specs.{Reading.IsEnd, declared.ending.End.End};

    ghost Value = { End S };

    ghost view = { λ e. e.end };

    ghost invariant = { λ e. IsEnd J.service.input S.failed e.end };
}

impl<J: ServiceId, S: Source> Ending<J, S> {
    /// Returns the end of a reading for which no thread could be started.
    pub(crate) fn not_begun<F: Drop>(_refused: SpawnError<F>) -> Ending<J, S> {
        Ending::new(End::Threads)
    }

    /// Returns the end of a reading for which nobody waits.
    pub(crate) fn not_awaited(_reader: Reader<J, S>) -> Ending<J, S>
    where
        S: Drop,
    {
        Ending::new(End::Threads)
    }

    /// Returns the end of a reading without memory for the first line.
    pub(crate) fn without_memory() -> Ending<J, S> {
        Ending::new(End::Memory)
    }

    fn new(end: End<S>) -> Ending<J, S>
        requires { IsEnd J.service.input S.failed end }
        ensures { result ≡ end }
    {
        Ending {
            end,
            of: PhantomData,
        }
    }

    pub(super) fn end(self) -> End<S>
        ensures { IsEnd J.service.input S.failed result }
    {
        let Ending { end, of: _ } = self;
        end
    }
}

/// A reading that ended, with its end of the channel to the thread that has the book.
#[derive(Drop)]
pub(crate) struct Reading<J: ServiceId, S: Source> {
    ending: Ending<J, S>,
    book: ReaderEnd<J>,
}

/// The thread that reads.
pub(crate) type Reader<J, S> = PromisedHandle<Reading<J, S>, OfReading<J>>;

/// The promise of the thread that reads: it tells how a reading ended. A reading to the end of the
/// input sent as many lines as it handed out, through its end of the channel, and returns that end.
#[derive(Drop)]
pub(crate) struct OfReading<J: ServiceId>(Snapshot<LineSender<J>>);

impl<J: ServiceId> OfReading<J> {
    /// Returns the promise of a thread with this sender.
    pub(crate) fn of(sender: &LineSender<J>) -> OfReading<J>
        ensures { result.0.value ≡ sender.now }
    {
        OfReading(Snapshot::of(sender))
    }
}

impl<J: ServiceId, S: Source> Promise<Reading<J, S>> for OfReading<J> {
    ghost use Rattle.std.specs.Prelude.{◌≡◌, length};
    ghost use Rattle.crossbeam_channel.specs.Claims.{view};
    ghost use Rattle.cred_many.specs.Reading.{HasHanded, IsOfReading};

    ghost kept_by = { λ promise reading. IsOfReading reading.ending
        × HasHanded reading.ending (length (view reading.book.pass).sent.lines)
        × (reading.book.end ≡ promise.0.value.book.end) };
}

/// Reads to the end of the source, and announces this end.
pub(crate) fn read_all<J: ServiceId, T: Wait, S: Source + Drop, G: Rng + Drop>(
    rt: &T,
    source: S,
    decoder: LineDecoder<J, G>,
    sender: LineSender<J>,
) -> Reading<J, S>
    requires input { S.remaining source ≡ J.service.input }
    requires given { S.given source ≡ 0 }
    requires going { (S.ended source ≡ false) × (S.failed source ≡ false) }
    requires start { decoder.start ≡ [] }
    requires number { decoder.number ≡ 0 }
    requires handed { sender.handed ≡ 0 }
    ensures reading { IsOfReading result.ending }
    ensures handed { HasHanded result.ending (length (view result.book.pass).sent.lines) }
    ensures channel { result.book.end ≡ sender.book.end }
{
    let mut decoder = decoder;
    let mut sender = sender;
    let ending = read_lines(rt, source, &mut decoder, &mut sender);
    let book = sender.end(rt);
    Reading { ending, book }
}

/// Waits for the end of the reading. If the whole input was read, this thread has received as many
/// lines as the reading handed out.
pub(crate) fn await_end<J: ServiceId, S: Source, T: Threads>(
    rt: &T,
    reader: Reader<J, S>,
    inbox: Inbox<J>,
) -> Ending<J, S>
    requires channel { receives_on inbox.end ≡ sends_on reader.promise.0.value.book.end }
    requires ended { (view inbox.pass).got.ended ≡ true }
    ensures reading { IsOfReading result }
    ensures received { HasHanded result (length (view inbox.pass).got.lines) }
{
    let Reading { ending, book } = reader.join(rt);
    inbox.compare(book);
    ending
}

/// Hands out each line that comes, to the end of the input or until nobody takes lines, and returns
/// how the reading ended.
pub(crate) fn read_lines<J: ServiceId, T: Wait, S: Source + Drop, G: Rng>(
    rt: &T,
    source: S,
    decoder: &mut LineDecoder<J, G>,
    sender: &mut LineSender<J>,
) -> Ending<J, S>
    requires input { S.remaining source ≡ J.service.input }
    requires given { S.given source ≡ 0 }
    requires going { (S.ended source ≡ false) × (S.failed source ≡ false) }
    requires start { decoder.old.start ≡ [] }
    requires number { decoder.old.number ≡ 0 }
    requires handed { sender.old.handed ≡ 0 }
    ensures reading { IsOfReading result }
    ensures handed { HasHanded result sender.new.handed }
    ensures channel { sender.new.book.end ≡ sender.old.book.end }
{
    let mut source = source;
    let mut buffer = [0; CHUNK];
    for _call in rt.forever() {
        if sender.handed().lines() >= MOST_LINES {
            return Ending::new(End::TooLong);
        }
        match source.read(sender.handed(), &mut buffer) {
            Ok(0) => return read_last(rt, decoder, sender),
            Ok(n) => match take_bytes(rt, decoder, sender, &buffer[..n]) {
                Ok(()) => {}
                Err(gone) => return Ending::new(End::Untaken(gone)),
            },
            Err(_) => return Ending::new(End::Failed(source)),
        }
    }
    unreachable!()
}

/// Hands out the last line, if it has no end.
fn read_last<J: ServiceId, T: Wait, S: Source, G: Rng>(
    rt: &T,
    decoder: &LineDecoder<J, G>,
    sender: &mut LineSender<J>,
) -> Ending<J, S>
    requires end { NothingIsLeft J.service.input (place decoder.now.start decoder.now.number) }
    requires number { decoder.now.number ≡ sender.old.handed }
    requires few { sender.old.handed + 1 < 2 ^ 64 }
    ensures reading { IsOfReading result }
    ensures handed { HasHanded result sender.new.handed }
    ensures channel { sender.new.book.end ≡ sender.old.book.end }
{
    if let Some(line) = decoder.last() {
        if let Err(gone) = sender.hand_out(rt, line) {
            return Ending::new(End::Untaken(gone));
        }
    }
    Ending::new(End::Whole(sender.handed().lines()))
}

/// Decodes the bytes in turn.
fn take_bytes<J: ServiceId, T: Wait, G: Rng>(
    rt: &T,
    decoder: &mut LineDecoder<J, G>,
    sender: &mut LineSender<J>,
    bytes: &[u8],
) -> Result<(), Gone>
    requires before { ComesNext J.service.input (place decoder.old.start decoder.old.number)
        bytes.now }
    requires number { decoder.old.number ≡ sender.old.handed }
    requires few { sender.old.handed + length bytes.now < 2 ^ 64 }
    ensures on { OnOk result (MovesOver J.service.input (place decoder.old.start decoder.old.number)
        bytes.now (place decoder.new.start decoder.new.number)) }
    ensures number { OnOk result (decoder.new.number ≡ sender.new.handed) }
    ensures handed { OnOk result
        (sender.new.handed ≡ sender.old.handed + line_ends bytes.now) }
    ensures channel { sender.new.book.end ≡ sender.old.book.end }
{
    for byte in bytes {
        take_byte(rt, decoder, sender, *byte)?;
    }
    Ok(())
}

fn take_byte<J: ServiceId, T: Wait, G: Rng>(
    rt: &T,
    decoder: &mut LineDecoder<J, G>,
    sender: &mut LineSender<J>,
    byte: u8,
) -> Result<(), Gone>
    requires before { ComesNext J.service.input (place decoder.old.start decoder.old.number)
        (byte ∷ []) }
    requires number { decoder.old.number ≡ sender.old.handed }
    requires few { sender.old.handed + 1 < 2 ^ 64 }
    ensures on { OnOk result (MovesOver J.service.input (place decoder.old.start decoder.old.number)
        (byte ∷ []) (place decoder.new.start decoder.new.number)) }
    ensures number { OnOk result (decoder.new.number ≡ sender.new.handed) }
    ensures handed { OnOk result
        (sender.new.handed ≡ sender.old.handed + line_ends (byte ∷ [])) }
    ensures channel { sender.new.book.end ≡ sender.old.book.end }
{
    match decoder.take(byte) {
        Some(line) => sender.hand_out(rt, line),
        None => Ok(()),
    }
}
