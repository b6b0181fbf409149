//! A whole script: reads its bytes in turn, and does and answers each whole line.

ghost use Rattle.std.specs.Prelude.{◌≡◌, ◌+◌, ◌≤◌, false, true, [], ◌∷◌, length, Some, IfErr, IfSome, OnOk};
ghost use Rattle.cred_cli.specs.{Events.IsSound, Outcome.HasCause, Outcome.longest_script, declared.progress.Progress.Progress};
ghost use Rattle.cred_cli.specs.Feeding.{Finishes, IsAt, Plays, Takes, TakesLine, standing, standing_at};
ghost use Rattle.cred_cli.specs.{Script.ScriptStart, Script.script_start, Scripts.RunsScript, Scripts.ScriptEnds, Scripts.run_state};
ghost use Rattle.cred_cli.specs.Watched.{Basis, Fits, GivesAsContracted, IsLogged, IsNew, IsWritten, TakesAsContracted, calls_of, ended_of, failed_of, held_on, left_on, reading_on, writing_on};

use crate::answer::do_event;
use crate::event::Event;
use crate::fault::ScriptFault;
use crate::progress::{LONGEST_SCRIPT, Progress};
use crate::tickets::Tickets;
use crate::tools::Tools;
use crate::watched::Watched;
use cred_book::Keeper;
use std::alloc::Global;
use std::io::{Read, Write};
use std::sync::Wait;
use std::thread::Threads;

/// The end of a script without a fault.
#[derive(Clone, Copy, Debug, PartialEq, Eq)]
pub struct End {
    /// The number of answered lines.
    pub lines: u64,
}

/// Reads a script of at most 1048576 bytes to its end, and does each line's operation on the
/// keeper's book. Writes a whole answer line for each line before the next call on the reader. Each
/// call on the reader but the last gives a byte, so no call follows the reader's end. At most
/// `workers` threads hash. The caller has made no call on the reader or the writer. No call flushes
/// the writer, so the writer must hold nothing back.
///
/// The contract's one word, `RunsScript`, has a name for each of its parts. The reader and the
/// writer may be a pipe or a terminal. If the script ends well, the bytes that the writer accepted
/// are the answers to the lines of the bytes that the reader gave (`answers`), and the reader was
/// at its end (`end`). After a fault, and at each call of the reader, `transcript` says which lines
/// have answers. If the contract of a reader or a writer names its bytes, these are the same bytes
/// (`gives`, `takes`).
///
/// Errors: `Read` or `Write` if such a call failed; `Memory` if memory ran out; `TooLong` if the
/// script has more bytes.
pub fn run_script<T: Threads + Wait + Sync, K: Keeper, R: Read, W: Write>(
    rt: &T,
    alloc: Global,
    workers: u8,
    keeper: &mut K,
    reader: &mut Watched<R>,
    writer: &mut Watched<W>,
) -> Result<End, ScriptFault>
    requires new_reader { IsNew reader.old }
    requires new_writer { IsNew writer.old }
    ensures { RunsScript K.capacity R.remaining W.contents
        (run_state (K.book keeper.old) reader.old writer.old)
        (run_state (K.book keeper.new) reader.new writer.new) result }
{
    let tools = Tools { rt, alloc, workers };
    answer_all(&tools, keeper, reader, writer)
}

/// The size of one read in bytes.
const CHUNK: usize = 4096;

/// Answers the lines that the reader gives, to the reader's end.
pub(crate) fn answer_all<T: Threads + Wait + Sync, K: Keeper, R: Read, W: Write>(
    tools: &Tools<'_, T>,
    keeper: &mut K,
    reader: &mut Watched<R>,
    writer: &mut Watched<W>,
) -> Result<End, ScriptFault>
    requires new_reader { IsNew reader.old }
    requires new_writer { IsNew writer.old }
    ensures ended { (basis : Basis) → Fits basis reader.new
        → IfSome (left_on basis R.remaining reader.old) (λ bytes. ScriptEnds K.capacity
        (script_start (K.book keeper.old) bytes (held_on basis W.contents writer.old))
        (reading_on basis R.remaining reader.old reader.new)
        (writing_on basis W.contents writer.old writer.new) (K.book keeper.new) result) }
    ensures end { OnOk result (ended_of reader.new ≡ true) }
    ensures gives { GivesAsContracted R.remaining reader.old reader.new }
    ensures takes { TakesAsContracted W.contents writer.old writer.new }
    ensures cause { IfErr result (HasCause (failed_of reader.new) (failed_of writer.new)) }
    ensures logged { IsLogged reader.old reader.new }
    ensures calls { calls_of reader.new ≤ longest_script + 1 }
    ensures few { (basis : Basis) → Fits basis reader.new → IfSome (left_on basis R.remaining reader.old)
        (λ bytes. calls_of reader.new ≤ length bytes + 1) }
{
    let tickets = Tickets::new(tools.alloc)?;
    let progress = Progress::new();
    let mut run = Run { tickets, progress };
    run.read_all(tools, keeper, reader, writer)
}

/// Applies the event of a line, and writes its answer.
fn answer_line<T: Threads + Wait + Sync, K: Keeper, W: Write>(
    tools: &Tools<'_, T>,
    keeper: &mut K,
    tickets: &mut Tickets,
    writer: &mut Watched<W>,
    event: Event,
) -> Result<(), ScriptFault>
    requires { IsSound event }
    ensures answered { (basis : Basis) (progress : Progress)
        → TakesLine K.capacity event
        (standing_at (held_on basis W.contents writer.old) (K.book keeper.old) tickets.old progress)
        (standing_at (held_on basis W.contents writer.new) (K.book keeper.new) tickets.new progress)
        result }
    ensures written { IsWritten W.contents writer.old writer.new }
    ensures cause { IfErr result (HasCause false (failed_of writer.new)) }
{
    let answer = do_event(tools, keeper, tickets, event)?;
    answer.write_to(writer)
}

/// The open tickets of a script, and the progress of reading it.
#[derive(Drop)]
pub(crate) struct Run {
    pub(crate) tickets: Tickets,
    pub(crate) progress: Progress,
}

impl Run {
    /// Reads one more byte. At a line end, answers the line.
    pub(crate) fn take_byte<T: Threads + Wait + Sync, K: Keeper, W: Write>(
        &mut self,
        tools: &Tools<'_, T>,
        keeper: &mut K,
        writer: &mut Watched<W>,
        byte: u8,
    ) -> Result<(), ScriptFault>
        ensures fed { (basis : Basis) → Takes K.capacity (byte ∷ [])
            (standing (held_on basis W.contents writer.old) (K.book keeper.old) self.old)
            (standing (held_on basis W.contents writer.new) (K.book keeper.new) self.new) result }
        ensures taken { OnOk result (self.new.progress.taken ≡ self.old.progress.taken + 1) }
        ensures written { IsWritten W.contents writer.old writer.new }
        ensures cause { IfErr result (HasCause false (failed_of writer.new)) }
    {
        if self.progress.taken >= LONGEST_SCRIPT {
            return Err(ScriptFault::TooLong);
        }
        if byte != b'\n' {
            self.progress.start.push(byte);
            self.progress.taken += 1;
            return Ok(());
        }
        let event = Event::of_line(self.progress.start.bytes());
        answer_line(tools, keeper, &mut self.tickets, writer, event)?;
        self.progress.start.clear();
        self.progress.taken += 1;
        self.progress.lines += 1;
        Ok(())
    }

    /// Reads the bytes in turn.
    pub(crate) fn take_bytes<T: Threads + Wait + Sync, K: Keeper, W: Write>(
        &mut self,
        tools: &Tools<'_, T>,
        keeper: &mut K,
        writer: &mut Watched<W>,
        bytes: &[u8],
    ) -> Result<(), ScriptFault>
        ensures fed { (basis : Basis) → Takes K.capacity bytes.now
            (standing (held_on basis W.contents writer.old) (K.book keeper.old) self.old)
            (standing (held_on basis W.contents writer.new) (K.book keeper.new) self.new) result }
        ensures taken { OnOk result (self.new.progress.taken
            ≡ self.old.progress.taken + length bytes.now) }
        ensures written { IsWritten W.contents writer.old writer.new }
        ensures cause { IfErr result (HasCause false (failed_of writer.new)) }
    {
        for byte in bytes {
            self.take_byte(tools, keeper, writer, *byte)?;
        }
        Ok(())
    }

    /// Answers a last line without an end when no further byte comes, and counts the lines.
    pub(crate) fn finish<T: Threads + Wait + Sync, K: Keeper, W: Write>(
        &mut self,
        tools: &Tools<'_, T>,
        keeper: &mut K,
        writer: &mut Watched<W>,
    ) -> Result<u64, ScriptFault>
        ensures answered { (basis : Basis) → Finishes K.capacity
            (standing (held_on basis W.contents writer.old) (K.book keeper.old) self.old)
            (standing (held_on basis W.contents writer.new) (K.book keeper.new) self.new) result }
        ensures written { IsWritten W.contents writer.old writer.new }
        ensures cause { IfErr result (HasCause false (failed_of writer.new)) }
    {
        if self.progress.start.bytes().is_empty() {
            return Ok(self.progress.lines);
        }
        let event = Event::of_line(self.progress.start.bytes());
        answer_line(tools, keeper, &mut self.tickets, writer, event)?;
        Ok(self.progress.lines + 1)
    }

    /// Reads the script to its end.
    pub(crate) fn read_all<T: Threads + Wait + Sync, K: Keeper, R: Read, W: Write>(
        &mut self,
        tools: &Tools<'_, T>,
        keeper: &mut K,
        reader: &mut Watched<R>,
        writer: &mut Watched<W>,
    ) -> Result<End, ScriptFault>
        requires new_reader { IsNew reader.old }
        requires new_progress { self.old.progress.taken ≡ 0 }
        ensures ended { (basis : Basis) → Fits basis reader.new → Plays K.capacity
            (reading_on basis R.remaining reader.old reader.new)
            (writing_on basis W.contents writer.old writer.new)
            (standing (held_on basis W.contents writer.old) (K.book keeper.old) self.old)
            (standing (held_on basis W.contents writer.new) (K.book keeper.new) self.new) result }
        ensures end { OnOk result (ended_of reader.new ≡ true) }
        ensures gives { GivesAsContracted R.remaining reader.old reader.new }
        ensures takes { TakesAsContracted W.contents writer.old writer.new }
        ensures cause { IfErr result (HasCause (failed_of reader.new) (failed_of writer.new)) }
        ensures logged { IsLogged reader.old reader.new }
        ensures calls { calls_of reader.new ≤ longest_script + 1 }
        ensures few { (basis : Basis) → Fits basis reader.new → (script : ScriptStart)
            → left_on basis R.remaining reader.old ≡ Some script.bytes
            → IsAt K.capacity script []
            (standing (held_on basis W.contents writer.old) (K.book keeper.old) self.old)
            → calls_of reader.new ≤ length script.bytes + 1 }
    {
        let mut buffer = [0; CHUNK];
        for _call in 0..u64::MAX {
            match reader.read_beside(keeper, writer, &mut buffer) {
                Ok(0) => {
                    let lines = self.finish(tools, keeper, writer)?;
                    return Ok(End { lines });
                }
                Ok(n) => self.take_bytes(tools, keeper, writer, &buffer[..n])?,
                Err(_) => return Err(ScriptFault::Read),
            }
        }
        unreachable!()
    }
}
