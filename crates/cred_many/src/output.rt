//! The output of answers.

ghost use Rattle.std.specs.{List.remove, Prelude.◌≡◌, Prelude.◌∷◌, Prelude.◌++◌, Prelude.IfSome, Prelude.OnErr, Prelude.OnOk, Prelude.None, Prelude.true};
ghost use Rattle.cred_cli.specs.Watched.{failed_of};
ghost use Rattle.cred_many.specs.{Scribe.IsConcluded, Scribe.IsReady, Served.later_line, Service.IsLine};
ghost use Rattle.cred_many.specs.Transcript.{TakesFront, TakesMore, written_of};

use crate::fault::ServiceFault;
use crate::line::Line;
use crate::open::OpenLines;
use crate::service_id::ServiceId;
use cred_cli::{ScriptFault, Watched, write_whole};
use itoa::Buffer;
use std::io::Write;

/// The open lines, the writer, and the fault that ended the answers, if any.
#[derive(Drop)]
pub(crate) struct Output<W: Write> {
    pub(crate) pending: OpenLines,
    pub(crate) writer: Watched<W>,
    pub(crate) fault: Option<ServiceFault>,
}

impl<W: Write> Output<W> {
    /// Answers the line at this place, and closes the line. After a failed write the scribe answers
    /// nothing more.
    pub(crate) fn answer<J: ServiceId>(&mut self, place: usize, line: &Line<J>, answer: &[u8])
        requires { IsReady self.old.fault self.old.pending place line.now.number }
        ensures came { IfSome J.service.input (λ bytes. IsLine J.service bytes line.now) }
        ensures closed { self.new.pending ≡ remove self.old.pending place }
        ensures told { IsConcluded (line.now.tag ++ 32 ∷ answer.now)
            (written_of W.contents self.old.writer) (written_of W.contents self.new.writer)
            (failed_of self.new.writer) self.new.fault }
    {
        self.pending.close(place);
        if write_answer(&mut self.writer, line.tag(), answer).is_err() {
            self.fault = Some(ServiceFault::Write);
        }
    }

    /// Answers that the try of the line at this place is too early by these seconds, and closes the
    /// line.
    pub(crate) fn answer_later<J: ServiceId>(&mut self, place: usize, line: &Line<J>, seconds: u64)
        requires { IsReady self.old.fault self.old.pending place line.now.number }
        ensures came { IfSome J.service.input (λ bytes. IsLine J.service bytes line.now) }
        ensures closed { self.new.pending ≡ remove self.old.pending place }
        ensures told { IsConcluded (line.now.tag ++ 32 ∷ later_line seconds)
            (written_of W.contents self.old.writer) (written_of W.contents self.new.writer)
            (failed_of self.new.writer) self.new.fault }
    {
        self.pending.close(place);
        if write_later(&mut self.writer, line.tag(), seconds).is_err() {
            self.fault = Some(ServiceFault::Write);
        }
    }

    /// Writes the answers of lines that were done together. After a failed write the scribe answers
    /// nothing more.
    pub(crate) fn conclude_all(&mut self, answers: &[u8])
        requires { self.old.fault ≡ None }
        ensures same { self.new.pending ≡ self.old.pending }
        ensures told { IsConcluded answers.now (written_of W.contents self.old.writer)
            (written_of W.contents self.new.writer) (failed_of self.new.writer) self.new.fault }
    {
        if write_text(&mut self.writer, answers).is_err() {
            self.fault = Some(ServiceFault::Write);
        }
    }
}

/// Writes the tag and the whole answer, or a proper prefix of the line if the writer fails.
fn write_answer<W: Write>(
    writer: &mut Watched<W>,
    tag: &[u8],
    answer: &[u8],
) -> Result<(), ScriptFault>
    ensures done { OnOk result (TakesMore (written_of W.contents writer.old)
        (written_of W.contents writer.new) (tag.now ++ 32 ∷ answer.now)) }
    ensures front { OnErr result (TakesFront (written_of W.contents writer.old)
        (written_of W.contents writer.new) (tag.now ++ 32 ∷ answer.now)) }
    ensures failed { OnErr result (failed_of writer.new ≡ true) }
{
    write_text(writer, tag)?;
    write_text(writer, b" ")?;
    write_text(writer, answer)?;
    Ok(())
}

/// Writes the tag and that a try is too early by these seconds, or a proper prefix of the line if
/// the writer fails.
fn write_later<W: Write>(
    writer: &mut Watched<W>,
    tag: &[u8],
    seconds: u64,
) -> Result<(), ScriptFault>
    ensures done { OnOk result (TakesMore (written_of W.contents writer.old)
        (written_of W.contents writer.new) (tag.now ++ 32 ∷ later_line seconds)) }
    ensures front { OnErr result (TakesFront (written_of W.contents writer.old)
        (written_of W.contents writer.new) (tag.now ++ 32 ∷ later_line seconds)) }
    ensures failed { OnErr result (failed_of writer.new ≡ true) }
{
    write_text(writer, tag)?;
    write_text(writer, b" later ")?;
    write_text(writer, Buffer::new().format(seconds).as_bytes())?;
    write_text(writer, b"\n")?;
    Ok(())
}

/// Writes the whole text, or a proper prefix of it if the writer fails.
fn write_text<W: Write>(writer: &mut Watched<W>, text: &[u8]) -> Result<(), ScriptFault>
    ensures done { OnOk result (TakesMore (written_of W.contents writer.old)
        (written_of W.contents writer.new) text.now) }
    ensures front { OnErr result (TakesFront (written_of W.contents writer.old)
        (written_of W.contents writer.new) text.now) }
    ensures failed { OnErr result (failed_of writer.new ≡ true) }
{
    write_whole(writer, text)
}
