//! A tagged line, and the decoder that reads lines from bytes.

ghost use Rattle.std.specs.Prelude.{◌≡◌, [], ◌∷◌, ◌+◌, ◌^◌, ◌<◌, IfSome, length, map, true};
ghost use Rattle.std.specs.List.{list_all};
ghost use Rattle.cred_phc.specs.Ranges.{is_current};
ghost use Rattle.cred_cli.specs.Script.{line_ends, lines_of};
ghost use Rattle.cred_many.specs.LineOperations.{IsSound, entry_of, is_tag_byte, tag_of, tagged, tagged_of, untagged};
ghost use Rattle.cred_many.specs.Reading.{MovesOver, IsWholeLine, NothingIsLeft, ComesNext, how_many, place};
ghost use Rattle.cred_many.specs.Service.{IsLine, cut_line, salts_after};

use crate::costs::Costs;
use crate::line_operation::{LineOperation, operation_of};
use crate::service::ServiceConfig;
use crate::service_id::ServiceId;
use cred_cli::{CostBounds, LineStart, Refusal, first_pieces, is_too_long};
use cred_phc::{Setting, ShortBytes, draw_salt};
use rand_core::Rng;
use std::marker::{Model, PhantomData};

/// The maximum length of a tag in bytes.
const LONGEST_TAG: usize = 20;

type Tag = ShortBytes<LONGEST_TAG>;

/// A line of the input: its number among the lines, from 0 on, its tag and its operation.
#[derive(Drop)]
pub struct Line<J: ServiceId> {
    number: u64,
    tag: Tag,
    operation: LineOperation,
    of: PhantomData<J>,
}

impl<J: ServiceId> Model for Line<J> {
    ghost use Rattle.std.specs.Prelude.{IfSome};
    ghost use Rattle.cred_many.specs.{LineOperations.Entry, LineOperations.IsSound, LineOperations.entry, Service.IsLine};

    ghost Value = { Entry };

    ghost view = { λ l. entry l.number l.tag l.operation };

    ghost invariant = { λ l. record {
      sound : IsSound l.operation;
      came : IfSome J.service.input
          (λ bytes. IsLine J.service bytes (entry l.number l.tag l.operation));
    } };
}

impl<J: ServiceId> Line<J> {
    /// Reads the line of this number, with this drawn setting and these bounds on its
    /// costs.
    pub(crate) fn read(number: u64, most: &CostBounds, drawn: Setting, line: &[u8]) -> Line<J>
        requires current { is_current drawn.scheme ≡ true }
        requires came { IfSome J.service.input
            (λ bytes. IsLine J.service bytes (entry_of number most.now drawn line.now)) }
        ensures { result ≡ entry_of number most.now drawn line.now }
    {
        let (tag, operation) = parts(drawn, line);
        Line {
            number,
            tag,
            operation: operation.within(most),
            of: PhantomData,
        }
    }

    /// Refuses the last line of an input, which has no end: more of this line than its end may be
    /// lost.
    pub(crate) fn cut(number: u64) -> Line<J>
        requires { IfSome J.service.input (λ bytes. IsLine J.service bytes (cut_line number)) }
        ensures { result ≡ cut_line number }
    {
        let (tag, operation) = untagged(Refusal::Line);
        Line {
            number,
            tag,
            operation,
            of: PhantomData,
        }
    }

    /// Returns the line's number among the lines, from 0 on.
    pub(crate) fn number(&self) -> u64
        ensures number { result ≡ self.now.number }
        ensures came { IfSome J.service.input (λ bytes. IsLine J.service bytes self.now) }
    {
        self.number
    }

    /// Returns the tag.
    pub(crate) fn tag(&self) -> &[u8]
        ensures tag { result.now ≡ self.now.tag }
        ensures came { IfSome J.service.input (λ bytes. IsLine J.service bytes self.now) }
    {
        self.tag.as_slice()
    }

    /// Returns the operation.
    pub(crate) fn operation(&self) -> LineOperation
        ensures operation { result ≡ self.now.operation }
        ensures sound { IsSound result }
        ensures came { IfSome J.service.input (λ bytes. IsLine J.service bytes self.now) }
    {
        self.operation
    }
}

/// Reads the tag of a line and its operation. The answer to a line without a tag has a star.
fn parts(drawn: Setting, line: &[u8]) -> (Tag, LineOperation)
    requires { is_current drawn.scheme ≡ true }
    ensures tagged { result ≡ tagged_of drawn line.now }
    ensures sound { IsSound result.1 }
{
    if is_too_long(line) {
        return untagged(Refusal::Long);
    }
    tagged(drawn, &first_pieces(line))
}

fn tagged(drawn: Setting, pieces: &[&[u8]]) -> (Tag, LineOperation)
    requires { is_current drawn.scheme ≡ true }
    ensures tagged { result ≡ tagged drawn (map (λ s. s.now) pieces.now) }
    ensures sound { IsSound result.1 }
{
    let [first, words @ ..] = pieces else {
        return untagged(Refusal::Line);
    };
    match tag_of(first) {
        Some(tag) => match operation_of(drawn, words) {
            Ok(operation) => (tag, operation),
            Err(why) => (tag, LineOperation::refused(why)),
        },
        None => untagged(Refusal::Line),
    }
}

/// Refuses a line without a tag: its answer has a star.
fn untagged(why: Refusal) -> (Tag, LineOperation)
    ensures { result ≡ untagged why }
{
    match ShortBytes::new(b"*", 1) {
        Some(star) => (star, LineOperation::refused(why)),
        None => unreachable!(),
    }
}

fn tag_of(text: &[u8]) -> Option<Tag>
    ensures { result ≡ tag_of text.now }
{
    if !has_tag_bytes(text) {
        return None;
    }
    ShortBytes::new(text, 1)
}

/// Whether a tag may contain each of these bytes.
fn has_tag_bytes(bytes: &[u8]) -> bool
    ensures { result ≡ list_all is_tag_byte bytes.now }
{
    bytes.iter().all(|&b| is_tag_byte(b))
}

fn is_tag_byte(byte: u8) -> bool
    ensures { result ≡ is_tag_byte byte }
{
    matches!(byte, b'a'..=b'z' | b'0'..=b'9')
}

/// The line that is being read, its number, and the source of settings.
#[derive(Drop)]
pub(crate) struct LineDecoder<J: ServiceId, G: Rng> {
    pub(crate) start: LineStart,
    /// The number of lines before this one.
    pub(crate) number: u64,
    costs: Costs,
    /// The bounds on the costs of a line.
    most: CostBounds,
    salts: G,
    of: PhantomData<J>,

    ghost costs_are: { costs ≡ J.service.costs },
    ghost most_is: { most ≡ J.service.most },
    ghost drawn: { G.stream salts ≡ salts_after J.service.salts number },
}

impl<J: ServiceId, G: Rng> LineDecoder<J, G> {
    /// Creates the decoder, before the first line.
    pub(crate) fn new(config: &ServiceConfig, salts: G) -> LineDecoder<J, G>
        requires costs { config.now.costs ≡ J.service.costs }
        requires most { config.now.most ≡ J.service.most }
        requires salts { G.stream salts ≡ J.service.salts }
        ensures start { result.start ≡ [] }
        ensures number { result.number ≡ 0 }
    {
        LineDecoder {
            start: LineStart::new(),
            number: 0,
            costs: config.costs,
            most: config.most,
            salts,
            of: PhantomData,
        }
    }

    /// Decodes one byte, and returns the line that it ends, if any.
    pub(crate) fn take(&mut self, byte: u8) -> Option<Line<J>>
        requires next { ComesNext J.service.input (place self.old.start self.old.number)
            (byte ∷ []) }
        requires few { self.old.number + 1 < 2 ^ 64 }
        ensures on { MovesOver J.service.input (place self.old.start self.old.number)
            (byte ∷ []) (place self.new.start self.new.number) }
        ensures next { IfSome result (λ line. line.number ≡ self.old.number) }
        ensures ended { how_many result ≡ line_ends (byte ∷ []) }
        ensures number { self.new.number ≡ self.old.number + line_ends (byte ∷ []) }
    {
        if byte != b'\n' {
            self.start.push(byte);
            return None;
        }
        Some(self.end_line())
    }

    /// Returns the last line, if it has no end.
    pub(crate) fn last(&self) -> Option<Line<J>>
        requires { NothingIsLeft J.service.input (place self.now.start self.now.number) }
        ensures next { IfSome result (λ line. line.number ≡ self.now.number) }
        ensures whole { IfSome J.service.input
            (λ all. self.now.number + how_many result ≡ length (lines_of all)) }
    {
        if self.start.bytes().is_empty() {
            return None;
        }
        Some(Line::cut(self.number))
    }

    /// Returns the line that has ended, and begins the next.
    fn end_line(&mut self) -> Line<J>
        requires whole { IfSome J.service.input
            (λ all. IsWholeLine all (place self.old.start self.old.number)) }
        requires few { self.old.number + 1 < 2 ^ 64 }
        ensures next { result.number ≡ self.old.number }
        ensures start { self.new.start ≡ [] }
        ensures number { self.new.number ≡ self.old.number + 1 }
    {
        let salt = draw_salt(&mut self.salts);
        let drawn = self.costs.setting(&salt);
        let line = Line::read(self.number, &self.most, drawn, self.start.bytes());
        self.number += 1;
        self.start.clear();
        line
    }
}
