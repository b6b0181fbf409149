//! The operation that a line of a script asks for.

ghost use Rattle.std.specs.Prelude.{◌≡◌, IfOk, length, map, nat_lt, take, true};
ghost use Rattle.cred_phc.specs.Pieces.{pieces};
ghost use Rattle.cred_book.specs.Works.{is_for_current};
ghost use Rattle.cred_cli.specs.Events.{IsSound, begin_event, begun, commit_event, event_of, event_of_pieces, is_line, longest_line, most_pieces};

use crate::fields;
use crate::refusal::Refusal;
use crate::tickets::Key;
use arrayvec::ArrayVec;
use cred_book::{Name, Request};
use cred_phc::{Pieces, Record};

/// The length of the longest line in bytes, without its end.
pub(crate) const LONGEST_LINE: usize = 1024;

/// The maximum number of pieces that are read from a line: one more than a good line may have.
const MOST_PIECES: usize = 8;

/// An operation with its fields, or the reason why the line asks for none.
#[derive(Clone, Copy)]
pub(crate) enum Event {
    Account(Name),
    Load(Name, Record),
    Show(Name),
    Begin(Key, Request),
    Commit(Key),
    Bad(Refusal),
}

impl Event {
    /// Returns the operation that the line asks for.
    #[tactic(auto, unfolding(crate::specs::Events::event_of))]
    pub(crate) fn of_line(line: &[u8]) -> Event
        ensures event { result ≡ event_of line.now }
        ensures sound { IsSound result }
    {
        if is_too_long(line) {
            return Event::Bad(Refusal::Long);
        }
        match event_of_pieces(&first_pieces(line)) {
            Ok(event) => event,
            Err(why) => Event::Bad(why),
        }
    }
}

pub fn is_too_long(line: &[u8]) -> bool
    ensures { result ≡ nat_lt longest_line (length line.now) }
{
    line.len() > LONGEST_LINE
}

pub fn first_pieces(line: &[u8]) -> ArrayVec<&[u8], MOST_PIECES>
    ensures { map (λ s. s.now) result.items ≡ take most_pieces (pieces 32 line.now) }
{
    let mut rest = Pieces::new(line, b' ');
    let mut first = ArrayVec::new();
    for _i in 0..MOST_PIECES {
        match rest.next() {
            Some(piece) => first.push(piece),
            None => return first,
        }
    }
    first
}

fn event_of_pieces(line: &[&[u8]]) -> Result<Event, Refusal>
    ensures event { result ≡ event_of_pieces (map (λ s. s.now) line.now) }
    ensures sound { IfOk result IsSound }
{
    let [word, fields @ ..] = line else {
        return Err(Refusal::Line);
    };
    if *word == b"account".as_slice() {
        let name = fields::only_name(fields)?;
        Ok(Event::Account(name))
    } else if *word == b"load".as_slice() {
        let (name, stored) = fields::name_and_record(fields)?;
        Ok(Event::Load(name, stored))
    } else if *word == b"show".as_slice() {
        let name = fields::only_name(fields)?;
        Ok(Event::Show(name))
    } else if *word == b"begin".as_slice() {
        begin_event(fields)
    } else if *word == b"commit".as_slice() {
        commit_event(fields)
    } else {
        Err(Refusal::Line)
    }
}

fn commit_event(fields: &[&[u8]]) -> Result<Event, Refusal>
    ensures event { result ≡ commit_event (map (λ s. s.now) fields.now) }
    ensures sound { IfOk result IsSound }
{
    match fields {
        [key] => Ok(Event::Commit(fields::key(key)?)),
        _ => Err(Refusal::Line),
    }
}

fn begin_event(fields: &[&[u8]]) -> Result<Event, Refusal>
    ensures event { result ≡ begin_event (map (λ s. s.now) fields.now) }
    ensures sound { IfOk result IsSound }
{
    match fields {
        [key, word, rest @ ..] => begun(key, fields::request(None, word, rest)),
        _ => Err(Refusal::Line),
    }
}

/// Returns the event that begins a request under this number. Refuses a line with another word or
/// number of fields before its number, and otherwise judges the number first.
fn begun(key: &[u8], request: Result<Request, Refusal>) -> Result<Event, Refusal>
    requires { IfOk request (λ request. is_for_current request ≡ true) }
    ensures event { result ≡ begun key.now request }
    ensures sound { IfOk result IsSound }
{
    match request {
        Ok(request) => {
            let key = fields::key(key)?;
            Ok(Event::Begin(key, request))
        }
        Err(why) if is_line(&why) => Err(why),
        Err(why) => match fields::key(key) {
            Ok(_) => Err(why),
            Err(other) => Err(other),
        },
    }
}

fn is_line(why: &Refusal) -> bool
    ensures { result ≡ is_line why.now }
{
    matches!(why, Refusal::Line)
}
