//! Scenes at a kept desk: the steps of its sessions, one after another and in threads, and the
//! answer that each call is to give.
ghost use Rattle.std.specs.Prelude.{◌≡◌, true};
ghost use Rattle.cred_desk.specs.Naming.{IsNamed, StartsAt};

use super::ending::{Ending, Journal, Left, end};
use super::floor::{Answer, Floor, Step};
use super::standing;
use super::writer::{Log, Refused};
use cred_book::{Book, BookError, Reply, Request, Ticket};
use cred_desk::{Entry, Handed, KeepError, KeptDesk, Naming, Opened, Session, Told};
use crossbeam_channel::{Receiver, Sender, unbounded};
use std::alloc::Global;
use std::marker::Brand;
use std::process::Abort;
use std::sync::Wait;
use std::thread::{Threads, join};

/// The outcome of a step.
pub(super) type Outcome = Result<Answer, KeepError<Refused>>;

/// The place of a session, its step, and the answer that it is to get.
pub(super) type Line = (usize, Step, Outcome);

/// The place of a line that got another answer, and that answer.
pub(super) type Slip = (usize, Outcome);

/// The slip if there was no memory for a value that isn't the desk's.
const NO_MEMORY: Option<Slip> = Some((0, Ok(Answer::Failed)));

pub(super) const DONE: Outcome = Ok(Answer::Done);

pub(super) const FULL: Outcome = Err(KeepError::Book(BookError::Full));

pub(super) const NO_ACCOUNT: Outcome = Err(KeepError::Book(BookError::NoAccount));

pub(super) fn replied(reply: Reply) -> Outcome {
    Ok(Answer::Replied(reply))
}

/// Returns the line of a session's whole operation, with its reply.
pub(super) fn operates(session: usize, request: Request, reply: Reply) -> Line {
    (session, Step::Operate(request), replied(reply))
}

/// The steps at a desk.
#[derive(Clone, Copy)]
pub(super) struct Scene<'a> {
    pub(super) sessions: u8,
    /// The most times that a step runs: a refused step runs again.
    pub(super) tries: usize,
    /// The steps of the front half of the sessions, in a thread of its own. Places count from the
    /// front of the half.
    pub(super) front: &'a [Line],
    /// The steps of the back half meanwhile.
    pub(super) back: &'a [Line],
    /// Their steps afterwards. After each act but the last the journal is handed out.
    pub(super) acts: &'a [&'a [Line]],
    pub(super) ending: Ending,
}

impl<'a> Scene<'a> {
    /// Returns a scene of the acts of so many sessions in one thread, after which the desk is
    /// closed.
    pub(super) fn new(sessions: u8, acts: &'a [&'a [Line]]) -> Scene<'a> {
        Scene {
            sessions,
            tries: 1,
            front: &[],
            back: &[],
            acts,
            ending: Ending::Close,
        }
    }
}

type News<J> = (Sender<Told<J>>, Receiver<Told<J>>);

/// Plays a line, whose session hands on what it is told, and returns the answer.
fn play_one<J: Naming, R: Threads + Wait + Sync>(
    floor: &Floor<J, R>,
    news: &News<J>,
    sessions: &mut [Session<J>],
    open: &mut Option<Ticket>,
    line: &Line,
) -> Outcome {
    let (place, step, _) = *line;
    let known = match step {
        Step::Learn => news.1.recv(floor.rt).ok(),
        Step::Hear(from) => match sessions.get(from) {
            Some(other) => Some(other.told()),
            None => None,
        },
        _ => None,
    };
    let Some(session) = sessions.get_mut(place) else {
        return Ok(Answer::Failed);
    };
    match (step, known) {
        (Step::Learn, Some(told)) => {
            session.learn(&told);
            DONE
        }
        (Step::Hear(_), Some(known)) => Ok(floor.tell(session, &known)),
        _ => {
            let (answer, told) = floor.take(session, open, step)?;
            if let Some(told) = told {
                // The channel refuses the list if the other half has ended, and nobody is left to
                // learn it.
                let _handed = news.0.send(floor.rt, told);
            }
            Ok(answer)
        }
    }
}

/// Plays the lines, up to one that gets another answer.
fn play<J: Naming, R: Threads + Wait + Sync>(
    floor: &Floor<J, R>,
    news: &News<J>,
    sessions: &mut [Session<J>],
    lines: &[Line],
    tries: usize,
) -> Option<Slip> {
    let mut tickets: [Option<Ticket>; 3] = [None, None, None];
    for (at, line) in lines.iter().enumerate() {
        let Some(open) = tickets.get_mut(line.0) else {
            return Some((at, Ok(Answer::Failed)));
        };
        let mut outcome = play_one(floor, news, sessions, open, line);
        for _ in 1..tries {
            if outcome != line.2 {
                outcome = play_one(floor, news, sessions, open, line);
            }
        }
        if outcome != line.2 {
            return Some((at, outcome));
        }
    }
    None
}

/// Plays both halves in threads. The second half learns each list that the first one hands on, and
/// waits no longer once the first half has ended.
fn play_in_two<J: Naming + Send + Sync, R: Threads + Wait + Sync>(
    floor: &Floor<J, R>,
    sessions: &mut [Session<J>],
    scene: &Scene,
) -> Option<Slip> {
    let (rt, alloc, desk) = (floor.rt, floor.alloc, floor.desk);
    let (Ok(from_front), Ok(from_back)) = (unbounded(alloc), unbounded(alloc)) else {
        return NO_MEMORY;
    };
    let (front_news, back_news) = ((from_front.0, from_back.1), (from_back.0, from_front.1));
    let half = sessions.len() / 2;
    let (front, back) = sessions.split_at_mut(half);
    let (front_lines, back_lines, tries) = (scene.front, scene.back, scene.tries);
    let front_floor = Floor { rt, alloc, desk };
    let back_floor = Floor { rt, alloc, desk };
    let (one, other) = join(
        rt,
        move || {
            let news = front_news;
            play(&front_floor, &news, front, front_lines, tries)
        },
        move || {
            let news = back_news;
            play(&back_floor, &news, back, back_lines, tries)
        },
    );
    one.or(other)
}

/// Plays the acts, and hands out the journal between them.
fn play_acts<J: Naming, R: Threads + Wait + Sync>(
    floor: &Floor<J, R>,
    handed: &mut Handed<J>,
    journal: &mut Journal,
    sessions: &mut [Session<J>],
    scene: &Scene,
) -> Option<Slip> {
    let Ok(news) = unbounded(floor.alloc) else {
        return NO_MEMORY;
    };
    for (act, lines) in scene.acts.iter().enumerate() {
        if act > 0 {
            let piece = floor.desk.checkpoint(floor.rt, handed);
            if journal.add(piece).is_none() {
                return NO_MEMORY;
            }
        }
        let slip = play(floor, &news, sessions, lines, scene.tries);
        if slip.is_some() {
            return slip;
        }
    }
    None
}

/// Plays the scene at a desk on this book. Returns none if there is no memory, or the desk fails.
fn played<J: Naming + Send + Sync, R: Threads + Wait + Sync>(
    rt: &R,
    alloc: Global,
    opened: Opened,
    book: &Book,
    sessions: u8,
    scene: &Scene,
) -> Option<(Left, Option<Slip>)>
    requires name { IsNamed J.Naming opened }
    requires opening { StartsAt J.Naming book.now sessions }
    requires loads { J.loads ≡ true }
{
    let mut journal = Journal::new(alloc, book)?;
    let log = Log::new(alloc);
    let made = KeptDesk::<J, Log>::new(rt, alloc, opened, book, sessions, log);
    let (desk, mut handed, mut seats) = made.ok()?;
    let floor = Floor {
        rt,
        alloc,
        desk: &desk,
    };
    let slip = match play_in_two(&floor, &mut seats, scene) {
        None => play_acts(&floor, &mut handed, &mut journal, &mut seats, scene),
        slip => slip,
    };
    let left = end(rt, desk, handed, seats, journal, scene.ending)?;
    Some((left, slip))
}

/// Returns the values that the scene leaves, and the line that got another answer.
pub(super) fn show<R: Threads + Wait + Sync>(
    rt: &R,
    alloc: Global,
    book: &Book,
    scene: &Scene,
) -> Option<(Left, Option<Slip>)> {
    let sessions = scene.sessions;
    played::<Brand, R>(rt, alloc, Opened::new(sessions), book, sessions, scene)
}

/// Plays a scene whose lines must all get the answers that are due, and returns the values that it
/// leaves.
pub(super) fn left_of<R: Threads + Wait + Abort + Sync>(
    rt: &R,
    alloc: Global,
    book: &Book,
    scene: &Scene,
) -> Left {
    let (left, slip) = show(rt, alloc, book, scene).expect(rt, "a desk");
    assert_eq!(rt; slip, None);
    left
}

/// Returns the values that are left when so many sessions run these lines in one thread, and the
/// desk is closed.
pub(super) fn left_of_act<R: Threads + Wait + Abort + Sync>(
    rt: &R,
    alloc: Global,
    book: &Book,
    sessions: u8,
    lines: &[Line],
) -> Left {
    let acts = [lines];
    let scene = Scene::new(sessions, &acts);
    left_of(rt, alloc, book, &scene)
}

/// Asserts that the desk left this journal, which its log keeps, and counted so many changes and
/// additions.
pub(super) fn judge<R: Abort>(
    rt: &R,
    left: &Left,
    journal: &[Entry],
    counts: &[u64],
    additions: &[u64],
) {
    assert_eq!(rt; left.journal.entries.as_slice(), journal);
    assert_eq!(rt; left.log.entries.as_slice(), journal);
    assert_eq!(rt;
        (left.counts.as_slice(), left.additions.as_slice()),
        (counts, additions)
    );
}

/// Asserts that the book that is left has this record at the name, or none.
pub(super) fn judge_record<R: Abort>(rt: &R, left: &Left, account: &str, record: Option<&str>) {
    let name = super::name(rt, account);
    assert_eq!(rt; left.book.show(&name), Ok(standing(rt, record)));
}
