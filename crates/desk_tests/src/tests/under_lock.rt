//! Tests of the work under the desk's lock, and while a session reads the book: no clause bounds
//! that work.
ghost use Rattle.std.specs.Prelude.{◌≡◌};
ghost use Rattle.cred_desk.specs.Naming.{IsNamed, StartsAt};

use super::floor::{Answer, Step, begin, close, read, work_of, worked};
use super::scene::{DONE, Outcome, left_of_act, replied};
use super::writer::{Log, Refused};
use super::{ONE_STANDS, book_of, enrol, name, standing, stored, upgrade, verify};
use cred_book::{Book, Reply, Worked};
use cred_desk::{Entry, EntryWriter, KeptDesk, Naming, Opened, Session};
use crossbeam_channel::{Receiver, Sender, unbounded};
use std::alloc::Global;
use std::marker::Brand;
use std::process::Abort;
use std::sync::Wait;
use std::thread::{Threads, join};
use std::time::CpuClock;
use test_samples::{A, A_SETTING, B_SETTING};

/// A record under which a hash takes days, and its setting.
const DEAR: &str = "$argon2id$v=19$m=256,t=4294967295,p=1$c29tZXNhbHQ$nf65EA";

const DEAR_SETTING: &str = "$argon2id$v=19$m=256,t=4294967295,p=1$c29tZXNhbHQ";

/// The processor time that three calls may need at their quickest, in nanoseconds: fewer than two
/// million cycles, so as many turns of a loop need more.
const LIMIT: u128 = 400_000;

/// The number of times that the test times these calls.
const TIMED: u32 = 40;

/// A writer that keeps nothing, and holds the lock of its desk until it is told to go on.
#[derive(Drop)]
struct Turnstile<'a, R> {
    rt: &'a R,
    asked: Sender<()>,
    go_on: Receiver<()>,
}

impl<'a, R: Wait> EntryWriter for Turnstile<'a, R> {
    type Error = Refused;

    ghost keeps = { λ _ _. Unit {0} };

    /// Refuses the entry if nobody is left who would tell the writer to go on.
    fn write(&mut self, _new: &Entry) -> Result<(), Refused> {
        self.asked.send(self.rt, ()).map_err(|_| Refused)?;
        self.go_on.recv(self.rt).map_err(|_| Refused)
    }
}

/// Has a session upgrade the record of a.
fn settle_upgrade<J: Naming, W: EntryWriter<Error = Refused>, R: Threads + Wait + Abort + Sync>(
    rt: &R,
    alloc: Global,
    desk: &KeptDesk<J, W>,
    session: &mut Session<J>,
) -> Answer {
    let work = work_of(rt, alloc, session, upgrade(rt, "a", B_SETTING));
    settle(rt, desk, session, work)
}

fn settle<J: Naming, W: EntryWriter<Error = Refused>, R: Wait>(
    rt: &R,
    desk: &KeptDesk<J, W>,
    session: &mut Session<J>,
    work: Option<Worked>,
) -> Answer {
    let Some(work) = work else {
        return Answer::Failed;
    };
    match desk.settle(rt, session, work) {
        Ok((reply, _told)) => Answer::Replied(reply),
        Err(_) => Answer::Failed,
    }
}

/// Once the lock is held, begins and closes a verify of a. Returns the record that the session
/// copied and the answer. Then the holder may go on.
fn read_meanwhile<J: Naming, R: Threads + Wait + Abort + Sync>(
    rt: &R,
    alloc: Global,
    session: &mut Session<J>,
    asked: &Receiver<()>,
    go_on: &Sender<()>,
) -> [Answer; 2] {
    if asked.recv(rt).is_err() {
        return [Answer::Failed; 2];
    }
    let mut open = None;
    begin(session, &mut open, verify(rt, "a"));
    let copied = read(&open);
    let closed = close(session, worked(rt, alloc, &mut open));
    // The channel refuses the word if the holder has failed, and nobody waits.
    let _told = go_on.send(rt, ());
    [copied, closed]
}

/// Has one session settle, while another reads.
fn settle_and_read<J: Naming + Send + Sync, R: Threads + Wait + Abort + Sync>(
    rt: &R,
    alloc: Global,
    desk: &KeptDesk<J, Turnstile<R>>,
    sessions: &mut [Session<J>],
    word: (Receiver<()>, Sender<()>),
) -> (Answer, [Answer; 2]) {
    let (front, back) = sessions.split_at_mut(sessions.len().min(1));
    join(
        rt,
        move || match front.first_mut() {
            Some(session) => settle_upgrade(rt, alloc, desk, session),
            None => Answer::Failed,
        },
        move || {
            let (asked, go_on) = word;
            match back.first_mut() {
                Some(session) => read_meanwhile(rt, alloc, session, &asked, &go_on),
                None => [Answer::Failed; 2],
            }
        },
    )
}

/// Builds a desk with two sessions, and holds its lock until one of them has read.
fn read_under_lock<J: Naming + Send + Sync, R: Threads + Wait + Abort + Sync>(
    rt: &R,
    alloc: Global,
    opened: Opened,
    book: &Book,
) -> Option<(Answer, [Answer; 2])>
    requires name { IsNamed J.Naming opened }
    requires opening { StartsAt J.Naming book.now 2 }
{
    let (asking, asked) = unbounded(alloc).ok()?;
    let (going, go_on) = unbounded(alloc).ok()?;
    let turnstile = Turnstile {
        rt,
        asked: asking,
        go_on,
    };
    let made = KeptDesk::<J, Turnstile<R>>::new(rt, alloc, opened, book, 2, turnstile);
    let (desk, handed, mut sessions) = made.ok()?;
    let answers = settle_and_read(rt, alloc, &desk, &mut sessions, (asked, going));
    let _remains = desk.give_up(rt, handed, &sessions);
    Some(answers)
}

/// Tests that while the lock is held, a session reads the book, which lacks the change, and gets an
/// answer.
#[test]
fn readers_wait_for_no_lock(rt: HostRuntime) {
    let book = book_of(&rt, rt.alloc(), ONE_STANDS).expect(&rt, "a book");
    let found = read_under_lock::<Brand, _>(&rt, rt.alloc(), Opened::new(2), &book);
    let (settled, read) = found.expect(&rt, "a desk");
    assert_eq!(rt; settled, Answer::Replied(Reply::Upgraded));
    let copied = Answer::Copied(Some(stored(&rt, A)));
    assert_eq!(rt; read, [copied, Answer::Replied(Reply::Yes)]);
}

/// Returns the answer `Changed`, with the record under which a hash takes days.
fn changed_to_dear<R: Abort>(rt: &R) -> Outcome {
    let now = standing(rt, Some(DEAR));
    replied(Reply::Changed { now })
}

/// Begins a verify and an upgrade, and then loads a record under which a hash takes days. A call of
/// the desk that hashed under the present record, the copy or the request's setting would not end.
#[test]
fn nothing_is_hashed_at_a_desk(rt: HostRuntime) {
    let book = book_of(&rt, rt.alloc(), ONE_STANDS).expect(&rt, "a book");
    let lines = [
        (0, Step::Begin(verify(&rt, "a")), DONE),
        (1, Step::Begin(upgrade(&rt, "a", B_SETTING)), DONE),
        (0, Step::Load(name(&rt, "a"), stored(&rt, DEAR)), DONE),
        (0, Step::Close, changed_to_dear(&rt)),
        (1, Step::Settle, changed_to_dear(&rt)),
        (0, Step::Begin(enrol(&rt, "a", DEAR_SETTING)), DONE),
        (0, Step::Read, Ok(Answer::Copied(standing(&rt, Some(DEAR))))),
        (0, Step::Settle, replied(Reply::Exists)),
    ];
    let left = left_of_act(&rt, rt.alloc(), &book, 2, &lines);
    assert_eq!(rt; left.log.entries.len(), 1);
}

/// Returns the processor time of this thread, in nanoseconds.
fn now<R: CpuClock + Abort>(rt: &R) -> u128 {
    rt.thread_cpu_time().expect(rt, "a clock").as_nanos()
}

/// Returns the time of a verify's begin and close, and of the settle of an upgrade to this setting,
/// or `u128::MAX` if the desk doesn't settle the upgrade.
fn time_once<J: Naming, R: Threads + Wait + CpuClock + Abort + Sync>(
    rt: &R,
    alloc: Global,
    desk: &KeptDesk<J, Log>,
    session: &mut Session<J>,
    setting: &str,
) -> u128 {
    let (verify, upgrade) = (verify(rt, "a"), upgrade(rt, "a", setting));
    let mut open = None;
    let start = now(rt);
    begin(session, &mut open, verify);
    let begun = now(rt).saturating_sub(start);
    let verified = worked(rt, alloc, &mut open);
    let start = now(rt);
    close(session, verified);
    let closed = now(rt).saturating_sub(start);
    let upgraded = work_of(rt, alloc, session, upgrade);
    let start = now(rt);
    let settled = settle(rt, desk, session, upgraded);
    let took = now(rt).saturating_sub(start);
    if settled != Answer::Replied(Reply::Upgraded) {
        return u128::MAX;
    }
    took.saturating_add(begun).saturating_add(closed)
}

/// Returns the least time of many runs.
fn timed<J: Naming, R: Threads + Wait + CpuClock + Abort + Sync>(
    rt: &R,
    alloc: Global,
    opened: Opened,
    book: &Book,
) -> Option<u128>
    requires name { IsNamed J.Naming opened }
    requires opening { StartsAt J.Naming book.now 1 }
{
    let log = Log::new(alloc);
    let made = KeptDesk::<J, Log>::new(rt, alloc, opened, book, 1, log);
    let (desk, handed, mut sessions) = made.ok()?;
    let mut quickest = u128::MAX;
    for number in 0..TIMED {
        let setting = [B_SETTING, A_SETTING][number as usize % 2];
        for session in &mut sessions {
            quickest = quickest.min(time_once(rt, alloc, &desk, session, setting));
        }
    }
    let _remains = desk.give_up(rt, handed, &sessions);
    Some(quickest)
}

#[test]
fn calls_are_quick(rt: HostRuntime) {
    let book = book_of(&rt, rt.alloc(), ONE_STANDS).expect(&rt, "a book");
    let found = timed::<Brand, _>(&rt, rt.alloc(), Opened::new(1), &book);
    let took = found.expect(&rt, "a desk");
    assert!(rt; took < LIMIT, "{took}");
}
