//! The work of the thread with the book on the messages of the others, and its stopwatch.

ghost use Rattle.std.specs.Prelude.{◌≡◌, ◌++◌, ◌∷◌, [], None, true};
ghost use Rattle.crossbeam_channel.specs.Claims.{view};
ghost use Rattle.cred_many.specs.{Inbox.HasTaken, Inbox.MayFollow, Inbox.after, Scribe.entries_of, Scribe.numbers, Turns.AreTakenIn, Turns.HaveTurns, Turns.UseTurns, declared.inbox.Progress.Progress};

use crate::group::MOST_TOGETHER;
use crate::inbox::Inbox;
use crate::scribe::{Hashed, Job, Message, Scribe};
use crate::service_id::ServiceId;
use cred_admin::Host;
use cred_book::Name;
use crossbeam_channel::Sender;
use std::alloc::Global;
use std::io::Write;
use std::mem;
use std::sync::Wait;
use std::time::{Clock, Instant};

/// The ends of the channels to the other threads, and the work that is left.
#[derive(Drop)]
pub(crate) struct MessageLoop<J: ServiceId> {
    alloc: Global,
    stopwatch: Stopwatch,
    jobs: Sender<Job<J>>,
    room: Sender<()>,
    /// Changes that wait for a common commit.
    changes: Vec<Hashed<J>>,
}

impl<J: ServiceId> MessageLoop<J> {
    /// Creates the loop, before the first message.
    pub(crate) fn new(
        alloc: Global,
        stopwatch: Stopwatch,
        jobs: Sender<Job<J>>,
        room: Sender<()>,
    ) -> MessageLoop<J> {
        MessageLoop {
            alloc,
            stopwatch,
            jobs,
            room,
            changes: Vec::new(alloc),
        }
    }

    /// Handles the messages of the other threads, until all lines are answered or a fault ends it.
    /// Returns whether all lines were received and answered.
    pub(crate) fn run<T: Wait + Clock, K: Host, W: Write + Drop>(
        &mut self,
        rt: &T,
        scribe: &mut Scribe<J, K, W>,
        inbox: &mut Inbox<J>,
    ) -> bool
        ensures ended { result ≡ true → (view inbox.new.pass).got.ended ≡ true }
        ensures channel { inbox.new.end ≡ inbox.old.end }
        ensures taken { HasTaken (view inbox.old.pass).got scribe.old.output.fault scribe.old.came
            → HasTaken (view inbox.new.pass).got scribe.new.output.fault scribe.new.came }
        ensures answered { result ≡ true → (scribe.new.output.fault ≡ None)
            × (numbers scribe.new.output.pending ≡ []) }
    {
        for _ in rt.forever() {
            let Ok(message) = inbox.recv(rt) else {
                return false;
            };
            self.take_in(rt, scribe, message);
            self.gather(rt, scribe, inbox);
            self.commit(rt, scribe);
            if scribe.is_over() {
                return false;
            }
            if inbox.has_ended() && scribe.is_idle() {
                return true;
            }
        }
        unreachable!()
    }

    /// While changes wait, handles the messages that have arrived, so that one commit makes several
    /// changes. Ends after as many messages as changes may wait.
    fn gather<T: Wait + Clock, K: Host, W: Write + Drop>(
        &mut self,
        rt: &T,
        scribe: &mut Scribe<J, K, W>,
        inbox: &mut Inbox<J>,
    )
        ensures channel { inbox.new.end ≡ inbox.old.end }
        ensures taken { HasTaken (view inbox.old.pass).got scribe.old.output.fault scribe.old.came
            → HasTaken (view inbox.new.pass).got scribe.new.output.fault scribe.new.came }
    {
        for _ in 0..MOST_TOGETHER {
            if self.changes.is_empty() || self.changes.len() >= MOST_TOGETHER {
                return;
            }
            let Ok(message) = inbox.try_recv(rt) else {
                return;
            };
            self.commit_before(rt, scribe, &message);
            self.take_in(rt, scribe, message);
        }
    }

    /// Commits the waiting changes before a hashed line whose account one of them concerns. Also
    /// commits them before a line that needs no hash, since such a line may concern any account,
    /// and before a line whose hash lacked memory. So no later line overtakes a change of its
    /// account.
    fn commit_before<T: Wait + Clock, K: Host, W: Write + Drop>(
        &mut self,
        rt: &T,
        scribe: &mut Scribe<J, K, W>,
        message: &Message<J>,
    )
        ensures turns { scribe.new.output.fault ≡ None → HaveTurns self.old.changes.items
            self.new.changes.items scribe.old.output.pending scribe.new.output.pending }
        ensures going { scribe.new.output.fault ≡ None → scribe.old.output.fault ≡ None }
        ensures same_came { scribe.new.came ≡ scribe.old.came }
    {
        let is_behind = match message {
            Message::Came(line) => line.operation().needs_no_hash(),
            Message::Hashed(hashed) => self.has_change_of(&hashed.worked().request().name()),
            Message::NoMemory(_) => true,
            Message::Ended => false,
        };
        if is_behind {
            self.commit(rt, scribe);
        }
    }

    /// Handles a message.
    fn take_in<T: Wait + Clock, K: Host, W: Write + Drop>(
        &mut self,
        rt: &T,
        scribe: &mut Scribe<J, K, W>,
        message: Message<J>,
    )
        ensures turns { scribe.new.output.fault ≡ None
            → AreTakenIn message self.old.changes.items self.new.changes.items
            scribe.old.output.pending scribe.new.output.pending }
        ensures taken { (got : Progress J) → MayFollow got message
            → HasTaken got scribe.old.output.fault scribe.old.came
            → HasTaken (after got message) scribe.new.output.fault scribe.new.came }
    {
        match message {
            Message::Ended => {}
            Message::Came(line) => {
                let now = self.stopwatch.read(rt);
                self.pass_on(rt, scribe.take(self.alloc, line, now));
            }
            Message::Hashed(hashed) => self.take_hashed(rt, scribe, hashed),
            Message::NoMemory(starved) => {
                scribe.no_memory(starved);
                self.pass_on(rt, None);
            }
        }
    }

    /// Whether a change of this account waits.
    fn has_change_of(&self, name: &Name) -> bool {
        self.changes
            .iter()
            .any(|hashed| hashed.worked().request().name() == *name)
    }

    /// Commits a hashed line, or lets its change wait for others.
    fn take_hashed<T: Wait + Clock, K: Host, W: Write + Drop>(
        &mut self,
        rt: &T,
        scribe: &mut Scribe<J, K, W>,
        hashed: Hashed<J>,
    )
        ensures turns { scribe.new.output.fault ≡ None → HaveTurns
            (self.old.changes.items ++ hashed ∷ []) self.new.changes.items
            scribe.old.output.pending scribe.new.output.pending }
        ensures going { scribe.new.output.fault ≡ None → scribe.old.output.fault ≡ None }
        ensures same_came { scribe.new.came ≡ scribe.old.came }
    {
        let now = self.stopwatch.read(rt);
        if scribe.is_apart(&hashed) {
            self.pass_on(rt, scribe.commit(hashed, now));
        } else if let Err(refused) = self.changes.push(hashed) {
            self.pass_on(rt, scribe.commit(refused.value, now));
        }
    }

    /// Commits changes together, if there are several, and then the remaining ones one by one.
    fn commit<T: Wait + Clock, K: Host, W: Write + Drop>(
        &mut self,
        rt: &T,
        scribe: &mut Scribe<J, K, W>,
    )
        ensures turns { scribe.new.output.fault ≡ None
            → UseTurns (entries_of self.old.changes.items)
            scribe.old.output.pending scribe.new.output.pending }
        ensures none { self.new.changes.items ≡ [] }
        ensures going { scribe.new.output.fault ≡ None → scribe.old.output.fault ≡ None }
        ensures same_came { scribe.new.came ≡ scribe.old.came }
    {
        let none = Vec::new(self.alloc);
        let changes = mem::replace(&mut self.changes, none);
        let lines = changes.len();
        let others = if lines < 2 {
            changes
        } else {
            scribe.commit_together(self.alloc, changes)
        };
        for _ in others.len()..lines {
            self.pass_on(rt, None);
        }
        for hashed in others {
            let now = self.stopwatch.read(rt);
            self.pass_on(rt, scribe.commit(hashed, now));
        }
    }

    /// Passes on a line that is to be hashed. Without such a line, the scribe answered one, which
    /// leaves room for another.
    fn pass_on<T: Wait>(&self, rt: &T, job: Option<Job<J>>) {
        match job {
            Some(job) => {
                let _ = self.jobs.send(rt, job);
            }
            None => {
                let _ = self.room.send(rt, ());
            }
        }
    }
}

/// Tells how many seconds have passed since its creation.
#[derive(Clone, Copy)]
pub(crate) struct Stopwatch {
    began: Option<Instant>,
    /// The last reading.
    seconds: u64,
}

impl Stopwatch {
    pub(crate) fn new<C: Clock>(rt: &C) -> Stopwatch {
        Stopwatch {
            began: Instant::now(rt).ok(),
            seconds: 0,
        }
    }

    /// Returns the seconds until now, or until the last reading if the clock can't be read.
    pub(crate) fn read<C: Clock>(&mut self, rt: &C) -> u64 {
        if let Some(began) = self.began {
            if let Ok(passed) = began.elapsed(rt) {
                self.seconds = passed.as_secs();
            }
        }
        self.seconds
    }
}
