//! The channel to the thread that has the book. The lines of the thread that reads arrive in their
//! order, each once, between the reports of the threads that hash.

ghost use Rattle.std.specs.Prelude.{◌≡◌, ◌<◌, false, true, length, IfOk, OnErr, OnOk};
ghost use Rattle.crossbeam_channel.specs.{Claims.IsSeatAt, Claims.view, Ends.receives_on, Ends.sends_on};
ghost use Rattle.cred_many.specs.Inbox.{IsReport, MayFollow, after, no_part, no_progress, sender_of, taker_of};
ghost use Rattle.cred_many.specs.declared.scribe.job.Message.TheVariants.{Came};

use crate::line::Line;
use crate::scribe::Message;
use crate::service_id::ServiceId;
use crossbeam_channel::protocol::{Join, Lesson, Outcome, Protocol, Split};
use crossbeam_channel::{
    Pass, RecvError, RuledReceiver, RuledSender, SendError, TryRecvError, bounded_with,
};
use std::alloc::{AllocError, Global};
use std::collections::LinkedList;
use std::sync::Wait;

/// The messages of the thread that reads, up to a moment. No code builds such a value.
pub(crate) struct Progress<J: ServiceId> {
    lines: LinkedList<Line<J>>,
    ended: bool,
}

/// The knowledge of the holder of one end: whether the holder sends lines, and which lines it sent;
/// whether the holder receives, and which lines it received. No code builds such a value.
pub(crate) struct Known<J: ServiceId> {
    sends: bool,
    takes: bool,
    sent: Progress<J>,
    got: Progress<J>,
}

type Knowledge<J> = Pass<Message<J>, Known<J>>;

type Sending<J> = RuledSender<Message<J>, Known<J>, InOrder>;

type Receiving<J> = RuledReceiver<Message<J>, Known<J>, InOrder>;

/// The rule of the channel.
pub(crate) struct InOrder;

impl<J: ServiceId> Protocol<Message<J>, Known<J>> for InOrder {
    ghost use Rattle.std.specs.Prelude.{true};
    ghost use Rattle.cred_many.specs.Inbox as inbox;
    ghost use Rattle.cred_many.specs.Inbox.{known, no_progress};

    ghost holds = { inbox.InOrder };

    ghost first = { known true true no_progress no_progress };
}

/// The thread that reads sent a message.
struct Sent;

impl<J: ServiceId> Outcome<Message<J>, Known<J>> for Sent {
    ghost use Rattle.std.specs.Prelude.{◌≡◌};
    ghost use Rattle.cred_many.specs.Inbox.{after, known};

    ghost then = { λ k m w. w ≡ known k.sends k.takes (after k.sent m) k.got };
}

impl<J: ServiceId> Lesson<Message<J>, Known<J>> for Sent {
    ghost use Rattle.std.specs.Prelude.{⊤};

    ghost fact = { λ k messages. ⊤ };
}

/// A thread that hashes sent a message.
struct Reported;

impl<J: ServiceId> Outcome<Message<J>, Known<J>> for Reported {
    ghost use Rattle.std.specs.Prelude.{◌≡◌};

    ghost then = { λ k m w. w ≡ k };
}

impl<J: ServiceId> Lesson<Message<J>, Known<J>> for Reported {
    ghost use Rattle.std.specs.Prelude.{⊤};

    ghost fact = { λ k messages. ⊤ };
}

/// The thread that has the book received a message.
struct Taken;

impl<J: ServiceId> Outcome<Message<J>, Known<J>> for Taken {
    ghost use Rattle.std.specs.Prelude.{◌≡◌};
    ghost use Rattle.cred_many.specs.Inbox.{MayFollow, after, known};

    ghost then = { λ k m w. MayFollow k.got m
        × (w ≡ known k.sends k.takes k.sent (after k.got m)) };
}

impl<J: ServiceId> Lesson<Message<J>, Known<J>> for Taken {
    ghost use Rattle.std.specs.Prelude.{⊤};

    ghost fact = { λ k messages. ⊤ };
}

/// One end sends lines, and another receives them.
struct Parts;

impl<J: ServiceId> Split<Known<J>> for Parts {
    ghost use Rattle.cred_many.specs.Inbox.{sender_of, taker_of};

    ghost left = { λ k. taker_of k.got };

    ghost right = { λ k. sender_of k.sent };
}

impl<J: ServiceId> Join<Known<J>> for Parts {
    ghost use Rattle.std.specs.Prelude.{true};
    ghost use Rattle.cred_many.specs.Inbox.{known, no_part};

    ghost both = { λ k u. known true true k.sent u.got };

    ghost spent = { no_part };
}

/// One more end, which sends no lines.
struct Spare;

impl<J: ServiceId> Split<Known<J>> for Spare {
    ghost use Rattle.cred_many.specs.Inbox.{no_part};

    ghost left = { λ k. k };

    ghost right = { λ k. no_part };
}

/// The received lines are the sent ones.
struct AllArrived;

impl<J: ServiceId> Lesson<Message<J>, Known<J>> for AllArrived {
    ghost use Rattle.std.specs.Prelude.{◌≡◌};

    ghost fact = { λ k messages. k.got ≡ k.sent };
}

/// The end of the thread that reads.
#[derive(Drop)]
pub(crate) struct ReaderEnd<J: ServiceId> {
    end: Sending<J>,
    pass: Knowledge<J>,

    ghost seat: { IsSeatAt (sends_on end) pass },
    ghost part: { view pass ≡ sender_of (view pass).sent },
}

/// The end of a thread that hashes.
#[derive(Drop)]
pub(crate) struct WorkerEnd<J: ServiceId> {
    end: Sending<J>,
    pass: Knowledge<J>,

    ghost seat: { IsSeatAt (sends_on end) pass },
    ghost part: { view pass ≡ no_part },
}

/// The end of the thread that has the book.
#[derive(Drop)]
pub(crate) struct Inbox<J: ServiceId> {
    end: Receiving<J>,
    pass: Knowledge<J>,
    /// Whether the end of the lines was received.
    ended: bool,

    ghost seat: { IsSeatAt (receives_on end) pass },
    ghost part: { view pass ≡ taker_of (view pass).got },
    ghost over: { ended ≡ (view pass).got.ended },
}

/// Creates the ends of a channel with room for so many messages.
pub(crate) fn make_inbox<J: ServiceId>(
    alloc: Global,
    room: usize,
) -> Result<(ReaderEnd<J>, WorkerEnd<J>, Inbox<J>), AllocError>
    requires { 0 < room }
    ensures sent { IfOk result (λ ends. (view ends.0.pass).sent ≡ no_progress) }
    ensures got { IfOk result (λ ends. (view ends.2.pass).got ≡ no_progress) }
    ensures channel { IfOk result (λ ends. receives_on ends.2.end ≡ sends_on ends.0.end) }
{
    let (end, receiving, first): (Sending<J>, Receiving<J>, Knowledge<J>) = bounded_with(
        alloc, room,
    )?;
    let mut mine = first;
    let theirs = end.another::<Parts>(&mut mine);
    let spare = end.another::<Spare>(&mut mine);
    let reader = ReaderEnd {
        end: end.try_clone()?,
        pass: theirs,
    };
    let worker = WorkerEnd { end, pass: spare };
    let inbox = Inbox {
        end: receiving,
        pass: mine,
        ended: false,
    };
    Ok((reader, worker, inbox))
}

impl<J: ServiceId> ReaderEnd<J> {
    /// Sends the next line once there is room for this line.
    pub(crate) fn send_line<T: Wait>(
        &mut self,
        rt: &T,
        line: Line<J>,
    ) -> Result<(), SendError<Message<J>>>
        requires going { (view self.old.pass).sent.ended ≡ false }
        requires next { line.number ≡ length (view self.old.pass).sent.lines }
        ensures sent { OnOk result ((view self.new.pass).sent
            ≡ after (view self.old.pass).sent (Came line)) }
        ensures same { OnErr result ((view self.new.pass).sent ≡ (view self.old.pass).sent) }
        ensures channel { self.new.end ≡ self.old.end }
    {
        let ReaderEnd { end, pass } = self;
        end.send_as::<Sent, T>(rt, pass, Message::Came(line))
    }

    /// Announces that no more lines come.
    pub(crate) fn send_end<T: Wait>(&mut self, rt: &T)
        requires going { (view self.old.pass).sent.ended ≡ false }
        ensures lines { (view self.new.pass).sent.lines ≡ (view self.old.pass).sent.lines }
        ensures channel { self.new.end ≡ self.old.end }
    {
        let ReaderEnd { end, pass } = self;
        let _ = end.send_as::<Sent, T>(rt, pass, Message::Ended);
    }
}

impl<J: ServiceId> WorkerEnd<J> {
    /// Creates an end for one more thread.
    pub(crate) fn another(&mut self) -> Result<WorkerEnd<J>, AllocError> {
        let WorkerEnd { end, pass } = self;
        let theirs = end.try_clone()?;
        Ok(WorkerEnd {
            end: theirs,
            pass: end.another::<Spare>(pass),
        })
    }

    /// Sends the outcome of a hash.
    pub(crate) fn report<T: Wait>(
        &mut self,
        rt: &T,
        message: Message<J>,
    ) -> Result<(), SendError<Message<J>>>
        requires { IsReport message }
    {
        let WorkerEnd { end, pass } = self;
        end.send_as::<Reported, T>(rt, pass, message)
    }
}

impl<J: ServiceId> Inbox<J> {
    /// Whether the end of the lines was received.
    pub(crate) fn has_ended(&self) -> bool
        ensures { result ≡ (view self.now.pass).got.ended }
    {
        self.ended
    }

    /// Waits for the next message.
    pub(crate) fn recv<T: Wait>(&mut self, rt: &T) -> Result<Message<J>, RecvError>
        ensures next { IfOk result (λ message. MayFollow (view self.old.pass).got message) }
        ensures got { IfOk result (λ message. (view self.new.pass).got
            ≡ after (view self.old.pass).got message) }
        ensures same { OnErr result ((view self.new.pass).got ≡ (view self.old.pass).got) }
        ensures channel { self.new.end ≡ self.old.end }
    {
        let Inbox { end, pass, ended } = self;
        let message = end.recv_as::<Taken, T>(rt, pass)?;
        if let Message::Ended = &message {
            *ended = true;
        }
        Ok(message)
    }

    /// Receives the next message, if one has arrived.
    pub(crate) fn try_recv<T: Wait>(&mut self, rt: &T) -> Result<Message<J>, TryRecvError>
        ensures next { IfOk result (λ message. MayFollow (view self.old.pass).got message) }
        ensures got { IfOk result (λ message. (view self.new.pass).got
            ≡ after (view self.old.pass).got message) }
        ensures same { OnErr result ((view self.new.pass).got ≡ (view self.old.pass).got) }
        ensures channel { self.new.end ≡ self.old.end }
    {
        let Inbox { end, pass, ended } = self;
        let message = end.try_recv_as::<Taken, T>(rt, pass)?;
        if let Message::Ended = &message {
            *ended = true;
        }
        Ok(message)
    }

    /// Compares the received lines, up to their end, with the sent lines.
    pub(crate) fn compare(self, reader: ReaderEnd<J>)
        requires channel { receives_on self.end ≡ sends_on reader.end }
        requires ended { (view self.pass).got.ended ≡ true }
        ensures { (view self.pass).got ≡ (view reader.pass).sent }
    {
        let Inbox {
            end: _end,
            pass: mine,
            ended: _ended,
        } = self;
        let ReaderEnd { end, pass } = reader;
        let mut both = pass;
        end.absorb::<Parts>(&mut both, mine);
        end.learn_as::<AllArrived>(&mut both);
    }
}
