//! The effect of a whole operation at a record: the part of it that hashes.

ghost use Rattle.std.specs.Prelude.{◌≡◌, ◌≤◌, IfOk, if◌then◌else◌};
ghost use Rattle.cred_phc.specs.Tags.{tag};
ghost use Rattle.cred_book.specs.Works.{new_record, right, upgrade_outcome, whole};
ghost use denote.Param.Send.{IsSync};

use crate::request::{Reply, Request};
use crate::ticket::Ticket;
use cred_phc::{Password, Record, Scratch, Setting, Tag, TagError, tag_in, tag_of};
use cred_pool::Gate;
use std::alloc::Global;
use std::cell::Cell;
use std::thread::Threads;

/// The length of the tag of a new record in bytes.
const NEW_TAG: u8 = 32;

/// A reply, and the record after it.
pub(crate) type Outcome = (Reply, Option<Record>);

/// The hashing of passwords, by at most `workers` threads, with the gate around each lane or
/// piece.
#[derive(Drop)]
pub struct Hashing<'a, R, G> {
    pub rt: &'a R,
    pub alloc: Global,
    /// The maximum number of threads for one hash.
    pub workers: u8,
    pub gate: &'a G,
}

impl<R: Threads + Sync, G: Gate + Sync> Hashing<'_, R, G> {
    /// Returns the effect of the whole operation at the ticket's copy.
    pub(crate) fn outcome(&self, ticket: &Ticket) -> Result<Outcome, TagError>
        ensures { IfOk result (λ outcome. outcome ≡ whole ticket.now.0 ticket.now.1) }
    {
        let tag = |setting: &Setting, len: u8, pw: &Password|
            requires { IsSync R.row × IsSync G.row × (4 ≤ len) × (len ≤ 64) }
            ensures { IfOk result (λ found. found ≡ tag setting.entry.now len pw.entry.now) }
        { self.tag(setting, len, pw) };
        Operations {
            maker: TagFn { tag },
        }
        .outcome(ticket)
    }

    /// Whether the record is one of this password: whether the password's tag under the record's
    /// setting, of the same length, is the record's tag.
    ///
    /// Errors: `Memory` if there is not enough for the setting.
    #[tactic(auto, unfolding(crate::specs::Works::right))]
    pub fn is_right(&self, stored: &Record, pw: &Password) -> Result<bool, TagError>
        ensures { IfOk result (λ answer. answer ≡ right stored.now pw.now) }
    {
        let expected = stored.tag();
        let found = self.tag(&stored.setting(), expected.bytes().len() as u8, pw)?;
        Ok(found == expected)
    }

    /// Returns the record of this password under this setting, with a tag of 32 bytes.
    ///
    /// Errors: `Memory` if there is not enough for the setting.
    pub fn made(&self, setting: &Setting, pw: &Password) -> Result<Record, TagError>
        ensures { IfOk result (λ stored. stored ≡ new_record setting.now pw.now) }
    {
        let tag = self.tag(setting, NEW_TAG, pw)?;
        Ok(Record::with_tag(*setting, tag))
    }

    fn tag(&self, setting: &Setting, len: u8, pw: &Password) -> Result<Tag, TagError>
        requires low { 4 ≤ len }
        requires high { len ≤ 64 }
        ensures { IfOk result (λ found. found ≡ tag setting.now len pw.now) }
    {
        tag_of(
            self.rt,
            self.alloc,
            self.workers,
            self.gate,
            setting,
            len,
            pw,
        )
    }
}

/// Computes tags of passwords, in threads or on the caller's thread alone, for the operations,
/// which are written once.
pub(crate) trait TagMaker {
    ghost ready: { Self → Type 0 };

    /// Returns the tag of `len` bytes, 4 to 64, that the setting gives the password.
    ///
    /// Errors: `Memory` if there is not enough for the setting.
    fn tag(&self, setting: &Setting, len: u8, pw: &Password) -> Result<Tag, TagError>
        requires ready { ready self.now }
        requires low { 4 ≤ len }
        requires high { len ≤ 64 }
        ensures { IfOk result (λ found. found ≡ tag setting.now len pw.now) };
}

/// A closure as a maker of tags, such as one that calls [`tag_of`]. The maker is ready if the
/// closure's own contract says that the closure computes tags.
#[derive(Drop)]
struct TagFn<F> {
    tag: F,
}

impl<F: Fn(&Setting, u8, &Password) -> Result<Tag, TagError>> TagMaker for TagFn<F> {
    ghost use Rattle.cred_book.specs.Makers.{MakesTags};

    ghost ready = { λ maker. MakesTags F.Fn maker.tag };

    fn tag(&self, setting: &Setting, len: u8, pw: &Password) -> Result<Tag, TagError> {
        (self.tag)(setting, len, pw)
    }
}

/// The caller's thread, which needs no runtime. The thread works the lanes or pieces in turn, with
/// the gate around each, in memory that the maker keeps from tag to tag. A maker is shared while it
/// computes a tag, so the memory is in a cell.
#[derive(Drop)]
pub(crate) struct HashingIn<'a, G> {
    pub(crate) alloc: Global,
    pub(crate) gate: &'a G,
    pub(crate) scratch: Cell<Scratch>,
}

impl<G: Gate> TagMaker for HashingIn<'_, G> {
    ghost use Rattle.std.specs.Prelude.{⊤};

    ghost ready = { λ _. ⊤ };

    fn tag(&self, setting: &Setting, len: u8, pw: &Password) -> Result<Tag, TagError> {
        let mut scratch = self.scratch.replace(Scratch::new(self.alloc, 0));
        let made = tag_in(
            &mut scratch,
            self.alloc,
            self.gate,
            setting,
            len,
            pw.bytes(),
        );
        self.scratch.set(scratch);
        made
    }
}

/// The operations, with the tags that `maker` computes.
#[derive(Drop)]
pub(crate) struct Operations<M> {
    pub(crate) maker: M,
}

impl<M: TagMaker> Operations<M> {
    /// Returns the effect of the whole operation at the ticket's copy.
    pub(crate) fn outcome(&self, ticket: &Ticket) -> Result<Outcome, TagError>
        requires { M.ready self.now.maker }
        ensures { IfOk result (λ outcome. outcome ≡ whole ticket.now.0 ticket.now.1) }
    {
        match ticket.copy() {
            None => self.at_none(&ticket.request()),
            Some(stored) => self.at_record(&ticket.request(), &stored),
        }
    }

    fn at_none(&self, request: &Request) -> Result<Outcome, TagError>
        requires { M.ready self.now.maker }
        ensures { IfOk result (λ outcome. outcome ≡ whole request.now None) }
    {
        match *request {
            Request::Enrol { pw, setting, .. } => {
                let made = self.made(&setting, &pw)?;
                Ok((Reply::Enrolled, Some(made)))
            }
            Request::Verify { .. }
            | Request::Change { .. }
            | Request::Upgrade { .. }
            | Request::Remove { .. } => Ok((Reply::Absent, None)),
        }
    }

    fn at_record(&self, request: &Request, stored: &Record) -> Result<Outcome, TagError>
        requires { M.ready self.now.maker }
        ensures { IfOk result (λ outcome. outcome ≡ whole request.now (Some stored.now)) }
    {
        match *request {
            Request::Enrol { .. } => Ok((Reply::Exists, Some(*stored))),
            Request::Verify { pw, .. } => self.verify(stored, &pw),
            Request::Change {
                pw,
                new_pw,
                setting,
                ..
            } => self.change(stored, &pw, &new_pw, &setting),
            Request::Upgrade { pw, setting, .. } => self.upgrade(stored, &pw, &setting),
            Request::Remove { pw, .. } => self.remove(stored, &pw),
        }
    }

    fn verify(&self, stored: &Record, pw: &Password) -> Result<Outcome, TagError>
        requires { M.ready self.now.maker }
        ensures { IfOk result (λ outcome. outcome
            ≡ (if right stored.now pw.now then Reply.Yes else Reply.No, Some stored.now)) }
    {
        let reply = if self.is_right(stored, pw)? {
            Reply::Yes
        } else {
            Reply::No
        };
        Ok((reply, Some(*stored)))
    }

    /// Computes the effect of a change. A wrong password costs as many hashes as a right one: a
    /// service may answer both alike, and the time must not tell them apart.
    fn change(
        &self,
        stored: &Record,
        pw: &Password,
        new_pw: &Password,
        setting: &Setting,
    ) -> Result<Outcome, TagError>
        requires { M.ready self.now.maker }
        ensures { IfOk result (λ outcome. outcome
            ≡ (if right stored.now pw.now
            then (Reply.Replaced, Some (new_record setting.now new_pw.now))
            else (Reply.Wrong, Some stored.now))) }
    {
        let is_right = self.is_right(stored, pw)?;
        let made = self.made(setting, new_pw)?;
        if !is_right {
            return Ok((Reply::Wrong, Some(*stored)));
        }
        Ok((Reply::Replaced, Some(made)))
    }

    /// Computes the effect of an upgrade. As in a change, the time doesn't tell whether a password
    /// is right.
    fn upgrade(
        &self,
        stored: &Record,
        pw: &Password,
        setting: &Setting,
    ) -> Result<Outcome, TagError>
        requires { M.ready self.now.maker }
        ensures { IfOk result (λ outcome. outcome ≡ upgrade_outcome stored.now pw.now setting.now) }
    {
        let is_right = self.is_right(stored, pw)?;
        if stored.setting().scheme() == setting.scheme() {
            let reply = if is_right { Reply::Kept } else { Reply::Wrong };
            return Ok((reply, Some(*stored)));
        }
        let made = self.made(setting, pw)?;
        if !is_right {
            return Ok((Reply::Wrong, Some(*stored)));
        }
        Ok((Reply::Upgraded, Some(made)))
    }

    fn remove(&self, stored: &Record, pw: &Password) -> Result<Outcome, TagError>
        requires { M.ready self.now.maker }
        ensures { IfOk result (λ outcome. outcome
            ≡ (if right stored.now pw.now then (Reply.Removed, None)
            else (Reply.Wrong, Some stored.now))) }
    {
        if !self.is_right(stored, pw)? {
            return Ok((Reply::Wrong, Some(*stored)));
        }
        Ok((Reply::Removed, None))
    }

    /// Whether the record is one of this password.
    #[tactic(auto, unfolding(crate::specs::Works::right))]
    fn is_right(&self, stored: &Record, pw: &Password) -> Result<bool, TagError>
        requires { M.ready self.now.maker }
        ensures { IfOk result (λ answer. answer ≡ right stored.now pw.now) }
    {
        let tag = stored.tag();
        let found = self
            .maker
            .tag(&stored.setting(), tag.bytes().len() as u8, pw)?;
        Ok(found == tag)
    }

    /// Returns the record of this password under this setting.
    fn made(&self, setting: &Setting, pw: &Password) -> Result<Record, TagError>
        requires { M.ready self.now.maker }
        ensures { IfOk result (λ stored. stored ≡ new_record setting.now pw.now) }
    {
        let tag = self.maker.tag(setting, NEW_TAG, pw)?;
        Ok(Record::with_tag(*setting, tag))
    }
}
