//! The commit of a hashed line, and the line's answer.

ghost use Rattle.std.specs.List.{remove};
ghost use Rattle.std.specs.Prelude.{◌≡◌, ℕ, IfSome, None, true, false};
ghost use Rattle.cred_book.specs.Works.{name_of};
ghost use Rattle.cred_many.specs.{Adds.AddsCounted, LineOperations.IsJobOf, LineOperations.hashed_for, LineOperations.is_reset, Scribe.HasSeen, Scribe.HasTurn, Scribe.IsReady, Served.told_reply, Served.told_verdict, Turns.HasMoved, Turns.UsesTurn};
ghost use Rattle.cred_tries.specs.Answers.{IsReadBy};
ghost use Rattle.cred_many.specs.Tries.{effect_by, is_try, reply_effect};

use super::{Hashed, Job, Scribe};
use crate::fault::ServiceFault;
use crate::line::Line;
use crate::line_operation::LineOperation;
use crate::service_id::ServiceId;
use crate::tries::{Effect, forgives};
use cred_admin::{Host, Verdict, commit_try, put_in_place, verdict_line};
use cred_book::{Reply, Worked};
use cred_cli::reply_line;
use std::io::Write;

impl<J: ServiceId, K: Host, W: Write> Scribe<J, K, W> {
    /// Commits a whole operation and answers its line, if the record still equals the copy, and
    /// otherwise copies the record again. The present marks of the account count, and so do the
    /// tries that failed before this reading of the clock, in seconds. A try that is too early is
    /// sent away, whether its password is right or wrong.
    pub fn commit(&mut self, hashed: Hashed<J>, now: u64) -> Option<Job<J>>
        ensures turn { result ≡ None → HasTurn hashed.0.number self.old.output self.new.output }
        ensures again { IfSome result (λ job. (job.0 ≡ hashed.0)
            × HasMoved (K.book self.old.keeper) hashed.1) }
        ensures turns { self.new.output.fault ≡ None → UsesTurn hashed.0.number
            self.old.output.pending self.new.output.pending }
        ensures clock { IsReadBy now self.old.tries self.new.tries }
        ensures going { self.new.output.fault ≡ None → self.old.output.fault ≡ None }
        ensures came { self.new.came ≡ self.old.came }
        ensures adds { AddsCounted now self.old self.new }
    {
        if self.output.fault.is_some() {
            return None;
        }
        let (line, worked) = hashed.into_parts();
        let place = self.output.pending.place_of(line.number())?;
        if line.operation().is_reset() {
            self.reset(place, line, &worked);
            return None;
        }
        let name = worked.request().name();
        if !self.output.pending.has_seen(place, &name, &worked.copy()) {
            self.output.fault = Some(ServiceFault::Lost);
            return None;
        }
        self.commit_whole(place, line, worked, now)
    }

    fn commit_whole(
        &mut self,
        place: usize,
        line: Line<J>,
        worked: Worked,
        now: u64,
    ) -> Option<Job<J>>
        requires ready { IsReady self.old.output.fault self.old.output.pending place line.number }
        requires asked { hashed_for line.operation ≡ Some worked.0 }
        requires kept { is_reset line.operation ≡ false }
        requires seen { HasSeen self.old.output.pending place (name_of worked.0) worked.1 true }
        ensures closed { result ≡ None → self.new.output.fault ≡ None
            → self.new.output.pending ≡ remove self.old.output.pending place }
        ensures again { IfSome result (λ job. (job.0 ≡ line)
            × HasMoved (K.book self.old.keeper) worked) }
        ensures turns { IfSome result (λ _. UsesTurn line.number self.old.output.pending
            self.new.output.pending) }
        ensures clock { IsReadBy now self.old.tries self.new.tries }
        ensures same_came { self.new.came ≡ self.old.came }
        ensures adds { AddsCounted now self.old self.new }
    {
        let operation = line.operation();
        if let Some(seconds) = self.tries.send_away(&operation, now) {
            self.output.answer_later(place, &line, seconds);
            return None;
        }
        let request = worked.request();
        let verdict = match commit_try(&mut self.keeper, worked) {
            Ok(verdict) => verdict,
            Err(_) => {
                self.refuse(place, line);
                return None;
            }
        };
        if verdict.is_outdated() {
            return self.job(place, line, request);
        }
        let effect = effect_of(&operation, &verdict);
        if self.tries.count(&request.name(), now, effect).is_err() {
            self.refuse(place, line);
            return None;
        }
        let answer = verdict_line(&told_verdict(operation, verdict));
        self.output.answer(place, &line, answer);
        None
    }

    /// Stores the new record in place of any other.
    fn reset(&mut self, place: usize, line: Line<J>, worked: &Worked)
        requires ready { IsReady self.old.output.fault self.old.output.pending place line.number }
        requires asked { IsJobOf line.operation worked.now }
        requires reset { is_reset line.operation ≡ true }
        ensures closed { self.new.output.fault ≡ None
            → self.new.output.pending ≡ remove self.old.output.pending place }
        ensures same_came { self.new.came ≡ self.old.came }
        ensures clock { (now : ℕ) → IsReadBy now self.old.tries self.new.tries }
        ensures adds { (now : ℕ) → AddsCounted now self.old self.new }
    {
        let Some(stored) = worked.after() else {
            unreachable!()
        };
        let name = worked.request().name();
        match put_in_place(&mut self.keeper, &name, stored) {
            Ok(reply) => {
                self.tries.reset(&name, &reply);
                self.output.answer(place, &line, reply_line(&reply));
            }
            Err(_) => self.refuse(place, line),
        }
    }
}

/// Returns the verdict that answers an operation.
fn told_verdict(operation: LineOperation, verdict: Verdict) -> Verdict
    ensures { result ≡ told_verdict operation verdict }
{
    match verdict {
        Verdict::Told(reply) => Verdict::Told(told_reply(operation, reply)),
        Verdict::Expired => Verdict::Expired,
        Verdict::Same => Verdict::Same,
    }
}

/// Returns the effect of an operation's answer on its account's failed tries.
fn effect_of(operation: &LineOperation, verdict: &Verdict) -> Effect
    ensures { result ≡ effect_by (is_try operation.now) verdict.now }
{
    match (operation.tried(), verdict) {
        (Some(_), Verdict::Told(reply)) => reply_effect(reply),
        (Some(_), Verdict::Expired | Verdict::Same) => Effect::Right,
        (None, Verdict::Told(reply)) if forgives(reply) => Effect::Forgiven,
        (None, _) => Effect::Nothing,
    }
}

/// Returns the effect of the reply to a try on the failed tries.
fn reply_effect(reply: &Reply) -> Effect
    ensures { result ≡ reply_effect reply.now }
{
    match reply {
        Reply::Yes | Reply::Kept | Reply::Upgraded | Reply::Replaced | Reply::Removed => {
            Effect::Right
        }
        Reply::No | Reply::Wrong => Effect::Wrong,
        Reply::Enrolled
        | Reply::Exists
        | Reply::Absent
        | Reply::Changed { .. }
        | Reply::NoAccount => Effect::Nothing,
    }
}

/// Returns the reply to an operation: that of a login is the reply of a verify.
pub(super) fn told_reply(operation: LineOperation, reply: Reply) -> Reply
    ensures { result ≡ told_reply operation reply }
{
    match (operation, reply) {
        (LineOperation::Login(..), Reply::Wrong) => Reply::No,
        (LineOperation::Login(..), Reply::Kept | Reply::Upgraded) => Reply::Yes,
        (_, reply) => reply,
    }
}
