//! Changes of different accounts that the scribe makes together and answers at once.

ghost use Rattle.std.specs.Prelude.{◌≡◌, ◌++◌, ◌∷◌, [], IfErr, None, OnErr, OnOk};
ghost use Rattle.cred_many.specs.{Adds.AddsNotSentAway, Scribe.IsGroup, Scribe.entries_of, Turns.HaveTurns, Turns.UseTurns};

use super::commits::told_reply;
use super::{Hashed, Scribe};
use crate::group::{Group, MOST_TOGETHER};
use crate::service_id::ServiceId;
use cred_admin::Host;
use cred_book::Change;
use std::alloc::Global;
use std::io::Write;

impl<J: ServiceId, K: Host, W: Write> Scribe<J, K, W> {
    /// Whether the scribe commits a work by itself: the work makes no change as the account is now,
    /// or the account is marked or has failed tries. So the answer to a try that may be sent away
    /// waits for no changes of others, whether the password is right or wrong.
    pub(crate) fn is_apart(&self, hashed: &Hashed<J>) -> bool {
        if !hashed.worked().reply().makes_change() {
            return true;
        }
        let name = hashed.worked().request().name();
        let (_, _, changes) = self.keeper.accounts().judge(hashed.worked());
        !changes || self.keeper.mark_of(&name).is_marked() || !self.tries.is_clear(&name)
    }

    /// Commits together the changes of different accounts among these works, and answers their
    /// lines. The other works come back in their order.
    pub fn commit_together(&mut self, alloc: Global, works: Vec<Hashed<J>>) -> Vec<Hashed<J>>
        ensures turns { self.new.output.fault ≡ None → HaveTurns works.items result.items
            self.old.output.pending self.new.output.pending }
        ensures clock { self.new.tries ≡ self.old.tries }
        ensures going { self.new.output.fault ≡ None → self.old.output.fault ≡ None }
        ensures came { self.new.came ≡ self.old.came }
        ensures adds { AddsNotSentAway self.old self.new }
    {
        let mut group = Group::new(alloc);
        let mut others = Vec::new(alloc);
        for hashed in works {
            let Err(hashed) = self.gather(&mut group, hashed) else {
                continue;
            };
            if let Err(refused) = others.push(hashed) {
                let (line, _) = refused.value.into_parts();
                self.starve(line);
            }
        }
        if self.output.fault.is_none() && !group.works.is_empty() {
            self.commit_group(group);
        }
        others
    }

    /// Adds a line to the group, or returns the line. A line joins the group if it changes an
    /// account that has no mark and no failed tries, and that no other line of the group changes.
    fn gather(&self, group: &mut Group<J>, hashed: Hashed<J>) -> Result<(), Hashed<J>>
        requires { IsGroup K.capacity J.service self.now.tries (K.book self.now.keeper)
            group.old.changed (entries_of group.old.works.items) group.old.text.items }
        ensures group { IsGroup K.capacity J.service self.now.tries (K.book self.now.keeper)
            group.new.changed (entries_of group.new.works.items) group.new.text.items }
        ensures added { OnOk result
            (group.new.works.items ≡ group.old.works.items ++ hashed ∷ []) }
        ensures same { OnErr result (group.new.works.items ≡ group.old.works.items) }
        ensures back { IfErr result (λ back. back ≡ hashed) }
    {
        if hashed.line().operation().is_reset() {
            return Err(hashed);
        }
        let name = hashed.worked().request().name();
        if self.keeper.mark_of(&name).is_marked() {
            return Err(hashed);
        }
        if !self.tries.is_clear(&name) {
            return Err(hashed);
        }
        let (reply, stored, changes) = self.keeper.accounts().judge(hashed.worked());
        if !changes || group.works.len() >= MOST_TOGETHER {
            return Err(hashed);
        }
        let change = Change {
            name,
            after: stored,
            reply: told_reply(hashed.line().operation(), reply),
        };
        group.push(hashed, &change)
    }

    /// Commits the changes of a group, and answers its lines. If the keeper refuses, commits no
    /// change and refuses the lines.
    fn commit_group(&mut self, group: Group<J>)
        requires going { self.old.output.fault ≡ None }
        requires group { IsGroup K.capacity J.service self.old.tries (K.book self.old.keeper)
            group.changed (entries_of group.works.items) group.text.items }
        ensures turns { self.new.output.fault ≡ None → UseTurns (entries_of group.works.items)
            self.old.output.pending self.new.output.pending }
        ensures same_came { self.new.came ≡ self.old.came }
        ensures same_tries { self.new.tries ≡ self.old.tries }
        ensures adds { AddsNotSentAway self.old self.new }
    {
        let Group {
            works,
            changed,
            text,
        } = group;
        let Some(left) = self.output.pending.without(&works) else {
            self.refuse_all(works);
            return;
        };
        match self.keeper.replace_all(changed) {
            Ok(()) => {
                self.output.pending = left;
                self.output.conclude_all(&text);
            }
            Err(_) => self.refuse_all(works),
        }
    }

    /// Refuses the lines of a group for want of memory, or ends the service if the keeper has
    /// failed.
    fn refuse_all(&mut self, works: Vec<Hashed<J>>)
        requires going { self.old.output.fault ≡ None }
        ensures turns { self.new.output.fault ≡ None → UseTurns (entries_of works.items)
            self.old.output.pending self.new.output.pending }
        ensures same_came { self.new.came ≡ self.old.came }
        ensures same_tries { self.new.tries ≡ self.old.tries }
        ensures adds { AddsNotSentAway self.old self.new }
    {
        for hashed in works {
            let (line, _) = hashed.into_parts();
            self.starve(line);
        }
    }
}
