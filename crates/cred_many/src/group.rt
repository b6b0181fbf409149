//! Changes that the scribe makes together.

ghost use Rattle.std.specs.Prelude.{◌≡◌, ◌∷◌, ◌++◌, [], IfErr, None, OnErr, OnOk, length, take};
ghost use Rattle.std.specs.FinMap as map;
ghost use Rattle.cred_cli.specs.Texts.{reply_line};

use crate::scribe::Hashed;
use crate::service_id::ServiceId;
use cred_book::{Change, Register};
use cred_cli::reply_line;
use std::alloc::{AllocError, Global};

/// The maximum number of changes in one group.
pub(crate) const MOST_TOGETHER: usize = 64;

/// Hashed lines, the records that these lines give their accounts, and their answers one after
/// another.
#[derive(Drop)]
pub(crate) struct Group<J: ServiceId> {
    pub(crate) works: Vec<Hashed<J>>,
    pub(crate) changed: Register,
    pub(crate) text: Vec<u8>,
}

impl<J: ServiceId> Group<J> {
    /// Creates a group of no lines.
    pub(crate) fn new(alloc: Global) -> Group<J>
        ensures works { result.works.items ≡ [] }
        ensures changed { result.changed ≡ map.empty }
        ensures text { result.text.items ≡ [] }
    {
        Group {
            works: Vec::new(alloc),
            changed: Register::new(alloc),
            text: Vec::new(alloc),
        }
    }

    /// Adds a line with its change. The line comes back if memory runs out or the group already
    /// changes its account.
    pub(crate) fn push(&mut self, work: Hashed<J>, change: &Change) -> Result<(), Hashed<J>>
        ensures works { OnOk result (self.new.works.items ≡ self.old.works.items ++ work ∷ []) }
        ensures first { OnOk result
            (map.get self.old.changed change.now.name ≡ None) }
        ensures changed { OnOk result (self.new.changed
            ≡ map.insert self.old.changed change.now.name change.now.after) }
        ensures text { OnOk result (self.new.text.items ≡ self.old.text.items
            ++ work.0.tag ++ 32 ∷ reply_line change.now.reply) }
        ensures back { IfErr result (λ back. back ≡ work) }
        ensures same_works { OnErr result (self.new.works.items ≡ self.old.works.items) }
        ensures same_changed { OnErr result (self.new.changed ≡ self.old.changed) }
        ensures same_text { OnErr result (self.new.text.items ≡ self.old.text.items) }
    {
        if self.works.reserve(1).is_err() {
            return Err(work);
        }
        let length = self.text.len();
        if add_line(&mut self.text, work.line().tag(), reply_line(&change.reply)).is_err()
            || self.changed.enter(change.name, change.after).is_err()
        {
            self.text.truncate(length);
            return Err(work);
        }
        self.works.push_reserved(work);
        Ok(())
    }
}

/// Adds a tagged answer, or a part of it if memory runs out.
fn add_line(text: &mut Vec<u8>, tag: &[u8], answer: &[u8]) -> Result<(), AllocError>
    ensures added { OnOk result
        (text.new.items ≡ text.old.items ++ tag.now ++ 32 ∷ answer.now) }
    ensures front { take (length text.old.items) text.new.items ≡ text.old.items }
{
    text.extend_from_slice(tag)?;
    text.push(b' ')?;
    text.extend_from_slice(answer)
}
