//! The failed tries at accounts, if they are limited.

ghost use Rattle.std.specs.Prelude.{◌≡◌, ℕ, IfSome, None, OnErr, OnOk, if◌then◌else◌, option_map, true};
ghost use Rattle.cred_many.specs.Scribe.{HasEffect, HasPlace, IsOpenTo, IsSentAway, is_clear, passed_of};
ghost use Rattle.cred_many.specs.{Served.name_asked, Tries.is_try, Tries.reset_effect};
ghost use Rattle.cred_tries.specs.{Answers.IsReadBy, Limits.IsLimit, Limits.new_limits};

use crate::line_operation::LineOperation;
use cred_book::{Name, Reply};
use cred_tries::{Limiter, TryLimit};
use std::alloc::{AllocError, Global};
use std::marker::Model;

/// The effect of the answer to a line on the failed tries of its account.
#[derive(Clone, Copy, Debug, PartialEq, Eq)]
pub(crate) enum Effect {
    /// The password was right.
    Right,
    /// The password was wrong.
    Wrong,
    /// The account has a new password, for which nobody asked for the present one. This forgives
    /// the earlier failures.
    Forgiven,
    /// The answer has no effect.
    Nothing,
}

/// The failed tries at each name. A try begins and ends when it gets its answer, so no try runs
/// between two calls.
#[derive(Drop)]
pub(crate) struct Tries {
    limiter: Option<Limiter>,
}

impl Model for Tries {
    ghost use Rattle.std.specs.Prelude.{Option};
    ghost use Rattle.std.specs.Coded.{coded_option};
    ghost use Rattle.cred_many.specs.Scribe.{AreIdle};
    ghost use Rattle.cred_tries.specs.Limits.{Limits, limits_code};

    ghost Value = { Option Limits };

    ghost coded = { coded_option limits_code };

    ghost view = { λ t. t.limiter };

    ghost invariant = { λ t. AreIdle t.limiter };
}

impl Tries {
    /// Creates the counts before the first try, with this limit or with none.
    pub(crate) fn new(alloc: Global, limit: Option<TryLimit>) -> Tries
        ensures none { result ≡ option_map new_limits limit }
        ensures limit { IfSome limit IsLimit }
    {
        let limiter = match limit {
            Some(limit) => Some(Limiter::new(alloc, limit.tries())),
            None => None,
        };
        Tries { limiter }
    }

    /// Returns by how many seconds a line tries a password too early, at a reading of the clock in
    /// seconds. If the line isn't too early, its password may be judged at this reading.
    pub(crate) fn send_away(&mut self, operation: &LineOperation, now: u64) -> Option<u64>
        ensures sent { IfSome result (λ seconds. (is_try operation.now ≡ true)
            × IsSentAway now self.old self.new (name_asked operation.now) seconds) }
        ensures same { result ≡ None → self.new ≡ self.old }
        ensures open { result ≡ None → is_try operation.now ≡ true
            → IsOpenTo self.old (name_asked operation.now) now }
        ensures clock { IsReadBy now self.old self.new }
    {
        let name = operation.tried()?;
        match &mut self.limiter {
            Some(limiter) => limiter.sends_away(&name, now),
            None => None,
        }
    }

    /// Counts what an answer tells of the password of a name, at a reading of the clock in seconds.
    ///
    /// Errors: no memory, which only a wrong password needs. Nothing changes then.
    pub(crate) fn count(&mut self, name: &Name, now: u64, effect: Effect) -> Result<(), AllocError>
        requires { HasPlace effect self.old name.now now }
        ensures counted { OnOk result (HasEffect now self.old self.new name.now effect) }
        ensures same { OnErr result (self.new ≡ self.old) }
        ensures wrong { OnErr result (effect ≡ Effect.Wrong) }
        ensures clock { IsReadBy now self.old self.new }
    {
        let Some(limiter) = &mut self.limiter else {
            return Ok(());
        };
        match effect {
            Effect::Right => limiter.right(name, now),
            Effect::Wrong => return limiter.wrong(name, now),
            Effect::Forgiven => {
                limiter.forgive(name);
            }
            Effect::Nothing => {}
        }
        Ok(())
    }

    /// Forgives the failures at a name.
    pub(crate) fn forgive(&mut self, name: &Name)
        ensures counted { (now : ℕ) → HasEffect now self.old self.new name.now Effect.Forgiven }
        ensures clock { (now : ℕ) → IsReadBy now self.old self.new }
    {
        if let Some(limiter) = &mut self.limiter {
            limiter.forgive(name);
        }
    }

    /// Forgives the failures at a name if this reply says that its password was reset.
    #[tactic(auto, using(crate::proofs::Limiting::reset_none, crate::proofs::Limiting::reset_some))]
    pub(crate) fn reset(&mut self, name: &Name, reply: &Reply)
        ensures counted { (now : ℕ)
            → HasEffect now self.old self.new name.now (reset_effect reply.now) }
        ensures clock { (now : ℕ) → IsReadBy now self.old self.new }
    {
        if !forgives(reply) {
            return;
        }
        self.forgive(name);
    }

    /// Whether a name has no counted failures.
    pub(crate) fn is_clear(&self, name: &Name) -> bool
        ensures { result ≡ is_clear self.now name.now }
    {
        match &self.limiter {
            Some(limiter) => limiter.is_clear(name),
            None => true,
        }
    }

    /// Returns the seconds that have passed by the clock, or 0 if there is no limit.
    pub(crate) fn passed(&self) -> u64
        ensures { result ≡ passed_of self.now }
    {
        match &self.limiter {
            Some(limiter) => limiter.passed(),
            None => 0,
        }
    }
}

/// Whether the account has a new password, for which nobody asked for the present one.
pub(crate) fn forgives(reply: &Reply) -> bool
    ensures { reset_effect reply.now ≡ (if result then Effect.Forgiven else Effect.Nothing) }
{
    matches!(reply, Reply::Enrolled | Reply::Replaced)
}
