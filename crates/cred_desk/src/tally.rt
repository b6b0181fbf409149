//! The numbers of the sessions' changes and additions, of each and of all together.

ghost use Rattle.std.specs.Prelude.{◌≡◌, ◌+◌, ◌≤◌, [], IfOk, false, length, map, sum, vec_capacity, vec_len};

use crate::naming::Naming;
use crate::session::Session;
use std::alloc::{AllocError, Global};
use std::sync::ledger::{Book as Total, Share};

/// A number for each session, in the order in which the sessions are handed in.
#[derive(Drop)]
pub(crate) struct Tallies {
    pub(crate) counts: Vec<u64>,
    pub(crate) additions: Vec<u64>,
}

impl Tallies {
    /// Returns empty tallies, with room for so many sessions.
    pub(crate) fn with_room(alloc: Global, sessions: u8) -> Result<Tallies, AllocError>
        ensures empty { IfOk result (λ t. (t.counts.items ≡ []) × (t.additions.items ≡ [])) }
        ensures room { IfOk result (λ t. (sessions ≤ vec_capacity t.counts)
            × (sessions ≤ vec_capacity t.additions)) }
    {
        let sessions = usize::from(sessions);
        Ok(Tallies {
            counts: Vec::with_capacity(alloc, sessions)?,
            additions: Vec::with_capacity(alloc, sessions)?,
        })
    }

    /// Returns the numbers of each of these sessions' changes and additions.
    pub(crate) fn written<J: Naming>(self, sessions: &[Session<J>]) -> Tallies
        requires empty { (self.counts.items ≡ []) × (self.additions.items ≡ []) }
        requires room { (length sessions.now ≤ vec_capacity self.counts)
            × (length sessions.now ≤ vec_capacity self.additions) }
        ensures counts { result.counts.items ≡ map (λ s. s.count) sessions.now }
        ensures additions { result.additions.items ≡ map (λ s. s.additions) sessions.now }
        ensures allowed { J.loads ≡ false → sum result.additions.items ≡ 0 }
    {
        let Tallies {
            mut counts,
            mut additions,
        } = self;
        for session in sessions {
            counts.push_reserved(session.count());
            additions.push_reserved(session.additions());
        }
        Tallies { counts, additions }
    }
}

/// The tokens that count all entries, and how many there are.
#[derive(Drop)]
pub(crate) struct Counting<J: Naming> {
    pub(crate) entries: u64,
    pub(crate) total: Total<J>,
    /// The share into which the shares of the sessions are merged; empty at first.
    pub(crate) all: Share<J>,
}

impl<J: Naming> Counting<J> {
    /// Returns the number of entries of other sessions than these.
    pub(crate) fn missing(self, sessions: Vec<Session<J>>) -> u64
        requires none { (self.all.parts ≡ 0) × (self.all.amount ≡ 0) }
        requires entries { self.total.total ≡ self.entries }
        ensures total { sum (map (λ s. s.count) sessions.items)
            + sum (map (λ s. s.additions) sessions.items) + result ≡ self.entries }
        ensures all { vec_len sessions ≡ J.parts → result ≡ 0 }
    {
        let Counting {
            entries,
            mut total,
            mut all,
        } = self;
        let mut left = sessions;
        let mut made = 0;
        while let Some(session) = left.pop() {
            let (share, more) = session.into_share(&mut total);
            all.merge(share);
            total.audit(&mut all);
            made += more;
        }
        total.audit(&mut all);
        entries - made
    }
}
