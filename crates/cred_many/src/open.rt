//! The lines that have come and have no answer yet.

ghost use Rattle.std.specs.Prelude.{◌≡◌, ◌≤◌, ◌<◌, ◌++◌, ◌∷◌, [], IfNone, IfSome, MatchBool, OnErr, OnOk, Some, length, slice_get};
ghost use Rattle.std.specs.List.{remove};
ghost use Rattle.cred_many.specs.Served.{tries};
ghost use Rattle.cred_many.specs.Scribe.{AreClosed, HasSeen, IsPending, Notes, counted, entries_of, is_sight, numbers, unseen};

use crate::scribe::Hashed;
use crate::service_id::ServiceId;
use cred_book::Name;
use cred_phc::Record;
use std::alloc::{AllocError, Global};
use std::marker::Model;

/// The maximum number of open lines.
pub(crate) const MOST_OPEN: usize = 256;

/// The record that was last copied for a line.
#[derive(Clone, Copy)]
struct Sight {
    name: Name,
    stored: Option<Record>,
    /// The number of changes of this record that the scribe saw.
    changes: u32,
}

/// An open line.
#[derive(Clone, Copy)]
struct Open {
    number: u64,
    sight: Option<Sight>,
}

/// The open lines.
#[derive(Drop)]
pub(crate) struct OpenLines {
    lines: Vec<Open>,
}

impl Model for OpenLines {
    ghost use Rattle.std.specs.Prelude.{List};
    ghost use Rattle.cred_many.specs.declared.open.Open.{Open};

    ghost Value = { List Open };

    ghost view = { λ o. o.lines.items };
}

impl OpenLines {
    pub(crate) fn new(alloc: Global) -> OpenLines
        ensures { result ≡ [] }
    {
        OpenLines {
            lines: Vec::new(alloc),
        }
    }

    pub(crate) fn is_empty(&self) -> bool
        ensures { MatchBool result (numbers self.now ≡ []) (numbers self.now ≡ [] → ⊥) }
    {
        self.lines.is_empty()
    }

    pub(crate) fn len(&self) -> usize
        ensures { result ≡ length self.now }
    {
        self.lines.len()
    }

    /// Returns the place of the line of this number, if it is open.
    pub(crate) fn place_of(&self, number: u64) -> Option<usize>
        ensures within { IfSome result (λ i. i < length self.now) }
        ensures there { IfSome result (λ i. slice_get (numbers self.now) i ≡ Some number) }
        ensures absent { IfNone result (IsPending number (numbers self.now) → ⊥) }
    {
        for i in 0..self.lines.len() {
            if self.lines[i].number == number {
                return Some(i);
            }
        }
        None
    }

    /// Opens a line.
    pub(crate) fn push(&mut self, number: u64) -> Result<(), AllocError>
        ensures opened { OnOk result (self.new ≡ self.old ++ unseen number ∷ []) }
        ensures same { OnErr result (self.new ≡ self.old) }
    {
        // The prover finds the type that a sight holds only if the code names it.
        let _none: Option<Record> = None;
        self.lines.push(Open {
            number,
            sight: None,
        })?;
        Ok(())
    }

    /// Closes the line at this place.
    pub(crate) fn close(&mut self, place: usize)
        requires { place < length self.old }
        ensures { self.new ≡ remove self.old place }
    {
        self.lines.remove(place);
    }

    /// Returns the open lines without these, or nothing if one of these isn't open or memory runs
    /// out.
    pub(crate) fn without<J: ServiceId>(&self, works: &[Hashed<J>]) -> Option<OpenLines>
        ensures { IfSome result (λ left. AreClosed (entries_of works.now) self.now left) }
    {
        let Ok(lines) = self.lines.clone() else {
            return None;
        };
        let mut left = OpenLines { lines };
        for work in works {
            let place = left.place_of(work.line().number())?;
            left.close(place);
        }
        Some(left)
    }

    /// Notes the record that the scribe copies for the line at this place, and counts the changes
    /// of it that the scribe saw.
    pub(crate) fn look(&mut self, place: usize, name: Name, stored: Option<Record>) -> u32
        requires { place < length self.old }
        ensures { Notes self.old place name stored self.new result }
    {
        let line = self.lines[place];
        let changes = count(&line.sight, &name, &stored);
        self.lines[place] = Open {
            number: line.number,
            sight: Some(Sight {
                name,
                stored,
                changes,
            }),
        };
        changes
    }

    /// Whether this record was last copied for the line at this place.
    pub(crate) fn has_seen(&self, place: usize, name: &Name, stored: &Option<Record>) -> bool
        requires { place < length self.now }
        ensures { HasSeen self.now place name.now stored.now result }
    {
        is_sight(&self.lines[place].sight, name, stored)
    }
}

/// Whether this record of this name was seen.
fn is_sight(sight: &Option<Sight>, name: &Name, stored: &Option<Record>) -> bool
    ensures { result ≡ is_sight sight.now name.now stored.now }
{
    match sight {
        Some(seen) => seen.name == *name && seen.stored == *stored,
        None => false,
    }
}

/// Returns the number of changes that the scribe saw of the name's record, which is `now`.
fn count(sight: &Option<Sight>, name: &Name, now: &Option<Record>) -> u32
    ensures few { result ≤ counted sight.now name.now now.now }
    ensures all { result < tries → counted sight.now name.now now.now ≤ result }
{
    match sight {
        None => 0,
        Some(seen) if seen.name != *name => 0,
        Some(seen) if seen.stored == *now => seen.changes,
        Some(seen) => seen.changes.saturating_add(1),
    }
}
