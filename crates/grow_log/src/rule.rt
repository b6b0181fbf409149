//! The rule under which threads share one log. The log itself exists in proofs alone.

use crate::link::Link;
use logbook::{Gain, Offer, Pen, Plain, Play, Rule, Seen, Word};

/// The rule of a log's words: each link of the log has brought one home.
pub struct Law;

impl<T> Rule<Link<T>, u64> for Law {
    ghost use Rattle.std.specs.Prelude.{[]};
    ghost use base.Fml.{ftrue};
    ghost use Rattle.grow_log.specs.Links.{IsKept};

    ghost holds = { λ cells links. IsKept cells links };

    ghost first = { [] };

    ghost hinted = { λ n links. Unit {0} };

    ghost shows = { λ links. [] };

    ghost keeps = { λ names links. ftrue };

    ghost moves = { λ ask before after answer. Unit {0} };
}

/// The value that a step trades: nothing.
pub(crate) struct Nothing;

impl<T> Gain<Link<T>, u64> for Nothing {
    ghost use base.Fml.{ftrue};

    ghost after = { λ names about answer. ftrue };
}

/// A word that a link brings home.
pub(crate) type Place<T> = Word<Link<T>, u64, Law>;

/// The links that were seen.
pub(crate) type Links<T> = Seen<Link<T>, u64, Law>;

/// The request of a step to the links.
pub(crate) type Update<T> = Offer<Link<T>, u64, Law, Nothing>;

/// An entry to be added, and the pen of the place after it.
#[derive(Drop)]
pub(crate) struct Adding<'a, T> {
    pub(crate) entry: &'a T,
    pub(crate) next: &'a Pen,
}

/// The link that a step asks for, if it adds one.
pub(crate) struct Asks;

impl<'a, T> Plain<Adding<'a, T>, Link<T>, u64> for Asks {
    ghost use Rattle.std.specs.Prelude.{None, Some};
    ghost use Rattle.grow_log.specs.Links.{link};

    ghost ask = { λ adding. link (Some adding.entry.now) adding.next.now.nib.key };

    ghost state = { λ _. None };
}

impl<T> Plain<Pen, Link<T>, u64> for Asks {
    ghost use Rattle.std.specs.Prelude.{None};
    ghost use Rattle.grow_log.specs.Links.{link};

    ghost ask = { λ next. link None next.nib.key };

    ghost state = { λ _. None };
}

impl<T> Plain<(), Link<T>, u64> for Asks {
    ghost use Rattle.std.specs.Prelude.{None};
    ghost use Rattle.grow_log.specs.Links.{link};

    ghost ask = { λ _. link None 0 };

    ghost state = { λ _. None };
}

/// A step that makes a place.
pub(crate) struct Reserve;

impl<T> Play<Link<T>, u64> for Reserve {
    ghost use Rattle.grow_log.specs.Links.{Reserves};

    ghost then = { Reserves };
}

/// A step that adds the first link.
pub(crate) struct Begin;

impl<T> Play<Link<T>, u64> for Begin {
    ghost use Rattle.grow_log.specs.Links.{Begins};

    ghost then = { Begins };
}

/// A step that adds a link to all that there are.
pub(crate) struct Fill;

impl<T> Play<Link<T>, u64> for Fill {
    ghost use Rattle.grow_log.specs.Links.{Fills};

    ghost then = { Fills };
}

/// A step that finds that all of the log was seen.
pub(crate) struct Look;

impl<T> Play<Link<T>, u64> for Look {
    ghost use Rattle.grow_log.specs.Links.{Looks};

    ghost then = { Looks };
}
