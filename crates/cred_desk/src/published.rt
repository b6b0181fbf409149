//! The values that readers see: the book, beside the list of entries that led to it.

ghost use Rattle.std.specs.Prelude.{◌≡◌, IfOk};
ghost use Rattle.cred_desk.specs.{Commits.LeadsTo, Histories.IsAllowed, Histories.after, Histories.put};

use crate::entry::{AccountState, Entry};
use crate::list::Front;
use crate::naming::Naming;
use core::mem::replace_with;
use cred_book::Book;
use crossbeam_utils::rule::{Outcome, Protocol};
use left_right::Absorb;
use left_right::reader::Reader;
use left_right::writer::Writer;
use std::alloc::{AllocError, Global};
use std::marker::PhantomData;
use std::sync::Wait;

/// A book and the list that it is the book of.
#[derive(Drop)]
pub(crate) struct Shown<J: Naming> {
    pub(crate) book: Book,
    pub(crate) front: Front<J>,
}

impl<J: Naming> Shown<J> {
    /// Returns a copy of the book, with its list.
    pub(crate) fn of(book: &Book, front: &Front<J>) -> Result<Shown<J>, AllocError>
        ensures book { IfOk result (λ shown. shown.book ≡ book.now) }
        ensures front { IfOk result (λ shown. shown.front ≡ front.now) }
    {
        Ok(Shown {
            book: book.copy().map_err(|_| AllocError)?,
            front: front.again(),
        })
    }

    /// Returns a book with no account, beside a list.
    pub(crate) fn empty(alloc: Global, front: &Front<J>) -> Result<Shown<J>, AllocError> {
        Ok(Shown {
            book: Book::new(alloc).map_err(|_| AllocError)?,
            front: front.again(),
        })
    }
}

/// The next values that readers see: the book with one entry more, and the list then.
#[derive(Drop)]
pub(crate) struct Step<J: Naming> {
    /// The entry before, which the spare copy lacks.
    pub(crate) last: Option<Entry>,
    pub(crate) entry: Entry,
    pub(crate) front: Front<J>,
}

impl<J: Naming> Shown<J> {
    /// Becomes the next value that readers see.
    fn advance(&mut self, step: &Step<J>)
        requires { LeadsTo J.Naming self.old.book step.now.last step.now.entry step.now.front }
        ensures book { self.new.book ≡ after J.opening step.now.front }
        ensures front { self.new.front ≡ step.now.front }
    {
        if let Some(last) = &step.last {
            apply::<J>(&mut self.book, last);
        }
        apply::<J>(&mut self.book, &step.entry);
        self.front = step.front.again();
    }
}

/// Applies a change to a book that allows it, so that there is room for a new name.
fn apply<J: Naming>(book: &mut Book, change: &Entry)
    requires { IsAllowed J.loads book.old change.now }
    ensures { book.new ≡ put book.old change.entry.now }
{
    match change.now {
        AccountState::Record(stored) => book.put(&change.name, Some(stored)),
        AccountState::NoRecord => book.put(&change.name, None),
        AccountState::NoAccount => book.remove(&change.name),
    }
}

/// Absorbs nothing. The writer's log of entries would need memory, so it stays empty, and the
/// writer changes the copies in place.
impl<J: Naming> Absorb<Entry> for Shown<J> {
    type State = ();

    ghost state = { λ s. tt };

    ghost applied = { λ s change. s };

    ghost never_fails = { Unit {0} };

    fn absorb_first(&mut self, _change: &Entry, _other: &Shown<J>) -> Result<(), AllocError> {
        Ok(())
    }
}

/// The rule of what is shown: the book is the one after the list.
pub(crate) struct Published<J> {
    of: PhantomData<J>,
}

impl<J: Naming> Protocol<Shown<J>, ()> for Published<J> {
    ghost use Rattle.std.specs.Prelude.{◌≡◌};
    ghost use Rattle.cred_desk.specs.Histories.{after};

    ghost holds = { λ shown _. shown.book ≡ after J.opening shown.front };

    ghost first = { tt };
}

/// A step that sees what is shown.
pub(crate) struct Sees<J> {
    of: PhantomData<J>,
}

impl<J: Naming> Outcome<Shown<J>, ()> for Sees<J> {
    ghost use Rattle.std.specs.Prelude.{◌≡◌};
    ghost use Rattle.cred_desk.specs.Histories.{after};

    ghost then = { λ _ _ shown _. shown.book ≡ after J.opening shown.front };
}

pub(crate) type BookReader<J> = Reader<Shown<J>, (), Published<J>>;

pub(crate) type BookWriter<J> = Writer<Shown<J>, Entry, (), Published<J>>;

/// Shows readers the book with the step's entry, and its list. The call waits for those that still
/// read the copy from before, and allocates no memory.
pub(crate) fn show<J: Naming, R: Wait>(writer: &mut BookWriter<J>, rt: &R, step: Step<J>)
    requires { LeadsTo J.Naming writer.old.desk.spare.value.book step.last step.entry step.front }
    ensures front { writer.new.desk.shown.value.front ≡ step.front }
    ensures book { writer.new.desk.shown.value.book ≡ after J.opening step.front }
    ensures spare { writer.new.desk.spare.value.book ≡ writer.old.desk.shown.value.book }
{
    replace_with(
        &mut writer.desk,
        (rt, step),
        |desk, (rt, step)|
            requires { LeadsTo J.Naming desk.spare.value.book step.last step.entry step.front }
        {
            let (open, mut spare) = desk.open(rt);
            spare.advance(&step);
            (open.show_as::<Sees<J>>(spare), ())
        },
    );
}

/// Shows readers this copy, and keeps the one that they had.
pub(crate) fn show_copy<J: Naming, R: Wait>(writer: &mut BookWriter<J>, rt: &R, next: Shown<J>)
    requires { next.book ≡ after J.opening next.front }
    ensures shown { writer.new.desk.shown.value ≡ next }
    ensures spare { writer.new.desk.spare.value ≡ writer.old.desk.shown.value }
{
    replace_with(
        &mut writer.desk,
        (rt, next),
        |desk, (rt, next)|
            requires { next.book ≡ after J.opening next.front }
        {
            let (open, mut spare) = desk.open(rt);
            *spare = next;
            (open.show_as::<Sees<J>>(spare), ())
        },
    );
}
