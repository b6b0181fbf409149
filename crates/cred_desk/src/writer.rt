//! The writer, which keeps a desk's entries outside of the desk.

ghost use Rattle.std.specs.Prelude.{◌≡◌};

use crate::entry::Entry;
use cred_book::{BookError, Worked};
use std::alloc::AllocError;
use std::convert::Infallible;
use std::error::Error;
use std::fmt;

/// Keeps entries, as a database or a log does.
pub trait EntryWriter {
    ghost use Rattle.std.specs.Prelude.{List, ◌++◌, ◌∷◌, [], IfErr, IfOk};
    ghost use Rattle.cred_desk.specs.declared.entry.Entry.{Entry};

    /// The reason why the writer doesn't keep an entry.
    type Error;

    /// Whether the entries that the writer keeps, since it was handed over, may be these, in this
    /// order.
    ghost keeps: { Self → List Entry → Type 0 };

    /// Keeps an entry, after those that the writer keeps. If that fails, the writer keeps what it
    /// kept.
    fn write(&mut self, new: &Entry) -> Result<(), Self::Error>
        ensures kept { IfOk result (λ _. (list : List Entry) → keeps self.old list
            → keeps self.new (list ++ new.entry.now ∷ [])) }
        ensures same { IfErr result (λ _. (list : List Entry) → keeps self.old list
            → keeps self.new list) };
}

/// Keeps nothing.
#[derive(Clone, Copy, Debug)]
pub(crate) struct Unkept;

impl EntryWriter for Unkept {
    type Error = Infallible;

    ghost keeps = { λ _ _. Unit {0} };

    fn write(&mut self, _new: &Entry) -> Result<(), Infallible> {
        Ok(())
    }
}

/// The reason why a desk that hands its entries to a writer refuses a change.
#[derive(Clone, Copy, Debug, Drop, PartialEq, Eq)]
pub enum KeepError<E> {
    /// The book's own refusal, or `Memory` if memory runs out.
    Book(BookError),
    /// The writer refused the entry.
    Writer(E),
}

impl<E> From<AllocError> for KeepError<E> {
    ghost use Rattle.std.specs.Prelude.{◌≡◌};
    ghost use Rattle.cred_book.specs.declared.error.BookError.TheVariants.{Memory};
    ghost use Rattle.cred_desk.specs.declared.writer.KeepError.TheVariants.{Book as OfBook};

    ghost from_gives = { λ _ e. e ≡ OfBook Memory };

    fn from(_error: AllocError) -> Self {
        KeepError::Book(BookError::Memory)
    }
}

impl<E: fmt::Display> fmt::Display for KeepError<E> {
    fn fmt<W: fmt::Write>(&self, f: &mut fmt::Formatter<W>) -> fmt::Result {
        match self {
            KeepError::Book(error) => write!(f, "{error}"),
            KeepError::Writer(error) => write!(f, "the entry isn't kept: {error}"),
        }
    }
}

impl<E: fmt::Debug + fmt::Display + Drop> Error for KeepError<E> {}

/// Work that a desk didn't settle, and the reason.
#[derive(Drop)]
pub struct Unsettled<E> {
    pub work: Worked,
    pub error: KeepError<E>,
}

impl<E> Unsettled<E> {
    /// Returns the work, to be settled again, and the reason why it wasn't settled.
    pub fn into_parts(self) -> (Worked, KeepError<E>)
        ensures { result ≡ (self.work, self.error) }
    {
        let Unsettled { work, error } = self;
        (work, error)
    }
}

impl<E: fmt::Debug> fmt::Debug for Unsettled<E> {
    fn fmt<W: fmt::Write>(&self, f: &mut fmt::Formatter<W>) -> fmt::Result {
        write!(f, "Unsettled {{ error: {:?} }}", self.error)
    }
}

impl<E: fmt::Display> fmt::Display for Unsettled<E> {
    fn fmt<W: fmt::Write>(&self, f: &mut fmt::Formatter<W>) -> fmt::Result {
        write!(f, "the work isn't settled: {}", self.error)
    }
}

impl<E: fmt::Debug + fmt::Display + Drop> Error for Unsettled<E> {}
