//! A change to a book.

use cred_book::Name;
use cred_phc::Record;

/// The state of a name.
#[derive(Clone, Copy, Debug, PartialEq, Eq)]
pub enum AccountState {
    /// A record.
    Record(Record),
    /// The name alone, without a record.
    NoRecord,
    /// No record and no name.
    NoAccount,
}

/// The state of an existing name.
impl From<Option<Record>> for AccountState {
    ghost use Rattle.std.specs.Prelude.{◌≡◌};
    ghost use Rattle.cred_desk.specs.Histories.{state_of};

    ghost from_gives = { λ stored state. state ≡ state_of stored };

    fn from(stored: Option<Record>) -> Self {
        match stored {
            Some(stored) => AccountState::Record(stored),
            None => AccountState::NoRecord,
        }
    }
}

/// A change: the state of a name from then on.
#[derive(Clone, Copy, Debug, PartialEq, Eq)]
pub struct Entry {
    pub name: Name,
    pub now: AccountState,
}
