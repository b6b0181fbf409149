//! A book of accounts that sessions in threads of their own read while one committer changes it. A
//! desk settles their work behind a lock, and keeps a journal of the changes.
//!
//! [`Desk::new`] returns [`Session`]s, one for each thread. [`Desk::settle`] commits a session's
//! work, and [`Desk::close`] returns the [`Closed`] book. [`Committer`] keeps a book for one thread
//! that also admits names and loads records.
#![tactic(auto)]

mod change;
mod clerk;
mod closed;
mod committer;
mod desk;
mod entry;
mod error;
mod handed;
mod kept_desk;
mod list;
mod making;
mod naming;
mod published;
mod publisher;
mod recorder;
mod session;
mod tally;
mod told;
mod writer;

pub use closed::{Closed, Finished, Kept, Remains, Unclosed};
pub use committer::Committer;
pub use desk::Desk;
pub use entry::{AccountState, Entry};
pub use error::DeskError;
pub use handed::Handed;
pub use kept_desk::KeptDesk;
pub use naming::{Naming, Opened};
pub use session::Session;
pub use told::{Heard, Told};
pub use writer::{EntryWriter, KeepError, Unsettled};
