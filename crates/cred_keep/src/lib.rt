//! The commands of the program `credkeep`, which work on an open book. The crate `credkeep_words`
//! reads the program's words, and the crate `credkeep` is the program with its file. The crate
//! `cred_file` has the book in its database.
#![tactic(auto)]

mod book_command;
mod copy;
mod import;
mod outcome;
mod report;

pub use book_command::BookCommand;
pub use copy::{CopyFault, copy_book, copy_into, count_accounts};
pub use import::{BadLines, CountsForm, Effect, Imported, Importing};
pub use outcome::{CommandResult, Failure};
pub use report::{NAME_RULE, explain, refuse};
