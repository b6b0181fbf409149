//! A book that is kept in a database of one table, which the program sqlite3 reads.
#![tactic(auto)]

mod catalogue;
mod fault;
mod file_book;
mod laws;
mod marks;
mod reading;
mod restart;
mod row_statement;
mod statements;
mod transaction;

pub use fault::{Attempt, Lost, OpenFault};
pub use file_book::FileBook;
pub use laws::{
    a_lock_stays, a_renamed_name_is_gone, files_hold_the_book, marks_are_read_back,
    old_rows_are_unmarked,
};
pub use marks::{Mark, Marks};
pub use restart::{crash_and_open, reopen};
