//! The library of accounts: a book of names, each with at most one record. (The library of the
//! program `credbook` is `cred_cli`.)
//!
//! [`Book::begin`] copies an account's record into a [`Ticket`], [`Ticket::work`] hashes with no
//! lock held, and [`Book::commit`] does the whole operation if the record still equals the copy.
//! [`Register`] is a book that grows. [`Keeper`] is the trait of everything that keeps a book.
#![tactic(auto)]

mod account_book;
mod account_map;
mod book;
mod error;
mod laws;
mod name;
mod outcome;
mod register;
mod request;
mod ticket;

pub use account_book::{AccountBook, Keeper};
pub use account_map::AccountMap;
pub use book::{AccountArray, Book};
pub use error::BookError;
pub use laws::{
    a_password_counts_by_its_tags, an_answer_tells_of_one_account, change_is_committed,
    passwords_are_seen_by_their_tags, requests_are_operations, updates_are_one_history,
    yes_is_the_password,
};
pub use name::Name;
pub use outcome::Hashing;
pub use register::{AccountTree, Register, Slot};
pub use request::{Change, Reply, Request};
pub use ticket::{Ticket, VerifyWorked, Worked, same_is_equality};
