//! The library of the program `credbook`: the script engine and the program's words. Each line of a
//! script asks for an operation on a book, and gets an answer line.
//!
//! [`run_script`] runs a script on any keeper of a book. [`command`] is the program: it runs a
//! script on an empty book, or makes or checks one record. The crate `cred_book` has the book
//! itself.
#![tactic(auto)]

mod answer;
mod arguments;
mod costs;
mod event;
mod exit_status;
mod fault;
pub mod fields;
mod laws;
mod past;
mod printing;
mod process;
mod program;
mod progress;
mod refusal;
mod script;
mod single;
mod tickets;
mod tools;
mod watched;

pub use answer::{AnswerLine, reply_line, write_whole};
pub use costs::{CostBounds, exceeds, memory_alone, memory_of, request_exceeds, work_of};
pub use event::{first_pieces, is_too_long};
pub use fault::ScriptFault;
pub use laws::{
    history_is_a_front, line_is_its_events, names_are_the_books, prompt_calls_are_answered,
};
pub use past::Past;
pub use process::run_program;
pub use program::command;
pub use progress::LineStart;
pub use refusal::Refusal;
pub use script::{End, run_script};
pub use tools::Tools;
pub use watched::Watched;
