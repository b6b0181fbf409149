//! A crash at any call of a store that keeps a book.
#![tactic(auto)]

mod crash;
mod fail_stop;
mod laws;
#[cfg(test)]
mod tests;

pub use crash::{Ended, Restart, crash_amid, run};
pub use fail_stop::FailStop;
pub use laws::{
    a_crash_leaves_what_was_answered, a_stop_leaves_what_is_within,
    the_next_open_finds_what_is_kept, the_next_open_finds_what_was_answered,
};
