//! The values that several crates of tests share: settings and records of other programs, a gate
//! that counts the parts of a hash, and a password that no text may show.
#![tactic(auto)]

pub use crowd::{Crowd, Visits};
pub use secrets::{SECRET, shows_secret};
pub use strings::{A, A_SETTING, B, B_SETTING, INDEPENDENT, OLD, OLD_WRITTEN, SCRYPT};

mod crowd;
mod secrets;
mod strings;
