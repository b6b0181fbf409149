//! `credkeep`, a credential store in a database file. `cred_keep` does its commands, and
//! `credkeep_words` reads the words. This crate opens the file, and returns the status.
#![tactic(auto)]

mod copies;
mod draft;
mod fault;
mod files;
mod log;
mod program;
mod sidecar;
mod snapshot;
mod tagged;

use std::process::ExitCode;

fn main(rt: HostRuntime) -> ExitCode {
    ExitCode::from(program::run(&rt, &rt).number())
}
