//! `credbook`, a credential store on the command line. The work is `cred_cli`'s.
#![tactic(auto)]

use cred_cli::run_program;
use std::process::ExitCode;

fn main(rt: HostRuntime) -> ExitCode {
    run_program(&rt, rt.stdin(), rt.stdout(), &mut rt.stderr())
}
