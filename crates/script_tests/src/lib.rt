//! Tests of the script engine and of the program, which use only public items of `cred_cli`.
#![tactic(auto)]

#[cfg(test)]
mod tests;
