//! Tests of the sessions. They show what no clause of `cred_desk` says.
#![tactic(auto)]

#[cfg(test)]
mod tests;
