//! Tests of the limiter of failed tries. They show what no clause of `cred_tries` says, and use
//! only public items.
#![tactic(auto)]

#[cfg(test)]
mod tests;
