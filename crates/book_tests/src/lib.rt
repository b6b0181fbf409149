//! Tests of the book of accounts. They show what no clause of `cred_book` says, and use only public
//! items.
#![tactic(auto)]

pub mod small;
#[cfg(test)]
mod tests;
