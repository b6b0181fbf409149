//! Tests of the hashes, of the threads that work them and of the strings. They show what no clause
//! of `cred_pool`, `cred_blake`, `cred_argon`, `cred_scrypt`, `cred_base64` and `cred_phc` says.
//!
//! The modules below `tests` are `pool`, `blake`, `argon`, `scrypt` and `strings`. `vectors/` shows
//! where their large tables come from.
#![tactic(auto)]

#[cfg(test)]
mod tests;
