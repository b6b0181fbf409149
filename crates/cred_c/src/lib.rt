//! Argon2, scrypt and password strings for programs in C: exports over the crates below, each with
//! the clauses of the call that it makes.
//!
//! An export answers 0, or the number of the fault. The table of all numbers is in
//! `specs/Answers.antt`. An export does all its work on the caller's thread, and writes a buffer
//! only if it answers 0.
#![tactic(auto)]

mod lanes;
mod numbers;
mod operation;
mod part_fault;
mod parts;
mod raw;
mod reading;
mod record_lanes;
mod records;
mod step;
mod tag_numbers;
#[cfg(test)]
mod tests;
mod texts;
