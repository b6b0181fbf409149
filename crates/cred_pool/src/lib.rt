//! Work that is divided into parts and shared out among threads, with a gate that sees each part
//! begin and end.
//!
//! [`run_parts`] works each part once, in a limited number of threads. Its contract relates each
//! part after the run to the part before it and to the value that all parts share. [`NoGate`] is
//! the gate that lets every part through. A [`Crew`] works the parts: a closure in a [`CrewFn`], or
//! a type of the caller's own.
#![tactic(auto)]

mod crew;
mod gate;
mod part;

pub use crew::{Crew, CrewFn};
pub use gate::{Gate, NoGate};
pub use part::{Part, run_parts};
