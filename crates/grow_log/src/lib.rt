//! A log that only grows: one holder adds entries, and anybody may hold copies of a beginning of
//! it, in any thread.
//!
//! [`NewLog::named`] returns the [`GrowLog`], and [`GrowLog::add`] adds an entry to it. Others hold
//! copies of [`GrowLog::beginning`]. The entries themselves exist in proofs alone: at run time a
//! [`Beginning`] is the number of its entries.
#![tactic(auto)]

mod beginning;
mod link;
mod log;
mod naming;
mod rule;
mod trace;

pub use beginning::Beginning;
pub use log::GrowLog;
pub use naming::{LogName, NewLog};
pub use trace::Trace;
