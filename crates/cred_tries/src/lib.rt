//! A limiter of failed tries: it says how often the password of each account may be tried, by
//! readings of a clock that its caller passes.
//!
//! [`Limiter::begin`] asks for a [`Try`] at a name, and [`Limiter::end`] uses it up. Contracts see
//! a limiter as the counts of its names. The law [`each_name_is_limited`] says how many tries fail
//! at each name, whatever anybody asks.
#![tactic(auto)]

mod clock;
mod count;
mod counts;
mod laws;
mod limit;
mod limiter;
mod turn;
mod waiting;

pub use count::MOST_TRIES;
pub use laws::{each_name_is_limited, time_goes_forward};
pub use limit::TryLimit;
pub use limiter::Limiter;
pub use turn::{Ending, Try, Turn};
pub use waiting::{Wait, Waits};
