//! Answers many clients at once from one kept book, and hashes on all processors.
//!
//! Lines have tags, and their answers come in any order. The written bytes are the answers of one
//! history, in which one thread does each line whole.
#![tactic(auto)]

mod answer;
mod budget;
mod costs;
mod ending;
mod fault;
mod group;
mod hashing;
mod inbox;
mod laws;
mod line;
mod line_operation;
mod listing;
mod message_loop;
mod open;
mod output;
mod scribe;
mod sender;
mod service;
mod service_id;
mod source;
mod tries;

pub use costs::Costs;
pub use ending::Served;
pub use fault::ServiceFault;
pub use laws::{
    a_line_is_answered_after_nine_hashes, a_lock_holds, a_mark_concerns_its_account_alone,
    a_password_counts_by_its_tags, an_answer_tells_of_its_accounts, answers_keep_their_moments,
};
pub use line::Line;
pub use scribe::{Ending, Hashed, Job, Scribe, Starved};
pub use sender::LineCount;
pub use service::{ServiceConfig, serve_file, serve_tagged};
pub use service_id::ServiceId;
pub use source::{LineReader, Source};
