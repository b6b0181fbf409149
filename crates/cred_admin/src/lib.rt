//! The operations of an administrator over a book of accounts. Add, check, change, upgrade, remove
//! and reset read a password from a reader. Other commands show and list accounts, or disable,
//! delete and rename an account. This crate also computes the result of an import's lines.
//!
//! Each operation reads, then changes the book through its keeper, and then writes its answer. So
//! no operation writes an answer before the change; only `disable_shown` writes the line that it
//! removes first.
#![tactic(auto)]

mod account_operation;
mod account_reply;
mod detail;
mod entry;
mod fault;
mod host;
mod import;
mod laws;
mod listing;
mod password;
mod password_operation;
mod printing;
mod setting;
mod showing;
mod status;
mod verdict;

pub use account_operation::{AccountOperation, disable_shown};
pub use account_reply::{AccountReply, account_reply_line};
pub use detail::Detail;
pub use entry::LineFault;
pub use fault::Fault;
pub use host::Host;
pub use import::{BadLine, Existing, Gathered, ImportFault, LockedRecords, Rules, gather};
pub use laws::imports_are_of_their_lines;
pub use listing::{LineForm, a_piece_has_64_kib, line_of, list};
pub use password::{EmptyPassword, NewPassword, Passwords};
pub use password_operation::{PasswordOperation, put_in_place};
pub use printing::tell;
pub use setting::{NewSetting, setting_of};
pub use showing::{show, show_json};
pub use status::{Hint, Status};
pub use verdict::{Verdict, commit_try, verdict_line};
