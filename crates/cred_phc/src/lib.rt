//! Password strings in the PHC string format: settings and records of Argon2 (RFC 9106) and scrypt
//! (RFC 7914). The crate reads them from text, writes them as text, and computes the tags that
//! settings give passwords.
#![tactic(auto)]

mod error;
mod hashing;
mod laws;
mod parse;
mod password;
mod pieces;
mod record;
mod scratch;
mod setting;
mod short_bytes;
mod write;

pub use cred_argon::Version;
pub use error::PhcError;
pub use hashing::{TagError, argon2_params, tag_in, tag_of};
pub use laws::{
    equal_passwords, equal_records, equal_schemes, equal_settings, equal_tags, equal_variants,
    equal_versions, known_faults, known_texts, old_not_read, one_value_each,
    ranges_are_these_numbers, read_as_written, reading_is_the_grammar, two_old_texts,
};
pub use parse::{parse_record, parse_setting};
pub use password::{MAX_PASSWORD, Password};
pub use pieces::{Pieces, decimal};
pub use record::{Record, Tag};
pub use scratch::Scratch;
pub use setting::{Scheme, Setting, Variant, draw_salt};
pub use short_bytes::ShortBytes;
pub use write::{write_record, write_setting};
