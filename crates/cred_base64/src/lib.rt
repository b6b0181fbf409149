//! Base64 with no padding (RFC 4648, section 4) for secrets, such as the tags of password records.
//! The code reads no table. No branch and no address depends on a byte or a letter, but only on
//! lengths and on whether a whole text is base64.
#![tactic(auto)]

mod codec;
mod sextets;

pub use codec::{NotBase64, decode, decoded_len, encode, encoded_len};
