//! scrypt (RFC 7914) and its building blocks: HMAC-SHA-256 (RFC 2104), PBKDF2 (RFC 8018),
//! Salsa20/8, BlockMix and ROMix.
//!
//! [`scrypt`] derives a key from a password and a salt. Worker threads mix its p pieces, and the
//! key is the standard's, however many threads work. [`scrypt_in`] mixes the pieces on the caller's
//! thread, and keeps its table from key to key.
#![tactic(auto)]

mod blockmix;
mod diagonals;
mod error;
mod hmac;
mod key_derivation;
mod params;
mod pbkdf;
mod pieces;
mod romix;
mod salsa;
mod scratch;
mod words;
mod xor;

pub use blockmix::block_mix;
pub use error::ScryptError;
pub use hmac::hmac_sha256;
pub use key_derivation::{scrypt, scrypt_in};
pub use params::{
    MAX_BLOCK_SIZE, MAX_BLOCKS, MAX_LEN, MAX_LN, MAX_ROWS, MIN_LEN, ScryptParams,
    ranges_are_these_numbers,
};
pub use pbkdf::pbkdf2;
pub use romix::ro_mix;
pub use salsa::salsa20_8;
pub use scratch::ScryptScratch;
