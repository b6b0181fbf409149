//! BLAKE2b (RFC 7693) and H', the hash of any length that Argon2 builds from it (RFC 9106, section
//! 3.3).
//!
//! ```rust
//! use cred_blake::Blake2b;
//!
//! let mut hasher = Blake2b::new(64, &[])?;
//! hasher.update(b"a");
//! hasher.update(b"bc");
//! let digest = hasher.finalize();
//! assert_eq!(rt; digest.bytes().len(), 64);
//! ```
#![tactic(auto)]

pub use digest::Digest;
pub use error::BlakeError;
pub use hasher::Blake2b;
pub use variable_length::{hprime, hprime_block};

mod buffer;
mod compress;
mod digest;
mod error;
mod hasher;
mod state;
mod variable_length;
