//! The links of a log.

/// An entry, if the link has one, and the key of the word where the next link goes. Links exist in
/// proofs alone.
pub struct Link<T> {
    pub entry: Option<T>,
    pub next: u64,
}
