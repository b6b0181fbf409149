//! A place in the memory, on a pass.

/// The place of a block in a lane and column, on a pass (RFC 9106, section 3.2). All three are
/// counted from 0.
#[derive(Clone, Copy, Debug, PartialEq, Eq)]
pub struct Place {
    pub pass: u32,
    pub lane: u32,
    pub column: u32,
}
