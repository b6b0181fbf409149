//! The place of a block in the memory, in the terms by which the code counts.

/// The place of a block that is worked (RFC 9106, section 3.4). A slice, 0 to 3, and an offset in
/// that slice stand for its column.
#[derive(Clone, Copy)]
pub(crate) struct Position {
    pub(crate) pass: u32,
    pub(crate) lane: u32,
    pub(crate) slice: u32,
    pub(crate) offset: u32,
}

/// The lane and the column of the block that a place refers to.
#[derive(Clone, Copy)]
pub(crate) struct Reference {
    pub(crate) lane: u32,
    pub(crate) column: u32,
}
