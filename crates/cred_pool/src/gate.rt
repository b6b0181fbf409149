//! The gate around the work of each part.

/// Sees each part begin and end: the thread that works a part calls the gate before and after the
/// work. A gate can watch the parts, or hold one back until another has arrived.
pub trait Gate {
    /// Hears that the work of the part with this index is about to begin.
    fn enter(&self, part: usize);

    /// Hears that the work of the part with this index has ended.
    fn leave(&self, part: usize);
}

/// A gate that lets every part through at once.
#[derive(Clone, Copy, Debug, Default, PartialEq, Eq)]
pub struct NoGate;

impl Gate for NoGate {
    fn enter(&self, _part: usize) {}

    fn leave(&self, _part: usize) {}
}
