//! Faults that end a service before all lines are answered.

use std::alloc::AllocError;
use thiserror::Error;

/// The fault that ended a service.
#[derive(Clone, Copy, Debug, PartialEq, Eq, Error)]
pub enum ServiceFault {
    /// A call on the reader failed. The lines before are answered.
    #[error("reading failed")]
    Read,
    /// A call on the writer failed.
    #[error("writing failed")]
    Write,
    /// Memory ran out before the first line.
    #[error("out of memory")]
    Memory,
    /// No thread could be started.
    #[error("no thread could be started")]
    Threads,
    /// The keeper of the book failed. The change that was under way may or may not be kept.
    #[error("the keeper of the book failed")]
    Keeper,
    /// More lines came than can be counted.
    #[error("too many lines")]
    TooLong,
    /// A line was lost between two threads.
    #[error("a line was lost")]
    Lost,
}

impl From<AllocError> for ServiceFault {
    fn from(_error: AllocError) -> Self {
        ServiceFault::Memory
    }
}
