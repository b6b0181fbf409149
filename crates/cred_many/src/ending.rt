//! The end of the reading, and the remains of a service.

use crate::fault::ServiceFault;
use crate::sender::Gone;
use crate::source::Source;
use cred_admin::Host;
use cred_cli::Watched;
use std::io::Write;

/// The maximum number of lines. So many lines take centuries to come.
pub(crate) const MOST_LINES: u64 = 1 << 63;

/// The remains of a service.
#[derive(Drop)]
pub struct Served<K: Host, W: Write, S: Source> {
    pub keeper: K,
    pub writer: Watched<W>,
    /// The source, if a call on it failed.
    pub source: Option<S>,
    /// The number of lines.
    pub lines: u64,
    /// The seconds that passed by the clock, or 0 without a limit of failed tries.
    pub passed: u64,
    /// The reason why not all lines of the input came and were answered.
    pub fault: Option<ServiceFault>,
}

/// The reason why no more lines come.
#[derive(Drop)]
pub(crate) enum End<S> {
    /// The whole input came, and the reader handed out all its lines. Their number follows.
    Whole(u64),
    /// A call on the source failed.
    Failed(S),
    /// The maximum number of lines came.
    TooLong,
    /// Nobody took a line.
    Untaken(Gone),
    /// No thread could be started.
    Threads,
    /// Memory ran out before the first line.
    Memory,
}
