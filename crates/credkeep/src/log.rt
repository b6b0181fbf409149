//! Reads a write-ahead log without changing it (SQLite's file format, section 4.1).

use sqlite_wal::checksum_of;
use std::alloc::Global;
use std::io;
use std::io::{ErrorKind, Read};

/// The sizes in bytes of the log's header and of a frame's header, which a page follows.
pub(crate) const LOG_HEADER: usize = 32;

const FRAME_HEADER: usize = 24;

/// The first bytes of a log's header, without the lowest bit, which gives the order of the sums.
const MAGIC: [u8; 3] = [0x37, 0x7f, 0x06];

/// The commits of a log.
#[derive(Clone, Copy, Debug, PartialEq, Eq)]
pub(crate) struct LogLook {
    /// The number of commits that can be read, from the first one on.
    pub(crate) commits: u64,
    /// The number of commits at or behind bytes that no writer left in this state, not even a
    /// stopped one.
    pub(crate) lost: u64,
}

impl LogLook {
    /// The content of an empty log.
    pub(crate) const EMPTY: LogLook = LogLook {
        commits: 0,
        lost: 0,
    };
}

/// Reads a log to its end. A log that is too short for a page has no commits.
pub(crate) fn look_at_log<R: Read>(alloc: Global, log: &mut R) -> io::Result<LogLook> {
    let mut head = [0; LOG_HEADER];
    if !fills(log, &mut head)? || head[0] != MAGIC[0] {
        return Ok(LogLook::EMPTY);
    }
    let page_size = be32(&head, 8);
    if !is_page_size(page_size) {
        let mut first = [0; FRAME_HEADER];
        let lost = u64::from(fills(log, &mut first)?);
        return Ok(LogLook { commits: 0, lost });
    }
    let mut frames = Frames::new(alloc, head, page_size)?;
    if is_signed(&head) {
        return frames.count(log);
    }
    // Even in a damaged header the salt still tells which frames belong to this log.
    let lost = frames.count_behind(log)?;
    Ok(LogLook { commits: 0, lost })
}

/// The frames of a log, one at a time.
#[derive(Drop)]
struct Frames {
    head: [u8; 32],
    /// A frame's header and its page.
    frame: Vec<u8>,
    /// The sums up to this frame.
    sums: (u32, u32),
}

/// The relation of a frame to those before it.
#[derive(Clone, Copy, PartialEq, Eq)]
enum Frame {
    /// The frame continues the frames before it.
    Next,
    /// The frame doesn't belong to this log, or not yet.
    Other,
    /// The frame belongs to this log, and its bytes were changed.
    Damaged,
}

impl Frames {
    fn new(alloc: Global, head: [u8; 32], page_size: u32) -> io::Result<Frames> {
        let mut frame = Vec::new(alloc);
        frame.resize(FRAME_HEADER + page_size as usize, 0)?;
        let sums = (be32(&head, 24), be32(&head, 28));
        Ok(Frames { head, frame, sums })
    }

    /// Counts the commits up to the first frame that doesn't continue those before it.
    fn count<R: Read>(&mut self, log: &mut R) -> io::Result<LogLook> {
        let mut commits: u64 = 0;
        for _ in 0..u64::MAX {
            if !fills(log, &mut self.frame)? {
                break;
            }
            let ended = u64::from(self.ends_commit());
            match self.read() {
                Frame::Next => commits = commits.saturating_add(ended),
                Frame::Other => break,
                Frame::Damaged => {
                    let behind = self.count_behind(log)?;
                    let lost = behind.saturating_add(ended).max(1);
                    return Ok(LogLook { commits, lost });
                }
            }
        }
        Ok(LogLook { commits, lost: 0 })
    }

    /// Counts the commits of this log in the remaining frames, whatever their sums.
    fn count_behind<R: Read>(&mut self, log: &mut R) -> io::Result<u64> {
        let mut commits: u64 = 0;
        for _ in 0..u64::MAX {
            if !fills(log, &mut self.frame)? {
                break;
            }
            if self.has_salt() && self.ends_commit() {
                commits = commits.saturating_add(1);
            }
        }
        Ok(commits)
    }

    fn read(&mut self) -> Frame {
        if !self.has_salt() {
            return Frame::Other;
        }
        if self.frame.len() < FRAME_HEADER || be32(&self.frame, 0) == 0 {
            return Frame::Damaged;
        }
        let is_big = self.head[3] == 0x83;
        let front = checksum_of(is_big, self.sums, &self.frame[..8]);
        let sums = checksum_of(is_big, front, &self.frame[FRAME_HEADER..]);
        if sums != (be32(&self.frame, 16), be32(&self.frame, 20)) {
            return Frame::Damaged;
        }
        self.sums = sums;
        Frame::Next
    }

    /// Whether the frame has the header's salt, which a new header changes.
    fn has_salt(&self) -> bool {
        self.frame.len() >= FRAME_HEADER && self.frame[8..16] == self.head[16..24]
    }

    /// Whether the frame has the new size of the database, as only the last frame of a commit has.
    fn ends_commit(&self) -> bool {
        self.frame.len() >= FRAME_HEADER && be32(&self.frame, 4) != 0
    }
}

fn is_signed(head: &[u8; 32]) -> bool {
    let is_magic = head[..3] == MAGIC[..] && (head[3] == 0x82 || head[3] == 0x83);
    let sums = checksum_of(head[3] == 0x83, (0, 0), &head[..24]);
    is_magic && sums == (be32(head, 24), be32(head, 28))
}

/// Whether the size is a power of two from 512 to 65536.
fn is_page_size(size: u32) -> bool {
    (512..=65536).contains(&size) && size.is_power_of_two()
}

/// Returns the number in four bytes, the highest first, or 0 if there aren't four.
fn be32(bytes: &[u8], at: usize) -> u32 {
    match bytes.get(at..at.saturating_add(4)) {
        Some([a, b, c, d]) => u32::from_be_bytes([*a, *b, *c, *d]),
        _ => 0,
    }
}

/// Whether the reader has enough bytes to fill the buffer.
pub(crate) fn fills<R: Read>(reader: &mut R, buf: &mut [u8]) -> io::Result<bool> {
    match reader.read_exact(buf) {
        Ok(()) => Ok(true),
        Err(error) if error.kind() == ErrorKind::UnexpectedEof => Ok(false),
        Err(error) => Err(error),
    }
}
