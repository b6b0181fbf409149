//! A copy of a database at one moment, even while another process serves it.
//!
//! A server adds a change at the end of the log, and writes the file itself only when it copies the
//! log into the file. Then the log begins again, with another salt in its header. So the file, and
//! then the log from its start to its end, are the database at one moment, unless the log began
//! again meanwhile.

use crate::draft::DraftFile;
use crate::files::OWNER_ALONE;
use crate::log::{LOG_HEADER, fills};
use crate::sidecar::{LOG, if_there, sidecar};
use credkeep_words::{FileFault, ProgressLine};
use std::fs::{File, OpenOptions};
use std::io::{Read, Write};
use std::os::unix::fs::{MetadataExt, OpenOptionsExt};
use std::thread::sleep;
use std::time::Duration;
use std::{fs, io};

/// The number of tries at a copy, and the milliseconds between two tries.
const TRIES: u32 = 100;

const PAUSE: u64 = 20;

/// The number of bytes that are copied at once.
const CHUNK: usize = 65536;

const MIB: u64 = 1024 * 1024;

/// A file of more MiB than this takes long to read after it is copied.
const MANY: u64 = 16;

/// The parts that stay the same while a server only adds to the log. The log's header has its salt.
#[derive(Clone, Copy, PartialEq, Eq)]
struct Stamp {
    device: u64,
    file: u64,
    head: [u8; LOG_HEADER],
}

/// Copies a database into a draft, with its log beside it.
///
/// Errors: `Busy` if the log begins again during each try.
pub(crate) fn take_snapshot(
    rt: &HostRuntime,
    path: &str,
    draft: &DraftFile<'_>,
    progress: &mut ProgressLine<'_>,
) -> Result<(), FileFault> {
    for _ in 0..TRIES {
        let before = stamp_of(rt, path)?;
        copy_both(rt, path, draft, progress)?;
        if stamp_of(rt, path)? == before {
            return Ok(());
        }
        sleep(rt, Duration::from_millis(PAUSE));
    }
    Err(FileFault::Busy)
}

fn stamp_of(rt: &HostRuntime, path: &str) -> io::Result<Stamp> {
    let found = fs::metadata(rt, path)?;
    let log = sidecar(rt, path, LOG)?;
    let mut head = [0; LOG_HEADER];
    if let Some(mut log) = if_there(File::open(rt, log.as_str()))? {
        if !fills(&mut log, &mut head)? {
            head = [0; LOG_HEADER];
        }
    }
    Ok(Stamp {
        device: found.dev(),
        file: found.ino(),
        head,
    })
}

/// Copies the file, and then the log.
fn copy_both(
    rt: &HostRuntime,
    path: &str,
    draft: &DraftFile<'_>,
    progress: &mut ProgressLine<'_>,
) -> io::Result<()> {
    draft.file().set_len(0)?;
    let mut to = OpenOptions::new().write(true).open(rt, draft.path())?;
    let size = copy_all(&mut File::open(rt, path)?, &mut to, progress)?;
    let log = sidecar(rt, path, LOG)?;
    let copied = sidecar(rt, draft.path(), LOG)?;
    let mut options = OpenOptions::new();
    options.write(true).create(true).truncate(true);
    options.mode(OWNER_ALONE);
    let mut to = options.open(rt, copied.as_str())?;
    if let Some(mut from) = if_there(File::open(rt, log.as_str()))? {
        copy_all(&mut from, &mut to, progress)?;
    }
    if size > MANY {
        progress.write(size, "MiB copied, which are read now");
    }
    progress.end();
    to.flush()
}

/// Copies the rest of a file, and returns its number of MiB.
fn copy_all(from: &mut File, to: &mut File, progress: &mut ProgressLine<'_>) -> io::Result<u64> {
    let mut chunk = [0; CHUNK];
    let mut copied: u64 = 0;
    for _ in 0..u64::MAX {
        let count = from.read(&mut chunk)?;
        if count == 0 {
            break;
        }
        to.write_all(&chunk[..count])?;
        copied = copied.saturating_add(count as u64);
        progress.tell(copied / MIB, "MiB copied");
    }
    Ok(copied / MIB)
}
