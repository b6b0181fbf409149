//! Files that the program writes beside a place, and then renames into the place.

use crate::files::{OWNER_ALONE, own_user};
use crate::sidecar::{
    JOURNAL, LOG, has_changes_in_log, hold, if_there, is_at, remove_sidecar, sidecar, sync_folder,
};
use credkeep_words::FileFault;
use std::fs::{File, OpenOptions, Permissions};
use std::io::ErrorKind;
use std::os::unix::fs::{MetadataExt, OpenOptionsExt, PermissionsExt, fchown};
use std::thread::sleep;
use std::time::Duration;
use std::{fs, io};

/// The program holds a file for so many milliseconds after another file replaced it. A process that
/// had opened the old file by its name finds the file in use, and looks at the name again.
const LINGER: u64 = 100;

/// A file that the program writes beside its place. Dropping this value removes the file unless it
/// was put at the place. Nobody else may read or write the file.
pub(crate) struct DraftFile<'a> {
    rt: &'a HostRuntime,
    path: String,
    file: File,
}

/// The treatment of a log at the place.
#[derive(Clone, Copy, PartialEq, Eq)]
pub(crate) enum OldLog {
    /// The log stays, since it has no changes or the draft isn't put there.
    Kept,
    /// The log is removed.
    Removed,
}

impl Drop for DraftFile<'_> {
    /// A failed removal loses nothing: the next run uses the file.
    fn drop(self) {
        let DraftFile { rt, path, file } = self;
        if let Ok(true) = is_at(rt, &file, path.as_str()) {
            let _ = remove_logs(rt, path.as_str());
            let _ = fs::remove_file(rt, path.as_str());
        }
    }
}

impl<'a> DraftFile<'a> {
    /// Creates an empty file, whose name is that of the place with this end, or uses a file that a
    /// stopped run left there.
    ///
    /// Errors: `NoFolder`; `Busy` if another run is writing it; `Irregular` or `Owner` for a
    /// foreign file.
    pub(crate) fn make(rt: &'a HostRuntime, place: &str, end: &str) -> Result<Self, FileFault> {
        let path = sidecar(rt, place, end)?;
        let file = open_or_make(rt, path.as_str())?;
        if file.try_lock().is_err() || !is_at(rt, &file, path.as_str())? {
            return Err(FileFault::Busy);
        }
        file.set_permissions(Permissions::from_mode(OWNER_ALONE))?;
        file.set_len(0)?;
        remove_logs(rt, path.as_str())?;
        Ok(DraftFile { rt, path, file })
    }

    pub(crate) fn path(&self) -> &str {
        self.path.as_str()
    }

    /// Returns the file, for direct reads and writes.
    pub(crate) fn file(&self) -> &File {
        &self.file
    }

    /// Sets the owner and the mode of the draft to those of the file that it will replace, if one
    /// exists.
    ///
    /// Errors: `Owner` if this user can't give the draft away.
    pub(crate) fn dress_as(&self, place: &str) -> Result<(), FileFault> {
        let Some(old) = if_there(fs::symlink_metadata(self.rt, place))? else {
            return Ok(());
        };
        let own = self.file.metadata()?;
        if (own.uid(), own.gid()) != (old.uid(), old.gid()) {
            match fchown(&self.file, Some(old.uid()), Some(old.gid())) {
                Err(error) if error.kind() == ErrorKind::PermissionDenied => {
                    return Err(FileFault::Owner);
                }
                given => given?,
            }
        }
        let mode = Permissions::from_mode(old.mode() & 0o777);
        Ok(self.file.set_permissions(mode)?)
    }

    /// Puts the file at the place in one step. Readers find the whole old file, or this file, which
    /// then has no log.
    ///
    /// Errors: `Busy` if another process has the old file open; `OldLog` if a log beside it has
    /// changes that must be kept.
    pub(crate) fn put_at(&self, place: &str, old_log: OldLog) -> Result<(), FileFault> {
        let rt = self.rt;
        remove_logs(rt, self.path())?;
        self.file.sync_all()?;
        let held = match hold(rt, place) {
            Ok(held) => Some(held),
            Err(FileFault::System(error)) if error.kind() == ErrorKind::NotFound => None,
            Err(why) => return Err(why),
        };
        if old_log == OldLog::Kept && has_changes_in_log(rt, place)? {
            return Err(FileFault::OldLog);
        }
        remove_sidecar(rt, place, LOG)?;
        sync_folder(rt, place)?;
        fs::rename(rt, self.path(), place)?;
        sync_folder(rt, place)?;
        if held.is_some() {
            sleep(rt, Duration::from_millis(LINGER));
        }
        Ok(())
    }
}

fn remove_logs(rt: &HostRuntime, path: &str) -> io::Result<()> {
    remove_sidecar(rt, path, LOG)?;
    remove_sidecar(rt, path, JOURNAL)
}

/// Opens or creates the file of a draft, but opens no link and no other user's file.
fn open_or_make(rt: &HostRuntime, path: &str) -> Result<File, FileFault> {
    let mut options = OpenOptions::new();
    options.read(true).write(true);
    match if_there(fs::symlink_metadata(rt, path))? {
        Some(found) if !found.is_file() || found.nlink() != 1 => return Err(FileFault::Irregular),
        Some(found) if found.uid() != own_user(rt)? => return Err(FileFault::Owner),
        Some(_) => {}
        None => {
            options.create_new(true).mode(OWNER_ALONE);
        }
    }
    match if_there(options.open(rt, path))? {
        Some(file) => Ok(file),
        None => Err(FileFault::NoFolder),
    }
}
