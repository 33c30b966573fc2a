// The bare calls that let only one run work in a folder at a time. What they do is trusted.
use crate::disk::is_absent;
use crate::paths::path_in;
use crate::pipes::rest;
use std::alloc::Global;
use std::fs::{self, File, Permissions, TryLockError};
use std::io::{self, ErrorKind};
use std::os::unix::fs::{OpenOptionsExt, PermissionsExt};
use std::rt::Files;

/// A file that can be locked, until it is closed.
pub trait LockFile {
    /// Locks the file and returns true, or returns false if somebody else holds the lock.
    fn lock_now(&self) -> io::Result<bool>;
}

impl LockFile for File {
    fn lock_now(&self) -> io::Result<bool> {
        match self.try_lock() {
            Ok(()) => Ok(true),
            Err(TryLockError::WouldBlock) => Ok(false),
            Err(TryLockError::Error(error)) => Err(error),
        }
    }
}

/// The result of taking a lock.
#[derive(Drop)]
pub enum Locked<F: Drop> {
    /// The lock is held as long as this file is open. The system ends it with the process, however the process ends.
    Held(F),
    /// Somebody else holds the lock.
    Taken,
    /// Something other than a regular file is at the path. It isn't opened, since that might wait.
    NoFile,
    /// The system refused, with this error.
    Refused(io::Error),
}

/// The number of tries, every `PAUSE` milliseconds, while somebody else holds the lock. A lock that is about to be
/// released is waited for, even if a process between its creation and its start holds it.
const TRIES: u32 = 40;

const PAUSE: i32 = 25;

/// Only the owner may open the file, so nobody else can hold the lock.
const MODE: u32 = 0o600;

/// Locks the file of this name in a folder. The file and the folder are made if they are missing.
pub fn lock_inside<R: Files<File: LockFile>>(
    rt: &R,
    alloc: Global,
    folder: &str,
    name: &str,
) -> Locked<R::File> {
    match lock_at(rt, alloc, folder, name) {
        Ok(locked) => locked,
        Err(error) => Locked::Refused(error),
    }
}

fn lock_at<R: Files<File: LockFile>>(
    rt: &R,
    alloc: Global,
    folder: &str,
    name: &str,
) -> io::Result<Locked<R::File>> {
    let path = path_in(alloc, folder, name)?;
    if !is_file_or_absent(rt, path.as_str())? {
        return Ok(Locked::NoFile);
    }
    let file = match open(rt, path.as_str()) {
        Err(error) if error.kind() == ErrorKind::NotFound => {
            fs::create_dir_all(rt, folder)?;
            open(rt, path.as_str())?
        }
        // A process may have removed the owner's permission.
        Err(error) if error.kind() == ErrorKind::PermissionDenied => {
            fs::set_permissions(rt, path.as_str(), Permissions::from_mode(MODE))?;
            open(rt, path.as_str())?
        }
        opened => opened?,
    };
    for _ in 0..TRIES {
        if file.lock_now()? {
            return Ok(Locked::Held(file));
        }
        rest(PAUSE);
    }
    Ok(Locked::Taken)
}

fn is_file_or_absent<R: Files>(rt: &R, path: &str) -> io::Result<bool> {
    match fs::symlink_metadata(rt, path) {
        Ok(found) => Ok(found.is_file()),
        Err(error) if is_absent(&error) => Ok(true),
        Err(error) => Err(error),
    }
}

fn open<R: Files>(rt: &R, path: &str) -> io::Result<R::File> {
    let mut how = File::options();
    how.write(true).create(true).mode(MODE);
    how.open(rt, path)
}
