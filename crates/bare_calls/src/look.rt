// What a look at a file finds. What the calls do is trusted.
use crate::folder::Folder;
use std::alloc::Global;
use std::fs::{self, Metadata};
use std::os::unix::fs::MetadataExt;
use std::rt::Files;

/// What a look at a regular file finds. Whoever changes the file's bytes, its mode or its links changes the look as well,
/// since nobody but the owner of the machine can set the time of the last change.
#[derive(Clone, Copy, PartialEq, Eq)]
pub(crate) struct Look {
    device: u64,
    inode: u64,
    length: u64,
    mode: u32,
    links: u64,
    written: Moment,
    changed: Moment,
}

// A moment in the file system's clock.
#[derive(Clone, Copy, PartialEq, Eq)]
struct Moment {
    seconds: i64,
    nanos: i64,
}

impl Look {
    /// Looks at a name in a folder. Returns `None` if no regular file is there, or if the system refuses the look.
    pub(crate) fn at<R: Files>(rt: &R, alloc: Global, folder: &Folder, name: &str) -> Option<Look> {
        let path = folder.path_of(alloc, name).ok()?;
        let found = fs::symlink_metadata(rt, path.as_str()).ok()?;
        if found.is_file() {
            Some(Look::of(&found))
        } else {
            None
        }
    }

    fn of(found: &Metadata) -> Look {
        Look {
            device: found.dev(),
            inode: found.ino(),
            length: found.len(),
            mode: found.mode(),
            links: found.nlink(),
            written: Moment {
                seconds: found.mtime(),
                nanos: found.mtime_nsec(),
            },
            changed: Moment {
                seconds: found.ctime(),
                nanos: found.ctime_nsec(),
            },
        }
    }

    /// Returns the device of the file.
    pub(crate) fn device(&self) -> u64 {
        self.device
    }

    /// Returns the length of the file in bytes.
    pub(crate) fn length(&self) -> u64 {
        self.length
    }

    /// Returns true if this is a file of `length` bytes that nobody else has a link to, and if each later write to it
    /// shows: its time of the last write lies back, so a write changes it even if the clock hasn't gone on since.
    pub(crate) fn shows_each_change_of(&self, length: usize) -> bool {
        u64::try_from(length) == Ok(self.length)
            && self.links == 1
            && self.written.seconds < self.changed.seconds
    }

    /// Returns true if this is the look that was taken before the file was moved, except for the time of the last
    /// change, which a move sets.
    pub(crate) fn is_moved_from(&self, before: &Look) -> bool {
        let as_before = Look {
            changed: before.changed,
            ..*self
        };
        as_before == *before
    }
}
