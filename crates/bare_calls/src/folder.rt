// Folders that are held open. What the calls do is trusted.
//
// A path is walked folder by folder. Each folder is opened in the one above it, and no link is followed. So nothing
// that a process puts on the way meanwhile can lead the walk elsewhere.
ghost use Rattle.std.specs.Prelude.{◌≤◌, IfOk, length};

use crate::disk::is_absent;
use std::alloc::{AllocError, Global};
use std::fs::{self, Permissions};
use std::io::{self, ErrorKind};
use std::os::unix::fs::PermissionsExt;
use std::rt::Files;

/// The mode that lets the owner of a folder list it, change it and enter it.
const OPEN_FOLDER: u32 = 0o700;

/// The folder in which the system has a link, by descriptor, to each file and folder that the process holds open.
const OPEN_FILES: &str = "/proc/self/fd";

/// The number from which on a file or a folder is one of many that the run holds open, since the system gives the lowest
/// free number. A process often may hold no more than 1,024.
const MANY: i32 = 128;

/// A folder that is held open. It is closed when it is dropped.
pub(crate) struct Folder {
    fd: i32,
    // True if the folder was made for a process, so its mode may be changed if it is in the way.
    is_own: bool,
}

impl Drop for Folder {
    fn drop(self) {
        let Folder { fd, is_own: _ } = self;
        libc::close(fd);
    }
}

impl Folder {
    fn of(fd: i32, is_own: bool) -> io::Result<Folder> {
        if fd < 0 {
            Err(io::Error::from_raw_os_error(os::errno()))
        } else {
            Ok(Folder { fd, is_own })
        }
    }

    /// Opens the folder at a path. It is the user's, so links are followed.
    pub(crate) fn at(alloc: Global, path: &str) -> io::Result<Folder> {
        let path = format!(in alloc; "{path}/")?;
        Folder::of(os::open_dir_at(libc::AT_FDCWD, path.as_bytes()), false)
    }

    /// Same as `at`, but makes the folder and its parent folders if it is missing.
    pub(crate) fn made_at<R: Files + AllocGlobal>(
        rt: &R,
        alloc: Global,
        path: &str,
    ) -> io::Result<Folder> {
        match Folder::at(alloc, path) {
            Err(error) if error.kind() == ErrorKind::NotFound => {
                fs::create_dir_all(rt, path)?;
                Folder::at(alloc, path)
            }
            opened => opened,
        }
    }

    /// Opens a folder in this one. A link doesn't count as a folder.
    pub(crate) fn open(&self, name: &[u8]) -> io::Result<Folder> {
        Folder::of(os::open_dir_at(self.fd, name), self.is_own)
    }

    /// Opens this folder once more, at its first entry.
    pub(crate) fn again(&self) -> io::Result<Folder> {
        self.open(b".")
    }

    /// Same as `open`, but also opens a folder that its owner may not list. If this one was made for a process, that
    /// folder is first made listable.
    pub(crate) fn open_by_force<R: Files>(
        &self,
        rt: &R,
        alloc: Global,
        name: &[u8],
    ) -> io::Result<Folder> {
        match self.open(name) {
            Err(error) if error.kind() == ErrorKind::PermissionDenied && self.is_own => {
                self.make_listable(rt, alloc, name)?;
                self.open(name)
            }
            opened => opened,
        }
    }

    /// Opens a folder in this one that was made for a process.
    pub(crate) fn open_own<R: Files>(
        &self,
        rt: &R,
        alloc: Global,
        name: &[u8],
    ) -> io::Result<Folder> {
        let opened = match self.open(name) {
            Err(error) if error.kind() == ErrorKind::PermissionDenied => {
                self.make_listable(rt, alloc, name)?;
                self.open(name)?
            }
            opened => opened?,
        };
        Ok(opened.as_own())
    }

    /// Returns true if the run holds many files and folders open.
    pub(crate) fn is_one_of_many(&self) -> bool {
        self.fd >= MANY
    }

    fn as_own(mut self) -> Folder {
        self.is_own = true;
        self
    }

    // Lets the owner list and change a folder in this one.
    fn make_listable<R: Files>(&self, rt: &R, alloc: Global, name: &[u8]) -> io::Result<()> {
        let Ok(name) = str::from_utf8(name) else {
            return Err(io::Error::from(ErrorKind::PermissionDenied));
        };
        let path = self.path_of(alloc, name)?;
        if fs::symlink_metadata(rt, path.as_str())?.is_dir() {
            fs::set_permissions(rt, path.as_str(), Permissions::from_mode(OPEN_FOLDER))?;
        }
        Ok(())
    }

    /// Returns a path by which the system finds this name in the folder, even if the way to the folder has changed.
    pub(crate) fn path_of(&self, alloc: Global, name: &str) -> Result<String, AllocError> {
        let fd = self.fd;
        format!(in alloc; "{OPEN_FILES}/{fd}/{name}")
    }

    /// Makes a folder in this one. Returns true if nothing had this name.
    pub(crate) fn make_new<R: Files>(&self, rt: &R, alloc: Global, name: &str) -> io::Result<bool> {
        let path = self.path_of(alloc, name)?;
        match fs::create_dir(rt, path.as_str()) {
            Err(error) if error.kind() == ErrorKind::AlreadyExists => Ok(false),
            made => made.map(|()| true),
        }
    }

    /// Opens a folder in this one, and makes it if it is missing. Anything else of this name is replaced by a folder.
    pub(crate) fn open_or_make<R: Files>(
        &self,
        rt: &R,
        alloc: Global,
        name: &str,
    ) -> io::Result<Folder> {
        self.make_new(rt, alloc, name)?;
        match self.open_by_force(rt, alloc, name.as_bytes()) {
            Err(error) if is_no_folder(&error) => {
                self.unlink(name.as_bytes())?;
                self.make_new(rt, alloc, name)?;
                self.open(name.as_bytes())
            }
            opened => opened,
        }
    }

    /// Removes the entry of this name, if it isn't a folder.
    pub(crate) fn unlink(&self, name: &[u8]) -> io::Result<()> {
        done(os::unlink_at(self.fd, name))
    }

    /// Removes an empty folder in this one.
    pub(crate) fn rmdir(&self, name: &[u8]) -> io::Result<()> {
        done(os::rmdir_at(self.fd, name))
    }

    /// Lets the owner change the contents of the folder, if it was made for a process.
    pub(crate) fn make_writable<R: Files>(&self, rt: &R, alloc: Global) -> io::Result<()> {
        if !self.is_own {
            return Err(io::Error::from(ErrorKind::PermissionDenied));
        }
        let fd = self.fd;
        let path = format!(in alloc; "{OPEN_FILES}/{fd}")?;
        fs::set_permissions(rt, path.as_str(), Permissions::from_mode(OPEN_FOLDER))
    }

    /// Writes the names of the folder's next entries to the start of these bytes, each followed by a NUL. Returns the
    /// number of bytes written, which is 0 at the end.
    pub(crate) fn names(&self, into: &mut [u8]) -> io::Result<usize>
        ensures { IfOk result (λ n. n ≤ length into.new) }
    {
        let count = os::read_dir(self.fd, into);
        if count == 0 && os::errno() != 0 {
            return Err(io::Error::from_raw_os_error(os::errno()));
        }
        Ok(count)
    }
}

/// Returns true if the system can be given the paths of open folders that this file uses.
pub fn can_name_open_folders<R: Files>(rt: &R) -> bool {
    fs::metadata(rt, OPEN_FILES).is_ok()
}

fn done(status: i32) -> io::Result<()> {
    if status < 0 {
        Err(io::Error::from_raw_os_error(os::errno()))
    } else {
        Ok(())
    }
}

/// Returns true if the error means that there is no folder. A link to a folder doesn't count as one.
pub(crate) fn is_no_folder(error: &io::Error) -> bool {
    is_absent(error) || error.kind() == ErrorKind::FilesystemLoop
}

/// Returns true if a name is that of an entry: not empty, and neither the folder itself nor its parent.
pub(crate) fn is_entry(name: &[u8]) -> bool {
    !matches!(name, b"" | b"." | b"..")
}

/// Splits a path into the folders above its last name, and that name.
pub(crate) fn split(path: &str) -> (&str, &str) {
    match path.rsplit_once('/') {
        Some((folders, name)) => (folders, name),
        None => ("", path),
    }
}

/// Opens the folder at a path below another one. Returns `None` if the path is empty, which means that other folder.
pub(crate) fn open_below<R: Files>(
    rt: &R,
    alloc: Global,
    top: &Folder,
    path: &str,
) -> io::Result<Option<Folder>> {
    let mut last: Option<Folder> = None;
    for name in path.split('/') {
        if !name.is_empty() {
            let above = last.as_ref().unwrap_or(top);
            last = Some(above.open_by_force(rt, alloc, name.as_bytes())?);
        }
    }
    Ok(last)
}

/// Same as `open_below`, but makes missing folders. Anything on the way that isn't a folder is replaced by one.
pub(crate) fn make_below<R: Files>(
    rt: &R,
    alloc: Global,
    top: &Folder,
    path: &str,
) -> io::Result<Option<Folder>> {
    let mut last: Option<Folder> = None;
    for name in path.split('/') {
        if !name.is_empty() {
            let above = last.as_ref().unwrap_or(top);
            last = Some(above.open_or_make(rt, alloc, name)?);
        }
    }
    Ok(last)
}
