// The bare calls on single files. What they do is trusted.
use crate::paths::path_beside;
use libc::types::rlimit;
use std::alloc::Global;
use std::fs::{self, File, FileTimes, Metadata, OpenFile};
use std::io::{self, ErrorKind, Read, Write};
use std::os::unix::fs::{MetadataExt, OpenOptionsExt};
use std::path::Path;
use std::rt::Files;
use std::time::Duration;

/// The mode of a new file, before the process's umask: all permissions, since a compiler's output may be a program.
const MODE: u32 = 0o777;

/// The largest size of a file in bytes: 4 GiB.
pub(crate) const MOST_BYTES: u64 = 1 << 32;

/// Linux's RLIMIT_FSIZE, for which the kit has no name.
const LIMIT_OF_FILES: i32 = 1;

/// How far a time is set back, in seconds.
const BACK: u64 = 1;

/// The size of each further read, in bytes, if a file is longer than it was.
const PART: usize = 65536;

/// What a new file is filled with.
#[derive(Clone, Copy)]
pub(crate) struct Filling<'a> {
    pub(crate) bytes: &'a [u8],
    pub(crate) times: Times,
    /// The largest size of a file that this process may write, in bytes. A larger file isn't begun, since the write would
    /// end the process by a signal.
    pub(crate) most: u64,
}

/// The time of a new file's last write.
#[derive(Clone, Copy, PartialEq, Eq)]
pub(crate) enum Times {
    /// The time at which it is written.
    Now,
    /// One second before that, so that a write by anybody else changes it. Without effect if the system refuses that.
    Back,
}

impl<'a> Filling<'a> {
    /// Returns these bytes for a file that is written now.
    pub(crate) fn now(bytes: &'a [u8]) -> Filling<'a> {
        Filling {
            bytes,
            times: Times::Now,
            most: most_of_limit(),
        }
    }
}

/// Returns the bytes of a regular file, or `None` if there is no such file. Links are followed.
pub fn read_regular<R: Files + AllocGlobal>(rt: &R, path: &str) -> io::Result<Option<Vec<u8>>> {
    match fs::metadata(rt, path) {
        Ok(found) if !found.is_file() => Ok(None),
        Ok(found) if found.len() > MOST_BYTES => Err(io::Error::from(ErrorKind::FileTooLarge)),
        Ok(found) => { Ok(Some(read_whole(rt, fs::open(rt, path)?, found.len(), MOST_BYTES)?)) }
        Err(error) if is_absent(&error) => Ok(None),
        Err(error) => Err(error),
    }
}

/// Returns the bytes of the file that a look at the path found, or `None` if it isn't a regular file. Anything else is
/// never opened, since opening a fifo would wait for its other end. A file of more than `most` bytes isn't opened
/// either, and is an error. The opened file must be the file that was looked at, and not longer than it was then.
pub(crate) fn read_same<R: Files + AllocGlobal>(
    rt: &R,
    path: &str,
    look: io::Result<Metadata>,
    most: u64,
) -> io::Result<Option<Vec<u8>>> {
    match look {
        Ok(found) if !found.is_file() => Ok(None),
        Ok(found) if found.len() > most => Err(io::Error::from(ErrorKind::FileTooLarge)),
        Ok(found) => {
            let file = fs::open(rt, path)?;
            let opened = file.metadata()?;
            if opened.dev() != found.dev() || opened.ino() != found.ino() || !opened.is_file() {
                return Err(io::Error::other("another file was put there while it was read"));
            }
            let looked = opened.len();
            if looked > most {
                return Err(io::Error::from(ErrorKind::FileTooLarge));
            }
            let most = if looked == 0 { most } else { looked };
            Ok(Some(read_whole(rt, file, looked, most)?))
        }
        Err(error) if is_absent(&error) => Ok(None),
        Err(error) => Err(error),
    }
}

// Reads all bytes of a file. The buffer has room for one byte more than the look found. So a first read that returns
// exactly the number found has reached the end. After any other first read the file is read to its end: it has changed,
// gives its bytes in parts, or reports no real length. More than `most` bytes are an error.
fn read_whole<R: Files + AllocGlobal>(
    rt: &R,
    mut file: R::File,
    looked: u64,
    most: u64,
) -> io::Result<Vec<u8>> {
    let mut bytes = Vec::new(rt.alloc());
    bytes.resize(usize::try_from(looked).unwrap_or(0).saturating_add(1), 0)?;
    let count = match file.read(bytes.as_mut_slice()) {
        // A signal came first, and nothing was read.
        Err(error) if error.kind() == ErrorKind::Interrupted => 0,
        taken => taken?,
    };
    bytes.truncate(count);
    if count == 0 || u64::try_from(count) != Ok(looked) {
        read_on(&mut file, &mut bytes, most)?;
    }
    Ok(bytes)
}

// Reads the rest of a file, unless it gets too long.
fn read_on<F: Read>(file: &mut F, bytes: &mut Vec<u8>, most: u64) -> io::Result<()> {
    let mut part = [0u8; PART];
    for _ in 0..u64::MAX {
        let count = match file.read(&mut part) {
            Err(error) if error.kind() == ErrorKind::Interrupted => continue,
            taken => taken?,
        };
        if count == 0 {
            break;
        }
        bytes.extend_from_slice(&part[..count])?;
        if u64::try_from(bytes.len()).unwrap_or(u64::MAX) > most {
            return Err(io::Error::other("it grew while it was read"));
        }
    }
    Ok(())
}

/// Writes a whole file, including any missing parent folders. It is written under the given name in the same folder and
/// then renamed. So nobody who has the old file open sees the new bytes, and a link at the path is replaced. Two
/// writers into one folder at once need two names.
pub fn write_beside<R: Files>(
    rt: &R,
    alloc: Global,
    name: &str,
    path: &str,
    bytes: &[u8],
) -> io::Result<()> {
    fill_beside(rt, alloc, name, path, &Filling::now(bytes))
}

/// Same as `write_beside`.
pub(crate) fn fill_beside<R: Files>(
    rt: &R,
    alloc: Global,
    name: &str,
    path: &str,
    filling: &Filling<'_>,
) -> io::Result<()> {
    let beside = path_beside(alloc, name, path)?;
    let file = new_file(rt, beside.as_str())?;
    let written = fill(file, filling).and_then(|()| fs::rename(rt, beside.as_str(), path));
    undo_if_failed(rt, beside.as_str(), written)
}

/// Writes a file if nothing exists at its path. Otherwise writes nothing and returns `None`.
pub(crate) fn fill_new<R: Files>(
    rt: &R,
    path: &str,
    filling: &Filling<'_>,
) -> io::Result<Option<()>> {
    match create_new(rt, path) {
        Err(error) if error.kind() == ErrorKind::AlreadyExists => Ok(None),
        Err(error) => Err(error),
        Ok(file) => undo_if_failed(rt, path, fill(file, filling)).map(Some),
    }
}

// Removes a file that could not be finished. A failure to remove it is ignored, since the first failure tells more.
fn undo_if_failed<R: Files>(rt: &R, path: &str, written: io::Result<()>) -> io::Result<()> {
    if written.is_err() {
        let _ = fs::remove_file(rt, path);
    }
    written
}

// Creates a file that didn't exist before, so that no link is followed. A file that an earlier run left is removed, and
// missing folders are made.
fn new_file<R: Files>(rt: &R, path: &str) -> io::Result<R::File> {
    match create_new(rt, path) {
        Err(error) if error.kind() == ErrorKind::AlreadyExists => fs::remove_file(rt, path)?,
        Err(error) if error.kind() == ErrorKind::NotFound => make_folders(rt, path)?,
        made => return made,
    }
    create_new(rt, path)
}

fn create_new<R: Files>(rt: &R, path: &str) -> io::Result<R::File> {
    let mut how = File::options();
    how.write(true).create_new(true).mode(MODE);
    how.open(rt, path)
}

fn make_folders<R: Files>(rt: &R, path: &str) -> io::Result<()> {
    match Path::new(path).parent() {
        Some(folder) => fs::create_dir_all(rt, folder),
        None => Ok(()),
    }
}

// Writes all bytes of a new file.
fn fill<W: Write + OpenFile + Drop>(mut file: W, filling: &Filling<'_>) -> io::Result<()> {
    if u64::try_from(filling.bytes.len()).unwrap_or(u64::MAX) > filling.most {
        return Err(io::Error::from_raw_os_error(libc::EFBIG));
    }
    file.write_all(filling.bytes)?;
    if filling.times == Times::Back {
        let _ = set_back(&file);
    }
    Ok(())
}

fn set_back<W: OpenFile>(file: &W) -> io::Result<()> {
    match file
        .metadata()?
        .modified()?
        .checked_sub(Duration::from_secs(BACK))
    {
        Some(time) => file.set_times(FileTimes::new().set_modified(time)),
        None => Ok(()),
    }
}

/// Returns the largest size of a file that this process may write, in bytes.
pub(crate) fn most_of_limit() -> u64 {
    let mut limit = rlimit {
        rlim_cur: u64::MAX,
        rlim_max: u64::MAX,
    };
    if libc::getrlimit(LIMIT_OF_FILES, &mut limit) == 0 {
        limit.rlim_cur
    } else {
        u64::MAX
    }
}

/// Returns true if nothing is at the path, including if a file takes the place of a folder on the way.
pub(crate) fn is_absent(error: &io::Error) -> bool {
    matches!(error.kind(), ErrorKind::NotFound | ErrorKind::NotADirectory)
}
