// The bare calls that remove the contents of a folder. What they do is trusted.
//
// Each folder is opened in the one above it, and its entries are removed in it. So no link is followed, even if it is
// put there meanwhile, and names needn't be UTF-8.
use crate::disk::is_absent;
use crate::folder::{Folder, is_entry, is_no_folder, open_below, split};
use crate::paths::path_in;
use std::alloc::Global;
use std::fs;
use std::io::{self, ErrorKind};
use std::rt::Files;

/// The size of the buffer for names, in bytes. Any single name fits into it.
const MOST_NAMES: usize = 4096;

/// The largest number of folders that are open at once. Deeper ones are removed by the library, which begins at the top for
/// each level.
const MOST_OPEN: usize = 100;

/// The largest number of times that folders are looked through again because something was made in them meanwhile.
const TRIES: u32 = 100;

/// The number of names that are tried for a folder that is put aside.
const MOST_ASIDE: u32 = 1000;

/// Removes whatever exists at a path below a folder. Nothing is removed behind a link.
pub(crate) fn remove_below<R: Files + AllocGlobal>(
    rt: &R,
    alloc: Global,
    top: &Folder,
    path: &str,
) -> io::Result<()> {
    let (folders, name) = split(path);
    match open_below(rt, alloc, top, folders) {
        Ok(Some(below)) => remove_entry(rt, alloc, &below, name.as_bytes()),
        Ok(None) => remove_entry(rt, alloc, top, name.as_bytes()),
        Err(error) if is_no_folder(&error) => Ok(()),
        Err(error) => Err(error),
    }
}

/// Removes the entry with this name in a folder, if it exists, as far as possible. It is renamed first. So a process
/// that was left running in it doesn't find what is made at the name from now on.
pub fn put_aside<R: Files + AllocGlobal>(
    rt: &R,
    alloc: Global,
    folder: &str,
    name: &str,
) -> io::Result<()> {
    let top = Folder::at(alloc, folder)?;
    let path = path_in(alloc, folder, name)?;
    for number in 0..MOST_ASIDE {
        let aside = format!(in alloc; ".gone.{name}.{number}")?;
        // An earlier one may still be there.
        let _ = remove_entry(rt, alloc, &top, aside.as_bytes());
        match fs::rename(rt, path.as_str(), path_in(alloc, folder, aside.as_str())?) {
            Ok(()) => {
                let _ = remove_entry(rt, alloc, &top, aside.as_bytes());
                return Ok(());
            }
            Err(error) if is_taken(&error) => {}
            Err(error) if is_absent(&error) => return Ok(()),
            Err(error) => return Err(error),
        }
    }
    Err(io::Error::other("it can't be put aside"))
}

fn is_taken(error: &io::Error) -> bool {
    matches!(
        error.kind(),
        ErrorKind::DirectoryNotEmpty
            | ErrorKind::AlreadyExists
            | ErrorKind::NotADirectory
            | ErrorKind::IsADirectory
    )
}

/// Removes the entry of this name, if it exists: a file, a link (not its target), or a whole folder that was made for a
/// process.
pub(crate) fn remove_entry<R: Files + AllocGlobal>(
    rt: &R,
    alloc: Global,
    folder: &Folder,
    name: &[u8],
) -> io::Result<()> {
    if !remove_plain(rt, alloc, folder, name)? {
        empty_folder(rt, alloc, folder.open_own(rt, alloc, name)?)?;
        remove_empty(rt, alloc, folder, name)?;
    }
    Ok(())
}

// Removes an entry unless it is a folder. Returns false if it is a folder.
fn remove_plain<R: Files>(rt: &R, alloc: Global, folder: &Folder, name: &[u8]) -> io::Result<bool> {
    let removed = match folder.unlink(name) {
        Err(error) if error.kind() == ErrorKind::PermissionDenied => {
            folder.make_writable(rt, alloc)?;
            folder.unlink(name)
        }
        removed => removed,
    };
    match removed {
        Ok(()) => Ok(true),
        Err(error) if is_absent(&error) => Ok(true),
        Err(error) if error.kind() == ErrorKind::IsADirectory => Ok(false),
        Err(error) => Err(error),
    }
}

fn remove_empty<R: Files>(rt: &R, alloc: Global, folder: &Folder, name: &[u8]) -> io::Result<()> {
    let removed = match folder.rmdir(name) {
        Err(error) if error.kind() == ErrorKind::PermissionDenied => {
            folder.make_writable(rt, alloc)?;
            folder.rmdir(name)
        }
        removed => removed,
    };
    match removed {
        Err(error) if is_absent(&error) => Ok(()),
        removed => removed,
    }
}

// A folder that is being emptied, and the names of the folders that remain in it.
#[derive(Drop)]
struct Emptied {
    folder: Folder,
    left: Vec<Vec<u8>>,
}

/// Removes the contents of a folder. The folder itself stays, since a process may be running in it.
pub(crate) fn empty_folder<R: Files + AllocGlobal>(
    rt: &R,
    alloc: Global,
    top: Folder,
) -> io::Result<()> {
    let mut open = Vec::new(alloc);
    open.push(look_through(rt, alloc, top)?)?;
    let mut tries = TRIES;
    for _ in 0..u64::MAX {
        let depth = open.len();
        let Some(last) = open.last_mut() else {
            break;
        };
        let next = match last.left.last() {
            Some(name) => {
                if depth < MOST_OPEN {
                    last.folder
                        .open_by_force(rt, alloc, name.as_slice())
                        .map(Some)
                } else {
                    remove_deep(rt, alloc, &last.folder, name.as_slice()).map(|()| None)
                }
            }
            None => {
                open.pop();
                remove_last(rt, alloc, &mut open, &mut tries)?;
                continue;
            }
        };
        match next {
            Ok(Some(folder)) => open.push(look_through(rt, alloc, folder)?)?,
            Ok(None) => {
                last.left.pop();
            }
            // The entry was replaced by something that isn't a folder.
            Err(error) if is_no_folder(&error) => {
                if let Some(name) = last.left.pop() {
                    remove_plain(rt, alloc, &last.folder, name.as_slice())?;
                }
            }
            Err(error) => return Err(error),
        }
    }
    Ok(())
}

// Removes the folder that has been emptied. It is the last one that remains in the folder above it.
fn remove_last<R: Files>(
    rt: &R,
    alloc: Global,
    open: &mut Vec<Emptied>,
    tries: &mut u32,
) -> io::Result<()> {
    let Some(above) = open.last_mut() else {
        return Ok(());
    };
    let Some(name) = above.left.last() else {
        return Ok(());
    };
    match remove_empty(rt, alloc, &above.folder, name.as_slice()) {
        // Something was made in it meanwhile, so it is looked through again.
        Err(error) if error.kind() == ErrorKind::DirectoryNotEmpty && *tries > 0 => {
            *tries -= 1;
        }
        removed => {
            removed?;
            above.left.pop();
        }
    }
    Ok(())
}

fn remove_deep<R: Files + AllocGlobal>(
    rt: &R,
    alloc: Global,
    folder: &Folder,
    name: &[u8],
) -> io::Result<()> {
    match str::from_utf8(name) {
        Ok(name) => fs::remove_dir_all(rt, folder.path_of(alloc, name)?.as_str()),
        Err(_) => Err(io::Error::from(ErrorKind::InvalidFilename)),
    }
}

// Removes all entries of a folder that aren't folders, and notes the folders.
fn look_through<R: Files>(rt: &R, alloc: Global, folder: Folder) -> io::Result<Emptied> {
    let mut left = Vec::new(alloc);
    let mut names = [0u8; MOST_NAMES];
    for _ in 0..u64::MAX {
        let count = folder.names(&mut names)?;
        if count == 0 {
            break;
        }
        for name in names[..count].split(|byte| *byte == 0) {
            if is_entry(name) && !remove_plain(rt, alloc, &folder, name)? {
                let mut noted = Vec::new(alloc);
                noted.extend_from_slice(name)?;
                left.push(noted)?;
            }
        }
    }
    Ok(Emptied { folder, left })
}
