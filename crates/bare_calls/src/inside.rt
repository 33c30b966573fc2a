// The bare calls on files and folders below an open folder. No link is followed there. What they do is trusted.
use crate::disk::{Filling, MOST_BYTES, fill_beside, fill_new, read_same};
use crate::folder::{Folder, is_no_folder, make_below, open_below, split};
use std::alloc::Global;
use std::rt::Files;
use std::{fs, io};

/// The temporary name of a file that is being written, if only one writer writes below a folder.
pub const BESIDE: &str = ".worker_tool.part";

/// Returns the bytes of a regular file at a path below a folder. A link doesn't count, nor does a file behind one. A
/// file that is larger than 4 GiB is an error, and so is one that changes while it is read.
pub fn read_inside<R: Files + AllocGlobal>(
    rt: &R,
    alloc: Global,
    folder: &str,
    path: &str,
) -> io::Result<Option<Vec<u8>>> {
    read_below(rt, alloc, &Folder::at(alloc, folder)?, path)
}

/// Writes a file below a folder. Anything on the way that isn't a folder is replaced by one. If a file exists already,
/// a process that has it open keeps the old bytes, since the new file is first written under the name `beside`. Two
/// writers into one folder at once need two such names.
pub fn write_inside<R: Files + AllocGlobal>(
    rt: &R,
    alloc: Global,
    folder: &str,
    path: &str,
    beside: &str,
    bytes: &[u8],
) -> io::Result<()> {
    let top = Folder::made_at(rt, alloc, folder)?;
    let (folders, name) = split(path);
    let filling = Filling::now(bytes);
    match make_below(rt, alloc, &top, folders)? {
        Some(below) => write_in(rt, alloc, &below, name, beside, &filling),
        None => write_in(rt, alloc, &top, name, beside, &filling),
    }
}

/// Makes a folder below another one, including any missing parent folders. Anything on the way that isn't a folder is
/// replaced by one.
pub fn make_folder_inside<R: Files + AllocGlobal>(
    rt: &R,
    alloc: Global,
    folder: &str,
    path: &str,
) -> io::Result<()> {
    make_below(rt, alloc, &Folder::made_at(rt, alloc, folder)?, path).map(|_| ())
}

/// Same as `read_inside`, below a folder that is held open.
pub(crate) fn read_below<R: Files + AllocGlobal>(
    rt: &R,
    alloc: Global,
    top: &Folder,
    path: &str,
) -> io::Result<Option<Vec<u8>>> {
    let (folders, name) = split(path);
    match open_below(rt, alloc, top, folders) {
        Ok(Some(below)) => read_in(rt, alloc, &below, name),
        Ok(None) => read_in(rt, alloc, top, name),
        Err(error) if is_no_folder(&error) => Ok(None),
        Err(error) => Err(error),
    }
}

fn read_in<R: Files + AllocGlobal>(
    rt: &R,
    alloc: Global,
    folder: &Folder,
    name: &str,
) -> io::Result<Option<Vec<u8>>> {
    let path = folder.path_of(alloc, name)?;
    let look = fs::symlink_metadata(rt, path.as_str());
    read_same(rt, path.as_str(), look, MOST_BYTES)
}

/// Writes a file of this name into a folder.
pub(crate) fn write_in<R: Files>(
    rt: &R,
    alloc: Global,
    folder: &Folder,
    name: &str,
    beside: &str,
    filling: &Filling<'_>,
) -> io::Result<()> {
    let path = folder.path_of(alloc, name)?;
    match fill_new(rt, path.as_str(), filling)? {
        Some(()) => Ok(()),
        None => fill_beside(rt, alloc, beside, path.as_str(), filling),
    }
}
