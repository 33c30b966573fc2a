// The known contents of a room, which needn't be searched for. What the calls do is trusted.
use crate::folder::{Folder, split};
use std::alloc::{AllocError, Global};
use std::io;
use std::rt::Files;

/// The largest number of folders in a room that are held open.
const MOST_FOLDERS: usize = 24;

/// The same if the run holds many files and folders open.
const FEW_FOLDERS: usize = 5;

/// The largest number of known files in a folder. Others are searched for.
const MOST_FILES: usize = 4096;

/// Folders of a room that are held open, with the files that were put into them or found in them. The first one is the
/// room itself. Once somebody else has had a reason to change the room, an open folder may no longer be the one at its
/// path. Removing what is known then does no harm, but writing might.
#[derive(Drop)]
pub(crate) struct Known {
    top: Folder,
    top_files: Vec<String>,
    folders: Vec<KnownFolder>,
}

// A folder of a room. In the list each folder comes after the one that contains it.
#[derive(Drop)]
struct KnownFolder {
    path: String,
    folder: Folder,
    files: Vec<String>,
}

impl Known {
    /// Returns a room about which nothing is known.
    pub(crate) fn new(alloc: Global, top: Folder) -> Known {
        Known {
            top,
            top_files: Vec::new(alloc),
            folders: Vec::new(alloc),
        }
    }

    /// Returns the room itself.
    pub(crate) fn top(&self) -> &Folder {
        &self.top
    }

    /// Returns the folder at a path of the room, if it is held open.
    pub(crate) fn folder(&self, path: &str) -> Option<&Folder> {
        if path.is_empty() {
            return Some(&self.top);
        }
        self.folders
            .iter()
            .rev()
            .find(|known| known.path.as_str() == path)
            .map(|known| &known.folder)
    }

    /// Opens the folder at a path of the room and holds it open. It is made if it is missing, and so are its parent
    /// folders.
    pub(crate) fn reach<R: Files>(&mut self, rt: &R, alloc: Global, path: &str) -> io::Result<()> {
        if self.folder(path).is_some() {
            return Ok(());
        }
        let mut end: usize = 0;
        for name in path.split('/') {
            end = next_end(end, name);
            let way = path.get(..end).unwrap_or(path);
            if self.folder(way).is_none() {
                self.close_some(path);
                self.open_next(rt, alloc, way)?;
            }
        }
        Ok(())
    }

    // Closes the folders that were opened first, except for those on the way to a path, until there is room for one more.
    fn close_some(&mut self, path: &str) {
        let most = match self.folders.last() {
            Some(last) if last.folder.is_one_of_many() => FEW_FOLDERS,
            _ => MOST_FOLDERS,
        };
        for _ in 0..MOST_FOLDERS {
            if self.folders.len() < most {
                break;
            }
            let closed = self
                .folders
                .iter()
                .position(|known| !is_above(known.path.as_str(), path));
            self.folders.remove(closed.unwrap_or(0));
        }
    }

    // Opens a folder whose parent folder is held open.
    fn open_next<R: Files>(&mut self, rt: &R, alloc: Global, path: &str) -> io::Result<()> {
        let (above, name) = split(path);
        let folder = match self.folder(above) {
            Some(above) => above.open_or_make(rt, alloc, name)?,
            None => return Err(io::Error::other("the folder above isn't held open")),
        };
        self.folders.push(KnownFolder {
            path: String::from_str(alloc, path)?,
            folder,
            files: Vec::new(alloc),
        })?;
        Ok(())
    }

    /// Notes a file at a path of the room. If its folder isn't held open, the file isn't noted and is searched for
    /// later.
    pub(crate) fn note_file(&mut self, alloc: Global, path: &str) -> Result<(), AllocError> {
        let (above, name) = split(path);
        if above.is_empty() {
            return note(alloc, &mut self.top_files, name);
        }
        let mut folders = self.folders.iter_mut();
        match folders.find(|known| known.path.as_str() == above) {
            Some(known) => note(alloc, &mut known.files, name),
            None => Ok(()),
        }
    }

    /// Removes what is known, as far as possible. The room itself stays and is held open.
    pub(crate) fn remove_all(&mut self) {
        for _ in 0..MOST_FOLDERS {
            let Some(known) = self.folders.pop() else {
                break;
            };
            remove_files(&known.folder, known.files.as_slice());
            let (above, name) = split(known.path.as_str());
            if let Some(above) = self.folder(above) {
                let _ = above.rmdir(name.as_bytes());
            }
        }
        remove_files(&self.top, self.top_files.as_slice());
        self.top_files.clear();
    }

    /// Forgets the folders in the room.
    pub(crate) fn forget_folders(&mut self) {
        self.folders.clear();
    }
}

// Returns true if a path leads through this folder.
fn is_above(folder: &str, path: &str) -> bool {
    match path.strip_prefix(folder) {
        Some(rest) => rest.starts_with('/'),
        None => false,
    }
}

// Returns the end of the next name of a path. If an earlier name ends at `end`, a slash comes first.
fn next_end(end: usize, name: &str) -> usize {
    let begin = if end == 0 { 0 } else { end.saturating_add(1) };
    begin.saturating_add(name.len())
}

fn note(alloc: Global, files: &mut Vec<String>, name: &str) -> Result<(), AllocError> {
    if files.len() < MOST_FILES {
        files.push(String::from_str(alloc, name)?)?;
    }
    Ok(())
}

fn remove_files(folder: &Folder, files: &[String]) {
    for name in files {
        let _ = folder.unlink(name.as_bytes());
    }
}
