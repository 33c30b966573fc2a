// The files of one room.
use outside::Read;
use plain_values::{Blob, NoMemory, Text};
use std::alloc::Global;

/// A file of a room.
#[derive(Drop)]
struct Kept {
    path: Text,
    bytes: Blob,
}

/// The files of a room: those that were put there and those that children left there.
#[derive(Drop)]
pub struct Files {
    alloc: Global,
    files: Vec<Kept>,
}

impl Files {
    pub fn new(alloc: Global) -> Files {
        Files {
            alloc,
            files: Vec::new(alloc),
        }
    }

    /// Puts a file, replacing any existing file with that path.
    pub fn put(&mut self, path: &str, bytes: Blob) -> Result<(), NoMemory> {
        let path = Text::copy_of(self.alloc, path)?;
        self.files.reserve(1)?;
        self.files
            .retain(|file| file.path.as_str() != path.as_str());
        self.files.push(Kept { path, bytes })?;
        Ok(())
    }

    /// Removes the file with that path and all files in the folder with that path. If the path is empty,
    /// removes all files.
    pub fn clear(&mut self, path: &str) {
        self.files.retain(|file| !path.is_empty() && !is_in(file.path.as_str(), path));
    }

    /// Returns the file at a path.
    pub fn get(&self, path: &str) -> Result<Read, NoMemory> {
        for file in &self.files {
            if file.path.as_str() == path {
                return Ok(Read::Found(file.bytes.again()?));
            }
        }
        Ok(Read::Absent)
    }
}

// Returns true if a file's path is this one, or is in this folder.
fn is_in(file: &str, path: &str) -> bool {
    match file.strip_prefix(path) {
        Some(rest) => rest.is_empty() || rest.starts_with("/"),
        None => false,
    }
}
