// The files of a room that are aside, in a folder of their own. What the calls do is trusted.
use crate::emptying::remove_entry;
use crate::folder::{Folder, split};
use crate::look::Look;
use crate::room::ROOMS;
use std::alloc::Global;
use std::collections::BTreeMap;
use std::rt::Files;
use std::{fs, io};

/// The largest size of all files that are aside, in bytes: 1 GiB.
const MOST_BYTES: u64 = 1 << 30;

/// A file as it was when it was last moved or written, and the digest of its content.
#[derive(Drop)]
pub(crate) struct Noted {
    pub(crate) digest: String,
    pub(crate) look: Look,
}

/// The place of a file in a room.
#[derive(Clone, Copy)]
pub(crate) struct Spot<'a> {
    /// The folder of the file, which is held open.
    pub(crate) folder: &'a Folder,
    /// The path of the file in the room. Its last name is the file's name in the folder.
    pub(crate) path: &'a str,
}

/// The files that are aside. Each one has a number for its name, and the one that was used last has the greatest.
#[derive(Drop)]
pub(crate) struct Aside {
    alloc: Global,
    // The name of the folder, in the folder of all rooms.
    name: String,
    // The folder, once a file was moved there.
    folder: Option<Folder>,
    files: BTreeMap<u64, Noted>,
    bytes: u64,
    next: u64,
}

impl<'a> Spot<'a> {
    /// Returns the name of the file in its folder.
    pub(crate) fn name(&self) -> &'a str {
        split(self.path).1
    }
}

impl Aside {
    /// Returns the files aside in the folder with this name, of which there are none yet.
    pub(crate) fn new(alloc: Global, name: String) -> Aside {
        Aside {
            alloc,
            name,
            folder: None,
            files: BTreeMap::new(alloc),
            bytes: 0,
            next: 0,
        }
    }

    /// Returns true if no file is aside.
    pub(crate) fn is_empty(&self) -> bool {
        self.files.is_empty()
    }

    /// Returns true if a file of this length fits in besides the others.
    pub(crate) fn has_space_for(&self, length: u64) -> bool {
        self.bytes.saturating_add(length) <= MOST_BYTES
    }

    /// Moves a file of the room aside, if it is as it was when it was noted. Returns its number.
    pub(crate) fn put<R: Files + AllocGlobal>(
        &mut self,
        rt: &R,
        spot: &Spot<'_>,
        noted: Noted,
    ) -> Option<u64> {
        let alloc = self.alloc;
        if Look::at(rt, alloc, spot.folder, spot.name()) != Some(noted.look) {
            return None;
        }
        let number = self.next;
        self.next = number.saturating_add(1);
        let name = format!(in alloc; "{number}").ok()?;
        let folder = self.reach(rt).ok()?;
        let from = spot.folder.path_of(alloc, spot.name()).ok()?;
        let to = folder.path_of(alloc, name.as_str()).ok()?;
        fs::rename(rt, from.as_str(), to.as_str()).ok()?;
        match Look::at(rt, alloc, folder, name.as_str()) {
            Some(look) if look.is_moved_from(&noted.look) => {
                let noted = Noted { look, ..noted };
                self.files.insert(number, noted).ok()?;
                self.bytes = self.bytes.saturating_add(look.length());
                Some(number)
            }
            _ => {
                let _ = folder.unlink(name.as_bytes());
                None
            }
        }
    }

    /// Moves the file with this number into the room, if it is as it was when it was moved aside. Otherwise removes it.
    pub(crate) fn take<R: Files>(&mut self, rt: &R, number: u64, spot: &Spot<'_>) -> Option<Noted> {
        let alloc = self.alloc;
        let noted = self.files.remove(&number)?;
        self.bytes = self.bytes.saturating_sub(noted.look.length());
        let name = format!(in alloc; "{number}").ok()?;
        let folder = self.folder.as_ref()?;
        if Look::at(rt, alloc, folder, name.as_str()) != Some(noted.look) {
            let _ = folder.unlink(name.as_bytes());
            return None;
        }
        let from = folder.path_of(alloc, name.as_str()).ok()?;
        let to = spot.folder.path_of(alloc, spot.name()).ok()?;
        if fs::rename(rt, from.as_str(), to.as_str()).is_err() {
            let _ = folder.unlink(name.as_bytes());
            return None;
        }
        let look = Look::at(rt, alloc, spot.folder, spot.name())?;
        if look.is_moved_from(&noted.look) {
            Some(Noted { look, ..noted })
        } else {
            None
        }
    }

    /// Removes the file that was used longest ago. Returns its number and the digest of its content.
    pub(crate) fn remove_oldest(&mut self) -> Option<(u64, String)> {
        let (number, noted) = self.files.pop_first()?;
        self.bytes = self.bytes.saturating_sub(noted.look.length());
        if let (Some(folder), Ok(name)) = (&self.folder, format!(in self.alloc; "{number}")) {
            let _ = folder.unlink(name.as_bytes());
        }
        Some((number, noted.digest))
    }

    /// Removes all files, and their folder.
    pub(crate) fn remove_all<R: Files + AllocGlobal>(&mut self, rt: &R) {
        if self.folder.is_some() {
            self.folder = None;
            self.files.clear();
            self.bytes = 0;
            if let Ok(rooms) = Folder::at(self.alloc, ROOMS) {
                let _ = remove_entry(rt, self.alloc, &rooms, self.name.as_bytes());
            }
        }
    }

    // Returns the folder, which is made if it is missing.
    fn reach<R: Files + AllocGlobal>(&mut self, rt: &R) -> io::Result<&Folder> {
        if self.folder.is_none() {
            let rooms = Folder::at(self.alloc, ROOMS)?;
            if !rooms.make_new(rt, self.alloc, self.name.as_str())? {
                return Err(io::Error::other("the name of the folder is taken"));
            }
            self.folder = Some(rooms.open_own(rt, self.alloc, self.name.as_bytes())?);
        }
        match &self.folder {
            Some(folder) => Ok(folder),
            None => Err(io::Error::other("the folder isn't held open")),
        }
    }
}
