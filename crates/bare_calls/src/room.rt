// The rooms of a berth's processes. What the calls do is trusted.
use crate::aside::Spot;
use crate::emptying::{empty_folder, remove_below, remove_entry};
use crate::folder::{Folder, split};
use crate::inside::read_below;
use crate::kept::{Given, Keeping, Kept};
use crate::known::Known;
use std::alloc::{AllocError, Global};
use std::io;
use std::rt::Files;

/// The folder of all rooms. The user may make it a symbolic link. Below it no link is followed, even if a worker
/// replaced its room by one.
pub const ROOMS: &str = ".worker_rooms";

/// What the name of the folder of a room's kept files begins with. The name of the room follows.
const KEPT: &str = "kept.";

/// The size of the buffer for names, in bytes. Any single name fits into it.
const MOST_NAMES: usize = 4096;

/// The bound of a room's number. A name with a greater number was made by somebody else.
const MOST_ROOMS: u64 = 1 << 40;

/// The number of names that are tried for a new room if some are taken.
const TRIES: u64 = 1000;

/// The folder in which a berth's process works. It belongs to that process alone. The next process gets a new one,
/// under a name that no earlier room had, in this run or another. So what a process that was left running still writes
/// reaches no later room, whichever path to its own room it uses.
///
/// The rooms of berth 3 are called `3`, `3.1`, `3.2` and so on in the folder of all rooms. Next to a room, in `kept.3.1`,
/// are files that are kept for later requests of its process, and that no other process gets.
#[derive(Drop)]
pub struct Room {
    alloc: Global,
    berth: u32,
    // The current room, once one was made.
    made: Option<Made>,
    // Whether the rooms keep files.
    keeping: Keeping,
    // True if a process that was started in the room hasn't been ended yet.
    is_lived_in: bool,
    // True if nobody else has had a reason to change the room since the last clear, so its folders are still the same.
    is_fresh: bool,
}

// A room that exists.
#[derive(Drop)]
struct Made {
    number: u64,
    known: Known,
    kept: Kept,
}

impl Made {
    // Puts a content into the room.
    fn put<R: Files + AllocGlobal>(
        &mut self,
        rt: &R,
        alloc: Global,
        path: &str,
        given: &Given<'_>,
    ) -> io::Result<()> {
        let above = split(path).0;
        self.known.reach(rt, alloc, above)?;
        let folder = self.known.folder(above).unwrap_or(self.known.top());
        if !self.kept.put(rt, &Spot { folder, path }, given)? {
            self.known.note_file(alloc, path)?;
        }
        Ok(())
    }

    // Removes everything at a path in the room, except for files that are kept. The empty path means the whole room.
    fn clear<R: Files + AllocGlobal>(
        &mut self,
        rt: &R,
        alloc: Global,
        path: &str,
    ) -> io::Result<()> {
        self.kept.collect(rt, &self.known, path);
        if path.is_empty() {
            self.known.remove_all();
            empty_folder(rt, alloc, self.known.top().again()?)
        } else {
            self.known.forget_folders();
            remove_below(rt, alloc, self.known.top(), path)
        }
    }
}

impl Room {
    /// Returns the room of a berth. Its folder is made by the first clear.
    pub fn new(alloc: Global, berth: u32) -> Room {
        Room {
            alloc,
            berth,
            made: None,
            keeping: Keeping::IfShown,
            is_lived_in: false,
            is_fresh: false,
        }
    }

    /// Returns the path of the room, or of the berth's first room if none was made yet.
    ///
    /// # Errors
    ///
    /// Returns `AllocError` if memory runs out.
    pub fn path(&self) -> Result<String, AllocError> {
        let number = match &self.made {
            Some(made) => made.number,
            None => 0,
        };
        let name = name_of(self.alloc, self.berth, number)?;
        format!(in self.alloc; "{ROOMS}/{name}")
    }

    /// Keeps files for later requests also if the file system might not show each change of a file.
    pub fn keep_always(&mut self) {
        self.keeping = Keeping::Always;
        if let Some(made) = &mut self.made {
            made.kept.keep_always();
        }
    }

    /// Records that a process was started in the room.
    pub fn enter(&mut self) {
        self.is_lived_in = true;
        self.is_fresh = false;
    }

    /// Records that the process has been ended, or wasn't started, and removes what was kept for it.
    pub fn leave<R: Files + AllocGlobal>(&mut self, rt: &R) {
        self.is_lived_in = false;
        self.is_fresh = false;
        if let Some(made) = &mut self.made {
            made.kept.remove_all(rt);
        }
    }

    /// Removes everything at a path in the room. The empty path means the whole contents if a process lives in the
    /// room. Otherwise a new room is made for the empty path.
    pub fn clear<R: Files + AllocGlobal>(&mut self, rt: &R, path: &str) -> io::Result<()> {
        self.is_fresh = true;
        if path.is_empty() && !self.is_lived_in {
            return self.renew(rt);
        }
        let alloc = self.alloc;
        self.made()?.clear(rt, alloc, path)
    }

    /// Makes a folder in the room, including any missing parent folders.
    pub fn make<R: Files>(&mut self, rt: &R, path: &str) -> io::Result<()> {
        let alloc = self.alloc;
        self.made_now()?.known.reach(rt, alloc, path)
    }

    /// Puts a content into the room, including any missing parent folders.
    pub fn write<R: Files + AllocGlobal>(
        &mut self,
        rt: &R,
        path: &str,
        given: &Given<'_>,
    ) -> io::Result<()> {
        let alloc = self.alloc;
        self.made_now()?.put(rt, alloc, path, given)
    }

    /// Returns the bytes of a regular file at a path in the room, or `None` if there is no such file.
    pub fn read<R: Files + AllocGlobal>(
        &mut self,
        rt: &R,
        path: &str,
    ) -> io::Result<Option<Vec<u8>>> {
        let alloc = self.alloc;
        self.is_fresh = false;
        let known = &mut self.made()?.known;
        // The folders on the way may have been replaced, so each is opened again.
        let found = read_below(rt, alloc, known.top(), path)?;
        if found.is_some() {
            known.note_file(alloc, path)?;
        }
        Ok(found)
    }

    // Returns the room, without the folders that are held open if they may have been replaced.
    fn made_now(&mut self) -> io::Result<&mut Made> {
        let is_fresh = self.is_fresh;
        let made = self.made()?;
        if !is_fresh {
            made.known.forget_folders();
        }
        Ok(made)
    }

    fn made(&mut self) -> io::Result<&mut Made> {
        match &mut self.made {
            Some(made) => Ok(made),
            None => Err(io::Error::other("the room wasn't made")),
        }
    }

    // Makes a room that no process has had, and removes the earlier rooms as far as possible.
    fn renew<R: Files + AllocGlobal>(&mut self, rt: &R) -> io::Result<()> {
        let rooms = Folder::made_at(rt, self.alloc, ROOMS)?;
        let old = match self.made.take() {
            Some(made) => {
                self.keeping = made.kept.keeping();
                let mut old = Vec::new(self.alloc);
                old.push(made.number)?;
                old
            }
            None => rooms_of(self.alloc, &rooms, self.berth)?,
        };
        let (number, top) = make_behind(rt, self.alloc, &rooms, self.berth, old.as_slice())?;
        self.made = Some(Made {
            number,
            known: Known::new(self.alloc, top),
            kept: Kept::new(
                self.alloc,
                self.keeping,
                kept_name_of(self.alloc, self.berth, number)?,
            ),
        });
        for number in old {
            for name in [
                name_of(self.alloc, self.berth, number),
                kept_name_of(self.alloc, self.berth, number),
            ] {
                if let Ok(name) = name {
                    let _ = remove_entry(rt, self.alloc, &rooms, name.as_bytes());
                }
            }
        }
        Ok(())
    }
}

// Returns the name of a berth's room.
fn name_of(alloc: Global, berth: u32, number: u64) -> Result<String, AllocError> {
    if number == 0 {
        format!(in alloc; "{berth}")
    } else {
        format!(in alloc; "{berth}.{number}")
    }
}

// Returns the name of the folder of the files that are kept for a room.
fn kept_name_of(alloc: Global, berth: u32, number: u64) -> Result<String, AllocError> {
    let name = name_of(alloc, berth, number)?;
    format!(in alloc; "{KEPT}{name}")
}

// Returns the number of the room with this name, or of the room whose kept files are in a folder with this name, if it is
// one of the berth's rooms.
fn number_in(name: &str, berth: &str) -> Option<u64> {
    let rest = name.strip_prefix(KEPT).unwrap_or(name).strip_prefix(berth)?;
    if rest.is_empty() {
        return Some(0);
    }
    let number = rest.strip_prefix('.')?.parse::<u64>().ok()?;
    if number < MOST_ROOMS {
        Some(number)
    } else {
        None
    }
}

// Returns the numbers of the berth's rooms in the folder of all rooms.
fn rooms_of(alloc: Global, rooms: &Folder, berth: u32) -> io::Result<Vec<u64>> {
    let berth = format!(in alloc; "{berth}")?;
    let mut found = Vec::new(alloc);
    let mut names = [0u8; MOST_NAMES];
    let listed = rooms.again()?;
    for _ in 0..u64::MAX {
        let count = listed.names(&mut names)?;
        if count == 0 {
            break;
        }
        for name in names[..count].split(|byte| *byte == 0) {
            if let Ok(name) = str::from_utf8(name) {
                if let Some(number) = number_in(name, berth.as_str()) {
                    found.push(number)?;
                }
            }
        }
    }
    Ok(found)
}

// Makes the room that follows the last of the old ones. Returns its number, and its folder.
fn make_behind<R: Files>(
    rt: &R,
    alloc: Global,
    rooms: &Folder,
    berth: u32,
    old: &[u64],
) -> io::Result<(u64, Folder)> {
    let first = match old.iter().max() {
        Some(last) => last.saturating_add(1),
        None => 0,
    };
    for number in first..first.saturating_add(TRIES) {
        let name = name_of(alloc, berth, number)?;
        if rooms.make_new(rt, alloc, name.as_str())? {
            let top = rooms.open_own(rt, alloc, name.as_bytes())?;
            return Ok((number, top));
        }
    }
    Err(io::Error::other("the names for new rooms are taken"))
}
