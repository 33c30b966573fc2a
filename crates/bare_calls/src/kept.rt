// The files that a room keeps for later requests of its process. What the calls do is trusted.
//
// A file of 64 KiB or more, whose content the process has been given before, is moved aside when the room is cleared, and
// moved back when the content is put again. That costs next to nothing, whatever its size. Before each move and after it
// the file is looked at. If it has changed, it is removed, and the content is written anew. So no request gets what an
// earlier one left in a file. The file is in one folder at a time, with one link.
use crate::aside::{Aside, Noted, Spot};
use crate::disk::{Filling, Times, most_of_limit};
use crate::folder::{Folder, open_below, split};
use crate::inside::{BESIDE, write_in};
use crate::known::Known;
use crate::look::Look;
use crate::mounts::shows_changes;
use std::alloc::{AllocError, Global};
use std::collections::BTreeMap;
use std::io::{self, ErrorKind};
use std::mem;
use std::rt::Files;

/// The least size of a file that is kept, in bytes. Writing a smaller one costs as little as moving it.
pub const KEPT_FROM: usize = 65_536;

/// The largest number of contents that are remembered.
const MOST_CONTENTS: usize = 65_536;

/// A content that is put into a room.
#[derive(Clone, Copy)]
pub struct Given<'a> {
    /// Its bytes.
    pub bytes: &'a [u8],
    /// Its digest, if it is known. Two contents with the same digest are taken for the same.
    pub digest: Option<&'a str>,
}

impl<'a> Given<'a> {
    /// Returns a content with its digest.
    pub fn named(bytes: &'a [u8], digest: &'a str) -> Given<'a> {
        let digest = Some(digest);
        Given { bytes, digest }
    }

    /// Returns a content whose digest the room isn't told. Its file isn't kept.
    pub fn unnamed(bytes: &'a [u8]) -> Given<'a> {
        let digest = None;
        Given { bytes, digest }
    }
}

/// Whether files are kept.
#[derive(Clone, Copy, PartialEq, Eq)]
pub(crate) enum Keeping {
    /// If the file system shows each change of a file, which hasn't been asked yet.
    IfShown,
    Always,
    Never,
}

/// The files that a room keeps.
#[derive(Drop)]
pub(crate) struct Kept {
    alloc: Global,
    keeping: Keeping,
    // The largest size of a file that may be written, in bytes.
    most: u64,
    // For each content that was put, the numbers of its files that are aside.
    contents: BTreeMap<String, Vec<u64>>,
    // The files in the room that are to be moved aside, by their paths.
    placed: BTreeMap<String, Noted>,
    aside: Aside,
}

impl Kept {
    /// Returns the files of a new room, of which there are none yet. They are to be kept aside in the folder with this
    /// name.
    pub(crate) fn new(alloc: Global, keeping: Keeping, name: String) -> Kept {
        Kept {
            alloc,
            keeping,
            most: most_of_limit(),
            contents: BTreeMap::new(alloc),
            placed: BTreeMap::new(alloc),
            aside: Aside::new(alloc, name),
        }
    }

    /// Returns whether files are kept.
    pub(crate) fn keeping(&self) -> Keeping {
        self.keeping
    }

    /// Keeps files on any file system.
    pub(crate) fn keep_always(&mut self) {
        self.keeping = Keeping::Always;
    }

    /// Puts a content into the room. Returns true if the file was noted here.
    pub(crate) fn put<R: Files + AllocGlobal>(
        &mut self,
        rt: &R,
        spot: &Spot<'_>,
        given: &Given<'_>,
    ) -> io::Result<bool> {
        match given.digest {
            Some(digest) if self.is_to_keep(digest, given.bytes.len())? => {
                self.place(rt, spot, digest, given.bytes)
            }
            _ => {
                self.write(rt, spot, given.bytes, Times::Now)?;
                Ok(false)
            }
        }
    }

    // Returns true if a file with this content is to be kept, since the content was put before. Remembers the content.
    fn is_to_keep(&mut self, digest: &str, length: usize) -> Result<bool, AllocError> {
        if self.keeping == Keeping::Never || length < KEPT_FROM {
            return Ok(false);
        }
        if self.contents.get(digest).is_some() {
            return Ok(true);
        }
        if self.contents.len() < MOST_CONTENTS {
            let digest = String::from_str(self.alloc, digest)?;
            self.contents.insert(digest, Vec::new(self.alloc))?;
        }
        Ok(false)
    }

    // Puts a content that was put before.
    fn place<R: Files + AllocGlobal>(
        &mut self,
        rt: &R,
        spot: &Spot<'_>,
        digest: &str,
        bytes: &[u8],
    ) -> io::Result<bool> {
        if self.is_there(rt, spot, digest) {
            return Ok(true);
        }
        if let Some(noted) = self.bring(rt, spot, digest) {
            return Ok(self.note(spot, noted));
        }
        self.write(rt, spot, bytes, Times::Back)?;
        match self.look_at_written(rt, spot, bytes.len()) {
            Some(look) => {
                let digest = String::from_str(self.alloc, digest)?;
                Ok(self.note(spot, Noted { digest, look }))
            }
            None => Ok(false),
        }
    }

    // Returns true if the file at the path is one of this content, and nobody has changed it.
    fn is_there<R: Files>(&self, rt: &R, spot: &Spot<'_>, digest: &str) -> bool {
        match self.placed.get(spot.path) {
            Some(noted) => {
                noted.digest.as_str() == digest
                    && Look::at(rt, self.alloc, spot.folder, spot.name()) == Some(noted.look)
            }
            None => false,
        }
    }

    // Moves a file of this content into the room, if one is aside.
    fn bring<R: Files>(&mut self, rt: &R, spot: &Spot<'_>, digest: &str) -> Option<Noted> {
        for _ in 0..u64::MAX {
            let number = self.contents.get_mut(digest)?.pop()?;
            if let Some(noted) = self.aside.take(rt, number, spot) {
                return Some(noted);
            }
        }
        None
    }

    // Writes a file. If no space is left, the files that are aside make room for it.
    fn write<R: Files + AllocGlobal>(
        &mut self,
        rt: &R,
        spot: &Spot<'_>,
        bytes: &[u8],
        times: Times,
    ) -> io::Result<()> {
        let filling = Filling {
            bytes,
            times,
            most: self.most,
        };
        match write_in(rt, self.alloc, spot.folder, spot.name(), BESIDE, &filling) {
            Err(error) if error.kind() == ErrorKind::StorageFull && !self.aside.is_empty() => {
                self.contents.clear();
                self.aside.remove_all(rt);
                write_in(rt, self.alloc, spot.folder, spot.name(), BESIDE, &filling)
            }
            written => written,
        }
    }

    // Looks at a file that was just written. Returns `None` if a change of it might not show.
    fn look_at_written<R: Files + AllocGlobal>(
        &mut self,
        rt: &R,
        spot: &Spot<'_>,
        length: usize,
    ) -> Option<Look> {
        let look = Look::at(rt, self.alloc, spot.folder, spot.name())?;
        if self.keeping == Keeping::IfShown {
            self.keeping = if shows_changes(rt, look.device()) {
                Keeping::Always
            } else {
                Keeping::Never
            };
        }
        if self.keeping == Keeping::Always && look.shows_each_change_of(length) {
            Some(look)
        } else {
            None
        }
    }

    // Notes a file in the room. Returns false if there is no memory for it.
    fn note(&mut self, spot: &Spot<'_>, noted: Noted) -> bool {
        match String::from_str(self.alloc, spot.path) {
            Ok(path) => self.placed.insert(path, noted).is_ok(),
            Err(_) => false,
        }
    }

    /// Moves the noted files aside that are at a path in the room or below it, or all of them for the empty path. Files
    /// that have changed stay.
    pub(crate) fn collect<R: Files + AllocGlobal>(&mut self, rt: &R, known: &Known, part: &str) {
        let placed = mem::replace(&mut self.placed, BTreeMap::new(self.alloc));
        // The last folder that wasn't held open. Files of a folder come one after the other.
        let mut last: Option<(String, Folder)> = None;
        for (path, noted) in placed {
            if !is_in(path.as_str(), part) {
                let _ = self.placed.insert(path, noted);
                continue;
            }
            let above = split(path.as_str()).0;
            if let Some(folder) = known.folder(above) {
                self.move_aside(rt, folder, path.as_str(), noted);
                continue;
            }
            if !matches!(&last, Some((way, _)) if way.as_str() == above) {
                last = open_at(rt, self.alloc, known, above);
            }
            if let Some((_, folder)) = &last {
                self.move_aside(rt, folder, path.as_str(), noted);
            }
        }
    }

    fn move_aside<R: Files + AllocGlobal>(
        &mut self,
        rt: &R,
        folder: &Folder,
        path: &str,
        noted: Noted,
    ) {
        let length = noted.look.length();
        for _ in 0..u64::MAX {
            if self.aside.has_space_for(length) {
                break;
            }
            match self.aside.remove_oldest() {
                Some((number, digest)) => self.forget(digest.as_str(), number),
                None => return,
            }
        }
        let Ok(digest) = String::from_str(self.alloc, noted.digest.as_str()) else {
            return;
        };
        if let Some(number) = self.aside.put(rt, &Spot { folder, path }, noted) {
            if let Some(numbers) = self.contents.get_mut(digest.as_str()) {
                // Without memory for the number the file isn't found again, and goes with the others.
                let _ = numbers.push(number);
            }
        }
    }

    fn forget(&mut self, digest: &str, number: u64) {
        if let Some(numbers) = self.contents.get_mut(digest) {
            numbers.retain(|it| *it != number);
        }
    }

    /// Removes all that is kept.
    pub(crate) fn remove_all<R: Files + AllocGlobal>(&mut self, rt: &R) {
        self.placed.clear();
        self.contents.clear();
        self.aside.remove_all(rt);
    }
}

// Opens a folder of the room that isn't held open.
fn open_at<R: Files>(rt: &R, alloc: Global, known: &Known, path: &str) -> Option<(String, Folder)> {
    let folder = open_below(rt, alloc, known.top(), path).ok()??;
    Some((String::from_str(alloc, path).ok()?, folder))
}

// Returns true if a path is this one or below it. Each path is below the empty one.
fn is_in(path: &str, part: &str) -> bool {
    match path.strip_prefix(part) {
        Some(rest) => part.is_empty() || rest.is_empty() || rest.starts_with('/'),
        None => false,
    }
}
