// What a process may do to a file in its room: each of these leaves other bytes there, or other links, or looks as if it
// did not.
use bare_calls::rest;
use std::fs::{self, File, FileTimes, OpenFile, Permissions};
use std::io::{self, ErrorKind, Seek, SeekFrom, Write};
use std::os::unix::fs::{MetadataExt, PermissionsExt, chown};
use std::rt::Files;
use std::time::SystemTime;

/// The time, in milliseconds, in which the clock of any file system goes on.
const TICK: i32 = 20;

/// A process at work on a file in its room. It may hold a file open while the room is cleared and filled.
#[derive(Drop)]
pub struct Harmer<F> {
    held: Option<F>,
}

// How the bytes of a file are changed, so that there are as many as before.
#[derive(Clone, Copy)]
enum Change {
    Overwritten,
    Refilled,
}

impl<F: Write + Seek + OpenFile + Drop> Harmer<F> {
    /// Returns a process that holds no file open.
    pub fn new() -> Harmer<F> {
        Harmer { held: None }
    }

    /// Does what `way` says to the file at a path, and to the file `elsewhere`, which no room contains.
    pub fn harm<R: Files<File = F> + AllocGlobal>(
        &mut self,
        rt: &R,
        way: &str,
        path: &str,
        elsewhere: &str,
    ) -> io::Result<()> {
        // The clock of the file system has gone on since the file was put there.
        rest(TICK);
        match way {
            "overwrite" => overwrite(&mut opened(rt, path)?),
            "overwrite-and-date" => change_and_date(rt, path, Change::Overwritten),
            "shorten" => opened(rt, path)?.set_len(10),
            "refill-and-date" => change_and_date(rt, path, Change::Refilled),
            "close" => fs::set_permissions(rt, path, Permissions::from_mode(0o444)),
            "own" => chown(rt, path, Some(fs::metadata(rt, path)?.uid()), None),
            "remove" => fs::remove_file(rt, path),
            "move" => fs::rename(rt, path, elsewhere),
            "replace" => replace(rt, path, elsewhere),
            "link" => fs::hard_link(rt, path, elsewhere),
            "write-elsewhere" => overwrite(&mut opened(rt, elsewhere)?),
            "hold" => {
                self.held = Some(opened(rt, path)?);
                Ok(())
            }
            "write-held" => match &mut self.held {
                Some(file) => overwrite(file),
                None => Err(io::Error::from(ErrorKind::NotFound)),
            },
            "read" => fs::open(rt, path).map(|_| ()),
            _ => Err(io::Error::from(ErrorKind::InvalidInput)),
        }
    }
}

fn opened<R: Files>(rt: &R, path: &str) -> io::Result<R::File> {
    let mut how = File::options();
    how.read(true).write(true);
    how.open(rt, path)
}

fn overwrite<F: Write + Seek>(file: &mut F) -> io::Result<()> {
    file.seek(SeekFrom::Start(5))?;
    file.write_all(b"changed")
}

// Writes other bytes, as many as there were.
fn refill<F: Write + Seek + OpenFile>(file: &mut F) -> io::Result<()> {
    let length = file.metadata()?.len();
    file.set_len(10)?;
    file.set_len(length)
}

// Changes the bytes of a file, and sets the time of its last write to what it was.
fn change_and_date<R: Files>(rt: &R, path: &str, change: Change) -> io::Result<()> {
    let mut file = opened(rt, path)?;
    let written: SystemTime = file.metadata()?.modified()?;
    match change {
        Change::Overwritten => overwrite(&mut file)?,
        Change::Refilled => refill(&mut file)?,
    }
    file.set_times(FileTimes::new().set_modified(written))
}

fn replace<R: Files + AllocGlobal>(rt: &R, path: &str, elsewhere: &str) -> io::Result<()> {
    fs::write(rt, elsewhere, b"another")?;
    fs::rename(rt, elsewhere, path)
}
