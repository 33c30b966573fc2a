// The bare calls on files and folders, over files that print their calls.
use crate::harms::Harmer;
use crate::recorder::Recorder;
use bare_calls::{
    BESIDE, Given, KEPT_FROM, Room, make_folder_inside, put_aside, read_inside, read_regular,
    write_beside, write_inside,
};
use plain_values::NoMemory;
use std::alloc::Global;
use std::io::{self, Print};
use std::rt::Files;
use std::str;
use std::sync::atomic::AtomicU64;

/// The folder for calls that aren't made in a room.
const FOLDER: &str = "files";

/// A file that a harmful process makes outside of all rooms.
const ELSEWHERE: &str = "elsewhere";

/// A room, and a process at work in it.
#[derive(Drop)]
pub struct Scene<F> {
    pub room: Room,
    pub harmer: Harmer<F>,
}

/// Makes the bare call that a line specifies, for example `write made/first 3`. The line gives its name, a
/// path, and the number of the system call that is refused. Returns its result. The system calls have been
/// printed.
///
/// # Errors
///
/// Returns `NoMemory` if memory runs out.
pub fn play<R: Files + Print + Copy + Drop + AllocGlobal>(
    rt: &R,
    alloc: Global,
    scene: &mut Scene<R::File>,
    line: &str,
) -> Result<String, NoMemory> {
    let (name, rest) = line.split_once(' ').unwrap_or((line, ""));
    let (path, refused) = rest.split_once(' ').unwrap_or((rest, "0"));
    let made = AtomicU64::new(0);
    let files = (
        Recorder::new(*rt, &made, refused.parse::<u64>().unwrap_or(0)),
        alloc,
    );
    let room = &mut scene.room;
    let done = match name {
        "beside" => write_beside(&files, alloc, ".part", path, b"new"),
        "write" => write_inside(&files, alloc, FOLDER, path, BESIDE, b"new"),
        "folder" => make_folder_inside(&files, alloc, FOLDER, path),
        "aside" => put_aside(&files, alloc, FOLDER, path),
        "clear" => room.clear(&files, ""),
        "part" => room.clear(&files, path),
        "make" => room.make(&files, path),
        "put" => room.write(&files, path, &Given::unnamed(b"new")),
        "large" => put_large(&files, alloc, room, path)?,
        "holds" => return holds(rt, alloc, room, path),
        "harm" => harm(rt, alloc, scene, rest)?,
        "get" => return found(alloc, room.read(&files, path)),
        "keep" => {
            room.keep_always();
            Ok(())
        }
        "enter" => {
            room.enter();
            Ok(())
        }
        "leave" => {
            room.leave(&files);
            Ok(())
        }
        "source" => return found(alloc, read_regular(&files, path)),
        _ => return found(alloc, read_inside(&files, alloc, FOLDER, path)),
    };
    let told = if done.is_ok() { "done" } else { "failed" };
    Ok(String::from_str(alloc, told)?)
}

// Puts the smallest content that is kept, always the same one.
fn put_large<R: Files + AllocGlobal>(
    rt: &R,
    alloc: Global,
    room: &mut Room,
    path: &str,
) -> Result<io::Result<()>, NoMemory> {
    let bytes = large(alloc)?;
    let given = Given::named(bytes.as_slice(), "the digest");
    Ok(room.write(rt, path, &given))
}

fn large(alloc: Global) -> Result<Vec<u8>, NoMemory> {
    Ok(vec![in alloc; b'x'; KEPT_FROM]?)
}

// Tells whether the file at a path of the room has the bytes of the large content.
fn holds<R: Files + AllocGlobal>(
    rt: &R,
    alloc: Global,
    room: &Room,
    path: &str,
) -> Result<String, NoMemory> {
    let path = path_of(alloc, room, path)?;
    let wanted = large(alloc)?;
    let read = read_regular(rt, path.as_str());
    let told = match &read {
        Ok(Some(bytes)) => compared(bytes.as_slice(), wanted.as_slice()),
        Ok(None) => "nothing",
        Err(_) => "failed",
    };
    Ok(String::from_str(alloc, told)?)
}

fn compared(bytes: &[u8], wanted: &[u8]) -> &'static str {
    if bytes == wanted {
        "the content"
    } else {
        "other bytes"
    }
}

// Does to a file of the room what a harmful process might, for example `overwrite a/b`.
fn harm<R: Files + AllocGlobal>(
    rt: &R,
    alloc: Global,
    scene: &mut Scene<R::File>,
    what: &str,
) -> Result<io::Result<()>, NoMemory> {
    let (way, path) = what.split_once(' ').unwrap_or((what, ""));
    let path = path_of(alloc, &scene.room, path)?;
    Ok(scene.harmer.harm(rt, way, path.as_str(), ELSEWHERE))
}

fn path_of(alloc: Global, room: &Room, path: &str) -> Result<String, NoMemory> {
    let room = room.path()?;
    Ok(format!(in alloc; "{room}/{path}")?)
}

fn found(alloc: Global, read: io::Result<Option<Vec<u8>>>) -> Result<String, NoMemory> {
    Ok(match read {
        Ok(Some(bytes)) => {
            let text = str::from_utf8(&bytes).unwrap_or("no text");
            format!(in alloc; "found {text:?}")?
        }
        Ok(None) => String::from_str(alloc, "absent")?,
        Err(_) => String::from_str(alloc, "failed")?,
    })
}
