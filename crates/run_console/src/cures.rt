// Further hints for a fault of a list, a flag file or a path. The list is read once more for them, since a fault has
// only the number of its action.
use fault_hints::{AtPath, at_path_line, flag_lines, key_lines, list_lines, path_lines};
use outside::{Floor, Read};
use plain_values::{Blob, NoMemory};
use std::alloc::Global;
use std::env::{self, Env};
use std::fs;
use std::rt::Files;
use tool_words::read_words;
use worker_run::RunFault;

// The folder of all rooms.
const ROOMS: &str = ".worker_rooms";

/// Returns the hints, each after two spaces. There are none if there is nothing to add.
///
/// # Errors
///
/// Returns `NoMemory` if memory runs out.
pub fn lines<R: Env + Files + AllocGlobal>(
    rt: &R,
    alloc: Global,
    words: &[String],
    floor: &mut impl Floor,
    fault: &RunFault,
) -> Result<String, NoMemory> {
    let mut lines = match list_bytes(alloc, words, floor)? {
        Some(list) => list_lines_of(alloc, list.bytes(), fault)?,
        None => String::new(alloc),
    };
    match fault {
        RunFault::Absent { path } => {
            lines.push_str(folder_line(rt, alloc, path.as_str())?.as_str())?;
        }
        RunFault::FloorFailed { .. } if is_no_folder(rt, ROOMS) => {
            lines.push_str("  .worker_rooms is no folder, so no run can be at work here\n")?;
        }
        _ => {}
    }
    Ok(lines)
}

/// Returns the lines about keys that look misspelled, in the actions with these numbers.
///
/// # Errors
///
/// Returns `NoMemory` if memory runs out.
pub fn lines_of_keys(
    alloc: Global,
    words: &[String],
    floor: &mut impl Floor,
    actions: &[u32],
) -> Result<String, NoMemory> {
    match list_bytes(alloc, words, floor)? {
        Some(list) => key_lines(alloc, list.bytes(), actions),
        None => Ok(String::new(alloc)),
    }
}

// Returns the bytes of the list, if it is still there.
fn list_bytes(
    alloc: Global,
    words: &[String],
    floor: &mut impl Floor,
) -> Result<Option<Blob>, NoMemory> {
    let Some(options) = read_words(alloc, words)? else {
        return Ok(None);
    };
    let Some(path) = options.list.as_ref().map(|path| path.as_str()) else {
        return Ok(None);
    };
    match floor.read(path)? {
        Read::Found(bytes) => Ok(Some(bytes)),
        Read::Absent | Read::Failed => Ok(None),
    }
}

fn list_lines_of(alloc: Global, list: &[u8], fault: &RunFault) -> Result<String, NoMemory> {
    match fault {
        RunFault::List(fault) => list_lines(alloc, list, fault),
        RunFault::Flags { action, fault } => flag_lines(alloc, list, *action, fault),
        RunFault::Absent { path } | RunFault::FloorFailed { path } => {
            path_lines(alloc, list, path.as_str())
        }
        RunFault::Words | RunFault::NoMemory(_) | RunFault::SinkFailed => Ok(String::new(alloc)),
    }
}

// Returns true if something other than a folder is at a path.
fn is_no_folder(rt: &impl Files, path: &str) -> bool {
    match fs::metadata(rt, path) {
        Ok(found) => !found.is_dir(),
        Err(_) => false,
    }
}

// Returns the folder in which a path was looked for, or what is at the path.
fn folder_line<R: Env + Files + AllocGlobal>(
    rt: &R,
    alloc: Global,
    path: &str,
) -> Result<String, NoMemory> {
    if let Ok(found) = fs::metadata(rt, path) {
        let found = if found.is_dir() {
            AtPath::Folder
        } else {
            AtPath::Other
        };
        return at_path_line(alloc, found);
    }
    match env::current_dir(rt) {
        Ok(folder) => at_path_line(alloc, AtPath::NothingIn(folder.as_path().to_string_lossy())),
        Err(_) => Ok(String::new(alloc)),
    }
}
