ghost use Rattle.std.specs.Prelude.{◌≡◌, ◌∷◌, [], map};
ghost use Rattle.std.specs.Option.{option_copied};
ghost use Rattle.sandbox_rooms.specs.Calls.{Clear, Folder, MakesRun, io_end, run_end};
ghost use Rattle.sandbox_rooms.specs.Rooms.{clear_asks, folder_of, folder_asks, put_ask, fill_asks, prepare_asks};

use crate::room::{Room, path_in};
use outside::{Berth, Io};
use plain_values::{NoMemory, Text};
use remote_messages::NamedFile;
use std::alloc::Global;

/// Prepares the room for a request, up to the first call that fails. Clears what the kind of room
/// requires, makes the folders of the outputs, and puts the inputs there, in order. Contents are
/// passed on as they are, and not copied.
///
/// # Errors
///
/// Returns `NoMemory` if memory runs out. All calls before went well.
pub fn prepare<B: Berth>(
    alloc: Global,
    berth: &mut B,
    room: Room,
    inputs: &[NamedFile],
    outputs: &[Text],
) -> Result<Io, NoMemory>
    ensures { MakesRun (run_end result) (prepare_asks room outputs.now inputs.now)
        (B.told berth.old) (B.told berth.new) }
{
    match clear(alloc, berth, room, outputs)? {
        Io::Done => fill(alloc, berth, room, inputs, outputs),
        Io::Failed => Ok(Io::Failed),
    }
}

fn clear<B: Berth>(
    alloc: Global,
    berth: &mut B,
    room: Room,
    outputs: &[Text],
) -> Result<Io, NoMemory>
    ensures { MakesRun (run_end result) (clear_asks room outputs.now)
        (B.told berth.old) (B.told berth.new) }
{
    match room {
        Room::Whole => Ok(clear_one(berth, "")),
        Room::Shared => Ok(clear_all(berth, outputs)),
        Room::Part { number } => {
            let part = format!(in alloc; "__sandbox/{number}")?;
            Ok(renew(berth, part.as_str()))
        }
    }
}

fn clear_one<B: Berth>(berth: &mut B, part: &str) -> Io
    ensures { MakesRun (io_end result) (Clear part.now ∷ [])
        (B.told berth.old) (B.told berth.new) }
{
    berth.room_clear(part)
}

// Clears a folder and makes it again.
fn renew<B: Berth>(berth: &mut B, part: &str) -> Io
    ensures { MakesRun (io_end result) (Clear part.now ∷ Folder part.now ∷ [])
        (B.told berth.old) (B.told berth.new) }
{
    match clear_one(berth, part) {
        Io::Done => folder_one(berth, part),
        Io::Failed => Io::Failed,
    }
}

fn folder_one<B: Berth>(berth: &mut B, path: &str) -> Io
    ensures { MakesRun (io_end result) (Folder path.now ∷ [])
        (B.told berth.old) (B.told berth.new) }
{
    berth.room_folder(path)
}

fn clear_all<B: Berth>(berth: &mut B, outputs: &[Text]) -> Io
    ensures { MakesRun (io_end result) (map Clear outputs.now)
        (B.told berth.old) (B.told berth.new) }
{
    for output in outputs {
        if let Io::Failed = clear_one(berth, output.as_str()) {
            return Io::Failed;
        }
    }
    Io::Done
}

fn fill<B: Berth>(
    alloc: Global,
    berth: &mut B,
    room: Room,
    inputs: &[NamedFile],
    outputs: &[Text],
) -> Result<Io, NoMemory>
    ensures { MakesRun (run_end result) (fill_asks room outputs.now inputs.now)
        (B.told berth.old) (B.told berth.new) }
{
    match make_folders(alloc, berth, room, outputs)? {
        Io::Done => put_all(alloc, berth, room, inputs),
        Io::Failed => Ok(Io::Failed),
    }
}

fn make_folders<B: Berth>(
    alloc: Global,
    berth: &mut B,
    room: Room,
    outputs: &[Text],
) -> Result<Io, NoMemory>
    ensures { MakesRun (run_end result) (folder_asks room outputs.now)
        (B.told berth.old) (B.told berth.new) }
{
    for output in outputs {
        match make_folder(alloc, berth, room, output.as_str())? {
            Io::Done => {}
            Io::Failed => return Ok(Io::Failed),
        }
    }
    Ok(Io::Done)
}

// Makes the folder of a path, if it has one.
fn make_folder<B: Berth>(
    alloc: Global,
    berth: &mut B,
    room: Room,
    output: &str,
) -> Result<Io, NoMemory>
    ensures { MakesRun (run_end result) (folder_asks room (output.now ∷ []))
        (B.told berth.old) (B.told berth.new) }
{
    match folder_of(output) {
        Some(folder) => {
            let path = path_in(alloc, room, folder)?;
            Ok(berth.room_folder(path.as_str()))
        }
        None => Ok(Io::Done),
    }
}

/// Returns the folder of a path: the part before its last slash, if it has one.
pub fn folder_of(path: &str) -> Option<&str>
    ensures { option_copied result ≡ folder_of path.now }
{
    match path.rfind('/') {
        Some(end) => Some(&path[..end]),
        None => None,
    }
}

fn put_all<B: Berth>(
    alloc: Global,
    berth: &mut B,
    room: Room,
    inputs: &[NamedFile],
) -> Result<Io, NoMemory>
    ensures { MakesRun (run_end result) (map (put_ask room) inputs.now)
        (B.told berth.old) (B.told berth.new) }
{
    for input in inputs {
        match put_one(alloc, berth, room, input)? {
            Io::Done => {}
            Io::Failed => return Ok(Io::Failed),
        }
    }
    Ok(Io::Done)
}

fn put_one<B: Berth>(
    alloc: Global,
    berth: &mut B,
    room: Room,
    input: &NamedFile,
) -> Result<Io, NoMemory>
    ensures { MakesRun (run_end result) (put_ask room input.now ∷ [])
        (B.told berth.old) (B.told berth.new) }
{
    let path = path_in(alloc, room, input.path.as_str())?;
    Ok(berth.room_put(path.as_str(), &input.content))
}
