ghost use Rattle.std.specs.Prelude.{◌≡◌, IfOk, map};
ghost use Rattle.request_frames.specs.Requests.{input_of, cancelling, room_for, sandbox_for};
ghost use Rattle.request_frames.specs.Due.{request_due};

use plain_values::{Items, NoMemory, Text, texts_again};
use remote_messages::{NamedFile, WorkAction};
use run_plan::Kind;
use sandbox_rooms::Room;
use std::alloc::Global;
use wire_messages::{Input, WorkRequest};

/// The verbosity of a worker that must print more.
const VERBOSE: i32 = 10;

/// Returns the room of a request with this number, by the kind of its line. The executor has its
/// own rooms.
pub fn room_of(kind: Kind, number: i32) -> Room
    ensures { result ≡ room_for kind number }
{
    match kind {
        Kind::Single | Kind::Remote => Room::Whole,
        Kind::Multi => Room::Shared,
        Kind::Boxed => Room::Part { number },
    }
}

/// The work to write to a line: an action's work, with the files of its inputs in their order,
/// under this number.
#[derive(Drop)]
pub struct DueWork<'a> {
    pub number: i32,
    pub action: &'a WorkAction,
    pub inputs: &'a [NamedFile],
}

/// Returns the request of a Send. The digests are those of the inputs' contents, which keep them.
///
/// # Errors
///
/// Returns `NoMemory` if memory runs out.
pub fn request_of(
    alloc: Global,
    room: Room,
    work: &DueWork<'_>,
    verbose: bool,
) -> Result<WorkRequest, NoMemory>
    ensures { IfOk result (λ request. request ≡ request_due work.now verbose room) }
{
    let action = work.action;
    Ok(WorkRequest {
        arguments: texts_again(alloc, action.request_words.as_slice())?,
        inputs: inputs_of(alloc, work.inputs)?,
        request_id: work.number,
        cancel: false,
        verbosity: if verbose { VERBOSE } else { 0 },
        sandbox_dir: sandbox_of(alloc, room)?,
    })
}

/// Returns the request of a Cancel. The function takes no memory.
pub fn cancelling(alloc: Global, number: i32) -> WorkRequest
    ensures { result ≡ cancelling number }
{
    WorkRequest {
        arguments: Items::of(Vec::new(alloc)),
        inputs: Items::of(Vec::new(alloc)),
        request_id: number,
        cancel: true,
        verbosity: 0,
        sandbox_dir: Text::of(String::new(alloc)),
    }
}

fn sandbox_of(alloc: Global, room: Room) -> Result<Text, NoMemory>
    ensures { IfOk result (λ folder. folder ≡ sandbox_for room) }
{
    match room {
        Room::Whole | Room::Shared => Ok(Text::of(String::new(alloc))),
        Room::Part { number } => {
            let folder = format!(in alloc; "__sandbox/{number}")?;
            Ok(Text::of(folder))
        }
    }
}

// Returns the inputs, with the digests of their contents.
fn inputs_of(alloc: Global, files: &[NamedFile]) -> Result<Items<Input>, NoMemory>
    ensures { IfOk result (λ inputs. inputs ≡ map input_of files.now) }
{
    let mut inputs = Vec::new(alloc);
    for file in files {
        inputs.push(Input {
            path: Text::copy_of(alloc, file.path.as_str())?,
            digest: file.content.digits(alloc)?,
        })?;
    }
    Ok(Items::of(inputs))
}
