ghost use Rattle.std.specs.Prelude.{◌≡◌, IfOk};
ghost use Rattle.sandbox_rooms.specs.Rooms.{in_room};

use plain_values::{NoMemory, Text};
use std::alloc::Global;

/// The part of its berth's room that a request uses.
#[derive(Clone, Copy, PartialEq, Eq)]
pub enum Room {
    /// All of it, emptied before. This is for a worker that has one request at a time.
    Whole,
    /// All of it, shared with other requests. Anything at its outputs' paths is removed before.
    Shared,
    /// A separate folder, `__sandbox/` and the request's number, which is cleared and made again
    /// before.
    Part { number: i32 },
}

/// Returns the path of a request's file in the room.
///
/// # Errors
///
/// Returns `NoMemory` if memory runs out.
pub fn path_in(alloc: Global, room: Room, path: &str) -> Result<Text, NoMemory>
    ensures { IfOk result (λ t. t ≡ in_room room path.now) }
{
    match room {
        Room::Whole | Room::Shared => Text::copy_of(alloc, path),
        Room::Part { number } => {
            let text = format!(in alloc; "__sandbox/{number}/{path}")?;
            Ok(Text::of(text))
        }
    }
}
