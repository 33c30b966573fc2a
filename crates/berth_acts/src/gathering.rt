ghost use Rattle.std.specs.Prelude.{◌<◌, ◌^◌, length};
ghost use Rattle.sandbox_rooms.specs.Rooms.{gathering};
ghost use Rattle.berth_acts.specs.Acts.{ReportsLooks, FoundFits};

use exec_journal::Found;
use outside::Berth;
use plain_values::{NoMemory, Text};
use sandbox_rooms::{Gathered, Room, gather};
use std::alloc::Global;

/// Looks at the outputs, for a Gather on a local line whose answer has exit code 0. If all are found and the request
/// has a separate folder, the function then clears that folder.
///
/// # Errors
///
/// Returns `NoMemory` if memory runs out.
pub fn gather_line<B: Berth>(
    alloc: Global,
    berth: &mut B,
    room: Room,
    outputs: &[Text],
) -> Result<Found, NoMemory>
    requires { length outputs.now < 2 ^ 32 }
    ensures looks { ReportsLooks (gathering room outputs.now) result
        (B.told berth.old) (B.told berth.new) }
    ensures fits { FoundFits (length outputs.now) result }
{
    match gather(alloc, berth, room, outputs)? {
        Gathered::Files(files) => Ok(Found::Files(files)),
        Gathered::Missing(output) => Ok(Found::Missing(output)),
        Gathered::RoomFault => Ok(Found::RoomFault),
    }
}
