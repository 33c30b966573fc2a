ghost use Rattle.std.specs.Prelude.{◌≡◌, ◌<◌, ◌^◌, ◌∷◌, [], length, IfOk, OnErr};
ghost use Rattle.outside.specs.declared.answers.Read.TheVariants as read;
ghost use Rattle.outside.specs.declared.berth.BerthCall.TheVariants as call;
ghost use Rattle.sandbox_rooms.specs.Calls.{Made};
ghost use Rattle.sandbox_rooms.specs.Rooms.{in_room, gather_asks, gathering, MakesGather, MakesLooks, FitsOutputs};

use crate::room::{Room, path_in};
use outside::{Berth, Read};
use plain_values::{Blob, Items, NoMemory, Text};
use std::alloc::Global;

/// The result of looking at the outputs.
#[derive(Drop)]
pub enum Gathered {
    /// The bytes of each output, in order.
    Files(Items<Blob>),
    /// The output with this index isn't there, but all before it are.
    Missing(u32),
    /// A look failed.
    RoomFault,
}

/// Looks at the outputs in the room, one after another, up to the first that isn't found. If all are found and the
/// request has a separate folder, the function then clears that folder. Its failure isn't reported: the outputs are
/// found. If an output isn't found, the folder stays, so that a user can look at it.
///
/// # Errors
///
/// Returns `NoMemory` if memory runs out. All looks before found their outputs, and the folder stays.
pub fn gather<B: Berth>(
    alloc: Global,
    berth: &mut B,
    room: Room,
    outputs: &[Text],
) -> Result<Gathered, NoMemory>
    requires { length outputs.now < 2 ^ 32 }
    ensures calls { MakesGather (gathering room outputs.now) result
        (B.told berth.old) (B.told berth.new) }
    ensures fits { FitsOutputs (length outputs.now) result }
{
    match room {
        Room::Whole | Room::Shared => look(alloc, berth, room, outputs),
        Room::Part { number } => {
            let part = format!(in alloc; "__sandbox/{number}")?;
            match look(alloc, berth, room, outputs)? {
                Gathered::Files(files) => {
                    let _ = berth.room_clear(part.as_str());
                    Ok(Gathered::Files(files))
                }
                Gathered::Missing(output) => Ok(Gathered::Missing(output)),
                Gathered::RoomFault => Ok(Gathered::RoomFault),
            }
        }
    }
}

// Looks at the outputs, up to the first that isn't found.
fn look<B: Berth>(
    alloc: Global,
    berth: &mut B,
    room: Room,
    outputs: &[Text],
) -> Result<Gathered, NoMemory>
    requires { length outputs.now < 2 ^ 32 }
    ensures looks { MakesLooks (gather_asks room outputs.now) result
        (B.told berth.old) (B.told berth.new) }
    ensures fits { FitsOutputs (length outputs.now) result }
{
    let mut files = Vec::with_capacity(alloc, outputs.len())?;
    for (k, output) in outputs.iter().enumerate() {
        match get_one(alloc, berth, room, output.as_str())? {
            Read::Found(bytes) => files.push_reserved(bytes),
            Read::Absent => return Ok(Gathered::Missing(k as u32)),
            Read::Failed => return Ok(Gathered::RoomFault),
        }
    }
    Ok(Gathered::Files(Items::of(files)))
}

fn get_one<B: Berth>(
    alloc: Global,
    berth: &mut B,
    room: Room,
    output: &str,
) -> Result<Read, NoMemory>
    ensures made { IfOk result (λ answer.
        Made (call.Get (in_room room output.now) answer ∷ []) (answer ≡ read.Failed)
        (B.told berth.old) (B.told berth.new)) }
    ensures none { OnErr result (Made [] ⊥ (B.told berth.old) (B.told berth.new)) }
{
    let path = path_in(alloc, room, output)?;
    berth.room_get(path.as_str())
}
