ghost use Rattle.std.specs.Prelude.{◌≡◌};
ghost use Rattle.berth_acts.specs.Acts.{GivesFrame, Sends};
ghost use Rattle.berth_acts.specs.Files.{preparing};

use exec_journal::Written;
use outside::{Berth, Feed, Io};
use plain_values::{NoMemory, Text};
use remote_messages::NamedFile;
use sandbox_rooms::{Room, prepare};
use std::alloc::Global;

/// The files of a local line's room: the inputs of a request, and the paths of its outputs.
#[derive(Drop)]
pub struct RoomFiles<'a> {
    pub room: Room,
    pub inputs: &'a [NamedFile],
    pub outputs: &'a [Text],
}

/// Prepares the room for a Send to a local line, and writes the frame to the line.
///
/// # Errors
///
/// Returns `NoMemory` if memory runs out. Then nothing was written to the line.
pub fn send_line<B: Berth>(
    alloc: Global,
    berth: &mut B,
    feed: &mut B::Feed,
    files: &RoomFiles<'_>,
    frame: &[u8],
) -> Result<Written, NoMemory>
    ensures { Sends (preparing files.now) frame.now result
        (B.told berth.old) (B.told berth.new) (B.Feed.told feed.old) (B.Feed.told feed.new) }
{
    match prepare(alloc, berth, files.room, files.inputs, files.outputs)? {
        Io::Done => Ok(give(feed, frame)),
        Io::Failed => Ok(Written::RoomFault),
    }
}

/// Writes a frame to a line, for a Cancel or a Send to the executor.
pub fn give<F: Feed>(feed: &mut F, frame: &[u8]) -> Written
    ensures { GivesFrame frame.now result (F.told feed.old) (F.told feed.new) }
{
    match feed.write(frame) {
        Io::Done => Written::Done,
        Io::Failed => Written::FeedFault,
    }
}
