// The frame at the front of some bytes.
ghost use Rattle.std.specs.Prelude.{IfOk};
ghost use Rattle.delimited_framing.specs.Frame.{IsFrameAt};
ghost use Rattle.wire_fields.specs.Varint.{IsVarintAt};

use byte_pieces::Pieces;
use plain_values::NoMemory;
use wire_fields::{Varint, read_varint};

/// The fault of a stream.
#[derive(Clone, Copy, Debug, PartialEq)]
pub enum FrameFault {
    /// The next length is above the limit.
    TooLong { length: u64 },
    /// The next length is no number of 64 bits.
    BadLength,
}

/// The next result of a splitter.
#[derive(Debug, Drop)]
pub enum Next {
    /// The bytes of the next frame, without its length.
    Frame(Vec<u8>),
    /// Neither a whole frame nor a fault has come.
    NotYet,
    /// The next bytes aren't a frame. The bytes after them aren't read.
    Bad(FrameFault),
}

/// The place of the frame at the front, after its length.
#[derive(Clone, Copy)]
pub(crate) enum Found {
    Whole { start: usize, end: usize },
    Unfinished,
    Bad(FrameFault),
}

// The largest number of bytes of a length.
const LONGEST: usize = 10;

#[tactic(auto, unfolding(crate::specs::Frame::frame_at))]
pub(crate) fn find_frame(held: &Pieces, limit: u64) -> Result<Found, NoMemory>
    ensures { IfOk result (IsFrameAt limit held.now) }
{
    match length_at(held)? {
        Varint::Cut => Ok(Found::Unfinished),
        Varint::Bad => Ok(Found::Bad(FrameFault::BadLength)),
        Varint::Whole {
            value: length,
            used: start,
        } => {
            if length > limit {
                return Ok(Found::Bad(FrameFault::TooLong { length }));
            }
            if length > (held.len() - start) as u64 {
                return Ok(Found::Unfinished);
            }
            Ok(Found::Whole {
                start,
                end: start + length as usize,
            })
        }
    }
}

// Returns the length at the front. It is read in place, unless it may continue in a second piece.
fn length_at(held: &Pieces) -> Result<Varint, NoMemory>
    ensures { IfOk result (IsVarintAt held.now) }
{
    let front = held.part(0);
    let long = held.len().min(LONGEST);
    if front.len() < long {
        let copied = held.copy(0, long)?;
        return Ok(read_varint(copied.as_slice()));
    }
    Ok(read_varint(front))
}
