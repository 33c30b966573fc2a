// Streams that arrive in pieces.
use delimited_framing::Next;
use json_framing::{Cutter, Framing};
use plain_values::{NoMemory, digest_of};
use std::alloc::Global;
use wire_fields::LARGEST;

/// The length of a piece if a case doesn't give it.
const SMALLEST: usize = 1;

/// The counts of a stream: the pieces that gave nothing, the frames, the faults, and the digest of the last
/// frame.
#[derive(Drop)]
struct Count {
    silent: u32,
    frames: u32,
    faults: u32,
    last: String,
}

/// Returns the counts of a stream. `rest` gives its form, the size of its pieces, and its bytes in
/// hexadecimal.
pub fn given(alloc: Global, rest: &str) -> Result<String, NoMemory> {
    let (form, rest) = rest.split_once(' ').unwrap_or((rest, ""));
    let (size, digits) = rest.split_once(' ').unwrap_or((rest, ""));
    let stream = hex::decode(alloc, digits).unwrap_or(Vec::new(alloc));
    tell(alloc, form, size, &stream)
}

/// Returns the same for one frame of a given length. Its bytes repeat the 90 values from 33 on.
pub fn long(alloc: Global, rest: &str) -> Result<String, NoMemory> {
    let (form, rest) = rest.split_once(' ').unwrap_or((rest, ""));
    let (size, length) = rest.split_once(' ').unwrap_or((rest, ""));
    let stream = long_frame(alloc, form, length.parse::<u32>().unwrap_or(0))?;
    tell(alloc, form, size, &stream)
}

fn long_frame(alloc: Global, form: &str, length: u32) -> Result<Vec<u8>, NoMemory> {
    let mut stream = Vec::new(alloc);
    if form != "lines" {
        put_length(&mut stream, length)?;
    }
    for at in 0..length {
        stream.push(33 + (at % 90) as u8)?;
    }
    if form == "lines" {
        stream.push(b'\n')?;
    }
    Ok(stream)
}

// Appends the length as a varint of at most five bytes.
fn put_length(stream: &mut Vec<u8>, length: u32) -> Result<(), NoMemory> {
    let mut left = length;
    for _ in 0..4 {
        if left < 128 {
            break;
        }
        stream.push((left % 128) as u8 + 128)?;
        left /= 128;
    }
    stream.push((left % 128) as u8)?;
    Ok(())
}

fn tell(alloc: Global, form: &str, size: &str, stream: &[u8]) -> Result<String, NoMemory> {
    let size = size.parse::<usize>().unwrap_or(SMALLEST).max(SMALLEST);
    let count = play(alloc, framing(form), size, stream)?;
    let Count {
        silent,
        frames,
        faults,
        last,
    } = count;
    Ok(format!(in alloc;
        "silent={silent} frames={frames} faults={faults} last={}",
        last.as_str()
    )?)
}

fn framing(form: &str) -> Framing {
    if form == "lines" {
        Framing::Lines
    } else {
        Framing::Delimited
    }
}

fn play(alloc: Global, framing: Framing, size: usize, stream: &[u8]) -> Result<Count, NoMemory> {
    let mut cutter = Cutter::new(alloc, framing, LARGEST);
    let mut count = Count {
        silent: 0,
        frames: 0,
        faults: 0,
        last: String::new(alloc),
    };
    let mut rest = stream;
    for _ in 0..stream.len() {
        let (piece, behind) = rest.split_at(rest.len().min(size));
        if piece.is_empty() {
            break;
        }
        take(alloc, &mut cutter, &mut count, piece)?;
        rest = behind;
    }
    Ok(count)
}

// Feeds one piece, and takes at most one frame from it, because each stream has only one.
fn take(
    alloc: Global,
    cutter: &mut Cutter,
    count: &mut Count,
    piece: &[u8],
) -> Result<(), NoMemory> {
    cutter.feed(piece)?;
    match cutter.next()? {
        Next::Frame(frame) => {
            count.frames = count.frames.wrapping_add(1);
            count.last = digest(alloc, &frame)?;
        }
        Next::NotYet => count.silent = count.silent.wrapping_add(1),
        Next::Bad(_) => count.faults = count.faults.wrapping_add(1),
    }
    Ok(())
}

fn digest(alloc: Global, frame: &[u8]) -> Result<String, NoMemory> {
    let digits = digest_of(alloc, frame)?;
    Ok(String::from_str(alloc, digits.as_str())?)
}
