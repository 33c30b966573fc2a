// Requests that the demonstration worker answers in parallel.
ghost use Rattle.std.specs.Prelude.{◌≡◌, length, IfOk};

use crate::jobs::SlowInput;
use crate::messages::bytes_of;
use delimited_framing::Next;
use demo_programs::{DemoLane, DemoLeft, DemoSite, demo};
use json_framing::{Cutter, Framing};
use outside::{Read, Shop, SourceFile};
use outside_mem::{MemShop, MemSink};
use plain_values::{Blob, NoMemory, Text};
use std::alloc::Global;
use std::sync::Wait;
use std::sync::atomic::AtomicBool;
use std::thread::Threads;
use wire_fields::LARGEST;

/// Runs the worker over these requests, on four lanes whose shops have the file `a` with the text `one`.
/// Returns its status, its responses, and the content of `o` in the shop of the lane that wrote it. The
/// responses are sorted by their bytes, because they come in any order.
pub fn shared<R: Threads + Wait + Sync>(
    rt: &R,
    alloc: Global,
    digits: &str,
) -> Result<String, NoMemory> {
    let requests = bytes_of(alloc, digits);
    let has_ended = AtomicBool::new(false);
    let mut words = Vec::new(alloc);
    words.push(String::from_str(alloc, "--persistent_worker")?)?;
    let site = DemoSite {
        input: SlowInput::new(requests.as_slice(), &has_ended),
        out: MemSink::new(alloc, Vec::new(alloc)),
        shop: shop(alloc)?,
        lanes: lanes(alloc)?,
    };
    let DemoLeft { end, site } = demo(rt, alloc, &words, site);
    let DemoSite { out, lanes, .. } = site;
    let mut text = format!(in alloc; "{}", end.status)?;
    for frame in sorted_frames(alloc, out.bytes())? {
        text.push(' ')?;
        text.push_str(frame.as_str())?;
    }
    text.push(' ')?;
    text.push_str(found(alloc, lanes)?.as_str())?;
    Ok(text)
}

// Returns four lanes, each with a shop of its own.
fn lanes(alloc: Global) -> Result<Vec<DemoLane<MemShop>>, NoMemory>
    ensures { IfOk result (λ lanes. length lanes.items ≡ 4) }
{
    let mut lanes = Vec::new(alloc);
    lanes.push(lane(alloc)?)?;
    lanes.push(lane(alloc)?)?;
    lanes.push(lane(alloc)?)?;
    lanes.push(lane(alloc)?)?;
    Ok(lanes)
}

fn lane(alloc: Global) -> Result<DemoLane<MemShop>, NoMemory> {
    Ok(DemoLane { shop: shop(alloc)? })
}

fn shop(alloc: Global) -> Result<MemShop, NoMemory> {
    let file = SourceFile {
        path: Text::copy_of(alloc, "a")?,
        bytes: Blob::of(alloc, b"one".to_vec(alloc)?)?,
    };
    let mut files = Vec::new(alloc);
    files.push(file)?;
    MemShop::new(alloc, files, Vec::new(alloc), Vec::new(alloc))
}

// Returns the frames of these bytes in hexadecimal, sorted.
fn sorted_frames(alloc: Global, bytes: &[u8]) -> Result<Vec<String>, NoMemory> {
    let mut cutter = Cutter::new(alloc, Framing::Delimited, LARGEST);
    cutter.feed(bytes)?;
    let mut frames = Vec::new(alloc);
    for _ in 0..bytes.len() {
        match cutter.next()? {
            Next::Frame(frame) => frames.push(hex::encode(alloc, &frame)?)?,
            Next::NotYet | Next::Bad(_) => break,
        }
    }
    frames.sort_unstable();
    Ok(frames)
}

// Returns the content of the output in the first shop that has it.
fn found(alloc: Global, lanes: Vec<DemoLane<MemShop>>) -> Result<String, NoMemory> {
    for lane in lanes {
        let DemoLane { shop } = lane;
        let mut shop = shop;
        match shop.get("o")? {
            Read::Found(file) => return Ok(hex::encode(alloc, file.bytes())?),
            Read::Absent => {}
            Read::Failed => return Ok(String::from_str(alloc, "failed")?),
        }
    }
    Ok(String::from_str(alloc, "absent")?)
}
