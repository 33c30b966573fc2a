//! Plays cases of calls that the other programs don't make, or whose replies they don't show. Reads one
//! case for each line of standard input, and prints its result. Bytes are hexadecimal.
//!
//! | A line | Prints |
//! |---|---|
//! | `request BYTES`, `response BYTES`, `job BYTES`, `result BYTES` | the written form of the message, or its fault |
//! | `pieces FORM SIZE BYTES` | the counts of a splitter over a stream in pieces of SIZE bytes |
//! | `long FORM SIZE LENGTH` | the same for one frame of LENGTH bytes |
//! | `list JSON` | the number of actions of the list, or `refused` |
//! | `generated COUNT` | the text of a generated list |
//! | `key` | the length of a worker key's canonical bytes, and its name |
//! | `execute BYTES` | the executor's status and output for these jobs, with a shop some of whose calls fail |
//! | `meanwhile BYTES` | the same with a shop whose runs wait until all jobs have been read |
//! | `shared BYTES` | the demonstration worker's results for these requests, answered in parallel |
//!
//! FORM is `delimited` or `lines`. The counts are those of the pieces that gave nothing, of the frames and
//! of the faults, with the digest of the last frame. `shared` prints the worker's status, its sorted
//! responses, and what its shop then finds at `o`.
//!
//! Other lines are printed as they are. `tools/wire-vectors` writes the cases of requests and responses,
//! with the written forms that protoc gives. `tools/shop-vectors` writes the cases of pieces, of generated
//! lists, of the executor and of shared shops. Both write into `stdin` and `stdout`.
#![tactic(auto)]

mod jobs;
mod keys;
mod messages;
mod pieces;
mod sharing;

use action_list::{ListRefusal, read_list};
use generated_list::generated_list;
use plain_values::NoMemory;
use std::alloc::Global;
use std::io::{ErrorKind, Read};
use std::sync::Wait;
use std::thread::Threads;
use std::{io, str};

fn main(rt: HostRuntime) -> io::Result<()> {
    let alloc = rt.alloc();
    let mut bytes = Vec::new(alloc);
    rt.reader().read_to_end(&mut bytes)?;
    let Ok(text) = str::from_utf8(&bytes) else {
        return Err(io::Error::from(ErrorKind::InvalidData));
    };
    for line in text.lines() {
        match told(&rt, alloc, line) {
            Ok(told) => println!(&rt; "{}", told.as_str())?,
            Err(NoMemory) => return Err(io::Error::from(ErrorKind::OutOfMemory)),
        }
    }
    Ok(())
}

fn told<R: Threads + Wait + Sync>(rt: &R, alloc: Global, line: &str) -> Result<String, NoMemory> {
    let (kind, rest) = line.split_once(' ').unwrap_or((line, ""));
    match kind {
        "request" => messages::request(alloc, rest),
        "response" => messages::response(alloc, rest),
        "job" => messages::job(alloc, rest),
        "result" => messages::result(alloc, rest),
        "pieces" => pieces::given(alloc, rest),
        "long" => pieces::long(alloc, rest),
        "list" => list(alloc, rest),
        "generated" => generated(alloc, rest),
        "key" => keys::key(alloc),
        "execute" => jobs::one_after_another(rt, alloc, rest),
        "meanwhile" => jobs::meanwhile(rt, alloc, rest),
        "shared" => sharing::shared(rt, alloc, rest),
        _ => Ok(String::from_str(alloc, line)?),
    }
}

fn list(alloc: Global, json: &str) -> Result<String, NoMemory> {
    match read_list(alloc, json.as_bytes()) {
        Ok(list) => Ok(format!(in alloc; "{} actions", list.actions.as_slice().len())?),
        Err(ListRefusal::Fault(_)) => Ok(String::from_str(alloc, "refused")?),
        Err(ListRefusal::NoMemory) => Err(NoMemory),
    }
}

fn generated(alloc: Global, digits: &str) -> Result<String, NoMemory> {
    let text = generated_list(alloc, digits.parse::<u32>().unwrap_or(0))?;
    match str::from_utf8(&text) {
        Ok(text) => Ok(String::from_str(alloc, text)?),
        Err(_) => Ok(String::new(alloc)),
    }
}
