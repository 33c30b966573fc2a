//! Plays trials of `worker_kit`, one for each line of standard input. Prints how each worker ended and what
//! it wrote. Bytes are hexadecimal.
//!
//! | A line | The worker |
//! |---|---|
//! | `KIND HANDLERS DEPTH PIECE ROOM BYTES` | reads BYTES with HANDLERS handlers, in reads of at most PIECE bytes |
//! | `meets HANDLERS` | has two requests, and the first waits until the second has begun: are both answered? |
//! | `each BYTES` | has one lane with its own handler, which answers with the number of requests it has received |
//! | `lines JSON JSON ..` | has one handler, and requests as JSON lines |
//! | `crowd HANDLERS` | has a hundred requests, every third cancelled: how many are answered once, by a possible response? |
//!
//! At most DEPTH requests may wait. The output has room for ROOM bytes, and then fails. `KIND` is `three`,
//! `stops` or `starves`, as [`Does`] explains, or `fails`, if the input fails instead of ending. Other lines
//! are printed as they are.
#![tactic(auto)]

mod crowd;
mod ends;
mod trial;

use crate::crowd::{crowd, meets};
use crate::ends::{Fed, Kept, Last};
use crate::trial::{Counts, Does, Trial};
use hex::FromHexError;
use kit_lines::Lines;
use plain_values::NoMemory;
use std::alloc::Global;
use std::io::{ErrorKind, Read};
use std::sync::Wait;
use std::thread::Threads;
use std::{io, str};
use worker_kit::{Delimited, EachEnded, KitEnd, KitEnded, Size, Streams, serve, serve_each};

/// The size of a read and of an output that hold all bytes.
const ALL: usize = 65_536;

fn main(rt: HostRuntime) -> io::Result<()> {
    let alloc = rt.alloc();
    let mut bytes = Vec::new(alloc);
    rt.reader().read_to_end(&mut bytes)?;
    let Ok(text) = str::from_utf8(&bytes) else {
        return Err(io::Error::from(ErrorKind::InvalidData));
    };
    for line in text.lines() {
        match told(&rt, alloc, line) {
            Ok(told) => println!(&rt; "{}", told.as_str())?,
            Err(NoMemory) => return Err(io::Error::from(ErrorKind::OutOfMemory)),
        }
    }
    Ok(())
}

fn told<R: Threads + Wait + Sync>(rt: &R, alloc: Global, line: &str) -> Result<String, NoMemory> {
    let (kind, rest) = line.split_once(' ').unwrap_or((line, ""));
    match kind {
        "three" => row(rt, alloc, Does::Three, Last::End, rest),
        "stops" => row(rt, alloc, Does::Stops, Last::End, rest),
        "starves" => row(rt, alloc, Does::Starves, Last::End, rest),
        "fails" => row(rt, alloc, Does::Three, Last::Fault, rest),
        "meets" => meets(rt, alloc, rest),
        "each" => each(rt, alloc, rest),
        "lines" => lines(rt, alloc, rest),
        "crowd" => crowd(rt, alloc, rest),
        _ => Ok(String::from_str(alloc, line)?),
    }
}

fn row<R: Threads + Wait + Sync>(
    rt: &R,
    alloc: Global,
    does: Does,
    last: Last,
    rest: &str,
) -> Result<String, NoMemory> {
    let mut words = rest.split(' ');
    let handlers = number_of(words.next());
    let depth = number_of(words.next());
    let piece = number_of(words.next()) as usize;
    let room = number_of(words.next()) as usize;
    let given = bytes_of(alloc, words.next().unwrap_or(""))?;
    if handlers < 1 || handlers > 64 || depth < 1 || depth > 1_024 {
        return Ok(String::from_str(alloc, "no worker of this size")?);
    }
    let streams = Streams {
        tap: Fed::new(&given, piece, last),
        sink: Kept::new(alloc, room),
    };
    let trial = Trial::new(does);
    let size = Size { handlers, depth };
    let Ok(KitEnded { end, sink, .. }) = serve(rt, alloc, &Delimited, streams, size, &trial) else {
        return Err(NoMemory);
    };
    said(alloc, end, &sink)
}

fn each<R: Threads + Wait + Sync>(rt: &R, alloc: Global, digits: &str) -> Result<String, NoMemory> {
    let given = bytes_of(alloc, digits)?;
    let streams = Streams {
        tap: Fed::new(&given, ALL, Last::End),
        sink: Kept::new(alloc, ALL),
    };
    let mut handlers = Vec::new(alloc);
    handlers.push(Counts::new())?;
    let served = serve_each(rt, alloc, &Delimited, streams, 1_024, handlers);
    let Ok(EachEnded { end, sink, .. }) = served else {
        return Err(NoMemory);
    };
    said(alloc, end, &sink)
}

fn lines<R: Threads + Wait + Sync>(rt: &R, alloc: Global, words: &str) -> Result<String, NoMemory> {
    let mut given = String::new(alloc);
    for word in words.split(' ') {
        given.push_str(word)?;
        given.push('\n')?;
    }
    let streams = Streams {
        tap: Fed::new(given.as_bytes(), ALL, Last::End),
        sink: Kept::new(alloc, ALL),
    };
    let size = Size {
        handlers: 1,
        depth: 1_024,
    };
    let served = serve(rt, alloc, &Lines, streams, size, &Trial::new(Does::Three));
    let Ok(ended) = served else {
        return Err(NoMemory);
    };
    let mut said = format!(in alloc; "{}", ended.end.status())?;
    if let Ok(text) = str::from_utf8(ended.sink.bytes()) {
        for line in text.lines() {
            said.push(' ')?;
            said.push_str(line)?;
        }
    }
    Ok(said)
}

// Returns the status and the output in hexadecimal.
fn said(alloc: Global, end: KitEnd, sink: &Kept) -> Result<String, NoMemory> {
    let status = end.status();
    if sink.bytes().is_empty() {
        return Ok(format!(in alloc; "{status}")?);
    }
    let put = hex::encode(alloc, sink.bytes())?;
    Ok(format!(in alloc; "{status} {}", put.as_str())?)
}

// Returns the number that a word gives, or 0.
fn number_of(word: Option<&str>) -> u32 {
    word.unwrap_or("").parse::<u32>().unwrap_or(0)
}

// Returns the bytes of these hexadecimal digits, or none if the string isn't hexadecimal.
fn bytes_of(alloc: Global, digits: &str) -> Result<Vec<u8>, NoMemory> {
    match hex::decode(alloc, digits) {
        Ok(bytes) => Ok(bytes),
        Err(FromHexError::OutOfMemory) => Err(NoMemory),
        Err(_) => Ok(Vec::new(alloc)),
    }
}
