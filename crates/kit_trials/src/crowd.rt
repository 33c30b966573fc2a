// Concurrent requests, whose responses may come in any order.
use crate::ends::{Fed, Kept, Last};
use crate::trial::{Does, Trial};
use plain_values::NoMemory;
use std::alloc::Global;
use std::sync::Wait;
use std::thread::Threads;
use worker_kit::{Delimited, Size, Streams, serve};

/// Plays two requests with `digits` handlers. The first waits until the second has begun, which no serial
/// worker allows. Returns the status, and true if both are answered and the first did not wait in vain.
pub fn meets<R: Threads + Wait + Sync>(
    rt: &R,
    alloc: Global,
    digits: &str,
) -> Result<String, NoMemory> {
    let given = [2, 0x18, 1, 2, 0x18, 2];
    let (status, put) = played(rt, alloc, &given, Does::Meets, digits)?;
    let both = put.len() == 10 && is_answered_once(&put, 1) && is_answered_once(&put, 2);
    Ok(format!(in alloc; "{status} both={both}")?)
}

/// Plays a hundred requests with `digits` handlers. Every third request is cancelled right after it.
/// Returns the status, the number of requests with exactly one response, and true if nothing else was
/// written.
pub fn crowd<R: Threads + Wait + Sync>(
    rt: &R,
    alloc: Global,
    digits: &str,
) -> Result<String, NoMemory> {
    let given = requests(alloc)?;
    let (status, put) = played(rt, alloc, &given, Does::Three, digits)?;
    let once = (1..101u8)
        .filter(|number| is_answered_once(&put, *number))
        .count();
    let nothing_else = put.len() == 500;
    Ok(format!(in alloc; "{status} once={once} nothing_else={nothing_else}")?)
}

// Plays these bytes with `digits` handlers. Returns the status and the output.
fn played<R: Threads + Wait + Sync>(
    rt: &R,
    alloc: Global,
    given: &[u8],
    does: Does,
    digits: &str,
) -> Result<(u8, Vec<u8>), NoMemory> {
    let handlers = digits.parse::<u32>().unwrap_or(1).clamp(1, 64);
    let streams = Streams {
        tap: Fed::new(given, 65_536, Last::End),
        sink: Kept::new(alloc, 65_536),
    };
    let size = Size {
        handlers,
        depth: 1_024,
    };
    let Ok(ended) = serve(rt, alloc, &Delimited, streams, size, &Trial::new(does)) else {
        return Err(NoMemory);
    };
    Ok((ended.end.status(), ended.sink.into_bytes()))
}

fn requests(alloc: Global) -> Result<Vec<u8>, NoMemory> {
    let mut given = Vec::new(alloc);
    for number in 1..101u8 {
        given.extend_from_slice(&[2, 0x18, number])?;
        if number % 3 == 0 {
            given.extend_from_slice(&[4, 0x18, number, 0x20, 1])?;
        }
    }
    Ok(given)
}

// Returns true if exactly one response has this number and may belong to it. Only every third request may
// be reported as cancelled.
fn is_answered_once(put: &[u8], number: u8) -> bool {
    let handled = [4, 8, 3, 0x18, number];
    let cancelled = [4, 0x18, number, 0x20, 1];
    let as_handled = put
        .chunks(5)
        .filter(|frame| *frame == handled.as_slice())
        .count();
    let as_cancelled = put
        .chunks(5)
        .filter(|frame| *frame == cancelled.as_slice())
        .count();
    match as_cancelled {
        0 => as_handled == 1,
        1 => as_handled == 0 && number % 3 == 0,
        _ => false,
    }
}
