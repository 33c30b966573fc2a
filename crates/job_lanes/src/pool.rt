// Runs from the greeting to the end of the input.
ghost use Rattle.std.specs.Prelude.{◌≤◌, [], length};
ghost use Rattle.work_lanes.specs.Serves.{AreHandlers, told_by};
ghost use Rattle.job_lanes.specs.Pools.{Pools, DoesJobs};

use crate::lane::JobLane;
use job_runner::GREETING;
use message_service::Finish;
use outside::{Io, Shop, Sink, Tap};
use std::alloc::Global;
use std::sync::Wait;
use std::thread::Threads;
use work_lanes::{LanesEnded, Streams, Unbegun, run_lanes};

/// The limit for waiting jobs.
const DEPTH: u32 = 1_024;

/// Writes the greeting, and then runs the jobs of the input. It stops at the end of the input or at bytes
/// that spell no job. Each lane runs one job at a time, each job in a separate folder in its lane's shop.
/// Each result is written, preceded by its length, once it is complete.
///
/// Each job, except a cancelling one, is answered at most once, under its number. It is answered exactly
/// once unless memory ran out or a write failed. A job is given up only if a cancelling job of its number
/// follows it. A job that has begun is run to its end.
///
/// The lanes are returned. The log of each lane's shop gains the calls for the jobs that the lane took, job
/// by job, each once, and nothing else. It gains no call for a job that was given up before. The end is
/// always returned. It is also `NoMemory` if memory ran out, or a thread couldn't be started, before the
/// input was read.
pub fn pool_jobs<T: Tap + Send, O: Sink + Send, S: Shop + Send, R: Threads + Wait + Sync>(
    rt: &R,
    alloc: Global,
    streams: Streams<T, O>,
    lanes: Vec<JobLane<S>>,
) -> LanesEnded<T, O, JobLane<S>>
    requires { AreHandlers (length lanes.items) }
    ensures { Pools S.told result.finish lanes.items result.handlers.items
        (told_by T.told O.told streams.tap streams.sink)
        (told_by T.told O.told result.tap result.sink) }
{
    let Streams { tap, sink } = streams;
    let mut sink = sink;
    match sink.put(&GREETING) {
        Io::Done => do_jobs(rt, alloc, Streams { tap, sink }, lanes),
        Io::Failed => LanesEnded {
            finish: Finish::OutputFault,
            tap,
            sink,
            handlers: lanes,
        },
    }
}

// Runs the jobs after the greeting.
fn do_jobs<T: Tap + Send, O: Sink + Send, S: Shop + Send, R: Threads + Wait + Sync>(
    rt: &R,
    alloc: Global,
    streams: Streams<T, O>,
    lanes: Vec<JobLane<S>>,
) -> LanesEnded<T, O, JobLane<S>>
    requires { AreHandlers (length lanes.items) }
    ensures { DoesJobs S.told result.finish [] lanes.items result.handlers.items
        (told_by T.told O.told streams.tap streams.sink)
        (told_by T.told O.told result.tap result.sink) }
{
    match run_lanes(rt, alloc, streams, DEPTH, lanes) {
        Ok(ended) => ended,
        Err(unbegun) => {
            let Unbegun { streams, handlers } = unbegun;
            let Streams { tap, sink } = streams;
            LanesEnded {
                finish: Finish::NoMemory,
                tap,
                sink,
                handlers,
            }
        }
    }
}
