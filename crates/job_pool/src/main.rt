//! The executor that runs jobs in parallel: it runs the jobs of its standard input, and writes each result
//! to standard output once the job has ended.
#![tactic(auto)]

ghost use Rattle.std.specs.Prelude.{◌≡◌, length, IfOk};

mod words;

use crate::words::read_words;
use job_lanes::{JobLane, Streams, pool_jobs};
use outside_real::{
    JobFolders, OutputFlag, RealInput, RealShop, RealSink, lock_jobs, open_standard, tell_about,
};
use plain_values::NoMemory;
use std::alloc::Global;
use std::io::ErrorKind;
use std::process::ExitCode;

const HELP: &str = "job_pool --serve [--jobs=N]

Runs the jobs that standard input brings, up to N at once (1 to 64, 8 by default), each in a folder of its own below the folder of
the start, and puts the result of each on standard output once it has ended. worker_tool starts it by --executor=PROGRAM, in a
folder of its own.

  --help, --version    alone: this text, or the version
Statuses: 0 the input ended, 2 other words, 3 no memory, 4 the input is no job, 5 the input can't be read or another executor
is at work in the folder, 6 a result can't be put. The messages: docs/FORMATS.md
";

/// The status of a program whose arguments are invalid.
const WRONG_WORDS: u8 = 2;

/// The status of a program that runs out of memory.
const NO_MEMORY: u8 = 3;

/// The status of an executor that can't have its folder to itself.
const NOT_ALONE: u8 = 5;

fn main(rt: HostRuntime) -> ExitCode {
    open_standard();
    if let Some(status) = tell_about(&rt, "job_pool", &[HELP]) {
        return status;
    }
    let jobs = match read_words(&rt) {
        Ok(Some(jobs)) => jobs,
        Err(error) if error.kind() == ErrorKind::OutOfMemory => {
            let _ = rt.eprint("job_pool: no memory\n");
            return ExitCode::from(NO_MEMORY);
        }
        _ => {
            let _ = rt.eprint("job_pool: words are not accepted\n");
            return ExitCode::from(WRONG_WORDS);
        }
    };
    let alloc = rt.alloc();
    let _lock = match lock_jobs(&rt, alloc) {
        Ok(lock) => lock,
        Err(error) => {
            let _ = eprintln!(rt; "job_pool: `.executor_lock` can't be had: {error}");
            return ExitCode::from(NOT_ALONE);
        }
    };
    let output = OutputFlag::new();
    let streams = Streams {
        tap: RealInput::answered(rt.stdin(), &output),
        sink: RealSink::flagged(rt, &output),
    };
    let Ok(lanes) = lanes_of(rt, alloc, jobs) else {
        return ExitCode::from(NO_MEMORY);
    };
    let mut ended = pool_jobs(&rt, alloc, streams, lanes);
    for lane in &mut ended.handlers {
        lane.shop.leave();
    }
    ExitCode::from(ended.finish.status())
}

// Returns `count` lanes over the start folder.
fn lanes_of<R: Copy>(
    rt: R,
    alloc: Global,
    count: u32,
) -> Result<Vec<JobLane<RealShop<R>>>, NoMemory>
    ensures { IfOk result (λ lanes. length lanes.items ≡ count) }
{
    let folders = JobFolders::new(alloc)?;
    let mut lanes = Vec::with_capacity(alloc, count as usize)?;
    for _ in 0..count {
        lanes.push_reserved(JobLane {
            shop: RealShop::for_jobs(rt, alloc, folders.clone()?),
        });
    }
    Ok(lanes)
}
