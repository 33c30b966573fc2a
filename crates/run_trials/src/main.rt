//! Plays whole runs in memory, and prints the result of each.
//!
//! | A line of standard input | Does |
//! |---|---|
//! | `new` | starts a case without sources and outputs |
//! | `file PATH TEXT` | adds a source, replacing any existing one with that path; `␊` in TEXT is a line feed |
//! | `big PATH COUNT` | adds a source of COUNT zero bytes |
//! | `leave PATH` | adds an output that the child leaves |
//! | `give BYTES` | sets the child's answer, in hexadecimal |
//! | `fail OBJECT NTH`, `fail OBJECT:NUMBER NTH` | makes the NTH call on this object fail in the next run; NUMBER is 0 by default |
//! | `children BEAT .. / BEAT ..` | sets the beats of the lines' children in the next run, from line 0 on |
//! | `play WORD WORD ..` | makes a run with these arguments |
//! | `race WORD WORD ..` | does the same as `play`, and prints only what is determined |
//! | `shared WORD WORD ..`, `crowd WORD WORD ..` | does the same as `play` and `race`, with worker keys that share berths |
//! | `choose WORD WORD ..` | does the same as `play`, by strategies, with a delay by the clock |
//! | `meet WORD WORD ..` | makes a run in which each of two actions writes only once the other does too |
//! | `delay` | prints the replies, call after call, of a core whose worker's branch waits for two Ticks |
//! | `reads`, `writes` | prints the reads of the floor, or the writes to the places, of the last run |
//! | `room`, `given` | prints the calls on its first berth, or the bytes that its first line was given |
//! | `digests` | prints the contents that were put into its first berth's room and found there, and if the digest of each is known |
//!
//! A beat is `hear=N`, `leave=PATH`, `leave=PATH,TEXT`, `give=BYTES`, `choose=BYTES,BYTES`, `raise=N`,
//! `await=N` or `die`. A child without beats carries out each request at once.
//!
//! `play` prints the run's status, the number of its berths, and if all children were killed. Then it
//! prints the number of its lines, the number of those that were started, its report, and its fault line.
//! `race` leaves out the run's lines, and prints only the number of the report's lines and the last one.
//! `choose` first prints the action that no strategy supports, if there is one. `meet` prints the status
//! and the report.
//!
//! Other lines are printed as they are. `dev/run-vectors` writes `stdin` and `stdout`, and `dev/fail-alloc`
//! plays two runs with each allocation refused in turn. `tests/programs` plays runs with real objects from
//! outside.
#![tactic(auto)]

mod case;
mod delayed;
mod meeting;
mod played;

use case::Case;
use meeting::MeetingFloor;
use outside_mem::{MemFloor, MemSink};
use placed_runs::{Strategic, run_shared, run_strategies};
use plain_values::NoMemory;
use played::Shown;
use std::alloc::Global;
use std::io::{ErrorKind, Print, Read};
use std::sync::Wait;
use std::thread::Threads;
use std::time::Clock;
use std::{io, str};
use tick_lane::ClockPacer;
use worker_run::{Ended, run_build};

fn main(rt: HostRuntime) -> io::Result<()> {
    let alloc = rt.alloc();
    let mut bytes = Vec::new(alloc);
    rt.reader().read_to_end(&mut bytes)?;
    let Ok(text) = str::from_utf8(&bytes) else {
        return Err(io::Error::from(ErrorKind::InvalidData));
    };
    play_all(&rt, alloc, text)
}

fn play_all<R: Threads + Wait + Clock + Print + Copy + Drop + Send + Sync>(
    rt: &R,
    alloc: Global,
    text: &str,
) -> io::Result<()> {
    let mut case = Case::new(alloc);
    let mut last = None;
    play_lines(rt, alloc, text, &mut case, &mut last)
}

// Plays lines. It borrows the case of the next run and the result of the last one, because it may end
// early.
fn play_lines<R: Threads + Wait + Clock + Print + Copy + Drop + Send + Sync>(
    rt: &R,
    alloc: Global,
    text: &str,
    case: &mut Case,
    last: &mut Option<Ended<MemFloor<R>>>,
) -> io::Result<()> {
    for line in text.lines() {
        let told = play(rt, alloc, line, case, last).map_err(no_memory)?;
        rt.print(told.as_str())?;
    }
    Ok(())
}

// Returns the text to print for a line.
fn play<R: Threads + Wait + Clock + Copy + Drop + Send + Sync>(
    rt: &R,
    alloc: Global,
    line: &str,
    case: &mut Case,
    last: &mut Option<Ended<MemFloor<R>>>,
) -> Result<String, NoMemory> {
    let (kind, rest) = line.split_once(' ').unwrap_or((line, ""));
    match kind {
        "play" => run(rt, alloc, rest, case, last, How::all_by(By::Own)),
        "race" => run(rt, alloc, rest, case, last, How::totals_by(By::Own)),
        "shared" => run(rt, alloc, rest, case, last, How::all_by(By::Shared)),
        "crowd" => run(rt, alloc, rest, case, last, How::totals_by(By::Shared)),
        "choose" => choose(rt, alloc, rest, case, last),
        "meet" => meet(rt, alloc, rest, case),
        "delay" => delayed::tell_delay(alloc),
        "reads" | "writes" | "room" | "digests" | "given" => tell_last(alloc, last, kind),
        _ => case.note(alloc, line),
    }
}

// The core that makes a run.
#[derive(Clone, Copy)]
enum By {
    Own,
    Shared,
}

// The core that makes a run, and how much of the run is printed.
#[derive(Clone, Copy)]
struct How {
    by: By,
    shown: Shown,
}

impl How {
    fn all_by(by: By) -> How {
        How {
            by,
            shown: Shown::All,
        }
    }

    fn totals_by(by: By) -> How {
        How {
            by,
            shown: Shown::Totals,
        }
    }
}

fn run<R: Threads + Wait + Copy + Drop + Send + Sync>(
    rt: &R,
    alloc: Global,
    line: &str,
    case: &mut Case,
    last: &mut Option<Ended<MemFloor<R>>>,
    how: How,
) -> Result<String, NoMemory> {
    let (script, mut out, words) = played::stage(alloc, case, line)?;
    let floor = MemFloor::new(*rt, alloc, script)?;
    let words = words.as_slice();
    let ended = match how.by {
        By::Own => run_build(rt, alloc, words, floor, &mut out),
        By::Shared => run_shared(rt, alloc, words, floor, &mut out),
    };
    let told = played::tell(alloc, &ended, how.shown, report_in(&out));
    *last = Some(ended);
    told
}

fn choose<R: Threads + Wait + Clock + Copy + Drop + Send + Sync>(
    rt: &R,
    alloc: Global,
    line: &str,
    case: &mut Case,
    last: &mut Option<Ended<MemFloor<R>>>,
) -> Result<String, NoMemory> {
    let (script, mut out, words) = played::stage(alloc, case, line)?;
    let floor = MemFloor::new(*rt, alloc, script)?;
    let pacer = ClockPacer::new(rt);
    let Strategic {
        ended,
        refused,
        pacer: _,
    } = run_strategies(rt, alloc, words.as_slice(), floor, pacer, &mut out);
    let told = played::tell(alloc, &ended, Shown::All, report_in(&out))?;
    *last = Some(ended);
    match refused {
        Some(action) => Ok(format!(in alloc; "no strategy for action {action}\n{told}")?),
        None => Ok(told),
    }
}

fn meet<R: Threads + Wait + Copy + Drop + Send + Sync>(
    rt: &R,
    alloc: Global,
    line: &str,
    case: &mut Case,
) -> Result<String, NoMemory> {
    let (script, mut out, words) = played::stage(alloc, case, line)?;
    let floor = MeetingFloor::new(alloc, MemFloor::new(*rt, alloc, script)?, 2)?;
    let Ended { status, .. } = run_build(rt, alloc, words.as_slice(), floor, &mut out);
    Ok(format!(in alloc; "status {status}\n{}", report_in(&out))?)
}

fn report_in(out: &MemSink) -> &str {
    str::from_utf8(out.bytes()).unwrap_or("no text")
}

fn no_memory(_: NoMemory) -> io::Error {
    io::Error::from(ErrorKind::OutOfMemory)
}

fn tell_last<R: Wait + Clone + Drop>(
    alloc: Global,
    last: &Option<Ended<MemFloor<R>>>,
    kind: &str,
) -> Result<String, NoMemory> {
    match (last, kind) {
        (None, _) => Ok(String::from_str(alloc, "no run\n")?),
        (Some(ended), "reads") => played::reads(alloc, ended),
        (Some(ended), "writes") => played::writes(alloc, ended),
        (Some(ended), "room") => played::room(alloc, ended),
        (Some(ended), "digests") => played::digests(alloc, ended),
        (Some(ended), _) => played::given(alloc, ended),
    }
}
