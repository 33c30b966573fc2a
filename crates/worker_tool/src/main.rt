//! Runs the actions of a list through their workers, and prints a line for each.
//!
//! A generated list is run in memory: its sources are there, and its workers carry out each request at once.
#![tactic(auto)]

ghost use Rattle.std.specs.Prelude.{map, string_bytes};
ghost use Rattle.real_run.specs.Tells.{AllTell};
ghost use Rattle.tool_words.specs.Options.{options_of};
ghost use Rattle.worker_run.specs.Headline.{RunKeeps};

use outside::{Berth, Floor, Sink};
use outside_mem::MemFloor;
use outside_real::{RealFloor, RealSink, open_standard};
use real_run::{Telling, run_told, run_told_watched};
use run_console::{
    Cause, OPTIONS, Outputs, Prints, Program, Screen, TOGETHER, end, end_unread, is_dumb, tell,
    tell_ended, words,
};
use std::alloc::Global;
use std::io::{Eprint, IsTerminal, Print};
use std::process::ExitCode;
use std::sync::Wait;
use std::thread::Threads;
use std::time::Clock;
use tool_words::generated;
use worker_run::{Ended, RunFault, Stage, run_build, run_build_watched};

const PROGRAM: Program = Program {
    name: "worker_tool",
    together: TOGETHER,
    options: OPTIONS,
    generates: true,
    prints: Prints::Report,
};

fn main(rt: HostRuntime) -> ExitCode {
    open_standard();
    let alloc = rt.alloc();
    let on_terminal = rt.stderr().is_terminal() && !is_dumb(&rt);
    let words = match words(&rt, alloc) {
        Ok(words) => words,
        Err(error) => return end_unread(&rt, alloc, &PROGRAM, &error),
    };
    if let Some(actions) = generated(&words) {
        return run_generated(rt, alloc, &words, actions, on_terminal);
    }
    let mut floor = RealFloor::new(rt, alloc);
    let screen = if on_terminal {
        Screen::of_list(rt, alloc, &words, &mut floor)
    } else {
        None
    };
    let mut out = RealSink::new(rt);
    let ended = match screen {
        Some(screen) => run_shown(rt, alloc, &words, floor, out, screen),
        None => run_told(&rt, alloc, &words, floor, &mut out),
    };
    tell_ended(&rt, alloc, &PROGRAM, &words, ended)
}

// Runs a generated list with this many actions, in memory.
fn run_generated<R: Threads + Wait + Clock + Print + Eprint + Copy + Drop + Send + Sync + 'static>(
    rt: R,
    alloc: Global,
    words: &[String],
    actions: u32,
    on_terminal: bool,
) -> ExitCode {
    let Ok(floor) = MemFloor::generated(rt, alloc, actions) else {
        return end(&rt, alloc, &PROGRAM, &RunFault::NoMemory(Stage::Before));
    };
    let screen = if on_terminal {
        Screen::open(rt, alloc, Vec::new(alloc))
    } else {
        None
    };
    let mut out = RealSink::new(rt);
    let ended = match screen {
        Some(screen) => {
            let mut out = screen.before(rt, out);
            let ended = run_build_watched(&rt, alloc, words, floor, &mut out, screen.notes());
            drop(out);
            screen.close(&rt);
            ended
        }
        None => run_build(&rt, alloc, words, floor, &mut out),
    };
    let Ended {
        status,
        fault,
        lack,
        ..
    } = ended;
    if let Some(fault) = &fault {
        let cause = Cause {
            fault,
            lack,
            last_error: None,
            outputs: Outputs::Nowhere,
        };
        tell(&rt, alloc, &PROGRAM, words, &cause);
    }
    ExitCode::from(status)
}

// Makes the run, and meanwhile shows its progress. The report goes to standard output.
fn run_shown<R: Threads + Wait + Eprint + Copy + Drop + Sync, F: Floor + Telling, O: Sink>(
    rt: R,
    alloc: Global,
    words: &[String],
    floor: F,
    out: O,
    screen: Screen,
) -> Ended<F>
where
    F::Berth: Send,
    F::Place: Send,
    <F::Berth as Berth>::Feed: Send,
    <F::Berth as Berth>::Tap: Send,
    <F::Berth as Berth>::Child: Send,
    ensures run { RunKeeps (options_of (map string_bytes words.now)) (F.told floor) result }
    ensures told { AllTell result }
{
    let mut out = screen.before(rt, out);
    let ended = run_told_watched(&rt, alloc, words, floor, &mut out, screen.notes());
    drop(out);
    screen.close(&rt);
    ended
}
