//! Runs the actions of a list as `worker_tool` does, and prints the text of the run's journal after the report.
//!
//! A generated list is run in memory: its sources are there, and its workers carry out each request at once.
#![tactic(auto)]

use outside_mem::MemFloor;
use outside_real::{RealFloor, RealSink, open_standard};
use recorded_runs::{run_recorded, run_told_recorded};
use run_console::{
    Cause, OPTIONS, Outputs, Prints, Program, TOGETHER, end, end_unread, tell, tell_ended, words,
};
use std::alloc::Global;
use std::io::{Eprint, Print};
use std::process::ExitCode;
use std::sync::Wait;
use std::thread::Threads;
use tool_words::generated;
use worker_run::{Ended, RunFault, Stage};

const PROGRAM: Program = Program {
    name: "journal_run",
    together: TOGETHER,
    options: OPTIONS,
    generates: true,
    prints: Prints::ReportAndJournal,
};

fn main(rt: HostRuntime) -> ExitCode {
    open_standard();
    let alloc = rt.alloc();
    let words = match words(&rt, alloc) {
        Ok(words) => words,
        Err(error) => return end_unread(&rt, alloc, &PROGRAM, &error),
    };
    if let Some(actions) = generated(&words) {
        return run_generated(rt, alloc, &words, actions);
    }
    let floor = RealFloor::new(rt, alloc);
    let mut out = RealSink::new(rt);
    let ended = run_told_recorded(&rt, alloc, &words, floor, &mut out);
    tell_ended(&rt, alloc, &PROGRAM, &words, ended)
}

// Runs a generated list with this many actions, in memory.
fn run_generated<R: Threads + Wait + Print + Eprint + Copy + Drop + Send + Sync + 'static>(
    rt: R,
    alloc: Global,
    words: &[String],
    actions: u32,
) -> ExitCode {
    let Ok(floor) = MemFloor::generated(rt, alloc, actions) else {
        return end(&rt, alloc, &PROGRAM, &RunFault::NoMemory(Stage::Before));
    };
    let mut out = RealSink::new(rt);
    let Ended {
        status,
        fault,
        lack,
        ..
    } = run_recorded(&rt, alloc, words, floor, &mut out);
    if let Some(fault) = &fault {
        let cause = Cause {
            fault,
            lack,
            last_error: None,
            outputs: Outputs::Nowhere,
        };
        tell(&rt, alloc, &PROGRAM, words, &cause);
    }
    ExitCode::from(status)
}
