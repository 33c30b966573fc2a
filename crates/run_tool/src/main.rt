//! Runs the actions of a list, with every option of the others, and prints a line for each action.
//!
//! A generated list is run in memory: its sources are there, and its workers carry out each request at once.
#![tactic(auto)]

use outside_mem::MemFloor;
use outside_real::{RealFloor, RealSink, open_standard, tell_about};
use placed_runs::run_placed;
use placed_tasks::read_run_words;
use real_placed::run_told_placed;
use run_console::{
    Cause, Outputs, Prints, Program, Screen, end, end_unread, is_dumb, tell, tell_ended,
    tell_refused, words,
};
use run_progress::Notes;
use std::alloc::Global;
use std::io::{Eprint, IsTerminal, Print};
use std::process::ExitCode;
use std::sync::Wait;
use std::thread::Threads;
use std::time::Clock;
use tick_lane::ClockPacer;
use tool_words::{generated, number_behind};
use worker_run::{Around, Ended, Finished, RunFault, Stage};

const USAGE: &str = "run_tool [OPTION..] LIST

Runs the actions of a list, and prints a line for each action. Every option may stand with every other.

";

const OPTIONS: &str = "  LIST                              the path of the action list that is run
  --max_workers=N                   keys share berths: at most N local workers of each protocol, 1 to 24
  --strategy=MNEMONIC=NAME,..       what its actions run by, the first choice first
  --spawn_strategy=NAME,..          what all others run by: worker, sandboxed, remote, dynamic
  --local_delay=N                   a dynamic action's worker waits for N ms, 0 to 9999 (0)
  --instances=N                     at most N workers of one key, 1 to 48 (4)
  --remote=N                        at most N executors, 1 to 16 (1)
  --sandboxed=N                     at most N sandboxes, 1 to 16 (1); if a strategy names them, 16 with --remote
  --retries=N                       make an attempt again up to N times, 0 to 9 (1)
  --executor=PROGRAM                the executor's program (remote_exec)
  --sandbox_executor=PROGRAM        the sandboxes' program (remote_exec)
  --extra_flag=WORD                 a further start-up word of each worker; may stand several times
  --worker_verbose                  ask the workers to say more
  --generate=N                      in place of LIST: a list of N actions, 1 to 1000, in memory
  --help, --version                 alone: this text, or the version
  more: docs/GUIDE.md
";

const PROGRAM: Program = Program {
    name: "run_tool",
    together: "there is one list or one --generate, every option but --strategy and --extra_flag stands once at most, and each mnemonic has one --strategy",
    options: OPTIONS,
    generates: true,
    prints: Prints::Report,
};

/// The most executors and sandboxes together.
const MOST_TOGETHER: u32 = 16;

fn main(rt: HostRuntime) -> ExitCode {
    open_standard();
    if let Some(status) = tell_about(&rt, "run_tool", &[USAGE, OPTIONS]) {
        return status;
    }
    let alloc = rt.alloc();
    let words = match words(&rt, alloc) {
        Ok(words) => words,
        Err(error) => return end_unread(&rt, alloc, &PROGRAM, &error),
    };
    let program = Program {
        together: together(&words),
        ..PROGRAM
    };
    let shown = others(alloc, &words);
    if let Some(actions) = generated(&shown) {
        return run_generated(rt, alloc, &words, actions, &program);
    }
    let on_terminal = rt.stderr().is_terminal() && !is_dumb(&rt);
    let mut floor = RealFloor::new(rt, alloc);
    let screen = if on_terminal && is_accepted(alloc, &words) {
        Screen::of_list(rt, alloc, &shown, &mut floor)
    } else {
        None
    };
    let pacer = ClockPacer::new(&rt);
    let Finished { ended, refused, .. } = match screen {
        Some(screen) => {
            let notes = screen.notes();
            let around = Around {
                floor,
                pacer,
                notes,
            };
            let mut out = screen.before(rt, RealSink::new(rt));
            let finished = run_placed(&rt, alloc, &words, around, &mut out);
            drop(out);
            screen.close(&rt);
            finished
        }
        None => {
            let notes = Notes::nowhere();
            let around = Around {
                floor,
                pacer,
                notes,
            };
            run_told_placed(&rt, alloc, &words, around, &mut RealSink::new(rt))
        }
    };
    if let Some(action) = refused {
        tell_refused(&rt, alloc, &program, action);
    }
    tell_ended(&rt, alloc, &program, &shown, ended)
}

// Returns true if the run takes these words, so that the list may be read for the line on the terminal.
fn is_accepted(alloc: Global, words: &[String]) -> bool {
    matches!(read_run_words(alloc, words), Ok(Some(_)))
}

// Runs a generated list with this many actions, in memory.
fn run_generated<R: Threads + Wait + Clock + Print + Eprint + Copy + Drop + Send + Sync + 'static>(
    rt: R,
    alloc: Global,
    words: &[String],
    actions: u32,
    program: &Program,
) -> ExitCode {
    let Ok(floor) = MemFloor::generated(rt, alloc, actions) else {
        return end(&rt, alloc, program, &RunFault::NoMemory(Stage::Before));
    };
    let around = Around {
        floor,
        pacer: ClockPacer::new(&rt),
        notes: Notes::nowhere(),
    };
    let mut out = RealSink::new(rt);
    let Finished {
        ended,
        refused,
        pacer: _,
    } = run_placed(&rt, alloc, words, around, &mut out);
    if let Some(action) = refused {
        tell_refused(&rt, alloc, program, action);
    }
    let Ended {
        status,
        fault,
        lack,
        ..
    } = ended;
    if let Some(fault) = &fault {
        let cause = Cause {
            fault,
            lack,
            last_error: None,
            outputs: Outputs::Nowhere,
        };
        tell(&rt, alloc, program, &others(alloc, words), &cause);
    }
    ExitCode::from(status)
}

// Returns the words that worker_tool has too, or none if memory runs out.
fn others(alloc: Global, words: &[String]) -> Vec<String> {
    let Ok(others) = shared_tasks::other_words(alloc, words) else {
        return Vec::new(alloc);
    };
    spawn_tasks::other_words(alloc, &others).unwrap_or(Vec::new(alloc))
}

// Returns the rule of this program's own options that these words break, if they break one.
fn together(words: &[String]) -> &'static str {
    let (remote, sandboxed) = (number(words, "--remote="), number(words, "--sandboxed="));
    if names_sandboxed(words) && remote.saturating_add(sandboxed) > MOST_TOGETHER {
        "--remote and --sandboxed are at most 16 together where a strategy names sandboxed"
    } else {
        PROGRAM.together
    }
}

// Returns true if some strategy may name sandboxes.
fn names_sandboxed(words: &[String]) -> bool {
    words.iter().any(|word| {
        let word = word.as_str();
        let is_strategy = word.starts_with("--strategy=") || word.starts_with("--spawn_strategy=");
        is_strategy && word.contains("sandboxed")
    })
}

// Returns the number that an option gives, or 1.
fn number(words: &[String], front: &str) -> u32 {
    words
        .iter()
        .find_map(|word| number_behind(front, 1, MOST_TOGETHER, word.as_str()))
        .unwrap_or(1)
}
