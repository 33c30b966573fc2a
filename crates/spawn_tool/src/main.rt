//! Runs the actions of a list by the strategies that its words name, and prints a line for each
//! action.
#![tactic(auto)]

use outside_real::{RealFloor, RealSink, open_standard, tell_about};
use placed_runs::Strategic;
use real_placed::run_told_strategies;
use run_console::{Prints, Program, end_unread, tell_ended, tell_refused, words};
use spawn_tasks::other_words;
use std::alloc::Global;
use std::process::ExitCode;
use tick_lane::ClockPacer;
use tool_words::number_behind;

const USAGE: &str = "spawn_tool [OPTION..] LIST

Runs the actions of a list by the strategies that its words name, and prints a line for each action.

";

const OPTIONS: &str = "  LIST                              the path of the action list that is run
  --strategy=MNEMONIC=NAME,..       what its actions run by, the first choice first
  --spawn_strategy=NAME,..          what all others run by: worker, sandboxed, remote, dynamic
  --local_delay=N                   a dynamic action's worker waits for N ms, 0 to 9999 (0)
  --instances=N                     at most N workers of one key, 1 to 48 (4)
  --remote=N                        at most N executors, 1 to 16 (1)
  --sandboxed=N                     at most N sandboxes, 1 to 16 (1), and 16 with --remote
  --retries=N                       make an attempt again up to N times, 0 to 9 (1)
  --executor=PROGRAM                the executor's program (remote_exec)
  --sandbox_executor=PROGRAM        the sandboxes' program (remote_exec)
  --extra_flag=WORD                 a further start-up word of each worker; may stand several times
  --worker_verbose                  ask the workers to say more
  --help, --version                 alone: this text, or the version
  more: docs/GUIDE.md
";

const PROGRAM: Program = Program {
    name: "spawn_tool",
    together: "every option but --strategy and --extra_flag stands once at most, and each mnemonic has one --strategy",
    options: OPTIONS,
    generates: false,
    prints: Prints::Report,
};

/// The most executors and sandboxes together.
const MOST_TOGETHER: u32 = 16;

fn main(rt: HostRuntime) -> ExitCode {
    open_standard();
    if let Some(status) = tell_about(&rt, "spawn_tool", &[USAGE, OPTIONS]) {
        return status;
    }
    let alloc = rt.alloc();
    let words = match words(&rt, alloc) {
        Ok(words) => words,
        Err(error) => return end_unread(&rt, alloc, &PROGRAM, &error),
    };
    let program = Program {
        together: together(&words),
        ..PROGRAM
    };
    let floor = RealFloor::new(rt, alloc);
    let mut out = RealSink::new(rt);
    let Strategic {
        ended,
        refused,
        pacer: _,
    } = run_told_strategies(&rt, alloc, &words, floor, ClockPacer::new(&rt), &mut out);
    if let Some(action) = refused {
        tell_refused(&rt, alloc, &program, action);
    }
    let others = other_words(alloc, &words).unwrap_or(Vec::new(alloc));
    tell_ended(&rt, alloc, &program, &others, ended)
}

// Returns the rule of this program's own options that these words break, if they break one.
fn together(words: &[String]) -> &'static str {
    let (remote, sandboxed) = (number(words, "--remote="), number(words, "--sandboxed="));
    if remote.saturating_add(sandboxed) > MOST_TOGETHER {
        "--remote and --sandboxed are at most 16 together"
    } else {
        PROGRAM.together
    }
}

// Returns the number that an option gives, or 1.
fn number(words: &[String], front: &str) -> u32 {
    words
        .iter()
        .find_map(|word| number_behind(front, 1, MOST_TOGETHER, word.as_str()))
        .unwrap_or(1)
}
