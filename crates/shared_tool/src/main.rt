//! Runs the actions of a list through few workers, which worker keys share, and prints a line for
//! each action.
#![tactic(auto)]

use outside_real::{RealFloor, RealSink, open_standard, tell_about};
use real_placed::run_told_shared;
use run_console::{Prints, Program, end_unread, tell_ended, words};
use shared_tasks::other_words;
use std::process::ExitCode;

const USAGE: &str = "shared_tool --max_workers=N [OPTION..] LIST

Runs the actions of a list through few workers, which worker keys share, and prints a line for each action.

";

const OPTIONS: &str = "  LIST                              the path of the action list that is run
  --max_workers=N                   at most N local workers of each protocol, 1 to 24
  --instances=N                     at most N workers of one key, 1 to 48 (4)
  --remote=N                        at most N executors, 1 to 16 (1)
  --retries=N                       make an attempt again up to N times, 0 to 9 (1)
  --executor=PROGRAM                the executor's program (remote_exec)
  --extra_flag=WORD                 a further start-up word of each worker; may stand several times
  --worker_verbose                  ask the workers to say more
  --help, --version                 alone: this text, or the version
  more: docs/GUIDE.md
";

const PROGRAM: Program = Program {
    name: "shared_tool",
    together: "there is one --max_workers=N",
    options: OPTIONS,
    generates: false,
    prints: Prints::Report,
};

fn main(rt: HostRuntime) -> ExitCode {
    open_standard();
    if let Some(status) = tell_about(&rt, "shared_tool", &[USAGE, OPTIONS]) {
        return status;
    }
    let alloc = rt.alloc();
    let words = match words(&rt, alloc) {
        Ok(words) => words,
        Err(error) => return end_unread(&rt, alloc, &PROGRAM, &error),
    };
    let floor = RealFloor::new(rt, alloc);
    let mut out = RealSink::new(rt);
    let ended = run_told_shared(&rt, alloc, &words, floor, &mut out);
    let others = other_words(alloc, &words).unwrap_or(Vec::new(alloc));
    tell_ended(&rt, alloc, &PROGRAM, &others, ended)
}
