//! The executor: it runs the jobs of its standard input, and writes each result to standard output.
#![tactic(auto)]

use demo_programs::execute;
use outside_real::{
    JobFolders, OutputFlag, RealInput, RealShop, RealSink, lock_jobs, open_standard, tell_about,
};
use std::env::{self, Env};
use std::io::{self, ErrorKind};
use std::process::ExitCode;

const HELP: &str = "remote_exec --serve

Runs the jobs that standard input brings, one after another, each in a folder of its own below the folder of the start, and
puts the result of each on standard output. worker_tool starts it by --executor=PROGRAM, in a folder of its own.

  --help, --version    alone: this text, or the version
Statuses: 0 the input ended, 2 other words, 3 no memory, 4 the input is no job, 5 the input can't be read or another executor
is at work in the folder, 6 a result can't be put. The messages: docs/FORMATS.md
";

/// The status of a program whose arguments are invalid.
const WRONG_WORDS: u8 = 2;

/// The status of a program that runs out of memory.
const NO_MEMORY: u8 = 3;

/// The status of an executor that can't have its folder to itself.
const NOT_ALONE: u8 = 5;

fn main(rt: HostRuntime) -> ExitCode {
    open_standard();
    if let Some(status) = tell_about(&rt, "remote_exec", &[HELP]) {
        return status;
    }
    let alloc = rt.alloc();
    match is_to_serve(&rt) {
        Ok(true) => {}
        Err(error) if error.kind() == ErrorKind::OutOfMemory => {
            let _ = rt.eprint("remote_exec: no memory\n");
            return ExitCode::from(NO_MEMORY);
        }
        _ => {
            let _ = rt.eprint("remote_exec: words are not accepted\n");
            return ExitCode::from(WRONG_WORDS);
        }
    }
    let _lock = match lock_jobs(&rt, alloc) {
        Ok(lock) => lock,
        Err(error) => {
            let _ = eprintln!(rt; "remote_exec: `.executor_lock` can't be had: {error}");
            return ExitCode::from(NOT_ALONE);
        }
    };
    let output = OutputFlag::new();
    let mut input = RealInput::answered(rt.stdin(), &output);
    let mut out = RealSink::flagged(rt, &output);
    let Ok(folders) = JobFolders::new(alloc) else {
        return ExitCode::from(NO_MEMORY);
    };
    let mut shop = RealShop::for_jobs(rt, alloc, folders);
    let finish = execute(&rt, alloc, &mut input, &mut out, &mut shop);
    shop.leave();
    ExitCode::from(finish.status())
}

// Returns true if the only argument after the program's name is `--serve`.
fn is_to_serve(rt: &(impl Env + AllocGlobal)) -> io::Result<bool> {
    let mut words = env::args(rt)?.skip(1);
    let serves = matches!(words.next(), Some(word) if word.as_str() == "--serve");
    Ok(serves && words.next().is_none())
}
