//! Reads the text of a run's journal from standard input, with or without the report before it. Prints
//! `legal actions=A entries=N`, or the first fault.
#![tactic(auto)]

use journal_audit::check_stream;
use outside_real::{RealInput, RealSink, open_standard, tell_about};
use std::env::{self, Env};
use std::process::ExitCode;

const HELP: &str = "journal_run list.json | journal_check
journal_check <journal.jsonl

Reads the text of a run's journal from standard input, with or without the report that journal_run puts before it, and says
whether the rules of scheduling allow it: `legal actions=A entries=N`, or the first fault.

  --help, --version    alone: this text, or the version
Statuses: 0 legal, 1 not legal, 2 other words, 3 no memory, 4 no journal's text, 5 the input can't be read, 6 the line can't be put.
The text: docs/FORMATS.md
";

/// The status of a program whose words aren't accepted.
const WRONG_WORDS: u8 = 2;

fn main(rt: HostRuntime) -> ExitCode {
    open_standard();
    if let Some(status) = tell_about(&rt, "journal_check", &[HELP]) {
        return status;
    }
    let alloc = rt.alloc();
    if !has_no_words(&rt) {
        let _ = rt.eprint("journal_check: words are not accepted\n");
        return ExitCode::from(WRONG_WORDS);
    }
    let mut input = RealInput::new(rt.stdin());
    let mut out = RealSink::new(rt);
    let status = check_stream(alloc, &mut input, &mut out);
    if let Some(line) = unsaid(status) {
        let _ = rt.eprint(line);
    }
    ExitCode::from(status)
}

// Returns the line on standard error if no verdict was printed: the cause, and what to do.
fn unsaid(status: u8) -> Option<&'static str> {
    match status {
        3 => Some("journal_check: no memory; free some\n"),
        5 => Some(
            "journal_check: input not read; give it a file, as in journal_check <journal.jsonl\n",
        ),
        6 => Some("journal_check: line not written; standard output is closed or full\n"),
        _ => None,
    }
}

fn has_no_words(rt: &(impl Env + AllocGlobal)) -> bool {
    match env::args(rt) {
        Ok(words) => words.skip(1).next().is_none(),
        Err(_) => false,
    }
}
