//! The help and version texts of the programs.
use std::env::{self, Env};
use std::io::{self, Print};
use std::process::ExitCode;

/// The version of all programs, the same as in the file `VERSION`.
pub const VERSION: &str = "0.1.0";

/// The status of a program whose text couldn't be written completely.
const NOT_PUT: u8 = 6;

/// Answers `--help` and `--version` if one of them is the only argument. `--help` prints the given texts one after the
/// other. The status is 0, or 6 if standard output failed. Returns `None` for any other arguments.
pub fn tell_about<R: Env + Print + AllocGlobal>(
    rt: &R,
    name: &str,
    help: &[&str],
) -> Option<ExitCode> {
    let word = only_word(rt)?;
    let told = match word.as_str() {
        "--help" => put_each(rt, help),
        "--version" => println!(rt; "{name} {VERSION}"),
        _ => return None,
    };
    match told {
        Ok(()) => Some(ExitCode::SUCCESS),
        Err(_) => Some(ExitCode::from(NOT_PUT)),
    }
}

fn put_each<R: Print>(rt: &R, texts: &[&str]) -> io::Result<()> {
    for text in texts {
        rt.print(text)?;
    }
    Ok(())
}

// Returns the argument after the program's name, if it is the only one.
fn only_word<R: Env + AllocGlobal>(rt: &R) -> Option<String> {
    let mut words = env::args(rt).ok()?.skip(1);
    let word = words.next()?;
    match words.next() {
        Some(_) => None,
        None => Some(word),
    }
}
