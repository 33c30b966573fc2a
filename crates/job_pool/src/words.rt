// The arguments of the command.
ghost use Rattle.std.specs.Prelude.{◌<◌, IfOk, IfSome};
ghost use Rattle.work_lanes.specs.Serves.{AreHandlers};

use std::env::{self, Env};
use std::io;

/// The number of jobs that are run at once by default.
const JOBS: u32 = 8;

/// The limit for the number of jobs that are run at once.
const MOST: u32 = 64;

/// Returns the number of jobs to run at once. Returns `None` if the arguments after the program's name are
/// neither `--serve` nor `--serve --jobs=N`.
pub fn read_words(rt: &(impl Env + AllocGlobal)) -> io::Result<Option<u32>>
    ensures { IfOk result (λ jobs. IfSome jobs AreHandlers) }
{
    let mut words = env::args(rt)?.skip(1);
    let serves = matches!(words.next(), Some(word) if word.as_str() == "--serve");
    let jobs = match words.next() {
        Some(word) => jobs_in(word.as_str()),
        None => Some(JOBS),
    };
    if serves && words.next().is_none() {
        Ok(jobs)
    } else {
        Ok(None)
    }
}

// Returns the number of `--jobs=N`, which has one or two digits and is from 1 to 64.
fn jobs_in(word: &str) -> Option<u32>
    ensures { IfSome result AreHandlers }
{
    let jobs = match word.strip_prefix("--jobs=")?.as_bytes() {
        [digit] => digit_of(*digit)?,
        [tens, digit] => 10 * digit_of(*tens)? + digit_of(*digit)?,
        _ => return None,
    };
    if 1 <= jobs && jobs <= MOST {
        Some(jobs)
    } else {
        None
    }
}

fn digit_of(byte: u8) -> Option<u32>
    ensures { IfSome result (λ digit. digit < 10) }
{
    if byte.is_ascii_digit() {
        Some((byte - b'0') as u32)
    } else {
        None
    }
}
