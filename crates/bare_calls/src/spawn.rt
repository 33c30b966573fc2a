// The bare calls on processes. What a process is started with is a clause; what the system then does is trusted.
ghost use Rattle.std.specs.Prelude.{◌≤◌, IfOk, OnOk, length};
ghost use Rattle.bare_calls.specs.Paths.{program_from};
ghost use Rattle.bare_calls.specs.Starts.{IsStart, AddsWords, SetsOne, SetsEach};

use crate::paths::program_from;
use crate::pipes::{rest, wait_to_read};
use plain_values::{Command, Text, Variable};
use std::alloc::{AllocError, Global};
use std::io::{self, ErrorKind, Read};
use std::process::{self, ChildStdout, ExitStatus, Processes, Stdio, SystemProcess};

/// The pauses, in milliseconds, after each start that was refused because processes or memory were short.
const WANT_PAUSES: [i32; 4] = [20, 60, 200, 600];

/// The size of the buffer for reads, in bytes.
const PART: usize = 16384;

/// The largest number of bytes that a pipe can hold. A process that has ended can't have left more.
const MOST_LEFT: usize = 1 << 20;

/// The largest number of bytes that a process may write to its standard output: 4 GiB.
const MOST_WRITTEN: usize = 1 << 32;

const MOST_SIGNALS: u32 = 1000;

/// The number of tries, every `END_PAUSE` milliseconds, to kill and wait for a process before it is left alone.
const END_TRIES: u32 = 400;

const END_PAUSE: i32 = 25;

/// Starts the command's program in a room, with pipes for its standard input and output. Its environment is only the
/// command's. A program's path without a leading slash is relative to `base`. Standard error is inherited.
pub fn start<R: Processes<Started = SystemProcess>>(
    rt: &R,
    alloc: Global,
    base: &str,
    room: &str,
    command: &Command,
) -> io::Result<process::Child> {
    let words = command.words.as_slice();
    let env = command.env.as_slice();
    let mut start = command_in(alloc, base, command.program.as_str(), words, env, room)?;
    start.stdin(Stdio::piped());
    start.stdout(Stdio::piped());
    spawned(rt, &mut start)
}

// Starts a program. If the system is short of processes or memory, the start is tried again a few times.
fn spawned<R: Processes<Started = SystemProcess>>(
    rt: &R,
    start: &mut process::Command,
) -> io::Result<process::Child> {
    for pause in WANT_PAUSES {
        match start.spawn(rt) {
            Err(error) if is_for_now(&error) => rest(pause),
            started => return started,
        }
    }
    start.spawn(rt)
}

// Returns true if the shortage may pass.
fn is_for_now(error: &io::Error) -> bool {
    matches!(error.kind(), ErrorKind::WouldBlock | ErrorKind::OutOfMemory)
}

/// Runs the words in a folder to their end, with an empty standard input and only these variables as environment.
/// Returns how the process ended and what it wrote to standard output. Standard error is inherited. The folder is below
/// a room, so a program's path begins three folders above it.
pub fn run_to_end<R: Processes<Started = SystemProcess>>(
    rt: &R,
    alloc: Global,
    folder: &str,
    words: &[Text],
    env: &[Variable],
) -> io::Result<(ExitStatus, Vec<u8>)> {
    let [program, words @ ..] = words else {
        return Err(io::Error::from(ErrorKind::InvalidInput));
    };
    let mut start = command_in(alloc, "../../..", program.as_str(), words, env, folder)?;
    start.stdin(Stdio::null());
    start.stdout(Stdio::piped());
    ended(alloc, spawned(rt, &mut start)?)
}

// Returns how a process ended and what it wrote. If its output can't be read, the process is killed.
fn ended(alloc: Global, mut child: process::Child) -> io::Result<(ExitStatus, Vec<u8>)> {
    match written_by(alloc, &mut child) {
        Ok(written) => Ok((waited(&mut child)?, written)),
        Err(error) => {
            let _ = end(&mut child);
            Err(error)
        }
    }
}

// Returns all that a process writes to its standard output until it ends. A process that it started may hold the output
// open for longer. That isn't waited for.
fn written_by(alloc: Global, child: &mut process::Child) -> io::Result<Vec<u8>> {
    let mut written = Vec::new(alloc);
    let Some(mut stdout) = child.stdout.take() else {
        return Ok(written);
    };
    let mut part = [0u8; PART];
    let mut left = MOST_LEFT;
    for _ in 0..u64::MAX {
        // The order matters: what it wrote before its end is in the pipe by the time of the look.
        let is_over = child.try_wait()?.is_some();
        if !wait_to_read(&stdout)? {
            if is_over {
                break;
            }
            continue;
        }
        let count = read_some(&mut stdout, &mut part)?;
        if count == 0 {
            break;
        }
        if written.len() > MOST_WRITTEN {
            return Err(io::Error::from(ErrorKind::FileTooLarge));
        }
        written.extend_from_slice(&part[..count])?;
        if is_over {
            left = left.saturating_sub(count);
            if left == 0 {
                break;
            }
        }
    }
    Ok(written)
}

// Reads from the pipe, and reads again if a signal came first.
fn read_some(pipe: &mut ChildStdout, into: &mut [u8]) -> io::Result<usize>
    ensures { IfOk result (λ n. n ≤ length into.new) }
{
    for _ in 0..MOST_SIGNALS {
        match pipe.read(into) {
            Err(error) if error.kind() == ErrorKind::Interrupted => {}
            taken => return taken,
        }
    }
    Err(io::Error::from(ErrorKind::Interrupted))
}

// Prepares a program in a folder, with these words and with only these variables as environment.
fn command_in(
    alloc: Global,
    base: &str,
    program: &str,
    words: &[Text],
    env: &[Variable],
    folder: &str,
) -> Result<process::Command, AllocError>
    ensures { IfOk result (IsStart (program_from base.now program.now) words.now env.now folder.now) }
{
    let program = program_from(alloc, base, program)?;
    let mut start = process::Command::new(alloc, program.as_str())?;
    start.env_clear();
    start.current_dir(folder)?;
    give_words(&mut start, words)?;
    give_variables(&mut start, env)?;
    Ok(start)
}

fn give_words(start: &mut process::Command, words: &[Text]) -> Result<(), AllocError>
    ensures { OnOk result (AddsWords words.now start.old start.new) }
{
    for word in words {
        start.arg(word.as_str())?;
    }
    Ok(())
}

fn give_variables(start: &mut process::Command, env: &[Variable]) -> Result<(), AllocError>
    ensures { OnOk result (SetsEach env.now start.old start.new) }
{
    for variable in env {
        give_variable(start, variable)?;
    }
    Ok(())
}

fn give_variable(start: &mut process::Command, variable: &Variable) -> Result<(), AllocError>
    ensures { OnOk result (SetsOne variable.now start.old start.new) }
{
    start.env(variable.name.as_str(), variable.value.as_str())?;
    Ok(())
}

/// Kills a process, if it may be killed.
pub fn kill(child: &mut process::Child) {
    let _ = child.kill();
}

/// Returns true if a process is seen to have ended by itself.
pub fn has_ended(child: &mut process::Child) -> bool {
    matches!(child.try_wait(), Ok(Some(_)))
}

/// Waits for a process that was killed, and returns how it ended. If it couldn't be killed (it may run as another
/// user), the kill is tried again for a while. Then the process is left alone.
pub fn wait_for(child: &mut process::Child) -> io::Result<ExitStatus> {
    for _ in 0..END_TRIES {
        if let Ok(Some(status)) = child.try_wait() {
            return Ok(status);
        }
        if child.kill().is_ok() {
            return waited(child);
        }
        rest(END_PAUSE);
    }
    Err(io::Error::from(ErrorKind::TimedOut))
}

fn waited(child: &mut process::Child) -> io::Result<ExitStatus> {
    for _ in 0..END_TRIES {
        match child.wait() {
            Err(error) if error.kind() == ErrorKind::Interrupted => {}
            ended => return ended,
        }
    }
    Err(io::Error::from(ErrorKind::TimedOut))
}

/// Kills a process, waits for it, and returns how it ended. This also works if it has ended already.
pub fn end(child: &mut process::Child) -> io::Result<ExitStatus> {
    kill(child);
    wait_for(child)
}
