// The words of a command, and its run's output on standard error. All of it is printed if memory suffices.
ghost use Rattle.std.specs.Prelude.{◌≡◌, ◌⊎◌, IfSome};
ghost use Rattle.std.specs.Process.{exit_status};
ghost use Rattle.build_report.specs.Faults.{fault_status};
ghost use Rattle.run_plan.specs.Sound.{Sound};

use crate::hints::{Cause, Outputs, Program};
use crate::reasons::Left;
use crate::{cures, hints, reasons};
use bare_calls::LockFile;
use outside::Floor;
use outside_real::RealFloor;
use std::alloc::Global;
use std::env::{self, Env};
use std::io::{self, Eprint, ErrorKind};
use std::process::{ExitCode, Processes, SystemProcess};
use std::rt::Files;
use std::sync::Wait;
use std::thread::Threads;
use worker_run::{Ended, RunFault, Stage, fault_line};

// The program's name in the line of a fault.
const NAMED: &str = "worker_tool";

/// Returns the words after the program's name.
///
/// # Errors
///
/// Returns `OutOfMemory` if memory runs out, and another error if a word isn't UTF-8.
pub fn words(rt: &(impl Env + AllocGlobal), alloc: Global) -> io::Result<Vec<String>> {
    let mut words = Vec::new(alloc);
    for word in env::args(rt)?.skip(1) {
        words.push(word)?;
    }
    Ok(words)
}

/// Reports that the words weren't read, and returns the exit code. Either memory ran out, or a word isn't UTF-8 and so
/// the words aren't accepted.
pub fn end_unread(rt: &impl Eprint, alloc: Global, program: &Program, error: &io::Error) -> ExitCode
    ensures { (exit_status result ≡ 2) ⊎ (exit_status result ≡ 3) }
{
    if error.kind() == ErrorKind::OutOfMemory {
        return end(rt, alloc, program, &RunFault::NoMemory(Stage::Before));
    }
    tell_fault(rt, alloc, program, &RunFault::Words);
    if let Ok(lines) = hints::unread_lines(alloc, program) {
        let _ = rt.eprint(lines.as_str());
    }
    ExitCode::from(RunFault::Words.status())
}

/// Reports the fault of a run that was not begun, and returns its status.
pub fn end(rt: &impl Eprint, alloc: Global, program: &Program, fault: &RunFault) -> ExitCode
    ensures { exit_status result ≡ fault_status fault.now }
{
    tell(rt, alloc, program, &[], &Cause::of(fault));
    ExitCode::from(fault.status())
}

/// Prints the fault's line, in this program's name, and the hints.
pub fn tell(
    rt: &impl Eprint,
    alloc: Global,
    program: &Program,
    words: &[String],
    cause: &Cause<'_, '_>,
) {
    tell_fault(rt, alloc, program, cause.fault);
    if let Ok(lines) = hints::lines(alloc, program, words, cause) {
        let _ = rt.eprint(lines.as_str());
    }
}

// Prints the fault's line, in this program's name.
fn tell_fault(rt: &impl Eprint, alloc: Global, program: &Program, fault: &RunFault) {
    if let Ok(line) = fault_line(alloc, fault) {
        let line = line.as_str();
        let _ = rt.eprint(program.name);
        let _ = rt.eprint(line.strip_prefix(NAMED).unwrap_or(line));
        let _ = rt.eprint("\n");
    }
}

/// Prints the outcome of a run with real objects, apart from its report, and returns the exit status. It prints the
/// fault with its cures, or why branches were dropped or spoiled. The words are only those that worker_tool has too.
pub fn tell_ended<R>(
    rt: &R,
    alloc: Global,
    program: &Program,
    words: &[String],
    ended: Ended<RealFloor<R>>,
) -> ExitCode
where
    R: Files<File: LockFile> + Processes<Started = SystemProcess>,
    R: AllocGlobal + Env + Eprint + Threads + Wait + Clone + Drop,
    requires { IfSome ended.task (λ t. Sound t.plan) }
    ensures { exit_status result ≡ ended.status }
{
    let Ended {
        status,
        fault,
        lack,
        task,
        mut floor,
        laid,
    } = ended;
    if let Some(fault) = &fault {
        let cause = Cause {
            fault,
            lack,
            last_error: floor.last_error(),
            outputs: Outputs::Files,
        };
        tell(rt, alloc, program, words, &cause);
        tell_cures(rt, alloc, words, &mut floor, fault);
    } else if let Some(task) = &task {
        let left = Left {
            plan: &task.plan,
            actions: task.work.actions.as_slice(),
            journal: &laid.journal,
            berths: &laid.berths,
            lines: &laid.lines,
            places: &laid.places,
        };
        tell_reasons(rt, alloc, status, &left);
        if status != 0
            && let Ok(actions) = reasons::unsuccessful(alloc, &task.plan, &laid.journal)
            && let Ok(lines) = cures::lines_of_keys(alloc, words, &mut floor, actions.as_slice())
        {
            let _ = rt.eprint(lines.as_str());
        }
    }
    ExitCode::from(status)
}

/// Reports that no strategy supports this action, and what can be done about it.
pub fn tell_refused(rt: &impl Eprint, alloc: Global, program: &Program, action: u32) {
    let name = program.name;
    if let Ok(line) = format!(in alloc; "{name}: no strategy for action {action}\n") {
        let _ = rt.eprint(line.as_str());
    }
    let _ = rt.eprint(
        "  its list has worker or dynamic alone, which want supports-workers and a flag file among its words:
  give it these, or name sandboxed or remote too, as in --strategy=MNEMONIC=worker,sandboxed
",
    );
}

// Prints further hints: the action that is meant, and the part of it.
fn tell_cures(
    rt: &(impl Eprint + Env + Files + AllocGlobal),
    alloc: Global,
    words: &[String],
    floor: &mut impl Floor,
    fault: &RunFault,
) {
    if let Ok(lines) = cures::lines(rt, alloc, words, floor, fault) {
        let _ = rt.eprint(lines.as_str());
    }
}

// Prints why branches were dropped or spoiled, if some action has no success.
fn tell_reasons<R>(rt: &impl Eprint, alloc: Global, status: u8, left: &Left<'_, R>)
    requires { Sound left.now.plan.now }
{
    if status != 0
        && let Ok(lines) = reasons::lines(alloc, left)
    {
        let _ = rt.eprint(lines.as_str());
    }
}
