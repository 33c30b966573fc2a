// The reasons that branches were dropped or spoiled: a line for each, with the system's error and, if it is known, what to do.
ghost use Rattle.run_plan.specs.Sound.{Sound};

use branch_losses::{Loss, Order, losses};
use exec_journal::{Answer, Cause, Fate, Journal, Outcome};
use journal_ends::action_ends;
use lane_runs::{EndedLine, Halves};
use outside_real::{RealBerth, RealChild, RealFeed, RealPlace, RealTap, Reason};
use plain_values::NoMemory;
use remote_messages::WorkAction;
use run_plan::{Branch, Kind, Plan, PlanAction};
use std::alloc::Global;
use std::ascii::escape_default;
use std::io::ErrorKind;
use std::os::unix::process::ExitStatusExt;

/// What is left of a run with real objects.
#[derive(Drop)]
pub struct Left<'a, R> {
    pub plan: &'a Plan,
    pub actions: &'a [WorkAction],
    pub journal: &'a Journal,
    pub berths: &'a [RealBerth<R>],
    pub lines: &'a [EndedLine<RealFeed<R>, RealTap, RealChild<R>>],
    pub places: &'a [RealPlace<R>],
}

/// Returns a line for each branch that has no attempt left, or whose outputs couldn't be written: the losses of the
/// journal.
///
/// # Errors
///
/// Returns `NoMemory` if memory runs out.
pub fn lines<R>(alloc: Global, left: &Left<'_, R>) -> Result<String, NoMemory>
    requires { Sound left.now.plan.now }
{
    let mut lines = String::new(alloc);
    for loss in losses(alloc, left.plan, left.journal)? {
        if let Some(action) = left.plan.actions.as_slice().get(loss.action as usize) {
            let why = left.why(alloc, action, &loss)?;
            let name = action.name.as_str();
            lines.push_str(format!(in alloc; "  {name}: {why}\n")?.as_str())?;
        }
    }
    Ok(lines)
}

/// Returns the numbers of the actions that have no success.
///
/// # Errors
///
/// Returns `NoMemory` if memory runs out.
pub fn unsuccessful(alloc: Global, plan: &Plan, journal: &Journal) -> Result<Vec<u32>, NoMemory>
    requires { Sound plan.now }
{
    let mut numbers = Vec::new(alloc);
    for (number, end) in action_ends(alloc, plan, journal)?.iter().enumerate() {
        if !matches!(end.outcome, Outcome::Success(_))
            && let Ok(number) = u32::try_from(number)
        {
            numbers.push(number)?;
        }
    }
    Ok(numbers)
}

impl<'a, R> Left<'a, R> {
    fn why(&self, alloc: Global, action: &PlanAction, loss: &Loss<'_>) -> Result<String, NoMemory> {
        match (loss.fate, loss.order) {
            (Fate::Dropped(Cause::Missing(output), _), _) => {
                missing(alloc, action, output, self.is_boxed(action, loss.branch))
            }
            (Fate::Dropped(Cause::Refused, _), _) => refused(alloc, loss.refusal),
            (Fate::Dropped(Cause::Large, _), _) => {
                said(
                    alloc,
                    "its job for an executor has more than 64 MiB with its inputs",
                )
            }
            (Fate::Dropped(cause, _), Some(order)) => self.dropped(
                alloc,
                loss.action,
                cause,
                order,
            ),
            _ => match self.places.get(loss.action as usize) {
                Some(place) => undone(alloc, "written", place.reasons().last()),
                None => undone(alloc, "written", None),
            },
        }
    }

    // Returns why the last attempt of a branch of this action ended. `order` is its last order.
    fn dropped(
        &self,
        alloc: Global,
        number: u32,
        cause: Cause,
        order: Order,
    ) -> Result<String, NoMemory> {
        let line = order.line;
        match cause {
            Cause::Launch => not_started(alloc, self.launch_reason(line)),
            Cause::Room => undone(alloc, "used in the room", self.room_reason(number, order)),
            Cause::Feed => self.unwritten(alloc, line),
            Cause::Breach => self.wrote(alloc, line, "answered what wasn't asked"),
            Cause::Frame => self.wrote(alloc, line, "wrote what is no answer"),
            Cause::Long => said(alloc, "it wrote more than an answer may have"),
            Cause::Tap => self.unread(alloc, line),
            _ => {
                let end = self.end(alloc, line, "output")?;
                Ok(format!(in alloc; "no answer came: {end}")?)
            }
        }
    }

    fn is_boxed(&self, action: &PlanAction, branch: Branch) -> bool {
        let group = match branch {
            Branch::Local => action.local,
            Branch::Remote => action.remote,
        };
        match group.and_then(|group| self.plan.groups.as_slice().get(group as usize)) {
            Some(group) => group.kind == Kind::Boxed,
            None => false,
        }
    }

    fn launch_reason(&self, line: u32) -> Option<&Reason> {
        self.berths
            .iter()
            .find_map(|berth| berth.launch_reason(line))
    }

    // Returns why a call failed in the room in which the action was last tried. This is the room's last reason that
    // names one of the action's files. If there is none, it is the last reason of all.
    fn room_reason(&self, number: u32, order: Order) -> Option<&Reason> {
        let reasons = self.berths.get((order.lane / 2) as usize)?.room_reasons();
        let action = self.actions.get(number as usize)?;
        let own = reasons
            .iter()
            .rev()
            .find(|reason| names_file(action, reason.path.as_str()));
        own.or(reasons.last())
    }

    fn halves(&self, line: u32) -> Option<&Halves<RealFeed<R>, RealTap, RealChild<R>>> {
        self.lines.get(line as usize)?.halves.as_ref()
    }

    fn unwritten(&self, alloc: Global, line: u32) -> Result<String, NoMemory> {
        let Some(error) = self
            .halves(line)
            .and_then(|halves| halves.feed.last_error())
        else {
            return said(alloc, "the request couldn't be given");
        };
        // With any other error the process went on until it was killed for it.
        if error.kind() != ErrorKind::BrokenPipe {
            return Ok(format!(in alloc; "the request couldn't be given: {error}")?);
        }
        let end = self.end(alloc, line, "input")?;
        Ok(format!(in alloc; "the request couldn't be given: {error}; {end}")?)
    }

    fn unread(&self, alloc: Global, line: u32) -> Result<String, NoMemory> {
        match self.halves(line).and_then(|halves| halves.tap.last_error()) {
            Some(error) => Ok(format!(in alloc; "its output couldn't be read: {error}")?),
            None => said(alloc, "its output couldn't be read"),
        }
    }

    // Returns what a line's process wrote last, and how it ended.
    fn wrote(&self, alloc: Global, line: u32, what: &str) -> Result<String, NoMemory> {
        let bytes = match self.halves(line) {
            Some(halves) => halves.tap.last_bytes(),
            None => &[],
        };
        let shown = escaped(alloc, bytes)?;
        Ok(format!(in alloc; "it {what}; the last that it wrote begins \"{shown}\"")?)
    }

    // Returns how a line's process ended: by itself, or by the kill because it had closed this pipe.
    fn end(&self, alloc: Global, line: u32, closed: &str) -> Result<String, NoMemory> {
        let Some(end) = self.halves(line).and_then(|halves| halves.child.end()) else {
            return said(alloc, "how the process ended isn't known");
        };
        if !end.by_itself {
            return Ok(format!(in alloc; "the process closed its {closed}, and went on")?);
        }
        match (end.status.code(), end.status.signal()) {
            (Some(code), _) => Ok(format!(in alloc; "the process ended with status {code}")?),
            (None, Some(KILLED)) => {
                said(
                    alloc,
                    "the process was killed, by the system for want of memory or by another process",
                )
            }
            (None, Some(signal)) => {
                Ok(format!(in alloc; "the process was ended by signal {signal}")?)
            }
            _ => said(alloc, "how the process ended isn't known"),
        }
    }
}

// The signal by which a process is killed.
const KILLED: i32 = 9;

// The system's error number for a file that isn't a program.
const NO_PROGRAM: i32 = 8;

fn said(alloc: Global, words: &str) -> Result<String, NoMemory> {
    Ok(String::from_str(alloc, words)?)
}

// Returns true if a path ends with the path of one of an action's files.
fn names_file(action: &WorkAction, path: &str) -> bool {
    let mut inputs = action.inputs.as_slice().iter();
    let mut outputs = action.outputs.as_slice().iter();
    inputs.any(|input| path.ends_with(input.path.as_str()))
        || outputs.any(|output| path.ends_with(output.as_str()))
}

// Returns a text of another program for a terminal, with its control characters escaped.
fn printable(alloc: Global, text: &str) -> Result<String, NoMemory> {
    let mut shown = String::new(alloc);
    for character in text.chars() {
        if character.is_control() {
            for part in character.escape_default() {
                shown.push(part)?;
            }
        } else {
            shown.push(character)?;
        }
    }
    Ok(shown)
}

// Returns the bytes, with those escaped that aren't printable ASCII.
fn escaped(alloc: Global, bytes: &[u8]) -> Result<String, NoMemory> {
    let mut shown = String::new(alloc);
    for byte in bytes {
        for character in escape_default(*byte) {
            shown.push(char::from(character))?;
        }
    }
    Ok(shown)
}

fn not_started(alloc: Global, reason: Option<&Reason>) -> Result<String, NoMemory> {
    let Some(Reason { path, error }) = reason else {
        return said(alloc, "its program couldn't be started");
    };
    let cure = match error.kind() {
        ErrorKind::PermissionDenied => format!(in alloc; "; if it is a file, chmod +x {path}")?,
        ErrorKind::NotFound => {
            let searched = if path.as_str().contains('/') {
                ""
            } else {
                " PATH isn't searched"
            };
            format!(in alloc; "; is it there, and what its first line names behind #!?{searched}")?
        }
        _ if error.raw_os_error() == Some(NO_PROGRAM) => {
            said(alloc, "; a script begins with a line as #!/bin/sh")?
        }
        _ => String::new(alloc),
    };
    Ok(format!(in alloc; "{path} couldn't be started: {error}{cure}")?)
}

fn undone(alloc: Global, what: &str, reason: Option<&Reason>) -> Result<String, NoMemory> {
    match reason {
        Some(Reason { path, error }) => {
            Ok(format!(in alloc; "{path} couldn't be {what}: {error}")?)
        }
        None => Ok(format!(in alloc; "a file couldn't be {what}")?),
    }
}

fn missing(
    alloc: Global,
    action: &PlanAction,
    output: u32,
    is_boxed: bool,
) -> Result<String, NoMemory> {
    let path = match action.outputs.as_slice().get(output as usize) {
        Some(path) => path.as_str(),
        None => "an output",
    };
    let place = if is_boxed {
        "the request's own folder below __sandbox, which the list asks for by supports-multiplex-sandboxing"
    } else {
        "its room"
    };
    Ok(format!(in alloc; "it answered, and left no regular file at {path} in {place}")?)
}

// Returns what the executor reported, and what it means.
fn refused(alloc: Global, answer: Option<&Answer>) -> Result<String, NoMemory> {
    let said_by = match answer {
        Some(answer) => answer.refusal.as_str(),
        None => "",
    };
    let meaning = match said_by {
        "ended by a signal" =>
            "; its program crashed or was killed, and the executor itself is well",
        "cannot start" =>
            "; its program is looked for in the executor's folder, as PATH isn't searched",
        _ => "",
    };
    let shown = printable(alloc, said_by)?;
    Ok(format!(in alloc; "the executor refused it: {shown}{meaning}")?)
}
