// One run, and the records of its objects.
use crate::case::Case;
use outside::{BerthCall, Command, PlaceWrite, Read};
use outside_mem::{FailAt, MemFloor, MemSink, Script};
use plain_values::{NoMemory, Text};
use std::alloc::Global;
use std::sync::Wait;
use worker_run::{Ended, fault_line};

/// The part of a run that is printed. If lanes run in parallel, some things differ from one run to the
/// next.
#[derive(Clone, Copy, PartialEq, Eq)]
pub enum Shown {
    /// The number of lines and writes, and the report.
    All,
    /// The number of the report's lines, and the last of them.
    Totals,
}

/// Returns the script of the next run, its sink, and the arguments of this line.
pub fn stage(
    alloc: Global,
    case: &mut Case,
    line: &str,
) -> Result<(Script, MemSink, Vec<String>), NoMemory> {
    let words = words(alloc, line)?;
    let script = case.script(alloc)?;
    let fails = fails_again(alloc, script.fails.as_slice())?;
    Ok((script, MemSink::new(alloc, fails), words))
}

fn fails_again(alloc: Global, fails: &[FailAt]) -> Result<Vec<FailAt>, NoMemory> {
    let mut copies = Vec::new(alloc);
    for fail in fails {
        copies.push(*fail)?;
    }
    Ok(copies)
}

fn words(alloc: Global, line: &str) -> Result<Vec<String>, NoMemory> {
    let mut words = Vec::new(alloc);
    if !line.is_empty() {
        for word in line.split(' ') {
            words.push(String::from_str(alloc, word)?)?;
        }
    }
    Ok(words)
}

/// Returns the result of a run as text.
pub fn tell<R: Wait + Clone + Drop>(
    alloc: Global,
    ended: &Ended<MemFloor<R>>,
    shown: Shown,
    report: &str,
) -> Result<String, NoMemory> {
    let mut told = first_words(alloc, ended)?;
    match shown {
        Shown::All => push_all(alloc, ended, report, &mut told)?,
        Shown::Totals => push_totals(alloc, report, &mut told)?,
    }
    if let Some(fault) = &ended.fault {
        push_line(fault_line(alloc, fault)?.as_str(), &mut told)?;
    }
    Ok(told)
}

fn first_words<R: Wait + Clone + Drop>(
    alloc: Global,
    ended: &Ended<MemFloor<R>>,
) -> Result<String, NoMemory> {
    let berths = ended.laid.berths.len();
    let killed = ended.laid.lines.iter().all(|line| line
        .halves
        .as_ref()
        .is_none_or(|halves| halves.child.is_killed()));
    let unsaid_killed = ended.laid.unsaid.iter().all(|line| line
        .as_ref()
        .is_none_or(|line| line.child.is_killed()));
    let killed = killed && unsaid_killed;
    Ok(format!(in alloc; "status {} berths {berths} killed {killed}", ended.status)?)
}

fn push_all<R: Wait + Clone + Drop>(
    alloc: Global,
    ended: &Ended<MemFloor<R>>,
    report: &str,
    told: &mut String,
) -> Result<(), NoMemory> {
    let lines = ended.laid.lines.len();
    let started = ended.laid.lines.iter().filter(|line| line.halves.is_some());
    let counts = format!(in alloc; " lines {lines} started {}", started.count())?;
    push_line(counts.as_str(), told)?;
    told.push_str(report)?;
    Ok(())
}

fn push_totals(alloc: Global, report: &str, told: &mut String) -> Result<(), NoMemory> {
    let count = format!(in alloc; " report {}", report.lines().count())?;
    push_line(count.as_str(), told)?;
    match report.lines().last() {
        Some(totals) => push_line(totals, told),
        None => Ok(()),
    }
}

fn push_line(line: &str, told: &mut String) -> Result<(), NoMemory> {
    told.push_str(line)?;
    told.push_str("\n")?;
    Ok(())
}

/// Returns the writes to each action's place, one a line: the action's number, the path, and the bytes in
/// hexadecimal.
pub fn writes<R: Wait + Clone + Drop>(
    alloc: Global,
    ended: &Ended<MemFloor<R>>,
) -> Result<String, NoMemory> {
    let mut told = String::new(alloc);
    for (action, place) in ended.laid.places.iter().enumerate() {
        tell_writes(alloc, action, place.log(), &mut told)?;
    }
    Ok(told)
}

fn tell_writes(
    alloc: Global,
    action: usize,
    writes: &[PlaceWrite],
    told: &mut String,
) -> Result<(), NoMemory> {
    for PlaceWrite { path, bytes } in writes {
        let digits = hex::encode(alloc, bytes.bytes())?;
        let line = format!(in alloc; "write {action} {} {}\n", path.as_str(), digits.as_str())?;
        told.push_str(line.as_str())?;
    }
    Ok(())
}

/// Returns the paths that the floor was asked for, in order.
pub fn reads<R: Wait + Clone + Drop>(
    alloc: Global,
    ended: &Ended<MemFloor<R>>,
) -> Result<String, NoMemory> {
    let mut told = String::from_str(alloc, "reads")?;
    for read in ended.floor.log() {
        told.push_str(" ")?;
        told.push_str(read.path.as_str())?;
    }
    told.push_str("\n")?;
    Ok(told)
}

/// Returns the calls on the first berth, one a line.
pub fn room<R: Wait + Clone + Drop>(
    alloc: Global,
    ended: &Ended<MemFloor<R>>,
) -> Result<String, NoMemory> {
    let mut told = String::new(alloc);
    for call in calls(ended) {
        push_line(called(alloc, call)?.as_str(), &mut told)?;
    }
    Ok(told)
}

fn calls<R: Wait + Clone + Drop>(ended: &Ended<MemFloor<R>>) -> &[BerthCall] {
    match ended.laid.berths.first() {
        Some(berth) => berth.log().unwrap_or(&[]),
        None => &[],
    }
}

/// Returns the contents that were put into the first berth's room and found there, one a line, and if the digest
/// of each is known. It is known to all owners of a content if one has computed it.
pub fn digests<R: Wait + Clone + Drop>(
    alloc: Global,
    ended: &Ended<MemFloor<R>>,
) -> Result<String, NoMemory> {
    let mut told = String::new(alloc);
    for call in calls(ended) {
        let content = match call {
            BerthCall::Put { bytes, .. } => Some(bytes),
            BerthCall::Get {
                answer: Read::Found(bytes),
                ..
            } => Some(bytes),
            _ => None,
        };
        if let Some(content) = content {
            let known = if content.knows_digest() {
                "known"
            } else {
                "unknown"
            };
            let line = format!(in alloc; "{} {known}", called(alloc, call)?.as_str())?;
            push_line(line.as_str(), &mut told)?;
        }
    }
    Ok(told)
}

fn called(alloc: Global, call: &BerthCall) -> Result<String, NoMemory> {
    match call {
        BerthCall::Launch { command, .. } => launch(alloc, command),
        BerthCall::Clear { part, .. } => called_on(alloc, "clear", part),
        BerthCall::Folder { path, .. } => called_on(alloc, "folder", path),
        BerthCall::Put { path, .. } => called_on(alloc, "put", path),
        BerthCall::Get { path, .. } => called_on(alloc, "get", path),
        BerthCall::End { line } => Ok(format!(in alloc; "end {line}")?),
    }
}

fn called_on(alloc: Global, call: &str, path: &Text) -> Result<String, NoMemory> {
    Ok(format!(in alloc; "{call} {}", path.as_str())?)
}

fn launch(alloc: Global, command: &Command) -> Result<String, NoMemory> {
    let mut line = format!(in alloc; "launch {}", command.program.as_str())?;
    for word in command.words.as_slice() {
        push_word(word, &mut line)?;
    }
    for variable in command.env.as_slice() {
        push_word(&variable.name, &mut line)?;
        line.push_str("=")?;
        line.push_str(variable.value.as_str())?;
    }
    Ok(line)
}

fn push_word(word: &Text, line: &mut String) -> Result<(), NoMemory> {
    line.push_str(" ")?;
    line.push_str(word.as_str())?;
    Ok(())
}

/// Returns the bytes that the first line was given, in hexadecimal.
pub fn given<R: Wait + Clone + Drop>(
    alloc: Global,
    ended: &Ended<MemFloor<R>>,
) -> Result<String, NoMemory> {
    match ended
        .laid
        .lines
        .first()
        .and_then(|line| line.halves.as_ref())
    {
        Some(halves) => {
            let digits = hex::encode(alloc, halves.feed.given())?;
            Ok(format!(in alloc; "given {}\n", digits.as_str())?)
        }
        None => Ok(String::from_str(alloc, "given nothing\n")?),
    }
}
