// The hints that follow the line of a fault on standard error. They begin with two spaces.
use crate::rules::broken_rule;
use fault_hints::word_lines;
use list_actions::ListFault;
use plain_values::NoMemory;
use std::alloc::Global;
use std::io;
use worker_run::{Lack, RunFault, Stage};

/// The texts about a program and its words on standard error.
#[derive(Clone, Copy)]
pub struct Program {
    pub name: &'static str,
    /// Its rule for words together that are each accepted, apart from those that `rules` knows.
    pub together: &'static str,
    /// Its options, one per line.
    pub options: &'static str,
    /// True if --generate is one of its words.
    pub generates: bool,
    pub prints: Prints,
}

/// The text that a program prints about a run, on standard output.
#[derive(Clone, Copy)]
pub enum Prints {
    Report,
    /// The report, and then the text of the run's journal.
    ReportAndJournal,
}

/// The place of the outputs that a run makes.
#[derive(Clone, Copy)]
pub enum Outputs {
    Files,
    /// They don't outlast the run, which is in memory, or no run was begun.
    Nowhere,
}

/// The reason that a run ended without its whole report.
#[derive(Drop)]
pub struct Cause<'a, 'b> {
    pub fault: &'a RunFault,
    /// The resource that was lacking, if no lane was started.
    pub lack: Option<Lack>,
    /// The last error of the floor.
    pub last_error: Option<&'b io::Error>,
    pub outputs: Outputs,
}

impl<'a, 'b> Cause<'a, 'b> {
    /// Returns the cause for a run that was not begun. It consists only of the fault.
    pub fn of(fault: &'a RunFault) -> Cause<'a, 'b> {
        Cause {
            fault,
            lack: None,
            last_error: None,
            outputs: Outputs::Nowhere,
        }
    }
}

/// The rule for all words of a program that runs a list or a generated one.
pub const TOGETHER: &str =
    "there is one list or one --generate, and every option but --extra_flag stands once at most";

/// The options of such a program.
pub const OPTIONS: &str =
    "  LIST                              the path of the action list that is run
  --instances=N                     at most N workers of one key, 1 to 48 (4)
  --remote=N                        at most N executors, 1 to 16 (1)
  --retries=N                       make an attempt again up to N times, 0 to 9 (1)
  --executor=PROGRAM                the executor's program (remote_exec)
  --extra_flag=WORD                 a further start-up word of each worker; may stand several times
  --worker_verbose                  ask the workers to say more
  --generate=N                      in place of LIST: a list of N actions, 1 to 1000, in memory
  more: docs/GUIDE.md
";

/// Returns the lines about a fault of this program with these words, each with its line feed. There are none if there
/// is nothing to add.
///
/// # Errors
///
/// Returns `NoMemory` if memory runs out.
pub fn lines(
    alloc: Global,
    program: &Program,
    words: &[String],
    cause: &Cause<'_, '_>,
) -> Result<String, NoMemory> {
    match (cause.fault, cause.last_error) {
        (RunFault::Words, _) => {
            let lines = broken_lines(alloc, program, words)?;
            with_usage(alloc, program, lines)
        }
        // The cures report what the action lacks, since they name the requirement.
        (RunFault::List(ListFault::NoStrategy { .. }), _) => Ok(String::new(alloc)),
        (RunFault::List(fault), _) => Ok(format!(in alloc; "  {fault}\n")?),
        (RunFault::FloorFailed { .. }, Some(error)) => Ok(format!(in alloc; "  {error}\n")?),
        (RunFault::NoMemory(stage), _) => stage_lines(alloc, program.prints, cause, *stage),
        _ => Ok(String::new(alloc)),
    }
}

/// Returns the lines about words of which one isn't UTF-8.
///
/// # Errors
///
/// Returns `NoMemory` if memory runs out.
pub fn unread_lines(alloc: Global, program: &Program) -> Result<String, NoMemory> {
    let line = String::from_str(alloc, "  a word isn't UTF-8\n")?;
    with_usage(alloc, program, line)
}

// Returns the lines about words that aren't accepted, alone or together.
fn broken_lines(alloc: Global, program: &Program, words: &[String]) -> Result<String, NoMemory> {
    let made = words.iter().find(|word| word.starts_with("--generate="));
    if let Some(word) = made
        && !program.generates
    {
        return Ok(format!(in alloc; "  this word isn't accepted: {:?}\n", word.as_str())?);
    }
    let rule = broken_rule(alloc, program, words)?;
    word_lines(alloc, words, rule.as_str())
}

// Returns these lines with the program's usage behind them.
fn with_usage(alloc: Global, program: &Program, lines: String) -> Result<String, NoMemory> {
    let mut lines = lines;
    let name = program.name;
    lines.push_str(format!(in alloc; "  usage: {name} [OPTION].. LIST\n")?.as_str())?;
    lines.push_str(program.options)?;
    Ok(lines)
}

// Returns the lines that tell what is left of a run that lacked memory or threads in this stage.
fn stage_lines(
    alloc: Global,
    prints: Prints,
    cause: &Cause<'_, '_>,
    stage: Stage,
) -> Result<String, NoMemory> {
    if let (Stage::Before, Some(Lack::Threads { wanted, started })) = (stage, cause.lack) {
        return Ok(format!(in alloc;
            "  the system started {started} of {wanted} threads, so nothing was begun: look at ulimit -u, pids.max and the free memory\n"
        )?);
    }
    let mut lines = String::from_str(alloc, outputs_line(stage, cause.outputs))?;
    lines.push_str(missing_line(stage, prints))?;
    Ok(lines)
}

// Returns the line about the outputs of a run that lacked memory in this stage.
fn outputs_line(stage: Stage, outputs: Outputs) -> &'static str {
    match (stage, outputs) {
        (Stage::Before, _) => "  nothing was begun\n",
        (Stage::During, Outputs::Files) => {
            "  memory ran out during the run: the outputs of actions that succeeded are in place, and some of others may be\n"
        }
        (Stage::During, Outputs::Nowhere) => "  memory ran out during the run\n",
        (Stage::After, Outputs::Files) => {
            "  memory ran out after the run: the outputs of actions that succeeded are in place\n"
        }
        (Stage::After, Outputs::Nowhere) => "  memory ran out after the run\n",
    }
}

// Returns the line about the texts that such a run didn't print. Nothing else is known about them than the stage, so a text
// that may have been printed is left to what the reader sees.
fn missing_line(stage: Stage, prints: Prints) -> &'static str {
    match (stage, prints) {
        (Stage::Before, _) => "",
        (Stage::During, Prints::Report) => {
            "  the report says which succeeded, if it could be written\n"
        }
        (Stage::During, Prints::ReportAndJournal) => {
            "  the report says which succeeded, if it could be written; the journal's text is missing\n"
        }
        (Stage::After, Prints::Report) => "  only the report is missing\n",
        (Stage::After, Prints::ReportAndJournal) => {
            "  the journal's text is missing, or the report with it\n"
        }
    }
}
