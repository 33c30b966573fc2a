// The words of a report.
ghost use Rattle.std.specs.Prelude.{◌≡◌, ◌<◌, length, slice_get, IfOk, OnOk, string_bytes, Some, codes, ◌++◌, ◌∷◌, []};
ghost use Rattle.build_report.specs.Words.{branch_word, outcome_words, fate_words, cause_words, marked, name_of, path_of};

use exec_journal::{Branch, Cause, Fate, Outcome, Plan};
use plain_values::NoMemory;
use std::alloc::Global;

fn branch_name(branch: Branch) -> &'static str
    ensures { result.now ≡ branch_word branch }
{
    match branch {
        Branch::Local => "local",
        Branch::Remote => "remote",
    }
}

/// Returns the outcome in the words of the report.
pub fn outcome_text(alloc: Global, plan: &Plan, outcome: Outcome) -> Result<String, NoMemory>
    ensures { IfOk result (λ s. string_bytes s ≡ outcome_words plan.now outcome) }
{
    let text = match outcome {
        Outcome::Success(branch) => {
            let branch = branch_name(branch);
            format!(in alloc; "ok {branch}")?
        }
        Outcome::Failed(branch, code) => {
            let branch = branch_name(branch);
            format!(in alloc; "failed {branch} {code}")?
        }
        Outcome::Spoiled(..) | Outcome::Dropped => String::from_str(alloc, "broken")?,
        Outcome::Skipped(producer) => {
            let producer = action_name(plan, producer);
            format!(in alloc; "skipped {producer}")?
        }
        Outcome::Unsettled => String::from_str(alloc, "open")?,
    };
    Ok(text)
}

pub fn action_name(plan: &Plan, action: u32) -> &str
    ensures { result.now ≡ name_of plan.now action }
{
    match plan.actions.as_slice().get(action as usize) {
        Some(work) => work.name.as_str(),
        None => "",
    }
}

fn output_path(plan: &Plan, action: u32, output: u32) -> &str
    ensures { result.now ≡ path_of plan.now action output }
{
    match plan.actions.as_slice().get(action as usize) {
        Some(work) => match work.outputs.as_slice().get(output as usize) {
            Some(path) => path.as_str(),
            None => "",
        },
        None => "",
    }
}

/// Returns the fate of a branch of the action in the words of the report.
pub fn fate_text(alloc: Global, plan: &Plan, action: u32, fate: Fate) -> Result<String, NoMemory>
    ensures { IfOk result (λ s. string_bytes s ≡ fate_words plan.now action fate) }
{
    let text = match fate {
        Fate::Unused => String::from_str(alloc, "unused")?,
        Fate::Spoiled(written) => format!(in alloc; "spoiled:{written}")?,
        Fate::Won => String::from_str(alloc, "won")?,
        Fate::Dropped(cause, attempts) => {
            let cause = cause_text(alloc, plan, action, cause)?;
            let cause = cause.as_str();
            format!(in alloc; "dropped:{cause}:{attempts}")?
        }
        Fate::Lost => String::from_str(alloc, "lost")?,
        Fate::Idle => String::from_str(alloc, "idle")?,
    };
    Ok(text)
}

fn cause_text(alloc: Global, plan: &Plan, action: u32, cause: Cause) -> Result<String, NoMemory>
    ensures { IfOk result (λ s. string_bytes s ≡ cause_words plan.now action cause) }
{
    let text = match cause {
        Cause::Died => String::from_str(alloc, "died")?,
        Cause::Tap => String::from_str(alloc, "tap")?,
        Cause::Frame => String::from_str(alloc, "frame")?,
        Cause::Long => String::from_str(alloc, "long")?,
        Cause::Breach => String::from_str(alloc, "breach")?,
        Cause::Feed => String::from_str(alloc, "feed")?,
        Cause::Launch => String::from_str(alloc, "launch")?,
        Cause::Room => String::from_str(alloc, "room")?,
        Cause::Large => String::from_str(alloc, "large")?,
        Cause::Refused => String::from_str(alloc, "refused")?,
        Cause::Missing(output) => {
            let path = output_path(plan, action, output);
            format!(in alloc; "missing({path})")?
        }
    };
    Ok(text)
}

/// Appends the text to the report, with each of its lines marked.
pub fn push_marked(report: &mut String, text: &str) -> Result<(), NoMemory>
    ensures { OnOk result (string_bytes report.new ≡ string_bytes report.old ++ marked text.now) }
{
    let mut rest = text;
    while let Some((line, after)) = rest.split_once('\n') {
        push_line(report, line)?;
        rest = after;
    }
    if !rest.is_empty() {
        push_line(report, rest)?;
    }
    Ok(())
}

fn push_line(report: &mut String, line: &str) -> Result<(), NoMemory>
    ensures { OnOk result (string_bytes report.new ≡ string_bytes report.old ++ (codes "  | " ++
        (line.now ++ (10 ∷ [])))) }
{
    report.push_str("  | ")?;
    report.push_str(line)?;
    report.push_str("\n")?;
    Ok(())
}
