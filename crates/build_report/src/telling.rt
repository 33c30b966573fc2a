ghost use Rattle.std.specs.Prelude.{◌≡◌, ◌++◌, [], ◌<◌, ◌^◌, length, reverse, string_bytes, IfOk, OnOk, map, option_copied, if◌then◌else◌};
ghost use Rattle.run_plan.specs.Sound.{Sound};
ghost use Rattle.build_report.specs.Report.{report_of, report_by, status_of, is_success, has_failed, is_broken, is_skipped, count_of, lines_from, lines_told, end_line, answer_text, last_line, totals_line};
ghost use Rattle.build_report.specs.Words.{marked};

use crate::words::{action_name, fate_text, outcome_text, push_marked};
use exec_journal::{ActionEnd, Answer, Journal, Outcome, Plan};
use journal_ends::{action_ends, is_all_success, winning_answers};
use plain_values::{NoMemory, Text};
use std::alloc::Global;

/// Returns the report of a run, by its journal. It has a line for each action of the plan, with its outcome and the
/// fates of its branches. The text of the answer that won the action follows that line. The last line contains the
/// totals. A short report is only that last line.
///
/// # Errors
///
/// Returns `NoMemory` if memory runs out.
pub fn report(alloc: Global, plan: &Plan, j: &Journal, short: bool) -> Result<Text, NoMemory>
    requires { Sound plan.now }
    ensures { IfOk result (λ text. text ≡ report_of plan.now (reverse j.now) short) }
{
    let ends = action_ends(alloc, plan, j)?;
    let text = report_text(alloc, plan, j, short, ends.as_slice())?;
    Ok(Text::of(text))
}

/// Returns the status of a run without a fault: 0 if every action has success, otherwise 1. It takes no memory.
pub fn status(plan: &Plan, j: &Journal) -> u8
    requires { Sound plan.now }
    ensures { result ≡ status_of plan.now (reverse j.now) }
{
    if is_all_success(plan, j) { 0 } else { 1 }
}

fn report_text(
    alloc: Global,
    plan: &Plan,
    j: &Journal,
    short: bool,
    ends: &[ActionEnd],
) -> Result<String, NoMemory>
    requires few { length ends.now < 2 ^ 32 }
    requires count { length ends.now ≡ length plan.now.actions }
    ensures { IfOk result (λ s. string_bytes s ≡ report_by plan.now
        (reverse j.now) short ends.now) }
{
    let mut text = String::new(alloc);
    if !short {
        push_lines(alloc, &mut text, plan, j, ends)?;
    }
    let last = totals(alloc, ends)?;
    text.push_str(last.as_str())?;
    Ok(text)
}

// Appends the lines of all actions.
fn push_lines(
    alloc: Global,
    text: &mut String,
    plan: &Plan,
    j: &Journal,
    ends: &[ActionEnd],
) -> Result<(), NoMemory>
    requires few { length ends.now < 2 ^ 32 }
    requires count { length ends.now ≡ length plan.now.actions }
    ensures { OnOk result (string_bytes text.new ≡ string_bytes text.old ++ lines_from plan.now
        (reverse j.now) 0 ends.now) }
{
    let answers = winning_answers(alloc, plan, j)?;
    push_told(alloc, text, plan, ends, answers.as_slice())
}

fn push_told(
    alloc: Global,
    text: &mut String,
    plan: &Plan,
    ends: &[ActionEnd],
    answers: &[Option<&Answer>],
) -> Result<(), NoMemory>
    requires few { length ends.now < 2 ^ 32 }
    requires count { length ends.now ≡ length answers.now }
    ensures { OnOk result (string_bytes text.new ≡ string_bytes text.old
        ++ lines_told plan.now 0 ends.now (map option_copied answers.now)) }
{
    for (a, end) in ends.iter().enumerate() {
        push_action(alloc, text, plan, a as u32, end, text_of(answers[a]))?;
    }
    Ok(())
}

fn push_action(
    alloc: Global,
    text: &mut String,
    plan: &Plan,
    action: u32,
    end: &ActionEnd,
    answer: &str,
) -> Result<(), NoMemory>
    ensures { OnOk result (string_bytes text.new ≡ string_bytes text.old ++
        (end_line plan.now action end.now ++ marked answer.now)) }
{
    let line = end_text(alloc, plan, action, end)?;
    text.push_str(line.as_str())?;
    push_marked(text, answer)
}

fn text_of(answer: Option<&Answer>) -> &str
    ensures { result.now ≡ answer_text (option_copied answer.entry) }
{
    match answer {
        Some(answer) => answer.text.as_str(),
        None => "",
    }
}

fn end_text(alloc: Global, plan: &Plan, action: u32, end: &ActionEnd) -> Result<String, NoMemory>
    ensures { IfOk result (λ s. string_bytes s ≡ end_line plan.now action end.now) }
{
    let outcome = outcome_text(alloc, plan, end.outcome)?;
    let local = fate_text(alloc, plan, action, end.local)?;
    let remote = fate_text(alloc, plan, action, end.remote)?;
    let name = action_name(plan, action);
    let (outcome, local, remote) = (outcome.as_str(), local.as_str(), remote.as_str());
    Ok(format!(in alloc; "{name} {outcome} local={local} remote={remote}\n")?)
}

// ---- the totals

fn totals(alloc: Global, ends: &[ActionEnd]) -> Result<String, NoMemory>
    ensures { IfOk result (λ s. string_bytes s ≡ last_line ends.now) }
{
    totals_text(
        alloc,
        ends.len(),
        successes(ends),
        failures(ends),
        breaks(ends),
        skips(ends),
    )
}

fn successes(ends: &[ActionEnd]) -> usize
    ensures { result ≡ count_of is_success ends.now }
{
    ends.iter().filter(|e| is_ok(e)).count()
}

fn failures(ends: &[ActionEnd]) -> usize
    ensures { result ≡ count_of has_failed ends.now }
{
    ends.iter().filter(|e| is_fail(e)).count()
}

fn breaks(ends: &[ActionEnd]) -> usize
    ensures { result ≡ count_of is_broken ends.now }
{
    ends.iter().filter(|e| is_break_of(e)).count()
}

fn skips(ends: &[ActionEnd]) -> usize
    ensures { result ≡ count_of is_skipped ends.now }
{
    ends.iter().filter(|e| is_skip_of(e)).count()
}

fn totals_text(
    alloc: Global,
    all: usize,
    ok: usize,
    failed: usize,
    broken: usize,
    skipped: usize,
) -> Result<String, NoMemory>
    ensures { IfOk result (λ s. string_bytes s ≡ totals_line all ok failed broken skipped) }
{
    Ok(format!(in alloc;
        "actions={all} ok={ok} failed={failed} broken={broken} skipped={skipped}\n"
    )?)
}

fn is_ok(end: &ActionEnd) -> bool
    ensures { result ≡ is_success end.now }
{
    matches!(end.outcome, Outcome::Success(_))
}

fn is_fail(end: &ActionEnd) -> bool
    ensures { result ≡ has_failed end.now }
{
    matches!(end.outcome, Outcome::Failed(..))
}

fn is_break_of(end: &ActionEnd) -> bool
    ensures { result ≡ is_broken end.now }
{
    matches!(end.outcome, Outcome::Spoiled(..) | Outcome::Dropped)
}

fn is_skip_of(end: &ActionEnd) -> bool
    ensures { result ≡ is_skipped end.now }
{
    matches!(end.outcome, Outcome::Skipped(_))
}
