// The report that may stand before the text of a journal.
ghost use Rattle.std.specs.Prelude.{◌≡◌, ◌<◌, ◌≤◌, ◌+◌, ◌∷◌, ◌++◌, ◌^◌, ℕ, List, [], Bool, true, IfOk, length, option_map};
ghost use Rattle.std.specs.List.{list_all};
ghost use Rattle.journal_replay.specs.Fronts.{after_count, after_counts, digits, has_counts, is_before_counts, is_journal_line};
ghost use Rattle.journal_replay.specs.Knows.{Knows};
ghost use Rattle.journal_replay.specs.Staged.{IsReport, KnowsStage, SaysOn, capped};

use crate::auditor::{Found, first_line, spells_entry, verdict_of, with_line};
use crate::replayed::Replayed;
use crate::verdict::Verdict;
use plain_values::NoMemory;
use std::alloc::Global;

/// The findings about an input, which may begin with a report.
#[derive(Drop)]
pub(crate) enum Stage<C: Drop> {
    /// Each line so far may be one of a report, and the report's last line hasn't come.
    Report,
    /// The text of a journal began after this many lines, and this was found about its lines so far.
    Text { skipped: u64, found: Found<C> },
}

/// Adds a line to the findings. It has this number, counted from 1.
pub(crate) fn stage_with<C: Replayed>(
    alloc: Global,
    stage: Stage<C>,
    number: u64,
    line: &[u8],
) -> Result<Stage<C>, NoMemory>
    ensures { (skips : Bool) (ls : List (List ℕ)) → KnowsStage skips C.rules C.stands stage ls
        → number ≡ length ls + 1 → length ls < 2 ^ 63
        → IfOk result (λ s. KnowsStage skips C.rules C.stands s (ls ++ line.now ∷ [])) }
{
    match stage {
        Stage::Report => report_with(alloc, number, line),
        Stage::Text { skipped, found } => {
            let found = with_line(alloc, found, number.saturating_sub(skipped), line)?;
            Ok(Stage::Text { skipped, found })
        }
    }
}

// Adds a line behind lines that may all be of a report.
fn report_with<C: Replayed>(alloc: Global, number: u64, line: &[u8]) -> Result<Stage<C>, NoMemory>
    ensures { (skips : Bool) (ls : List (List ℕ))
        → IsReport C.rules.spelled skips ls
        → number ≡ length ls + 1 → length ls < 2 ^ 63
        → IfOk result (λ s. KnowsStage skips C.rules C.stands s (ls ++ line.now ∷ [])) }
{
    if is_journal_line::<C>(alloc, line)? {
        let found = no_report(alloc, number, line)?;
        return Ok(Stage::Text { skipped: 0, found });
    }
    if has_counts(line) {
        return Ok(Stage::Text {
            skipped: number,
            found: Found::Nothing,
        });
    }
    Ok(Stage::Report)
}

// Returns what the lines say as a text, if this one spells a basis or an entry, and no line before it does.
fn no_report<C: Replayed>(alloc: Global, number: u64, line: &[u8]) -> Result<Found<C>, NoMemory>
    ensures { (ls : List (List ℕ)) → list_all (is_before_counts C.rules.spelled) ls ≡ true
        → number ≡ length ls + 1
        → IfOk result (λ f. Knows C.rules C.stands f (ls ++ line.now ∷ [])) }
{
    if number == 1 {
        first_line(alloc, line)
    } else {
        Ok(Found::Bad { line: 1 })
    }
}

fn is_journal_line<C: Replayed>(alloc: Global, line: &[u8]) -> Result<bool, NoMemory>
    ensures { IfOk result (λ b. b ≡ is_journal_line C.rules.spelled line.now) }
{
    Ok(C::spells(alloc, line)? || spells_entry(alloc, line)?)
}

// Returns true if the line is the last one of a report.
fn has_counts(line: &[u8]) -> bool
    ensures { result ≡ has_counts line.now }
{
    match after_counts(line) {
        Some(rest) => rest.is_empty(),
        None => false,
    }
}

fn after_counts(line: &[u8]) -> Option<&[u8]>
    ensures { option_map (λ r. r.now) result ≡ after_counts line.now }
{
    let rest = after_count(b"actions=", line)?;
    let rest = after_count(b" ok=", rest)?;
    let rest = after_count(b" failed=", rest)?;
    let rest = after_count(b" broken=", rest)?;
    after_count(b" skipped=", rest)
}

// Returns what follows this word and a number, if they come first.
fn after_count<'a>(word: &[u8], text: &'a [u8]) -> Option<&'a [u8]>
    ensures { option_map (λ r. r.now) result ≡ after_count word.now text.now }
{
    if !text.starts_with(word) {
        return None;
    }
    let rest = &text[word.len()..];
    let end = digits(rest);
    if end == 0 {
        return None;
    }
    Some(&rest[end..])
}

// Returns how many digits come first.
fn digits(text: &[u8]) -> usize
    ensures count { result ≡ digits text.now }
    ensures within { result ≤ length text.now }
{
    for (at, byte) in text.iter().enumerate() {
        if !byte.is_ascii_digit() {
            return at;
        }
    }
    text.len()
}

/// Returns the verdict on these lines. A bad line is counted from the first line of all.
pub(crate) fn verdict_on<C: Replayed>(stage: Stage<C>) -> Verdict
    ensures { (skips : Bool) (ls : List (List ℕ)) → KnowsStage skips C.rules C.stands stage ls
        → length ls < 2 ^ 63 → SaysOn skips C.rules ls result }
{
    match stage {
        Stage::Report => Verdict::BadLine { line: 1 },
        Stage::Text { skipped, found } => shifted(skipped, verdict_of(found)),
    }
}

fn shifted(skipped: u64, verdict: Verdict) -> Verdict
    ensures { result ≡ capped skipped verdict }
{
    match verdict {
        Verdict::BadLine { line } => Verdict::BadLine {
            line: skipped.saturating_add(line),
        },
        _ => verdict,
    }
}
