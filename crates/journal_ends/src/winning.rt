// The answer by which each action of a plan was won.
ghost use Rattle.std.specs.Prelude.{◌≡◌, ◌≤◌, length, reverse, IfOk, None, option_copied, unwrap_or};
ghost use Rattle.journal_ends.specs.Replay.{AllNew};
ghost use Rattle.list_lemmas.specs.Places.{update_if};
ghost use Rattle.journal_ends.specs.Winning.{granted_at, AreWinners, winners_after, answer_at, AreWinning, NotesAnswer, matched_action};

use exec_journal::{Answer, Attempt, Call, Entry, Journal, Plan, Reply};
use journal_lookback::match_in;
use plain_values::NoMemory;
use std::alloc::Global;

/// Returns for each action of the plan the answer that won it: the first that was matched with the attempt
/// that was granted. It goes through the journal twice, for any number of actions.
///
/// # Errors
///
/// Returns `NoMemory` if memory runs out.
pub fn winning_answers<'a>(
    alloc: Global,
    plan: &Plan,
    j: &'a Journal,
) -> Result<Vec<Option<&'a Answer>>, NoMemory>
    ensures answers { IfOk result (λ xs. AreWinning option_copied xs.items (reverse j.now)) }
    ensures count { IfOk result (λ xs. length xs.items ≡ length plan.now.actions) }
{
    let entries = j.entries();
    let count = plan.actions.as_slice().len();
    let mut winners = vec![in alloc; None; count]?;
    find_winners(&mut winners, entries);
    let mut answers = vec![in alloc; None; count]?;
    find_answers(&mut answers, winners.as_slice(), entries);
    Ok(answers)
}

fn find_winners(winners: &mut [Option<Attempt>], entries: &[Entry])
    requires { AllNew None winners.old }
    ensures { AreWinners winners.new (reverse entries.now) }
{
    for entry in entries {
        if let Some(attempt) = granted_at(entry) {
            note_winner(winners, attempt);
        }
    }
}

// Records a grant. The first one counts.
fn note_winner(winners: &mut [Option<Attempt>], attempt: Attempt)
    ensures { winners.new ≡ winners_after winners.old attempt }
{
    let at = attempt.action as usize;
    if at < winners.len() {
        let first = winners[at].or(Some(attempt));
        winners[at] = first;
    }
}

fn granted_at(entry: &Entry) -> Option<Attempt>
    ensures { result ≡ granted_at entry.now }
{
    match &entry.call {
        Call::Claim {
            action,
            branch,
            attempt,
            ..
        } if matches!(&entry.reply, Reply::Granted) => Some(Attempt {
            action: *action,
            branch: *branch,
            number: *attempt,
        }),
        _ => None,
    }
}

fn find_answers<'a>(
    answers: &mut [Option<&'a Answer>],
    winners: &[Option<Attempt>],
    entries: &'a [Entry],
)
    requires new { AllNew None answers.old }
    requires winners { AreWinners winners.now (reverse entries.now) }
    requires count { length answers.old ≡ length winners.now }
    ensures { AreWinning option_copied answers.new (reverse entries.now) }
{
    for entry in entries {
        note_answer(answers, winners, entry);
    }
}

// Records an answer. The first one counts.
fn note_answer<'a>(
    answers: &mut [Option<&'a Answer>],
    winners: &[Option<Attempt>],
    entry: &'a Entry,
)
    ensures { NotesAnswer option_copied answers.old answers.new winners.now entry.now }
{
    if let Some(action) = matched_action(&entry.reply) {
        let at = action as usize;
        if at < answers.len() && at < winners.len() {
            let first = answers[at].or(answer_at(winners[at], entry));
            answers[at] = first;
        }
    }
}

fn answer_at(winner: Option<Attempt>, entry: &Entry) -> Option<&Answer>
    ensures { option_copied result ≡ answer_at winner entry.now }
{
    match_in(entry, winner?)
}

fn matched_action(reply: &Reply) -> Option<u32>
    ensures { result ≡ matched_action reply.now }
{
    match reply {
        Reply::Matched { action, .. } => Some(*action),
        _ => None,
    }
}
