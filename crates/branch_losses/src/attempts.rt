// For each action, one attempt of a branch, by its number: the last order for it, and the answer to it.
ghost use Rattle.std.specs.Prelude.{◌≡◌, length, reverse, IfOk, None, Some, option_copied};
ghost use Rattle.journal_ends.specs.Replay.{AllNew};
ghost use Rattle.list_lemmas.specs.Places.{update};
ghost use Rattle.branch_losses.specs.Last.{AreAnswers, AreOrders, NotesAnswer, answer_in, given_in, matched_action};

use exec_journal::{Answer, Call, Entry, Reply};
use plain_values::NoMemory;
use run_plan::Branch;
use std::alloc::Global;

/// The attempts of a branch that have this number.
#[derive(Clone, Copy)]
pub struct Nth {
    pub branch: Branch,
    pub number: u32,
}

/// An order to launch or to send an attempt.
#[derive(Clone, Copy)]
pub struct Order {
    /// The lane that was given the order. Its berth has half this number.
    pub lane: u32,
    pub line: u32,
}

/// Returns the last order to launch or to send that attempt, for each of `count` actions.
///
/// # Errors
///
/// Returns `NoMemory` if memory runs out.
pub fn last_orders(
    alloc: Global,
    count: usize,
    nth: Nth,
    entries: &[Entry],
) -> Result<Vec<Option<Order>>, NoMemory>
    ensures orders { IfOk result (λ os. AreOrders nth os.items (reverse entries.now)) }
    ensures count { IfOk result (λ os. length os.items ≡ count) }
{
    let mut orders = vec![in alloc; None; count]?;
    find_orders(&mut orders, nth, entries);
    Ok(orders)
}

fn find_orders(orders: &mut [Option<Order>], nth: Nth, entries: &[Entry])
    requires { AllNew None orders.old }
    ensures { AreOrders nth orders.new (reverse entries.now) }
{
    for entry in entries {
        if let Some(given) = given_in(entry, nth) {
            note_order(orders, given);
        }
    }
}

// Records an order. The last one counts.
fn note_order(orders: &mut [Option<Order>], given: Given)
    ensures { orders.new ≡ update (λ _. Some given.order) orders.old given.action }
{
    let at = given.action as usize;
    if at < orders.len() {
        orders[at] = Some(given.order);
    }
}

// An order for that attempt of this action.
#[derive(Clone, Copy)]
struct Given {
    action: u32,
    order: Order,
}

fn given_in(entry: &Entry, nth: Nth) -> Option<Given>
    ensures { result ≡ given_in nth entry.now }
{
    let lane = entry.lane;
    match &entry.reply {
        Reply::Launch {
            line,
            action,
            branch,
            attempt,
        }
        | Reply::Send {
            line,
            action,
            branch,
            attempt,
            ..
        } if *branch == nth.branch && *attempt == nth.number => {
            let (action, line) = (*action, *line);
            let order = Order { lane, line };
            Some(Given { action, order })
        }
        _ => None,
    }
}

/// Returns the first answer that was matched with that attempt, for each of `count` actions.
///
/// # Errors
///
/// Returns `NoMemory` if memory runs out.
pub fn first_answers<'a>(
    alloc: Global,
    count: usize,
    nth: Nth,
    entries: &'a [Entry],
) -> Result<Vec<Option<&'a Answer>>, NoMemory>
    ensures answers { IfOk result (λ xs. AreAnswers nth option_copied xs.items
        (reverse entries.now)) }
    ensures count { IfOk result (λ xs. length xs.items ≡ count) }
{
    let mut answers = vec![in alloc; None; count]?;
    find_answers(&mut answers, nth, entries);
    Ok(answers)
}

fn find_answers<'a>(answers: &mut [Option<&'a Answer>], nth: Nth, entries: &'a [Entry])
    requires { AllNew None answers.old }
    ensures { AreAnswers nth option_copied answers.new (reverse entries.now) }
{
    for entry in entries {
        note_answer(answers, nth, entry);
    }
}

// Records an answer. The first one counts.
fn note_answer<'a>(answers: &mut [Option<&'a Answer>], nth: Nth, entry: &'a Entry)
    ensures { NotesAnswer nth option_copied answers.old answers.new entry.now }
{
    if let Some(action) = matched_action(&entry.reply, nth) {
        let at = action as usize;
        if at < answers.len() {
            let first = answers[at].or(answer_in(&entry.call));
            answers[at] = first;
        }
    }
}

fn answer_in(call: &Call) -> Option<&Answer>
    ensures { option_copied result ≡ answer_in call.now }
{
    match call {
        Call::Answer { answer, .. } => Some(answer),
        _ => None,
    }
}

// Returns the action if the reply matches an answer with this attempt of it.
fn matched_action(reply: &Reply, nth: Nth) -> Option<u32>
    ensures { result ≡ matched_action nth reply.now }
{
    match reply {
        Reply::Matched {
            action,
            branch,
            attempt,
        } if *branch == nth.branch && *attempt == nth.number => Some(*action),
        _ => None,
    }
}
