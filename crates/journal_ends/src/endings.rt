// The ends of a plan's actions, from the facts that were gathered from a journal.
ghost use Rattle.std.specs.Prelude.{◌≡◌, ◌≤◌, ◌<◌, [], length, reverse, IfOk, is_some};
ghost use Rattle.run_plan.specs.Sound.{Sound};
ghost use Rattle.exec_journal.specs.Ends.{ends_of};
ghost use Rattle.journal_lookback.specs.Lookback.{ended_line};
ghost use Rattle.journal_ends.specs.Replay.{AllNew, new_action, new_line, AreActions, AreLines, IsActionFact};
ghost use Rattle.journal_ends.specs.Endings.{verdict_of, verdicts_from, verdict_by, own_by, commit_for, prize_outcome, is_gone, is_won_by, fate_by, standing_by, standing_of, outcome_by, standings_through, end_by, ends_through};
ghost use Rattle.run_plan.specs.Limits.{most_actions};

use crate::replay::{ActionFact, BranchFact, LineFact, ended_at, gather};
use exec_journal::{
    ActionEnd, Branch, Cause, CommitEnd, Entry, Fate, Journal, Outcome, Plan, PlanAction, Standing,
};
use journal_lookback::{
    Grant, GrantKind, committed_outcome, is_input_lost, loser_fate, starved_outcome, winner_fate,
};
use plain_values::NoMemory;
use std::alloc::Global;

/// Returns how each action of the plan ends, in their order. It goes through the journal once, in time that
/// is linear in the numbers of its entries and of the plan's actions and made inputs. In the journal of a
/// run it never looks back.
///
/// # Errors
///
/// Returns `NoMemory` if memory runs out.
pub fn action_ends(alloc: Global, plan: &Plan, j: &Journal) -> Result<Vec<ActionEnd>, NoMemory>
    requires { Sound plan.now }
    ensures { IfOk result (λ ends. ends.items ≡ ends_of plan.now (reverse j.now)) }
{
    let works = plan.actions.as_slice();
    let verdicts = verdicts(alloc, plan, j.entries())?;
    let standings = standings_by(alloc, works, verdicts.as_slice())?;
    let ends = ends_by(alloc, works, verdicts.as_slice(), standings.as_slice())?;
    Ok(ends)
}

/// The end of an action, apart from its producers.
#[derive(Clone, Copy)]
pub struct Verdict {
    pub own: Option<Outcome>,
    pub dropped: bool,
    pub local: Fate,
    pub remote: Fate,
}

/// Returns the verdicts on all actions of the plan, by one pass over the journal.
pub fn verdicts(alloc: Global, plan: &Plan, entries: &[Entry]) -> Result<Vec<Verdict>, NoMemory>
    requires { length plan.now.actions ≤ most_actions }
    ensures { IfOk result (λ vs. vs.items ≡ verdicts_from plan.now
        (reverse entries.now) 0 plan.now.actions) }
{
    let mut actions = new_actions(alloc, plan.actions.as_slice().len())?;
    let mut lines = new_lines(alloc, entries.len())?;
    gather(&mut actions, &mut lines, plan.limit, entries);
    verdicts_by(alloc, plan, actions.as_slice(), lines.as_slice(), entries)
}

fn new_actions(alloc: Global, count: usize) -> Result<Vec<ActionFact>, NoMemory>
    ensures new { IfOk result (λ facts. AllNew new_action facts.items) }
    ensures count { IfOk result (λ facts. length facts.items ≡ count) }
{
    let mut facts = Vec::with_capacity(alloc, count)?;
    for _ in 0..count {
        facts.push(ActionFact::NEW)?;
    }
    Ok(facts)
}

fn new_lines(alloc: Global, count: usize) -> Result<Vec<LineFact>, NoMemory>
    ensures { IfOk result (λ facts. AllNew new_line facts.items) }
{
    let mut facts = Vec::with_capacity(alloc, count)?;
    for _ in 0..count {
        facts.push(LineFact::NEW)?;
    }
    Ok(facts)
}

fn verdicts_by(
    alloc: Global,
    plan: &Plan,
    actions: &[ActionFact],
    lines: &[LineFact],
    entries: &[Entry],
) -> Result<Vec<Verdict>, NoMemory>
    requires few { length plan.now.actions ≤ most_actions }
    requires count { length actions.now ≡ length plan.now.actions }
    requires actions { AreActions actions.now plan.now.limit (reverse entries.now) }
    requires lines { AreLines lines.now (reverse entries.now) }
    ensures { IfOk result (λ vs. vs.items ≡ verdicts_from plan.now
        (reverse entries.now) 0 plan.now.actions) }
{
    let works = plan.actions.as_slice();
    let mut verdicts = Vec::with_capacity(alloc, works.len())?;
    for a in 0..works.len() {
        verdicts.push(verdict_on(plan.limit, &actions[a], lines, entries, &works[a]))?;
    }
    Ok(verdicts)
}

fn verdict_on(
    limit: u32,
    fact: &ActionFact,
    lines: &[LineFact],
    entries: &[Entry],
    work: &PlanAction,
) -> Verdict
    requires { AreLines lines.now (reverse entries.now) }
    ensures { result ≡ verdict_by limit fact.now work.now (ended_line
        (reverse entries.now) fact.now.local.track.line) (ended_line
        (reverse entries.now) fact.now.remote.track.line) }
{
    let won = fact.grant.is_some();
    let local = &fact.local;
    let remote = &fact.remote;
    let local_end = local
        .track
        .end_now(won, ended_at(lines, entries, local.track.line));
    let remote_end = remote
        .track
        .end_now(won, ended_at(lines, entries, remote.track.line));
    Verdict {
        own: own_outcome(fact, fact.grant),
        dropped: is_used_up(work.local, local_end) && is_used_up(work.remote, remote_end),
        local: branch_fate(
            limit,
            work.local,
            Branch::Local,
            fact.grant,
            local,
            local_end,
        ),
        remote: branch_fate(
            limit,
            work.remote,
            Branch::Remote,
            fact.grant,
            remote,
            remote_end,
        ),
    }
}

fn own_outcome(fact: &ActionFact, grant: Option<Grant>) -> Option<Outcome>
    ensures { result ≡ own_by fact.now grant }
{
    match grant {
        Some(grant) => by_prize(
            grant.attempt.branch,
            commit_of_branch(fact, grant.attempt.branch),
            grant.prize,
        ),
        None => None,
    }
}

fn commit_of_branch(fact: &ActionFact, branch: Branch) -> Option<CommitEnd>
    ensures { result ≡ commit_for fact.now branch }
{
    match branch {
        Branch::Local => fact.local.commit,
        Branch::Remote => fact.remote.commit,
    }
}

fn by_prize(branch: Branch, commit: Option<CommitEnd>, prize: GrantKind) -> Option<Outcome>
    ensures { result ≡ prize_outcome branch commit prize }
{
    match prize {
        GrantKind::Exit(code) => Some(Outcome::Failed(branch, code)),
        GrantKind::Files => committed_outcome(branch, commit),
        GrantKind::Nothing => None,
    }
}

fn is_used_up(group: Option<u32>, end: Option<Cause>) -> bool
    ensures { result ≡ is_gone group end }
{
    group.is_none() || end.is_some()
}

fn branch_fate(
    limit: u32,
    group: Option<u32>,
    branch: Branch,
    grant: Option<Grant>,
    fact: &BranchFact,
    end: Option<Cause>,
) -> Fate
    ensures { result ≡ fate_by limit group branch grant fact.now end }
{
    if group.is_none() {
        return Fate::Unused;
    }
    if is_granted(branch, grant) {
        winner_fate(fact.commit)
    } else {
        loser_fate(limit, end, fact.sent)
    }
}

fn is_granted(branch: Branch, grant: Option<Grant>) -> bool
    ensures { result ≡ is_won_by branch grant }
{
    match grant {
        Some(grant) => grant.attempt.branch == branch,
        None => false,
    }
}

// ---- with the producers

/// Returns the facts of each action, in their order.
pub fn standings_by(
    alloc: Global,
    works: &[PlanAction],
    verdicts: &[Verdict],
) -> Result<Vec<Standing>, NoMemory>
    requires { length verdicts.now ≡ length works.now }
    ensures { IfOk result (λ all. all.items ≡ standings_through [] verdicts.now works.now) }
{
    let mut standings = Vec::with_capacity(alloc, works.len())?;
    for a in 0..works.len() {
        let next = next_standing(&verdicts[a], &works[a], standings.as_slice());
        standings.push(next)?;
    }
    Ok(standings)
}

fn next_standing(verdict: &Verdict, work: &PlanAction, earlier: &[Standing]) -> Standing
    ensures { result ≡ standing_by verdict.now work.now earlier.now }
{
    match verdict.own {
        Some(Outcome::Success(_)) => Standing::Succeeded,
        Some(_) => Standing::Unsuccessful,
        None => {
            if verdict.dropped || is_input_lost(work.makers.as_slice(), earlier) {
                Standing::Unsuccessful
            } else {
                Standing::Open
            }
        }
    }
}

/// Returns how each action ends.
pub fn ends_by(
    alloc: Global,
    works: &[PlanAction],
    verdicts: &[Verdict],
    standings: &[Standing],
) -> Result<Vec<ActionEnd>, NoMemory>
    requires { length verdicts.now ≡ length works.now }
    ensures { IfOk result (λ ends. ends.items ≡ ends_through standings.now verdicts.now works.now) }
{
    let mut ends = Vec::with_capacity(alloc, works.len())?;
    for a in 0..works.len() {
        ends.push(whole_end(&verdicts[a], &works[a], standings))?;
    }
    Ok(ends)
}

fn whole_end(verdict: &Verdict, work: &PlanAction, standings: &[Standing]) -> ActionEnd
    ensures { result ≡ end_by verdict.now work.now standings.now }
{
    ActionEnd {
        outcome: whole_outcome(verdict, work, standings),
        local: verdict.local,
        remote: verdict.remote,
    }
}

fn whole_outcome(verdict: &Verdict, work: &PlanAction, standings: &[Standing]) -> Outcome
    ensures { result ≡ outcome_by verdict.now work.now standings.now }
{
    if let Some(outcome) = verdict.own {
        return outcome;
    }
    if verdict.dropped {
        return Outcome::Dropped;
    }
    starved_outcome(standings, work)
}
