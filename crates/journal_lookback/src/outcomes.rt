// How an action and its branches end.
ghost use Rattle.std.specs.Prelude.{◌≡◌, ◌<◌, ◌≤◌, length, reverse, take, slice_get, option_copied, if◌then◌else◌};
ghost use Rattle.std.specs.List.{list_any};
ghost use Rattle.exec_journal.specs.Words.{grant_of};
ghost use Rattle.exec_journal.specs.Attempts.{dropped};
ghost use Rattle.exec_journal.specs.Settled.{by_commit, by_grant, all_dropped, unused_or_dropped, is_success, is_unsuccessful, is_starved, standing_after, standings};
ghost use Rattle.run_plan.specs.Groups.{group_of};
ghost use Rattle.run_plan.specs.Sound.{Sound};
ghost use Rattle.exec_journal.specs.Outcomes.{grant_outcome, commit_outcome, least_without, skipped, outcome_after, outcome_of, won_or_spoiled, lost_fate, fate_after, fate_of, is_winner, lesser};
ghost use Rattle.run_plan.specs.Limits.{most_actions};

use crate::grant::GrantKind;
use crate::lookback::{commit, end, ever_sent, grant};
use exec_journal::{
    Attempt, Branch, Cause, CommitEnd, Entry, Fate, Journal, Maker, Outcome, Plan, PlanAction,
    Standing,
};
use run_plan::MOST_ACTIONS;

/// Returns the outcome of the action, by the journal. It takes no memory, and looks through the journal for each action
/// on which this one may depend.
pub fn outcome(plan: &Plan, j: &Journal, action: u32) -> Outcome
    requires sound { Sound plan.now }
    requires within { action < length plan.now.actions }
    ensures { result ≡ outcome_of plan.now (reverse j.now) action }
{
    let work = &plan.actions.as_slice()[action as usize];
    outcome_in(plan, j.entries(), action, work)
}

/// Returns the fate of the branch of the action, by the journal. It takes no memory.
pub fn fate(plan: &Plan, j: &Journal, action: u32, branch: Branch) -> Fate
    requires sound { Sound plan.now }
    requires within { action < length plan.now.actions }
    ensures { result ≡ fate_of plan.now (reverse j.now) action branch }
{
    let work = &plan.actions.as_slice()[action as usize];
    fate_in(plan, j.entries(), action, branch, group(work, branch))
}

fn outcome_in(plan: &Plan, entries: &[Entry], action: u32, work: &PlanAction) -> Outcome
    requires { length plan.now.actions ≤ most_actions }
    ensures { result ≡ outcome_after plan.now (reverse entries.now) action work.now
        (standings plan.now (reverse entries.now)) }
{
    if let Some(outcome) = granted_outcome(entries, action) {
        return outcome;
    }
    if is_all_dropped(plan, entries, action, work) {
        return Outcome::Dropped;
    }
    let mut all = [Standing::Open; MOST_ACTIONS];
    find_standings(&mut all, plan, entries);
    starved_outcome(&all[..plan.actions.as_slice().len()], work)
}

/// Returns the outcome of an action without a granted claim: skipped if an input is lost, otherwise not
/// settled.
pub fn starved_outcome(standings: &[Standing], work: &PlanAction) -> Outcome
    ensures { result ≡ (if is_starved work.now standings.now
        then skipped standings.now work.now else Outcome.Unsettled) }
{
    if is_input_lost(work.makers.as_slice(), standings) {
        skipped_outcome(standings, work)
    } else {
        Outcome::Unsettled
    }
}

fn fate_in(plan: &Plan, entries: &[Entry], action: u32, branch: Branch, group: Option<u32>) -> Fate
    ensures { result ≡ fate_after plan.now (reverse entries.now) action branch group }
{
    if group.is_none() {
        return Fate::Unused;
    }
    if is_winner(entries, action, branch) {
        return winner_fate(commit(entries, action, branch));
    }
    let last = Attempt {
        action,
        branch,
        number: plan.limit,
    };
    loser_fate(
        plan.limit,
        end(entries, last),
        ever_sent(entries, action, branch),
    )
}

fn group(work: &PlanAction, branch: Branch) -> Option<u32>
    ensures { result ≡ group_of work.now branch }
{
    match branch {
        Branch::Local => work.local,
        Branch::Remote => work.remote,
    }
}

fn is_winner(entries: &[Entry], action: u32, branch: Branch) -> bool
    ensures { result ≡ is_winner branch (grant_of (reverse entries.now) action) }
{
    match grant(entries, action) {
        Some(grant) => grant.attempt.branch == branch,
        None => false,
    }
}

/// Returns the fate of the branch that was granted, by its commit.
pub fn winner_fate(commit: Option<CommitEnd>) -> Fate
    ensures { result ≡ won_or_spoiled commit }
{
    match commit {
        Some(CommitEnd::PlaceFault { written }) => Fate::Spoiled(written),
        _ => Fate::Won,
    }
}

/// Returns the fate of another branch, by the cause with which its last attempt ended and whether any was sent.
pub fn loser_fate(limit: u32, cause: Option<Cause>, sent: bool) -> Fate
    ensures { result ≡ lost_fate limit cause sent }
{
    match cause {
        Some(cause) => Fate::Dropped(cause, limit),
        None if sent => Fate::Lost,
        None => Fate::Idle,
    }
}

// ---- by the grant

fn granted_outcome(entries: &[Entry], action: u32) -> Option<Outcome>
    ensures { result ≡ grant_outcome (reverse entries.now) (grant_of (reverse entries.now) action) }
{
    let grant = grant(entries, action)?;
    let branch = grant.attempt.branch;
    match grant.prize {
        GrantKind::Exit(code) => Some(Outcome::Failed(branch, code)),
        GrantKind::Files => committed_outcome(
            branch,
            commit(entries, grant.attempt.action, branch),
        ),
        GrantKind::Nothing => None,
    }
}

/// Returns the outcome of an action whose branch was granted for its files, by the commit.
pub fn committed_outcome(branch: Branch, commit: Option<CommitEnd>) -> Option<Outcome>
    ensures { result ≡ commit_outcome branch commit }
{
    match commit {
        Some(CommitEnd::Done) => Some(Outcome::Success(branch)),
        Some(CommitEnd::PlaceFault { written }) => Some(Outcome::Spoiled(branch, written)),
        None => None,
    }
}

fn granted_standing(entries: &[Entry], action: u32) -> Option<Standing>
    ensures { result ≡ by_grant (reverse entries.now) (grant_of (reverse entries.now) action) }
{
    let grant = grant(entries, action)?;
    match grant.prize {
        GrantKind::Exit(_) => Some(Standing::Unsuccessful),
        GrantKind::Files => committed_standing(commit(
            entries,
            grant.attempt.action,
            grant.attempt.branch,
        )),
        GrantKind::Nothing => None,
    }
}

fn committed_standing(commit: Option<CommitEnd>) -> Option<Standing>
    ensures { result ≡ by_commit commit }
{
    match commit {
        Some(CommitEnd::Done) => Some(Standing::Succeeded),
        Some(CommitEnd::PlaceFault { .. }) => Some(Standing::Unsuccessful),
        None => None,
    }
}

// ---- by the branches

fn is_dropped(plan: &Plan, entries: &[Entry], action: u32, branch: Branch) -> bool
    ensures { result ≡ dropped plan.now (reverse entries.now) action branch }
{
    let last = Attempt {
        action,
        branch,
        number: plan.limit,
    };
    end(entries, last).is_some()
}

fn is_unused_or_dropped(
    plan: &Plan,
    entries: &[Entry],
    action: u32,
    branch: Branch,
    group: Option<u32>,
) -> bool
    ensures { result ≡ unused_or_dropped plan.now (reverse entries.now) action branch group }
{
    group.is_none() || is_dropped(plan, entries, action, branch)
}

fn is_all_dropped(plan: &Plan, entries: &[Entry], action: u32, work: &PlanAction) -> bool
    ensures { result ≡ all_dropped plan.now (reverse entries.now) action work.now }
{
    is_unused_or_dropped(plan, entries, action, Branch::Local, work.local)
        && is_unused_or_dropped(plan, entries, action, Branch::Remote, work.remote)
}

// ---- by the producers

/// Finds the standing of each action of the plan, in their order.
fn find_standings(all: &mut [Standing], plan: &Plan, entries: &[Entry])
    requires few { length plan.now.actions ≤ most_actions }
    requires room { length plan.now.actions ≤ length all.old }
    ensures { take (length plan.now.actions) all.new ≡ standings plan.now (reverse entries.now) }
{
    for (a, work) in plan.actions.as_slice().iter().enumerate() {
        let standing = standing_next(plan, entries, a as u32, work, &all[..a]);
        all[a] = standing;
    }
}

fn standing_next(
    plan: &Plan,
    entries: &[Entry],
    action: u32,
    work: &PlanAction,
    earlier: &[Standing],
) -> Standing
    ensures { result ≡ standing_after plan.now (reverse entries.now) action work.now earlier.now }
{
    match granted_standing(entries, action) {
        Some(standing) => standing,
        None => {
            if is_all_dropped(plan, entries, action, work)
                || is_input_lost(work.makers.as_slice(), earlier)
            {
                Standing::Unsuccessful
            } else {
                Standing::Open
            }
        }
    }
}

/// True if one of the inputs is made by an action that has ended without success.
pub fn is_input_lost(makers: &[Maker], standings: &[Standing]) -> bool
    ensures { result
        ≡ list_any (λ m. is_unsuccessful (slice_get standings.now m.action)) makers.now }
{
    makers.iter().any(|m| is_lost(standings, m.action))
}

fn is_lost(standings: &[Standing], action: u32) -> bool
    ensures { result ≡ is_unsuccessful (slice_get standings.now action) }
{
    matches!(standings.get(action as usize), Some(Standing::Unsuccessful))
}

fn is_succeeded(standings: &[Standing], action: u32) -> bool
    ensures { result ≡ is_success (slice_get standings.now action) }
{
    matches!(standings.get(action as usize), Some(Standing::Succeeded))
}

fn skipped_outcome(standings: &[Standing], work: &PlanAction) -> Outcome
    ensures { result ≡ skipped standings.now work.now }
{
    match least_unmade(standings, work.makers.as_slice()) {
        Some(action) => Outcome::Skipped(action),
        None => Outcome::Unsettled,
    }
}

/// Returns the least action of these producers that has no success.
fn least_unmade(standings: &[Standing], makers: &[Maker]) -> Option<u32>
    ensures { result ≡ least_without standings.now makers.now }
{
    let mut least = None;
    for maker in makers {
        if !is_succeeded(standings, maker.action) {
            least = lesser_of(least, maker.action);
        }
    }
    least
}

fn lesser_of(least: Option<u32>, action: u32) -> Option<u32>
    ensures { result ≡ lesser least (Some action) }
{
    match least {
        Some(least) => Some(least.min(action)),
        None => Some(action),
    }
}
