// Finds out if all actions of a plan succeed.
ghost use Rattle.std.specs.Prelude.{◌≡◌, ◌∷◌, ℕ, List, length, reverse, option_map, unwrap_or};
ghost use Rattle.std.specs.List.{list_all};
ghost use Rattle.run_plan.specs.Sound.{Sound};
ghost use Rattle.exec_journal.specs.Entries.{committed_in};
ghost use Rattle.exec_journal.specs.Ends.{ends_of};
ghost use Rattle.journal_lookback.specs.Lookback.{grants, grant_fact};
ghost use Rattle.journal_ends.specs.Replay.{AllNew};
ghost use Rattle.journal_ends.specs.Successes.{has_succeeded, award_of, is_done, done_for, succeeds, new_chance, chance_after, claimed_action, AreChances};
ghost use Rattle.list_lemmas.specs.Places.{update_if};

use exec_journal::{Branch, Call, CommitEnd, Entry, Journal, Plan};
use journal_lookback::{Grant, GrantKind, commit_in, grant_in};
use run_plan::MOST_ACTIONS;

/// The finding for which an action was granted.
#[derive(Clone, Copy)]
pub enum Award {
    FilesOf(Branch),
    NoFiles,
}

/// The facts of an action: the finding of its first grant, and for each branch, whether the first commit
/// was done. A table of all actions is on the stack, so it is kept small.
#[derive(Clone, Copy)]
pub struct Chance {
    pub award: Option<Award>,
    pub local: Option<bool>,
    pub remote: Option<bool>,
}

impl Chance {
    /// The facts of an action that no entry has named yet.
    pub const NEW: Chance = Chance {
        award: None,
        local: None,
        remote: None,
    };

    fn after(&self, entry: &Entry, action: u32) -> Chance
        ensures { result ≡ chance_after action entry.now self.now }
    {
        Chance {
            award: self.award.or(award_in(entry, action)),
            local: self.local.or(done_in(entry, action, Branch::Local)),
            remote: self.remote.or(done_in(entry, action, Branch::Remote)),
        }
    }

    fn done(&self, branch: Branch) -> Option<bool>
        ensures { result ≡ done_for self.now branch }
    {
        match branch {
            Branch::Local => self.local,
            Branch::Remote => self.remote,
        }
    }

    fn succeeds(&self) -> bool
        ensures { result ≡ succeeds self.now }
    {
        match self.award {
            Some(Award::FilesOf(branch)) => self.done(branch).unwrap_or(false),
            Some(Award::NoFiles) | None => false,
        }
    }
}

/// Returns true if every action of the plan has success. It takes no memory, and goes through the journal once.
pub fn is_all_success(plan: &Plan, j: &Journal) -> bool
    requires { Sound plan.now }
    ensures { result ≡ list_all has_succeeded (ends_of plan.now (reverse j.now)) }
{
    let mut chances = [Chance::NEW; MOST_ACTIONS];
    find_chances(&mut chances, j.entries());
    all_succeed(&chances[..plan.actions.as_slice().len()])
}

fn find_chances(chances: &mut [Chance], entries: &[Entry])
    requires { AllNew new_chance chances.old }
    ensures { AreChances chances.new (reverse entries.now) }
{
    for entry in entries {
        note_chance(chances, entry);
    }
}

fn note_chance(chances: &mut [Chance], entry: &Entry)
    ensures { chances.new ≡ update_if (chance_after (unwrap_or (claimed_action entry.now.call) 0)
        entry.now) chances.old (claimed_action entry.now.call) }
{
    if let Some(action) = claimed_action(&entry.call) {
        let at = action as usize;
        if at < chances.len() {
            chances[at] = chances[at].after(entry, action);
        }
    }
}

fn all_succeed(chances: &[Chance]) -> bool
    ensures { result ≡ list_all succeeds chances.now }
{
    chances.iter().all(|c| c.succeeds())
}

/// Returns the action that the call may concern here.
fn claimed_action(call: &Call) -> Option<u32>
    ensures { result ≡ claimed_action call.now }
{
    match call {
        Call::Claim { action, .. } | Call::Committed { action, .. } => Some(*action),
        _ => None,
    }
}

fn award_in(entry: &Entry, action: u32) -> Option<Award>
    ensures { result ≡ option_map award_of (option_map grant_fact (grants action entry.now)) }
{
    let grant = grant_in(entry, action)?;
    Some(award_of(grant))
}

fn award_of(grant: Grant) -> Award
    ensures { result ≡ award_of grant }
{
    match grant.prize {
        GrantKind::Files => Award::FilesOf(grant.attempt.branch),
        GrantKind::Exit(_) | GrantKind::Nothing => Award::NoFiles,
    }
}

fn done_in(entry: &Entry, action: u32, branch: Branch) -> Option<bool>
    ensures { result ≡ option_map is_done (committed_in action branch entry.now.call) }
{
    let end = commit_in(entry, action, branch)?;
    Some(matches!(end, CommitEnd::Done))
}
