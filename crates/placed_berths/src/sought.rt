// The search for the first action with a branch of some kind.
ghost use Rattle.std.specs.Prelude.{◌≡◌, ◌-◌, ◌<◌, ◌≤◌, ℕ, Option, false};
ghost use Rattle.run_plan.specs.declared.plan.Branch.{Branch};
ghost use Rattle.placed_berths.specs.Due.{first_among};

use exec_journal::Branch;

/// What is sought: some actions have a branch by it.
pub trait Sought {
    // The branch of the action of this number.
    ghost at: { Self → ℕ → Option Branch };

    // It may be asked for that action.
    ghost can_ask: { Self → ℕ → Type 0 };

    /// Returns the branch of the action.
    fn branch(&self, action: u32) -> Option<Branch>
        requires { can_ask self.now action }
        ensures { result ≡ at self.now action };
}

/// Returns the first of the actions that has a branch, from this one on.
pub fn first_of_all<S: Sought>(sought: &S, from: u32, count: u32) -> Option<(u32, Branch)>
    requires { (a : ℕ) → a < count → S.can_ask sought.now a }
    ensures { result ≡ first_among (S.at sought.now) from (count - from) }
{
    for action in from..count {
        if let Some(branch) = sought.branch(action) {
            return Some((action, branch));
        }
    }
    None
}
