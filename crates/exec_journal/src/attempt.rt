ghost use Rattle.std.specs.Prelude.{◌≡◌};
ghost use Rattle.exec_journal.specs.Entries.{attempt_of, same_attempt};

use run_plan::Branch;

/// One try of a branch of an action: the number is 1 for the first, and at most the plan's limit.
#[derive(Clone, Copy, Debug, PartialEq, Eq)]
pub struct Attempt {
    pub action: u32,
    pub branch: Branch,
    pub number: u32,
}

impl Attempt {
    /// Returns the attempt with this number, of this branch of this action.
    pub fn of(action: u32, branch: Branch, number: u32) -> Attempt
        ensures { result ≡ attempt_of action branch number }
    {
        Attempt {
            action,
            branch,
            number,
        }
    }

    /// Returns true if it is this attempt.
    pub fn is(self, action: u32, branch: Branch, number: u32) -> bool
        ensures { result ≡ same_attempt (attempt_of action branch number) self }
    {
        action == self.action && branch == self.branch && number == self.number
    }
}
