ghost use Rattle.std.specs.Prelude.{◌≡◌, Some};
ghost use Rattle.exec_journal.specs.Seated.{group_for, kind_for};
ghost use Rattle.run_values.specs.Settings.{HasGroup, command_for};

use exec_journal::Attempt;
use plain_values::Command;
use run_plan::{Branch, Kind, Plan};

/// The settings for lines: the plan, whose groups run the branches, a command for each group, and
/// whether workers must print more.
#[derive(Drop)]
pub struct Settings<'a> {
    pub plan: &'a Plan,
    pub commands: &'a [Command],
    /// True if workers must print more.
    pub verbose: bool,
}

impl<'a> Settings<'a> {
    /// Returns the kind of the attempt's group.
    pub fn kind_of(&self, attempt: Attempt) -> Kind
        requires { HasGroup self.now attempt }
        ensures { result ≡ kind_for self.now.plan.now attempt }
    {
        match group_of(self.plan, attempt) {
            Some(group) => self.plan.groups.as_slice()[group as usize].kind,
            None => unreachable!(),
        }
    }

    /// Returns the command that starts the lines of the attempt's group.
    pub fn command_of(&self, attempt: Attempt) -> &Command
        requires { HasGroup self.now attempt }
        ensures { command_for self.now attempt ≡ Some result.now }
    {
        match group_of(self.plan, attempt) {
            Some(group) => &self.commands[group as usize],
            None => unreachable!(),
        }
    }
}

// Returns the group that runs the attempt, if its action uses the branch.
fn group_of(plan: &Plan, attempt: Attempt) -> Option<u32>
    ensures { result ≡ group_for plan.now attempt }
{
    let action = plan.actions.as_slice().get(attempt.action as usize)?;
    match attempt.branch {
        Branch::Local => action.local,
        Branch::Remote => action.remote,
    }
}
