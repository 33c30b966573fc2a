//! Laws about the group that has the command of the sandbox executor. The functions do nothing: they are
//! laws.
ghost use Rattle.spawn_tasks.specs.Laws.{HasGroupLaw, SandboxLaw};

/// Shows that the sandboxed actions run on the group of the sandbox executor. No other actions have a
/// branch there.
pub fn sandboxed_actions_run_on_their_group()
    ensures { SandboxLaw }
{}

/// Shows that the plan has that group if an action is sandboxed.
pub fn sandboxed_actions_have_a_group()
    ensures { HasGroupLaw }
{}
