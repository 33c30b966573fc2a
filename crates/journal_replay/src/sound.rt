// Checks if a plan is sound.
ghost use Rattle.std.specs.Prelude.{◌≡◌, ◌≤◌, ◌↔◌, IsTrue, ◌+◌, ◌<◌, ◌^◌, ◌&&◌, nat_le, sum_by, slice_get, length};
ghost use Rattle.std.specs.List.{list_all};
ghost use Rattle.run_plan.specs.Sound.{Sound, are_different, are_sound_from, has_branches, is_earlier, is_sound_action, is_sound_group, names_group};
ghost use Rattle.journal_replay.specs.Plans.{are_sound_groups, has_limits, is_sound};
ghost use Rattle.run_plan.specs.Limits.{most_berths};

use exec_journal::{Group, Kind, Maker, Plan, PlanAction};
use run_plan::{MOST_ACTIONS, MOST_ATTEMPTS, MOST_BERTHS};

/// Returns true if the plan meets all that is required of one.
pub fn is_sound(plan: &Plan) -> bool
    ensures { IsTrue result ↔ Sound plan.now }
{
    meets_all(plan)
}

fn meets_all(plan: &Plan) -> bool
    ensures { result ≡ is_sound plan.now }
{
    has_limits(plan)
        && are_sound_groups(plan.groups.as_slice())
        && are_sound(plan, plan.actions.as_slice())
}

// Returns true for 1 to 10 attempts and at most 4,096 actions.
fn has_limits(plan: &Plan) -> bool
    ensures { result ≡ has_limits plan.now }
{
    1 <= plan.limit && plan.limit <= MOST_ATTEMPTS && plan.actions.as_slice().len() <= MOST_ACTIONS
}

fn are_sound_groups(groups: &[Group]) -> bool
    ensures { result ≡ are_sound_groups groups.now }
{
    has_few_berths(groups) && groups.len() < 4_294_967_296 && is_each_sound(groups)
}

fn is_each_sound(groups: &[Group]) -> bool
    ensures { result ≡ list_all is_sound_group groups.now }
{
    groups.iter().all(is_sound_group)
}

// Returns true if all groups together have at most 64 berths.
fn has_few_berths(groups: &[Group]) -> bool
    ensures { result ≡ nat_le (sum_by (λ g. g.berths) groups.now) most_berths }
{
    let mut berths: u64 = 0;
    for group in groups {
        berths += u64::from(group.berths);
        if berths > u64::from(MOST_BERTHS) {
            return false;
        }
    }
    true
}

fn is_sound_group(group: &Group) -> bool
    ensures { result ≡ is_sound_group group.now }
{
    !(matches!(group.kind, Kind::Remote) && group.cancel)
}

fn are_sound(plan: &Plan, actions: &[PlanAction]) -> bool
    ensures { result ≡ are_sound_from plan.now 0 actions.now }
{
    let mut number = 0;
    for action in actions {
        if !is_sound_action(plan, number, action) {
            return false;
        }
        number += 1;
    }
    true
}

fn is_sound_action(plan: &Plan, number: usize, action: &PlanAction) -> bool
    ensures { result ≡ is_sound_action plan.now number action.now }
{
    action.outputs.as_slice().len() < 4_294_967_296
        && has_branches(plan.groups.as_slice().len(), action)
        && are_earlier(plan.actions.as_slice(), number, action.makers.as_slice())
}

fn has_branches(groups: usize, action: &PlanAction) -> bool
    ensures { result ≡ has_branches groups action.now }
{
    (action.local.is_some() || action.remote.is_some())
        && names_group(groups, action.local)
        && names_group(groups, action.remote)
        && are_different(action.local, action.remote)
}

fn names_group(groups: usize, group: Option<u32>) -> bool
    ensures { result ≡ names_group groups group }
{
    match group {
        Some(group) => (group as usize) < groups,
        None => true,
    }
}

fn are_different(local: Option<u32>, remote: Option<u32>) -> bool
    ensures { result ≡ are_different local remote }
{
    match (local, remote) {
        (Some(local), Some(remote)) => local != remote,
        _ => true,
    }
}

fn are_earlier(actions: &[PlanAction], number: usize, makers: &[Maker]) -> bool
    ensures { result ≡ list_all (is_earlier actions.now number) makers.now }
{
    makers
        .iter()
        .all(|maker| is_earlier(actions, number, *maker))
}

fn is_earlier(actions: &[PlanAction], number: usize, maker: Maker) -> bool
    ensures { result ≡ is_earlier actions.now number maker }
{
    if maker.action as usize >= number {
        return false;
    }
    match actions.get(maker.action as usize) {
        Some(action) => (maker.output as usize) < action.outputs.as_slice().len(),
        None => false,
    }
}
