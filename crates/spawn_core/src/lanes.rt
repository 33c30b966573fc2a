// The number of berths, and what each of their lanes owes.
ghost use Rattle.std.specs.Prelude.{◌≡◌, ◌≤◌, ◌<◌, ◌*◌, ℕ, List, sum_by};
ghost use Rattle.run_plan.specs.declared.plan.Plan.{Plan};
ghost use Rattle.exec_journal.specs.Entry.{Entry};
ghost use Rattle.journal_laws.specs.Paid.{count, lane_owes};
ghost use Rattle.core_laws.specs.Stands.{Stands};
ghost use Rattle.spawn_core.specs.Outlook.{owes_by};
ghost use Rattle.spawn_core.specs.Stands.{HasTables};

use core_state::State;
use core_tables::{LaneState, Said};
use exec_journal::Group;

/// Returns the number of berths of these groups.
pub fn all_berths(groups: &[Group]) -> u32
    requires { sum_by (λ g. g.berths) groups.now ≤ 64 }
    ensures { result ≡ sum_by (λ g. g.berths) groups.now }
{
    let mut berths = 0;
    for group in groups {
        berths += group.berths;
    }
    berths
}

/// Returns how many paid entries the lane still owes: its Halt, and the Committed of each grant to
/// it. A lane without a berth in the tables owes none.
pub fn lane_owes(state: &State, lane: u32) -> u64
    requires { HasTables state.now }
    ensures owes { (p : Plan) (seats : ℕ) (j : List Entry) → Stands p seats state.now j
        → lane < 2 * seats → result ≡ lane_owes j lane }
    ensures none { (p : Plan) (seats : ℕ) (j : List Entry) → Stands p seats state.now j
        → 2 * seats ≤ lane → result ≡ 0 }
{
    if lane / 2 < state.last.len() {
        owes(state.lanes.state(lane))
    } else {
        0
    }
}

// Returns how many entries a lane in this state owes.
fn owes(lane: LaneState) -> u64
    ensures { result ≡ owes_by lane }
{
    count(!lane.stopped && !lane.halted) + count(matches!(lane.said, Said::Won { .. }))
}

fn count(is: bool) -> u64
    ensures { result ≡ count is }
{
    if is { 1 } else { 0 }
}
