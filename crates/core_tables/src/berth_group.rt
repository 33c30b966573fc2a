// The plan's data about a berth.
ghost use Rattle.std.specs.Prelude.{◌≡◌, ◌<◌, ◌^◌, length};
ghost use Rattle.core_tables.specs.Seats.{seat_from};

use exec_journal::{Group, Kind, Plan};

/// A berth's group: its number, its first berth, its number of berths, its kind, and whether it has
/// cancellation.
#[derive(Clone, Copy)]
pub struct BerthGroup {
    pub group: u32,
    pub first: u32,
    pub berths: u32,
    pub kind: Kind,
    pub cancel: bool,
}

/// Returns the berth's group, if the plan has the berth.
pub fn group_of_berth(plan: &Plan, berth: u32) -> Option<BerthGroup>
    requires { length plan.now.groups < 2 ^ 32 }
    ensures { result ≡ seat_from 0 0 plan.now.groups berth }
{
    seat_in(plan.groups.as_slice(), berth)
}

fn seat_in(groups: &[Group], berth: u32) -> Option<BerthGroup>
    requires { length groups.now < 2 ^ 32 }
    ensures { result ≡ seat_from 0 0 groups.now berth }
{
    let mut first = 0;
    let mut rest = berth;
    for (number, group) in groups.iter().enumerate() {
        if rest < group.berths {
            return Some(BerthGroup {
                group: number as u32,
                first,
                berths: group.berths,
                kind: group.kind,
                cancel: group.cancel,
            });
        }
        first += group.berths;
        rest -= group.berths;
    }
    None
}
