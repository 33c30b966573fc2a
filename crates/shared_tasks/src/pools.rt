// The pools of a plan, and the speech of each of their berths.
ghost use Rattle.std.specs.Prelude.{◌≡◌, ◌∷◌, [], ◌++◌, ◌^◌, ◌<◌, IfOk, OnOk, length};
ghost use Rattle.run_plan.specs.declared.plan.Speech.TheVariants.{Remote};
ghost use Rattle.run_plan.specs.Groups.{is_remote};
ghost use Rattle.shared_tasks.specs.Pools.{executors_from, is_same, pool_if, pools_in, speaking_from, speeches_in, spoken_pools};

use action_list::GroupPart;
use placed_rules::SharedPool;
use plain_values::{Items, NoMemory};
use run_plan::{Group, Kind, Speech};
use std::alloc::Global;

/// Pools, and the speech of each of their berths, in the order of the berths.
#[derive(Drop)]
pub struct SpokenPools {
    pub pools: Vec<SharedPool>,
    pub speeches: Vec<Speech>,
}

/// Returns the pools of the groups with these parts. The pool of a worker protocol has `workers` berths. Each
/// group of executors has a pool of its own, with the berths of the group.
///
/// # Errors
///
/// Returns `NoMemory` if memory runs out.
pub fn pools_of(
    alloc: Global,
    groups: &[Group],
    parts: &[GroupPart],
    workers: u32,
) -> Result<SpokenPools, NoMemory>
    requires groups { length groups.now < 2 ^ 32 }
    requires parts { length parts.now < 2 ^ 32 }
    ensures pools { IfOk result
        (λ x. x.pools.items ≡ pools_in (spoken_pools groups.now parts.now workers)) }
    ensures speeches { IfOk result
        (λ x. x.speeches.items ≡ speeches_in (spoken_pools groups.now parts.now workers)) }
{
    let mut made = SpokenPools {
        pools: Vec::new(alloc),
        speeches: Vec::new(alloc),
    };
    made.add(
        speaking(alloc, parts, Speech::Proto)?,
        workers,
        Speech::Proto,
    )?;
    made.add(speaking(alloc, parts, Speech::Json)?, workers, Speech::Json)?;
    made.add_executors(alloc, groups)?;
    Ok(made)
}

impl SpokenPools {
    // Adds the pool of each group of executors.
    fn add_executors(&mut self, alloc: Global, groups: &[Group]) -> Result<(), NoMemory>
        requires { length groups.now < 2 ^ 32 }
        ensures pools { OnOk result (self.new.pools.items
            ≡ self.old.pools.items ++ pools_in (executors_from 0 groups.now)) }
        ensures speeches { OnOk result (self.new.speeches.items
            ≡ self.old.speeches.items ++ speeches_in (executors_from 0 groups.now)) }
    {
        let mut number = 0;
        for group in groups {
            if is_remote(group.kind) {
                self.add_executor(alloc, number, group.berths)?;
            }
            number += 1;
        }
        Ok(())
    }

    // Adds the pool of one group of executors.
    fn add_executor(&mut self, alloc: Global, group: u32, berths: u32) -> Result<(), NoMemory>
        ensures pools { OnOk result (self.new.pools.items
            ≡ self.old.pools.items ++ pools_in (pool_if Remote (group ∷ []) berths)) }
        ensures speeches { OnOk result (self.new.speeches.items
            ≡ self.old.speeches.items ++ speeches_in (pool_if Remote (group ∷ []) berths)) }
    {
        let mut groups = Vec::new(alloc);
        groups.push(group)?;
        self.add(groups, berths, Speech::Remote)
    }

    // Adds the pool of these groups, with `berths` berths. If there are no groups, adds nothing.
    fn add(&mut self, groups: Vec<u32>, berths: u32, speech: Speech) -> Result<(), NoMemory>
        ensures pools { OnOk result (self.new.pools.items
            ≡ self.old.pools.items ++ pools_in (pool_if speech groups.items berths)) }
        ensures speeches { OnOk result (self.new.speeches.items
            ≡ self.old.speeches.items ++ speeches_in (pool_if speech groups.items berths)) }
    {
        if groups.is_empty() {
            return Ok(());
        }
        self.pools.push(SharedPool {
            groups: Items::of(groups),
            berths,
        })?;
        for _berth in 0..berths {
            self.speeches.push(speech)?;
        }
        Ok(())
    }
}

// Returns the groups whose part has this speech.
fn speaking(alloc: Global, parts: &[GroupPart], speech: Speech) -> Result<Vec<u32>, NoMemory>
    requires { length parts.now < 2 ^ 32 }
    ensures { IfOk result (λ v. v.items ≡ speaking_from speech 0 parts.now) }
{
    let mut groups = Vec::new(alloc);
    let mut number = 0;
    for part in parts {
        if is_same(part.speech, speech) {
            groups.push(number)?;
        }
        number += 1;
    }
    Ok(groups)
}

fn is_remote(kind: Kind) -> bool
    ensures { result ≡ is_remote kind }
{
    match kind {
        Kind::Remote => true,
        Kind::Single | Kind::Multi | Kind::Boxed => false,
    }
}

fn is_same(one: Speech, other: Speech) -> bool
    ensures { result ≡ is_same one other }
{
    matches!(
        (one, other),
        (Speech::Proto, Speech::Proto)
            | (Speech::Json, Speech::Json)
            | (Speech::Remote, Speech::Remote)
    )
}
