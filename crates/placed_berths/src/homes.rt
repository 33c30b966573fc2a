// The pools of a plan, and the pool of each group.
ghost use Rattle.std.specs.Prelude.{◌≡◌, IfOk, Some, slice_get};
ghost use Rattle.list_lemmas.specs.Places.{update};
ghost use Rattle.placed_rules.specs.Pools.{has_group, usable_seats};
ghost use Rattle.placed_berths.specs.Homes.{AreHomes, StandOnce, is_home, with_homes};

use crate::pools::berths_of;
use placed_rules::SharedPool;
use plain_values::{Items, NoMemory};
use std::alloc::Global;
use std::marker::Model;

/// Pools, one of which contains each group. A contract sees the list of the pools.
#[derive(Drop)]
pub struct Pools {
    pools: Items<SharedPool>,
    // The place of each group's pool, by the groups' numbers.
    homes: Vec<usize>,
}

impl Model for Pools {
    ghost use Rattle.std.specs.Prelude.{List};
    ghost use Rattle.placed_rules.specs.declared.pools.SharedPool.{SharedPool};
    ghost use Rattle.placed_berths.specs.Homes.{AreHomes};

    ghost Value = { List SharedPool };

    ghost view = { λ p. p.pools };

    ghost invariant = { λ p. AreHomes p.pools p.homes.items };
}

impl Pools {
    /// Creates the table of the pools for `groups` groups. No other call takes memory.
    ///
    /// # Errors
    ///
    /// Returns `NoMemory` if memory runs out for the note of each group's pool.
    pub fn of(alloc: Global, groups: usize, pools: Items<SharedPool>) -> Result<Pools, NoMemory>
        requires { StandOnce groups pools }
        ensures { IfOk result (λ p. p ≡ pools) }
    {
        let homes = homes_of(alloc, groups, pools.as_slice())?;
        Ok(Pools { pools, homes })
    }

    /// Returns the pools themselves.
    pub fn as_slice(&self) -> &[SharedPool]
        ensures { result.now ≡ self.now }
    {
        self.pools.as_slice()
    }

    /// Returns the number of berths of the pools, or 0 if a run may not have as many.
    pub fn berths(&self) -> u32
        ensures { result ≡ usable_seats self.now }
    {
        berths_of(self.pools.as_slice())
    }

    /// Returns true if the group is in the pool at this place.
    pub fn is_home(&self, place: usize, group: u32) -> bool
        ensures { (pool : _) → slice_get self.now place ≡ Some pool
            → result ≡ has_group pool group }
    {
        is_noted(self.homes.as_slice(), group, place)
    }
}

// Returns true if the notes have this place for the group's pool.
fn is_noted(homes: &[usize], group: u32, place: usize) -> bool
    ensures { result ≡ is_home homes.now group place }
{
    match homes.get(group as usize) {
        Some(home) => *home == place,
        None => false,
    }
}

// Returns the place of each group's pool, for `groups` groups.
fn homes_of(alloc: Global, groups: usize, pools: &[SharedPool]) -> Result<Vec<usize>, NoMemory>
    requires { StandOnce groups pools.now }
    ensures { IfOk result (λ v. AreHomes pools.now v.items) }
{
    let mut homes = vec![in alloc; 0; groups]?;
    for (place, pool) in pools.iter().enumerate() {
        put_homes(homes.as_mut_slice(), pool.groups.as_slice(), place);
    }
    Ok(homes)
}

// Notes that these groups are in the pool at this place.
fn put_homes(homes: &mut [usize], groups: &[u32], place: usize)
    ensures { homes.new ≡ with_homes place groups.now homes.old }
{
    for group in groups {
        put_home(homes, *group, place);
    }
}

fn put_home(homes: &mut [usize], group: u32, place: usize)
    ensures { homes.new ≡ update (λ _. place) homes.old group }
{
    let number = group as usize;
    if number < homes.len() {
        homes[number] = place;
    }
}
