// A place for each action, and a berth for each speech.
ghost use Rattle.std.specs.Prelude.{◌≡◌, ◌≤◌, true, length, map};
ghost use Rattle.outside.specs.Told.{Makes};
ghost use Rattle.core_machine.specs.Objects.{AreFresh};
ghost use Rattle.worker_run.specs.Lanes.{AreNewBerths};
ghost use Rattle.run_plan.specs.Limits.{most_actions, most_berths};

use outside::Floor;
use std::alloc::Global;

/// The places and the berths with which the lanes of a plan work.
#[derive(Drop)]
pub struct NewObjects<F: Floor> {
    pub places: Vec<F::Place>,
    pub berths: Vec<F::Berth>,
}

impl<F: Floor> NewObjects<F> {
    /// Returns true if there are `berths` berths and `actions` places.
    pub fn has_all(&self, berths: usize, actions: usize) -> bool
        ensures { result ≡ true → (length self.now.berths.items ≡ berths)
            × (length self.now.places.items ≡ actions) }
    {
        self.berths.len() == berths && self.places.len() == actions
    }
}

/// Makes `actions` places and then `berths` berths, both in the order of their numbers. If memory
/// runs out, fewer are made.
pub fn make_objects<F: Floor>(
    alloc: Global,
    floor: &mut F,
    berths: usize,
    actions: usize,
) -> NewObjects<F>
    requires berths { berths ≤ most_berths }
    requires actions { actions ≤ most_actions }
    ensures places { AreFresh F.Place.told (length result.places.items) result.places.items }
    ensures berths { AreNewBerths (length result.berths.items)
        (map F.Berth.told result.berths.items) }
    ensures few { (length result.places.items ≤ actions)
        × (length result.berths.items ≤ berths) }
    ensures made { Makes (length result.berths.items) (length result.places.items)
        (F.told floor.old) (F.told floor.new) }
    ensures log { (F.told floor.new).log ≡ (F.told floor.old).log }
    ensures count { (F.told floor.old).faults ≤ (F.told floor.new).faults }
{
    let places = make_places(alloc, floor, actions);
    let berths = make_berths(alloc, floor, berths);
    NewObjects { places, berths }
}

// Makes places for the first `count` actions, in order. If memory runs out, fewer are made.
#[tactic(auto, using(crate::proofs::Numbered::no_places, crate::proofs::Numbered::one_more_place))]
fn make_places<F: Floor>(alloc: Global, floor: &mut F, count: usize) -> Vec<F::Place>
    requires { count ≤ most_actions }
    ensures places { AreFresh F.Place.told (length result.items) result.items }
    ensures few { length result.items ≤ count }
    ensures made { Makes 0 (length result.items) (F.told floor.old) (F.told floor.new) }
    ensures log { (F.told floor.new).log ≡ (F.told floor.old).log }
    ensures count { (F.told floor.old).faults ≤ (F.told floor.new).faults }
{
    let Ok(mut places) = Vec::with_capacity(alloc, count) else {
        return Vec::new(alloc);
    };
    for action in 0..count as u32 {
        let Ok(place) = floor.make_place(action) else {
            return places;
        };
        places.push_reserved(place);
    }
    places
}

// Makes the first `count` berths, in order. If memory runs out, fewer are made.
#[tactic(auto, using(crate::proofs::Numbered::no_berths, crate::proofs::Numbered::one_more_berth))]
fn make_berths<F: Floor>(alloc: Global, floor: &mut F, count: usize) -> Vec<F::Berth>
    requires { count ≤ most_berths }
    ensures berths { AreNewBerths (length result.items) (map F.Berth.told result.items) }
    ensures few { length result.items ≤ count }
    ensures made { Makes (length result.items) 0 (F.told floor.old) (F.told floor.new) }
    ensures log { (F.told floor.new).log ≡ (F.told floor.old).log }
    ensures count { (F.told floor.old).faults ≤ (F.told floor.new).faults }
{
    let Ok(mut berths) = Vec::with_capacity(alloc, count) else {
        return Vec::new(alloc);
    };
    for number in 0..count as u32 {
        let Ok(berth) = floor.make_berth(number) else {
            return berths;
        };
        berths.push_reserved(berth);
    }
    berths
}
