//! The shelf.
ghost use Rattle.std.specs.Prelude.{◌≡◌, ◌≤◌, ◌+◌, [], IfOk, IfErr, Some, None, map, replicate, vec_len, vec_capacity};
ghost use Rattle.core_machine.specs.Slots.{put_in};
ghost use Rattle.core_machine.specs.Shifts.{children_then, taps_then, places_then, good_then};
ghost use Rattle.core_machine.specs.Shifts.{child_put, tap_put, place_put};

use crate::slots::{empty_slots, full_slots, put_at, take_at};
use core_contract::Shift;
use plain_values::NoMemory;
use std::alloc::Global;

/// The objects that go in with a call of a lane, or come out with its reply. The type has no bound,
/// so a contract may name it for any outside.
#[derive(Drop)]
pub enum Good<K, T, P> {
    /// The child and the tap of a line that was started.
    Line(K, T),
    /// The child of a line.
    Child(K),
    /// The tap of a line.
    Tap(T),
    /// The place of an action.
    Place(P),
}

/// A slot for a child and one for a tap of each berth, and one for the place of each action.
#[derive(Drop)]
pub struct Shelf<K, T, P> {
    pub(crate) children: Vec<Option<K>>,
    pub(crate) taps: Vec<Option<T>>,
    pub(crate) places: Vec<Option<P>>,
}

impl<K: Drop, T: Drop, P: Drop> Shelf<K, T, P> {
    /// Creates a shelf for `berths` berths, with these places on it. No other call takes memory.
    ///
    /// # Errors
    ///
    /// Returns the places, unchanged, if memory runs out for the slots.
    pub(crate) fn new(
        alloc: Global,
        berths: usize,
        places: Vec<P>,
    ) -> Result<Shelf<K, T, P>, Vec<P>>
        ensures children { IfOk result (λ s. s.children.items ≡ replicate berths None) }
        ensures taps { IfOk result (λ s. s.taps.items ≡ replicate berths None) }
        ensures places { IfOk result (λ s. s.places.items ≡ map Some places.items) }
        ensures back { IfErr result (λ back. back.items ≡ places.items) }
    {
        let Ok(empty) = Shelf::empty(alloc, berths, places.len()) else {
            return Err(places);
        };
        let Shelf {
            children,
            taps,
            places: room,
        } = empty;
        let places = full_slots(places, room);
        Ok(Shelf {
            children,
            taps,
            places,
        })
    }

    // Creates an empty shelf for `berths` berths, with room for `places` places.
    fn empty(alloc: Global, berths: usize, places: usize) -> Result<Shelf<K, T, P>, NoMemory>
        ensures children { IfOk result (λ s. s.children.items ≡ replicate berths None) }
        ensures taps { IfOk result (λ s. s.taps.items ≡ replicate berths None) }
        ensures places { IfOk result (λ s. s.places.items ≡ []) }
        ensures room { IfOk result (λ s. vec_len s.places + places ≤ vec_capacity s.places) }
    {
        let children = empty_slots(alloc, berths)?;
        let taps = empty_slots(alloc, berths)?;
        let places = Vec::with_capacity(alloc, places)?;
        Ok(Shelf {
            children,
            taps,
            places,
        })
    }

    /// Moves the objects of this shift into or out of the slots of this berth or of an action.
    pub(crate) fn shift(
        &mut self,
        berth: usize,
        shift: Shift,
        put: Option<Good<K, T, P>>,
    ) -> Option<Good<K, T, P>>
        ensures children { self.new.children.items
            ≡ children_then shift berth put self.old.children.items }
        ensures taps { self.new.taps.items ≡ taps_then shift berth put self.old.taps.items }
        ensures places { self.new.places.items ≡ places_then shift put self.old.places.items }
        ensures good { result ≡ good_then shift berth
            self.old.children.items self.old.taps.items self.old.places.items }
    {
        match shift {
            Shift::PutLine => {
                self.put_line(berth, put);
                None
            }
            Shift::TakeTap => Some(Good::Tap(take_at(&mut self.taps, berth)?)),
            Shift::TakeChild => Some(Good::Child(take_at(&mut self.children, berth)?)),
            Shift::TakePlace(action) => {
                let place = take_at(&mut self.places, action as usize)?;
                Some(Good::Place(place))
            }
            Shift::PutPlace(action) => {
                self.put_place(action as usize, put);
                None
            }
            Shift::Nothing => None,
        }
    }

    // Puts the child and the tap into the slots of their berth.
    fn put_line(&mut self, berth: usize, put: Option<Good<K, T, P>>)
        ensures children { self.new.children.items
            ≡ put_in (child_put put) berth self.old.children.items }
        ensures taps { self.new.taps.items ≡ put_in (tap_put put) berth self.old.taps.items }
        ensures places { self.new.places ≡ self.old.places }
    {
        match put {
            Some(Good::Line(child, tap)) => {
                put_at(&mut self.children, berth, child);
                put_at(&mut self.taps, berth, tap);
            }
            Some(Good::Child(_child)) => {}
            Some(Good::Tap(_tap)) => {}
            Some(Good::Place(_place)) => {}
            None => {}
        }
    }

    // Puts the place into the slot of its action.
    fn put_place(&mut self, action: usize, put: Option<Good<K, T, P>>)
        ensures children { self.new.children ≡ self.old.children }
        ensures taps { self.new.taps ≡ self.old.taps }
        ensures places { self.new.places.items
            ≡ put_in (place_put put) action self.old.places.items }
    {
        match put {
            Some(Good::Line(_child, _tap)) => {}
            Some(Good::Child(_child)) => {}
            Some(Good::Tap(_tap)) => {}
            Some(Good::Place(place)) => put_at(&mut self.places, action, place),
            None => {}
        }
    }
}
