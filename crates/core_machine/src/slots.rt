//! Lists of slots, each of which is empty or contains one object.
ghost use Rattle.std.specs.Prelude.{◌≡◌, ◌<◌, ◌≤◌, ◌+◌, [], IfOk, Some, None, length, map, set, replicate, vec_len, vec_capacity};
ghost use Rattle.core_machine.specs.Slots.{lies_in};

use plain_values::NoMemory;
use std::alloc::Global;
use std::collections::VecDeque;

/// Creates `count` empty slots.
pub(crate) fn empty_slots<X: Drop>(alloc: Global, count: usize) -> Result<Vec<Option<X>>, NoMemory>
    ensures { IfOk result (λ v. v.items ≡ replicate count None) }
{
    let mut slots = Vec::with_capacity(alloc, count)?;
    for _slot in 0..count {
        slots.push_reserved(None);
    }
    Ok(slots)
}

/// Returns a slot for each of these things, in their order, with the thing in it. The function
/// takes no memory: there is room for them in `room`.
pub(crate) fn full_slots<X: Drop>(things: Vec<X>, room: Vec<Option<X>>) -> Vec<Option<X>>
    requires empty { room.items ≡ [] }
    requires room { vec_len room + length things.items ≤ vec_capacity room }
    ensures { result.items ≡ map Some things.items }
{
    let mut slots = room;
    let mut rest = VecDeque::from_vec(things);
    while let Some(thing) = rest.pop_front() {
        slots.push_reserved(Some(thing));
    }
    slots
}

/// Takes the thing out of the slot, if there is one.
pub(crate) fn take_at<X: Drop>(slots: &mut Vec<Option<X>>, index: usize) -> Option<X>
    ensures taken { result ≡ lies_in slots.old.items index }
    ensures left { slots.new.items ≡ set slots.old.items index None }
{
    slots.get_mut(index)?.take()
}

/// Puts the thing into the slot, if there is such a slot.
pub(crate) fn put_at<X: Drop>(slots: &mut Vec<Option<X>>, index: usize, thing: X)
    ensures { slots.new.items ≡ set slots.old.items index (Some thing) }
{
    if index < slots.len() {
        slots[index] = Some(thing);
    }
}
