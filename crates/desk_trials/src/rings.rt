//! Lanes whose rests are ended by rings alone.
ghost use Rattle.std.specs.Prelude.{◌≡◌, ◌+◌, ◌<◌, ◌≤◌, ◌^◌, ◌-◌, ◌*◌, All, IfOk};
ghost use Rattle.seat_desk.specs.Passes.{IsPassOf, IsRootOf};

use desk_machines::exchanging::Until;
use desk_machines::slot::{Ask, Slot};
use lane_bells::Bells;
use lane_threads::Caller;
use plain_values::NoMemory;
use seat_desk::{Desk, Pass, Root};
use std::alloc::Global;
use std::sync::Wait;
use std::thread;
use std::thread::Threads;

/// Runs `pairs` pairs of lanes that fill and empty one slot, `count` times each. Only a ring ends a rest, so
/// they all end only if every lane with news is rung. Returns the number of calls that were made.
///
/// # Errors
///
/// Returns `NoMemory` if memory runs out for the desk or the lanes. A lane that runs out of memory makes
/// fewer calls.
pub fn exchange_by_rings<R: Threads + Wait + Sync>(
    rt: &R,
    alloc: Global,
    pairs: u32,
    count: usize,
) -> Result<usize, NoMemory>
    requires { pairs ≤ 64 }
{
    let lanes = 2 * pairs;
    let bells = Bells::without_limit(alloc, lanes)?;
    let (desk, mut root) = Desk::new(alloc, Slot::new())?;
    let passes = passes(rt, alloc, &desk, &mut root, lanes)?;
    let bells = &bells;
    let desk = &desk;
    let made = thread::map_vec(
        rt,
        passes,
        &|pass: Pass<Slot>| -> usize
            requires { IsPassOf desk.now pass × (pass.lane < bells.now) }
        { fill_or_empty(rt, desk, bells, pass, count) },
    )?;
    Ok(
        made.iter()
            .fold(0usize, |sum, calls| sum.wrapping_add(*calls)),
    )
}

// Splits off the passes of the first lanes.
fn passes<R>(
    rt: &R,
    alloc: Global,
    desk: &Desk<Slot>,
    root: &mut Root<Slot>,
    lanes: u32,
) -> Result<Vec<Pass<Slot>>, NoMemory>
    requires desk { IsRootOf desk.now root.old }
    requires first { root.old.made ≡ 0 }
    requires few { lanes ≤ 128 }
    ensures { IfOk result (λ v. All (λ p. IsPassOf desk.now p × (p.lane < lanes)) v.items) }
{
    let mut passes = Vec::new(alloc);
    let mut made = 0;
    while made < lanes {
        passes.push(desk.split(rt, root))?;
        made += 1;
    }
    Ok(passes)
}

// Fills the slot `count` times if the lane's number is even, and empties it if not. Returns the number of
// calls that were made.
fn fill_or_empty<R: Wait>(
    rt: &R,
    desk: &Desk<Slot>,
    bells: &Bells,
    pass: Pass<Slot>,
    count: usize,
) -> usize
    requires desk { IsPassOf desk.now pass }
    requires bell { pass.lane < bells.now }
{
    let is_filler = pass.lane() % 2 == 0;
    let question = Until {
        ask: if is_filler { Ask::Fill } else { Ask::Empty },
    };
    let mut caller = Caller::new(desk, bells, pass);
    let mut made = 0usize;
    for _ in 0..count {
        if caller.ask(rt, &question).is_err() {
            break;
        }
        made = made.wrapping_add(1);
    }
    drop(caller.into_pass());
    made
}
