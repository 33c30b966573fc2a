//! Lanes that add ones, each in a separate thread.
ghost use Rattle.std.specs.Prelude.{◌≡◌, ◌%◌, ◌^◌, IfOk};
ghost use Rattle.seat_desk.specs.Passes.{IsPassOf};
ghost use Rattle.desk_machines.specs.AdderSums.{added, SumsFrom};
ghost use Rattle.desk_machines.specs.Lanes.{HasCalls, HasMade};

use crate::adder::{Add, Adder};
use plain_values::NoMemory;
use seat_desk::{Closed, Desk, Pass};
use std::alloc::Global;
use std::sync::Wait;
use std::thread::{Threads, join};

/// A thread's result: its pass, and how many calls it made.
#[derive(Drop)]
pub struct Done {
    pub pass: Pass<Adder>,
    pub made: usize,
}

/// A desk that was closed, and how many calls each lane made.
#[derive(Drop)]
pub struct Tally {
    pub closed: Closed<Adder>,
    pub made: (usize, usize, usize, usize),
}

/// Adds one, `count` times or until memory runs out.
pub fn adds<R: Wait>(rt: &R, desk: &Desk<Adder>, mut pass: Pass<Adder>, count: usize) -> Done
    requires { IsPassOf desk.now pass }
    ensures { HasMade count desk.now pass result.pass result.made }
{
    let mut made = 0;
    while made < count {
        if desk.call(rt, &mut pass, Add { number: 1 }, None).is_err() {
            break;
        }
        made += 1;
    }
    Done { pass, made }
}

/// The passes of two lanes.
#[derive(Drop)]
pub struct Pair {
    pub first: Pass<Adder>,
    pub second: Pass<Adder>,
}

/// Runs two lanes at once.
pub fn two<R: Threads + Wait + Sync>(
    rt: &R,
    desk: &Desk<Adder>,
    pair: Pair,
    count: usize,
) -> (Done, Done)
    requires { IsPassOf desk.now pair.first × IsPassOf desk.now pair.second }
    ensures first { HasMade count desk.now pair.first result.0.pass result.0.made }
    ensures second { HasMade count desk.now pair.second result.1.pass result.1.made }
{
    let Pair { first, second } = pair;
    join(
        rt,
        move || -> Done
            requires { IsPassOf desk.now first }
            ensures { HasMade count desk.entry.now first result.pass result.made }
        { adds(rt, desk, first, count) },
        move || -> Done
            requires { IsPassOf desk.now second }
            ensures { HasMade count desk.entry.now second result.pass result.made }
        { adds(rt, desk, second, count) },
    )
}

/// Runs four lanes at once.
pub fn four<R: Threads + Wait + Sync>(
    rt: &R,
    desk: &Desk<Adder>,
    front: Pair,
    back: Pair,
    count: usize,
) -> ((Done, Done), (Done, Done))
    requires front { IsPassOf desk.now front.first × IsPassOf desk.now front.second }
    requires back { IsPassOf desk.now back.first × IsPassOf desk.now back.second }
    ensures first { HasMade count desk.now front.first result.0.0.pass result.0.0.made }
    ensures second { HasMade count desk.now front.second result.0.1.pass result.0.1.made }
    ensures third { HasMade count desk.now back.first result.1.0.pass result.1.0.made }
    ensures fourth { HasMade count desk.now back.second result.1.1.pass result.1.1.made }
{
    join(
        rt,
        move || -> (Done, Done)
            requires { IsPassOf desk.now front.first × IsPassOf desk.now front.second }
            ensures { HasMade count desk.entry.now front.first result.0.pass result.0.made
                × HasMade count desk.entry.now front.second result.1.pass result.1.made }
        { two(rt, desk, front, count) },
        move || -> (Done, Done)
            requires { IsPassOf desk.now back.first × IsPassOf desk.now back.second }
            ensures { HasMade count desk.entry.now back.first result.0.pass result.0.made
                × HasMade count desk.entry.now back.second result.1.pass result.1.made }
        { two(rt, desk, back, count) },
    )
}

/// Runs four lanes that add ones, `count` times each, on four threads. The history contains exactly the
/// calls that each lane made. Each reply in it is the sum so far, and the machine's sum is the sum of all.
///
/// # Errors
///
/// Returns `NoMemory` if memory runs out for the desk. A lane that runs out of memory makes fewer calls.
pub fn count_by_four<R: Threads + Wait + Sync>(
    rt: &R,
    alloc: Global,
    count: usize,
) -> Result<Tally, NoMemory>
    ensures first { IfOk result (λ t. HasCalls count 0 t.closed.history.items t.made.0) }
    ensures second { IfOk result (λ t. HasCalls count 1 t.closed.history.items t.made.1) }
    ensures third { IfOk result (λ t. HasCalls count 2 t.closed.history.items t.made.2) }
    ensures fourth { IfOk result (λ t. HasCalls count 3 t.closed.history.items t.made.3) }
    ensures replies { IfOk result (λ t. SumsFrom 0 t.closed.history.items) }
    ensures sum { IfOk result (λ t. t.closed.machine.sum ≡ added t.closed.history.items % 2 ^ 64) }
{
    let (desk, mut root) = Desk::new(alloc, Adder::new())?;
    let front = Pair {
        first: desk.split(rt, &mut root),
        second: desk.split(rt, &mut root),
    };
    let back = Pair {
        first: desk.split(rt, &mut root),
        second: desk.split(rt, &mut root),
    };
    let ((a, b), (c, d)) = four(rt, &desk, front, back, count);
    let made = (a.made, b.made, c.made, d.made);
    desk.join_pass(rt, &mut root, a.pass);
    desk.join_pass(rt, &mut root, b.pass);
    desk.join_pass(rt, &mut root, c.pass);
    desk.join_pass(rt, &mut root, d.pass);
    let closed = desk.close(rt, root);
    Ok(Tally { closed, made })
}
