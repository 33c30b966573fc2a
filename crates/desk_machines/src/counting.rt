//! Lanes that add modulo a number, on two threads.
ghost use Rattle.std.specs.Prelude.{◌≡◌, ◌+◌, ◌<◌, ◌%◌, [], ◌∷◌, ◌++◌, IfOk, IfSome};
ghost use Rattle.seat_desk.specs.Passes.{IsPassOf, IsSamePass, basis, seen};
ghost use Rattle.seat_desk.specs.History.{entry, calls_by, StartsWith};
ghost use Rattle.desk_machines.specs.CounterSums.{added, CountsFrom};
ghost use Rattle.desk_machines.specs.Lanes.{HasAdded};

use crate::counter::{Answer, Ask, Counter};
use plain_values::NoMemory;
use seat_desk::{Closed, Desk, Pass};
use std::alloc::Global;
use std::sync::Wait;
use std::thread::{Threads, join};

/// Adds a number. Returns the sum so far modulo the number of the pass's machine, or `None` if memory ran
/// out for the call. The reply is never [`Answer::NoRoom`].
pub fn add<R: Wait>(
    rt: &R,
    desk: &Desk<Counter>,
    mut pass: Pass<Counter>,
    n: u64,
) -> (Pass<Counter>, Option<u64>)
    requires { IsPassOf desk.now pass }
    ensures same { IsPassOf desk.now result.0 × (result.0.lane ≡ pass.lane)
        × (basis result.0 ≡ basis pass) }
    ensures added { IfSome result.1 (HasAdded n pass result.0) }
{
    match desk.call(rt, &mut pass, Ask::Add(n), None) {
        Ok((Answer::Sum(sum), _)) => (pass, Some(sum)),
        Ok((Answer::NoRoom, _)) => unreachable!(),
        Err(_) => (pass, None),
    }
}

/// Returns the sum so far, or `None` if there was no room or no memory for it.
pub fn look<R: Wait>(rt: &R, desk: &Desk<Counter>, pass: &mut Pass<Counter>) -> Option<u64>
    requires { IsPassOf desk.now pass.old }
    ensures same { IsPassOf desk.now pass.new × IsSamePass pass.old pass.new }
    ensures sum { IfSome result (λ r. (h : _) × StartsWith h (seen pass.old)
        × (r ≡ added h % basis pass.old)) }
{
    match desk.call(rt, pass, Ask::Look, None) {
        Ok((Answer::Sum(sum), _)) => Some(sum),
        _ => None,
    }
}

/// Runs two lanes at once.
pub fn two<R: Threads + Wait + Sync>(
    rt: &R,
    desk: &Desk<Counter>,
    a: Pass<Counter>,
    b: Pass<Counter>,
    n: u64,
) -> ((Pass<Counter>, Option<u64>), (Pass<Counter>, Option<u64>))
    requires { IsPassOf desk.now a × IsPassOf desk.now b }
    ensures desk { IsPassOf desk.now result.0.0 × IsPassOf desk.now result.1.0 }
    ensures first { (result.0.0.lane ≡ a.lane) × IfSome result.0.1 (HasAdded n a result.0.0) }
    ensures second { (result.1.0.lane ≡ b.lane) × IfSome result.1.1 (HasAdded n b result.1.0) }
{
    join(
        rt,
        move || -> (Pass<Counter>, Option<u64>)
            requires { IsPassOf desk.now a }
            ensures { IsPassOf desk.entry.now result.0 × (result.0.lane ≡ a.lane)
                × IfSome result.1 (HasAdded n a result.0) }
        { add(rt, desk, a, n) },
        move || -> (Pass<Counter>, Option<u64>)
            requires { IsPassOf desk.now b }
            ensures { IsPassOf desk.entry.now result.0 × (result.0.lane ≡ b.lane)
                × IfSome result.1 (HasAdded n b result.0) }
        { add(rt, desk, b, n) },
    )
}

/// Runs a counter of this modulus that two threads call. Each reply in the history is the sum so far modulo
/// it, and the history contains each lane's replies.
///
/// # Errors
///
/// Returns `NoMemory` if memory runs out for the desk or for a call.
pub fn run<R: Threads + Wait + Sync>(
    rt: &R,
    alloc: Global,
    modulus: u64,
    n: u64,
) -> Result<(Closed<Counter>, u64, u64), NoMemory>
    requires { 0 < modulus }
    ensures replies { IfOk result (λ r. CountsFrom modulus 0 r.0.history.items) }
    ensures first { IfOk result (λ r. calls_by 0 r.0.history.items ≡ entry 0 (Ask.Add n)
        (Answer.Sum r.1) ∷ []) }
    ensures second { IfOk result (λ r. calls_by 1 r.0.history.items ≡ entry 1 (Ask.Add n)
        (Answer.Sum r.2) ∷ []) }
{
    let (desk, mut root) = Desk::new(alloc, Counter::new(modulus, 0))?;
    let a = desk.split(rt, &mut root);
    let b = desk.split(rt, &mut root);
    let ((a, first), (b, second)) = two(rt, &desk, a, b, n);
    let (Some(first), Some(second)) = (first, second) else {
        return Err(NoMemory);
    };
    desk.join_pass(rt, &mut root, a);
    desk.join_pass(rt, &mut root, b);
    let closed = desk.close(rt, root);
    Ok((closed, first, second))
}
