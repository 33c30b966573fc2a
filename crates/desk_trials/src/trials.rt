//! The machines and the crew on which the desk and its threads are tried. Each is run, and its result is
//! printed.
ghost use Rattle.std.specs.Prelude.{◌<◌};

use crate::failure::Failure;
use crate::rings::exchange_by_rings;
use desk_machines::adder::Adder;
use desk_machines::adding::count_by_four;
use desk_machines::counter::Counter;
use desk_machines::counting::{add, look, run};
use desk_machines::exchanging::{SlotEnd, exchange};
use desk_machines::lending::stamp_token;
use desk_machines::locker::{Answer, Ask, Locker, Token};
use desk_machines::slot::{Ask as SlotAsk, Slot};
use seat_desk::{Desk, HistoryEntry};
use std::alloc::Global;
use std::sync::Wait;
use std::thread::Threads;

// The number of times that the crew is run. A lost ring would show as a delay of a second, and lanes that
// never end as a program that never ends.
const CREWS: u32 = 200;

/// Prints the result of each trial, which is the same for every schedule.
///
/// # Errors
///
/// Returns a `Failure` if memory runs out for them, or if standard output fails.
pub fn tell_trials<R: Threads + Wait + Print + Sync>(rt: &R, alloc: Global) -> Result<(), Failure> {
    tell_four(rt, alloc)?;
    tell_two(rt, alloc, 7)?;
    tell_two(rt, alloc, 4)?;
    tell_looks(rt, alloc)?;
    tell_token(rt, alloc)?;
    tell_slots(rt, alloc)?;
    tell_rings(rt, alloc)
}

// Runs four lanes that add ones. Prints the number of calls that each made, by its own count and by the
// history. Also prints the number of replies that are the sum so far.
fn tell_four<R: Threads + Wait + Print + Sync>(rt: &R, alloc: Global) -> Result<(), Failure> {
    let tally = count_by_four(rt, alloc, 250)?;
    let (first, second, third, fourth) = tally.made;
    println!(rt; "four lanes add {first}, {second}, {third}, {fourth} ones")?;
    for lane in 0..4u32 {
        let calls = calls_of(tally.closed.history.as_slice(), lane);
        println!(rt; "    {calls} calls of lane {lane}")?;
    }
    let sums = sums_so_far(tally.closed.history.as_slice());
    let sum = tally.closed.machine.sum;
    let history = tally.closed.history.len();
    println!(rt; "    {sums} sums so far in {history} calls, and {sum} in the end")?;
    Ok(())
}

fn calls_of(history: &[HistoryEntry<Adder>], lane: u32) -> usize {
    history.iter().filter(|entry| entry.lane == lane).count()
}

fn sums_so_far(history: &[HistoryEntry<Adder>]) -> usize {
    let mut sum = 0u64;
    let mut sums = 0usize;
    for entry in history {
        sum = sum.wrapping_add(1);
        if entry.call.number == 1 && entry.reply == sum {
            sums = sums.saturating_add(1);
        }
    }
    sums
}

// Runs two lanes that add 5 at a counter of this modulus. Which of them comes first differs.
fn tell_two<R: Threads + Wait + Print + Sync>(
    rt: &R,
    alloc: Global,
    modulus: u64,
) -> Result<(), Failure>
    requires { 0 < modulus }
{
    let (closed, first, second) = run(rt, alloc, modulus, 5)?;
    let least = first.min(second);
    let greatest = first.max(second);
    let history = closed.history.len();
    println!(rt; "two lanes add 5 modulo {modulus}: {least} and {greatest} in {history} calls")?;
    Ok(())
}

// Tries a counter that has room for one look.
fn tell_looks<R: Wait + Print>(rt: &R, alloc: Global) -> Result<(), Failure> {
    let (desk, mut root) = Desk::new(alloc, Counter::new(10, 1))?;
    let pass = desk.split(rt, &mut root);
    let (mut pass, sum) = add(rt, &desk, pass, 13);
    let seen = look(rt, &desk, &mut pass);
    let again = look(rt, &desk, &mut pass);
    println!(rt;
        "13 modulo 10, and two looks where there is room for one: {sum:?} {seen:?} {again:?}"
    )?;
    Ok(())
}

// Runs a lane that leaves a token, stamps it and takes it.
fn tell_token<R: Wait + Print>(rt: &R, alloc: Global) -> Result<(), Failure> {
    let (desk, mut root) = Desk::new(alloc, Locker::new())?;
    let mut pass = desk.split(rt, &mut root);
    let token = Token { number: 4 };
    let Ok((Answer::Left, None)) = desk.call(rt, &mut pass, Ask::Leave, Some(token)) else {
        return Err(Failure::NoMemory);
    };
    let left = pass.stirs();
    stamp_token(rt, &desk, &mut pass)?;
    let (Answer::Taken, Some(token)) = desk.call_paid(rt, &mut pass, Ask::Take, None) else {
        return Err(Failure::NoMemory);
    };
    let taken = pass.stirs();
    desk.join_pass(rt, &mut root, pass);
    let history = desk.close(rt, root).history.len();
    let number = token.number;
    println!(rt;
        "token 4 is left, stamped and taken: {number} in {history} calls, stirs {left:x} and {taken:x}"
    )?;
    Ok(())
}

// Runs three pairs of lanes that fill and empty a slot repeatedly.
fn tell_slots<R: Threads + Wait + Print + Sync>(rt: &R, alloc: Global) -> Result<(), Failure> {
    let mut in_turn = 0usize;
    let mut right = 0usize;
    for _ in 0..CREWS {
        let Ok(crew) = exchange(rt, alloc, 3, 20) else {
            return Err(Failure::NoMemory);
        };
        let is_right = crew.history.len() == 120 && are_in_turn(crew.history.as_slice());
        in_turn = in_turn.saturating_add(usize::from(is_right));
        right = right.saturating_add(right_ends(crew.ends.as_slice()));
    }
    println!(rt;
        "six lanes at one slot: {in_turn} times 120 calls in turn, {right} ends as they should be"
    )?;
    Ok(())
}

// Runs pairs of lanes that fill and empty a slot, and rest until they are rung.
fn tell_rings<R: Threads + Wait + Print + Sync>(rt: &R, alloc: Global) -> Result<(), Failure> {
    for pairs in [1u32, 4, 64] {
        let calls = exchange_by_rings(rt, alloc, pairs, 50)?;
        println!(rt; "{} lanes that only a ring wakes: {calls} calls", 2 * pairs)?;
    }
    Ok(())
}

// Returns true if every other call fills the slot, beginning with the first.
fn are_in_turn(history: &[HistoryEntry<Slot>]) -> bool {
    history.iter().enumerate().all(|(at, entry)| match entry.call {
        SlotAsk::Fill => at % 2 == 0,
        SlotAsk::Empty => at % 2 == 1,
    })
}

// Returns the number of lanes that end as they should. Lanes with even numbers have filled the slot 20
// times, and the others have emptied it 20 times.
fn right_ends(ends: &[SlotEnd]) -> usize {
    ends.iter()
        .enumerate()
        .filter(|(at, end)| match end {
            SlotEnd::Filled(made) => *at % 2 == 0 && *made == 20,
            SlotEnd::Emptied(made) => *at % 2 == 1 && *made == 20,
        })
        .count()
}
