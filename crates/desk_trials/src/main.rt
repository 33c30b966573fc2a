//! Plays the trials of the desk and of its threads, and prints their results, which are the same for every
//! schedule.
#![tactic(auto)]

mod failure;
mod rings;
mod trials;

use failure::Failure;
use trials::tell_trials;

fn main(rt: HostRuntime) -> Result<(), Failure> {
    tell_trials(&rt, rt.alloc())
}
