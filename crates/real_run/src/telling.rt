// Floors that record their calls.
ghost use Rattle.real_run.specs.Tells.{AllTell};

use bare_calls::LockFile;
use outside::Floor;
use outside_real::RealFloor;
use std::process::{Processes, SystemProcess};
use std::rt::Files;
use std::sync::Wait;
use std::thread::Threads;
use worker_run::Ended;

/// A floor that records its calls, as do all objects that it makes.
pub trait Telling: Floor {
    /// Does nothing, but its clause states that all objects that a run over the floor has left record their calls.
    fn see(ended: &Ended<Self>)
        ensures { AllTell ended.now };
}

impl<R> Telling for RealFloor<R>
where
    R: Files<File: LockFile> + Processes<Started = SystemProcess>,
    R: AllocGlobal + Threads + Wait + Clone + Drop,
{
    #[tactic(auto, using(crate::proofs::Told::laid_tells))]
    fn see(ended: &Ended<RealFloor<R>>) {
        seen(&ended.floor);
        seen(&ended.laid);
    }
}

// Does nothing: an object that is looked at is known by its record.
fn seen<T>(_x: &T) {}
