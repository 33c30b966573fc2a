// A floor whose places wait for each other. A write goes on only once `wanted` writes have begun.
ghost use Rattle.std.specs.Prelude.{◌≡◌};

use outside::{Floor, Io, Place, Read};
use plain_values::NoMemory;
use std::alloc::Global;
use std::sync::Arc;
use std::sync::atomic::{AtomicU64, Ordering};
use std::thread;

/// The number of turns that a write waits before it fails.
const MOST_TURNS: u32 = 10_000_000;

/// A floor over another one, whose places wait.
#[derive(Drop)]
pub struct MeetingFloor<F> {
    floor: F,
    begun: Arc<AtomicU64>,
    wanted: u64,
}

/// A place over another one, whose writes wait.
#[derive(Drop)]
pub struct MeetingPlace<P> {
    place: P,
    begun: Arc<AtomicU64>,
    wanted: u64,
    faults: u64,
}

impl<F: Floor> MeetingFloor<F> {
    /// Returns a floor over `floor`. Each write to its places waits until `wanted` writes have begun.
    ///
    /// # Errors
    ///
    /// Returns `NoMemory` if memory runs out.
    pub fn new(alloc: Global, floor: F, wanted: u64) -> Result<MeetingFloor<F>, NoMemory> {
        Ok(MeetingFloor {
            floor,
            begun: Arc::new(alloc, AtomicU64::new(0))?,
            wanted,
        })
    }
}

impl<F: Floor> Floor for MeetingFloor<F> {
    type Berth = F::Berth;

    type Place = MeetingPlace<F::Place>;

    ghost told = { λ f. F.told f.floor };

    fn faults(&self) -> u64 {
        self.floor.faults()
    }

    fn read(&mut self, path: &str) -> Result<Read, NoMemory> {
        self.floor.read(path)
    }

    fn make_berth(&mut self, number: u32) -> Result<F::Berth, NoMemory> {
        self.floor.make_berth(number)
    }

    fn make_place(&mut self, number: u32) -> Result<MeetingPlace<F::Place>, NoMemory> {
        let begun = Arc::try_clone(&self.begun)?;
        Ok(MeetingPlace {
            place: self.floor.make_place(number)?,
            begun,
            wanted: self.wanted,
            faults: 0,
        })
    }
}

impl<P: Place> Place for MeetingPlace<P> {
    ghost told = { λ p. record {
      number = (P.told p.place).number;
      faults = p.faults;
      log = (P.told p.place).log;
    } };

    fn faults(&self) -> u64 {
        self.faults
    }

    fn write(&mut self, path: &str, bytes: &[u8]) -> Io {
        if all_begin(&self.begun, self.wanted)
            && matches!(self.place.write(path, bytes), Io::Done)
        {
            return Io::Done;
        }
        self.faults = self.faults.saturating_add(1);
        Io::Failed
    }
}

// Begins one more write, and waits for the others. Returns true if they have begun.
fn all_begin(begun: &AtomicU64, wanted: u64) -> bool {
    begun.fetch_add(1, Ordering::SeqCst);
    for _ in 0..MOST_TURNS {
        if begun.load(Ordering::SeqCst) >= wanted {
            return true;
        }
        thread::yield_now();
    }
    false
}
