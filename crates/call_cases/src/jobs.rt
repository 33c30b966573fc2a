// Jobs that arrive byte by byte, the executor that runs them, and its shops.
ghost use Rattle.std.specs.Prelude.{◌≡◌, None};

use crate::messages::bytes_of;
use demo_programs::execute;
use outside::{Io, JobEnd, Read, Shop, Taken, Tap, Variable};
use outside_mem::{FailAt, MemShop, MemSink, Object};
use plain_values::{Blob, NoMemory, Text};
use std::alloc::Global;
use std::sync::Wait;
use std::sync::atomic::AtomicBool;
use std::sync::atomic::Ordering::SeqCst;
use std::thread::{Threads, yield_now};

/// The number of turns that a run waits at most.
const MOST_TURNS: u64 = 10_000_000;

/// Runs the executor over these jobs. Four runs of its shop end: with exit code 0 and text, with 3 and
/// bytes that aren't UTF-8, with 0, and by a signal. No more runs can be started. The third put, the second
/// folder and the fifth look fail.
pub fn one_after_another<R: Threads + Wait + Sync>(
    rt: &R,
    alloc: Global,
    digits: &str,
) -> Result<String, NoMemory> {
    let mut shop = MemShop::new(alloc, Vec::new(alloc), ends(alloc)?, fails(alloc)?)?;
    let has_ended = AtomicBool::new(false);
    executed(rt, alloc, digits, &has_ended, &mut shop)
}

fn ends(alloc: Global) -> Result<Vec<JobEnd>, NoMemory> {
    let mut ends = Vec::new(alloc);
    ends.push(JobEnd::Exit(0, Blob::of(alloc, b"ran".to_vec(alloc)?)?))?;
    ends.push(JobEnd::Exit(3, Blob::of(alloc, b"\xff".to_vec(alloc)?)?))?;
    ends.push(JobEnd::Exit(0, Blob::of(alloc, Vec::new(alloc))?))?;
    ends.push(JobEnd::Signal)?;
    Ok(ends)
}

fn fails(alloc: Global) -> Result<Vec<FailAt>, NoMemory> {
    let mut fails = Vec::new(alloc);
    fails.push(FailAt {
        on: Object::ShopPut,
        nth: 3,
    })?;
    fails.push(FailAt {
        on: Object::ShopFolder,
        nth: 2,
    })?;
    fails.push(FailAt {
        on: Object::ShopGet,
        nth: 5,
    })?;
    Ok(fails)
}

/// Runs the executor over these jobs. Each run waits until all jobs have arrived.
pub fn meanwhile<R: Threads + Wait + Sync>(
    rt: &R,
    alloc: Global,
    digits: &str,
) -> Result<String, NoMemory> {
    let has_ended = AtomicBool::new(false);
    let mut shop = PatientShop::new(alloc, &has_ended);
    executed(rt, alloc, digits, &has_ended, &mut shop)
}

fn executed<R: Threads + Wait + Sync, S: Shop + Send + Drop>(
    rt: &R,
    alloc: Global,
    digits: &str,
    has_ended: &AtomicBool,
    shop: &mut S,
) -> Result<String, NoMemory> {
    let jobs = bytes_of(alloc, digits);
    let mut input = SlowInput::new(jobs.as_slice(), has_ended);
    let mut sink = MemSink::new(alloc, Vec::new(alloc));
    let finish = execute(rt, alloc, &mut input, &mut sink, shop);
    let put = hex::encode(alloc, sink.bytes())?;
    Ok(format!(in alloc; "{} {}", finish.status(), put.as_str())?)
}

/// An input that returns one byte for each read, and records when it has returned `End`.
#[derive(Drop)]
pub struct SlowInput<'a> {
    bytes: &'a [u8],
    given: usize,
    has_ended: &'a AtomicBool,
}

impl<'a> SlowInput<'a> {
    /// Returns an input with these bytes.
    pub fn new(bytes: &'a [u8], has_ended: &'a AtomicBool) -> SlowInput<'a> {
        SlowInput {
            bytes,
            given: 0,
            has_ended,
        }
    }
}

impl Tap for SlowInput<'_> {
    ghost told = { λ t. record { line = None; faults = 0; taken = None; ended = None } };

    fn faults(&self) -> u64 {
        0
    }

    fn read(&mut self, into: &mut [u8]) -> Taken {
        match self.bytes.get(self.given) {
            Some(byte) => {
                into[0] = *byte;
                self.given += 1;
                Taken::Bytes(1)
            }
            None => {
                self.has_ended.store(true, SeqCst);
                Taken::End
            }
        }
    }
}

/// A shop without files, in which every put succeeds. Each run waits until the input has ended, and fails
/// if it waits in vain.
#[derive(Drop)]
struct PatientShop<'a> {
    alloc: Global,
    has_ended: &'a AtomicBool,
    faults: u64,
}

impl<'a> PatientShop<'a> {
    /// Returns a shop whose runs wait for this flag.
    fn new(alloc: Global, has_ended: &'a AtomicBool) -> PatientShop<'a> {
        PatientShop {
            alloc,
            has_ended,
            faults: 0,
        }
    }
}

impl Shop for PatientShop<'_> {
    ghost told = { λ s. record { faults = s.faults; log = None } };

    fn faults(&self) -> u64 {
        self.faults
    }

    fn put(&mut self, _path: &str, _bytes: &[u8]) -> Io {
        Io::Done
    }

    fn folder(&mut self, _path: &str) -> Io {
        Io::Done
    }

    fn get(&mut self, _path: &str) -> Result<Read, NoMemory> {
        Ok(Read::Absent)
    }

    fn run(
        &mut self,
        _folder: &str,
        _words: &[Text],
        _env: &[Variable],
    ) -> Result<JobEnd, NoMemory> {
        if comes(self.has_ended) {
            Ok(JobEnd::Exit(0, Blob::of(self.alloc, Vec::new(self.alloc))?))
        } else {
            self.faults = self.faults.saturating_add(1);
            Ok(JobEnd::Failed)
        }
    }
}

// Returns true if the flag is raised within `MOST_TURNS` turns.
fn comes(flag: &AtomicBool) -> bool {
    for _ in 0..MOST_TURNS {
        if flag.load(SeqCst) {
            return true;
        }
        yield_now();
    }
    false
}
