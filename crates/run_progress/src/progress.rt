// The record of a run's progress.
use plain_values::NoMemory;
use run_plan::{Branch, MOST_ACTIONS};
use std::alloc::Global;
use std::sync::atomic::{AtomicBool, AtomicU32, AtomicU64, Ordering};

// The number of no action.
const NOBODY: u32 = u32::MAX;

/// The progress of a run. It is shared with the watcher of the run, and never blocks.
#[derive(Drop)]
pub struct Progress {
    all: AtomicU64,
    settled: AtomicU64,
    failed: AtomicU64,
    // The numbers of the actions that failed, in the order of their failures, followed by `NOBODY`.
    failures: Vec<AtomicU32>,
    // The marks of each action, by its number.
    marks: Vec<Marks>,
    over: AtomicBool,
}

// The branches of an action that have an attempt under way.
#[derive(Drop)]
struct Marks {
    local: AtomicBool,
    remote: AtomicBool,
}

impl Progress {
    /// Makes the progress of a run that hasn't begun.
    ///
    /// # Errors
    ///
    /// Returns `NoMemory` if memory runs out. The other calls take none.
    pub fn new(alloc: Global) -> Result<Progress, NoMemory> {
        let mut marks = Vec::with_capacity(alloc, MOST_ACTIONS)?;
        let mut failures = Vec::with_capacity(alloc, MOST_ACTIONS)?;
        for _ in 0..MOST_ACTIONS {
            marks.push(Marks::none())?;
            failures.push(AtomicU32::new(NOBODY))?;
        }
        Ok(Progress {
            all: AtomicU64::new(0),
            settled: AtomicU64::new(0),
            failed: AtomicU64::new(0),
            failures,
            marks,
            over: AtomicBool::new(false),
        })
    }

    /// Notes how many actions the run has.
    pub fn sized(&self, actions: usize) {
        self.all.store(actions as u64, Ordering::SeqCst);
    }

    /// Notes that the branch has begun an attempt.
    pub fn began(&self, action: u32, branch: Branch) {
        self.mark(action, branch, true);
    }

    /// Notes that the branch's attempt has ended.
    pub fn ended(&self, action: u32, branch: Branch) {
        self.mark(action, branch, false);
    }

    /// Notes that the action is settled, and so that nothing of it runs any longer.
    pub fn settled(&self, action: u32, success: bool) {
        self.ended(action, Branch::Local);
        self.ended(action, Branch::Remote);
        self.settled.fetch_add(1, Ordering::SeqCst);
        if !success {
            self.failed(action);
        }
    }

    /// Notes that the run is over.
    pub fn finish(&self) {
        self.over.store(true, Ordering::SeqCst);
    }

    /// Returns true if the run is over.
    pub fn is_over(&self) -> bool {
        self.over.load(Ordering::SeqCst)
    }

    /// Returns the number of actions of the run, or 0 before it is known.
    pub fn all(&self) -> u64 {
        self.all.load(Ordering::SeqCst)
    }

    /// Returns the number of settled actions.
    pub fn settled_so_far(&self) -> u64 {
        self.settled.load(Ordering::SeqCst)
    }

    /// Returns the number of actions that are settled without success.
    pub fn failed_so_far(&self) -> u64 {
        self.failed.load(Ordering::SeqCst)
    }

    /// Returns the action that was settled without success after `behind` others. Returns `None` if
    /// there is none, or if it isn't noted yet.
    pub fn failure(&self, behind: u64) -> Option<u32> {
        let behind = usize::try_from(behind).ok()?;
        let action = self.failures.get(behind)?.load(Ordering::SeqCst);
        (action != NOBODY).then_some(action)
    }

    /// Returns true if a branch of the action has an attempt under way.
    pub fn is_running(&self, action: u32) -> bool {
        match self.marks.get(action as usize) {
            Some(marks) => marks.any(),
            None => false,
        }
    }

    // Notes the number of a failed action. Each caller that counts a failure has its own place for
    // the number.
    fn failed(&self, action: u32) {
        let behind = self.failed.fetch_add(1, Ordering::SeqCst);
        let place = usize::try_from(behind)
            .ok()
            .and_then(|behind| self.failures.get(behind));
        if let Some(place) = place {
            place.store(action, Ordering::SeqCst);
        }
    }

    fn mark(&self, action: u32, branch: Branch, runs: bool) {
        if let Some(marks) = self.marks.get(action as usize) {
            marks.of(branch).store(runs, Ordering::SeqCst);
        }
    }
}

impl Marks {
    fn none() -> Marks {
        Marks {
            local: AtomicBool::new(false),
            remote: AtomicBool::new(false),
        }
    }

    fn of(&self, branch: Branch) -> &AtomicBool {
        match branch {
            Branch::Local => &self.local,
            Branch::Remote => &self.remote,
        }
    }

    fn any(&self) -> bool {
        self.local.load(Ordering::SeqCst) || self.remote.load(Ordering::SeqCst)
    }
}
