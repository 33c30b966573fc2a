// The watcher of a run.
use crate::Progress;
use plain_values::NoMemory;
use run_plan::MOST_ACTIONS;
use std::alloc::Global;
use std::fmt;
use std::time::Duration;

/// A watcher, which looks at a run from time to time. It remembers since when each action runs and
/// which failures it has reported.
#[derive(Drop)]
pub struct Watcher {
    // The number of failures that it has reported.
    told: u64,
    // For each action, by its number: when it was first seen to run, if it ran at the last look.
    since: Vec<Option<Duration>>,
}

/// The progress of a run at a look.
#[derive(Clone, Copy, Drop, PartialEq, Eq)]
pub struct Look {
    pub all: u64,
    pub settled: u64,
    pub failed: u64,
    pub running: u32,
    pub oldest: Option<Oldest>,
}

/// The action that was first seen to run, among those that run.
#[derive(Clone, Copy, Drop, PartialEq, Eq)]
pub struct Oldest {
    pub action: u32,
    pub since: Duration,
    pub for_so_long: Duration,
}

impl Watcher {
    /// Makes a watcher that hasn't looked yet.
    ///
    /// # Errors
    ///
    /// Returns `NoMemory` if memory runs out. Looks take none.
    pub fn new(alloc: Global) -> Result<Watcher, NoMemory> {
        let mut since = Vec::with_capacity(alloc, MOST_ACTIONS)?;
        for _ in 0..MOST_ACTIONS {
            since.push(None)?;
        }
        Ok(Watcher { told: 0, since })
    }

    /// Returns the actions that were settled without success since the last call that found memory,
    /// in that order.
    ///
    /// # Errors
    ///
    /// Returns `NoMemory` if memory runs out. Then the next call returns them too.
    pub fn new_failures(
        &mut self,
        alloc: Global,
        progress: &Progress,
    ) -> Result<Vec<u32>, NoMemory> {
        let mut found = Vec::new(alloc);
        for behind in self.told..progress.failed_so_far() {
            let Some(action) = progress.failure(behind) else {
                break;
            };
            found.push(action)?;
        }
        self.told = self.told.saturating_add(found.len() as u64);
        Ok(found)
    }

    /// Looks at the run, at this reading of a clock that never goes back.
    pub fn look(&mut self, progress: &Progress, now: Duration) -> Look {
        let mut look = Look {
            all: progress.all(),
            settled: progress.settled_so_far(),
            failed: progress.failed_so_far(),
            running: 0,
            oldest: None,
        };
        for action in 0..MOST_ACTIONS as u32 {
            if let Some(since) = self.seen(progress, action, now) {
                look.add(action, since, now);
            }
        }
        look
    }

    // Returns when the action was first seen to run, if it runs.
    fn seen(&mut self, progress: &Progress, action: u32, now: Duration) -> Option<Duration> {
        let since = self.since.get_mut(action as usize)?;
        *since = if progress.is_running(action) {
            Some(since.unwrap_or(now))
        } else {
            None
        };
        *since
    }
}

impl Look {
    fn add(&mut self, action: u32, since: Duration, now: Duration) {
        self.running = self.running.saturating_add(1);
        let is_older = match &self.oldest {
            Some(oldest) => since < oldest.since,
            None => true,
        };
        if is_older {
            self.oldest = Some(Oldest {
                action,
                since,
                for_so_long: now.saturating_sub(since),
            });
        }
    }
}

/// The line for display, which fits into a row of 80 columns.
impl fmt::Display for Look {
    fn fmt<W: fmt::Write>(&self, f: &mut fmt::Formatter<W>) -> fmt::Result {
        let Look {
            all,
            settled,
            failed,
            running,
            oldest,
        } = self;
        write!(f, "[{settled}/{all}] {running} running, {failed} failed")?;
        match oldest {
            Some(oldest) => write!(f, ", {oldest}"),
            None => Ok(()),
        }
    }
}

impl fmt::Display for Oldest {
    fn fmt<W: fmt::Write>(&self, f: &mut fmt::Formatter<W>) -> fmt::Result {
        let seconds = self.for_so_long.as_secs();
        write!(f, "oldest: actions[{}] for {seconds} s", self.action)
    }
}
