// The record of progress, if a run has one.
use crate::Progress;
use run_plan::Branch;
use std::sync::Arc;

/// The record of a run's progress, if there is one.
#[derive(Drop)]
pub struct Notes {
    progress: Option<Arc<Progress>>,
}

impl Notes {
    /// Returns the notes of a run that isn't watched.
    pub fn nowhere() -> Notes {
        Notes { progress: None }
    }

    /// Returns the notes of a run that the owner of this progress watches.
    pub fn on(progress: Arc<Progress>) -> Notes {
        Notes {
            progress: Some(progress),
        }
    }

    /// Notes how many actions the run has.
    pub fn sized(&self, actions: usize) {
        if let Some(progress) = &self.progress {
            progress.sized(actions);
        }
    }

    /// Notes that the branch has begun an attempt.
    pub fn began(&self, action: u32, branch: Branch) {
        if let Some(progress) = &self.progress {
            progress.began(action, branch);
        }
    }

    /// Notes that the branch's attempt has ended.
    pub fn ended(&self, action: u32, branch: Branch) {
        if let Some(progress) = &self.progress {
            progress.ended(action, branch);
        }
    }

    /// Notes that the action is settled.
    pub fn settled(&self, action: u32, success: bool) {
        if let Some(progress) = &self.progress {
            progress.settled(action, success);
        }
    }
}
