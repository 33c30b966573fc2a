// How actions, branches and attempts end.
use run_plan::Branch;

/// The outcome of an action, according to a journal.
#[derive(Clone, Copy, Debug, PartialEq, Eq)]
pub enum Outcome {
    /// The branch was granted its files, and all of them were committed.
    Success(Branch),
    /// The branch was granted, and its worker had answered with this exit code, which isn't 0.
    Failed(Branch, i32),
    /// The branch was granted its files, and the place failed after this many writes.
    Spoiled(Branch, u32),
    /// No branch was granted, and each branch that the action uses has no attempt left.
    Dropped,
    /// A producer of one of its inputs is settled without success. The number is the least action of
    /// its producers that has no success.
    Skipped(u32),
    /// None of these: never in the journal of a whole run.
    Unsettled,
}

/// The fate of a branch of an action, according to a journal.
#[derive(Clone, Copy, Debug, PartialEq, Eq)]
pub enum Fate {
    /// The action doesn't use the branch.
    Unused,
    /// It was granted, and the place failed after this many writes.
    Spoiled(u32),
    /// It was granted.
    Won,
    /// It has no attempt left: the cause of its last attempt's end, and the number of its attempts.
    Dropped(Cause, u32),
    /// It was sent at least once, and none of the above.
    Lost,
    /// It was never sent, and none of the above.
    Idle,
}

/// The outcome of an action and the fates of its branches, according to a journal.
#[derive(Clone, Copy, Debug, PartialEq, Eq)]
pub struct ActionEnd {
    pub outcome: Outcome,
    pub local: Fate,
    pub remote: Fate,
}

/// The reason that an attempt ended.
#[derive(Clone, Copy, Debug, PartialEq, Eq)]
pub enum Cause {
    /// The worker closed its output.
    Died,
    /// The worker's output could not be read.
    Tap,
    /// The worker wrote something that is no message.
    Frame,
    /// The worker's output was longer than the limit.
    Long,
    /// The worker gave an answer that nothing asked for, or that the protocol does not allow.
    Breach,
    /// The worker's input could not be written.
    Feed,
    /// The worker could not be started.
    Launch,
    /// The room could not be made ready, or an output could not be read from it.
    Room,
    /// The request was too large to be sent.
    Large,
    /// The executor refused the action.
    Refused,
    /// The output with this index was not there.
    Missing(u32),
}

/// The standing of an action: open, or settled with or without success.
#[derive(Clone, Copy, Debug, PartialEq, Eq)]
pub enum Standing {
    /// It isn't settled yet.
    Open,
    Succeeded,
    /// It is settled, and not with success: it failed, was spoiled, dropped or skipped.
    Unsuccessful,
}
