//! The reasons for failed calls, to be shown to the user. No clause covers them.
use std::alloc::Global;
use std::io;

/// The reason that a call failed.
#[derive(Drop)]
pub struct Reason {
    /// The path that the call used: relative to the start folder, or a program's.
    pub path: String,
    /// The system's error.
    pub error: io::Error,
}

/// The reason that the process of a line wasn't started.
#[derive(Drop)]
pub(crate) struct LaunchReason {
    pub(crate) line: u32,
    pub(crate) reason: Reason,
}

/// Notes why the process of a line wasn't started, if there is memory for it.
pub(crate) fn note_launch(
    reasons: &mut Vec<LaunchReason>,
    alloc: Global,
    line: u32,
    program: &str,
    error: io::Error,
) {
    if let Ok(path) = String::from_str(alloc, program) {
        let reason = Reason { path, error };
        let _ = reasons.push(LaunchReason { line, reason });
    }
}

/// Notes why a call failed, if there is memory for it.
pub(crate) fn note(reasons: &mut Vec<Reason>, alloc: Global, path: &str, error: io::Error) {
    if let Ok(path) = String::from_str(alloc, path) {
        let _ = reasons.push(Reason { path, error });
    }
}
