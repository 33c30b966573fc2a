//! The context of a proxy lane, and a request for a line.

use exec_journal::Attempt;
use remote_messages::WorkAction;
use run_plan::Speech;
use run_values::Settings;
use std::alloc::Global;

/// The context of a proxy lane: the berth's number, its protocol, the settings and the actions.
#[derive(Drop)]
pub struct Site<'a, R> {
    pub rt: &'a R,
    pub alloc: Global,
    /// The berth's number.
    pub berth: u32,
    /// The protocol of the berth's lines.
    pub speech: Speech,
    pub settings: &'a Settings<'a>,
    /// The work of all actions, by their numbers.
    pub actions: &'a [WorkAction],
}

/// A request for a line: its number, and its attempt with the action's work.
#[derive(Drop)]
pub(crate) struct Request<'a> {
    pub line: u32,
    pub number: i32,
    pub attempt: Attempt,
    pub work: &'a WorkAction,
}
