//! A lane with its pass, as a job at a desk.
use crate::job::Job;
use crate::lane::Lane;
use lane_bells::Bells;
use seat_desk::{Desk, Machine, Pass};
use std::sync::Wait;
use std::thread::Threads;

/// The shared data of the lanes, which is the context of their jobs.
#[derive(Drop)]
pub struct Shared<M: Machine> {
    /// The desk at which all of them call.
    pub desk: Desk<M>,
    /// A bell for each lane.
    pub bells: Bells,
}

/// A lane with its pass, before it runs.
#[derive(Drop)]
pub struct LaneJob<M: Machine, L> {
    /// The lane that will run.
    pub lane: L,
    /// The pass that it receives.
    pub pass: Pass<M>,
}

/// A lane's end, with its pass.
#[derive(Drop)]
pub struct LaneDone<M: Machine, E> {
    /// The end of the lane.
    pub end: E,
    /// The pass that the lane gave back.
    pub pass: Pass<M>,
}

impl<M: Machine + Send, L: Lane<Desk<M>, Pass<M>> + Send> Job<Shared<M>> for LaneJob<M, L>
where
    M::Call: Send,
    M::Reply: Send,
    M::Good: Send,
    L::End: Send,
{
    type End = LaneDone<M, L::End>;

    ghost can_run = { λ shared job. L.may_run job.lane shared.desk shared.bells job.pass };

    ghost ends = { λ shared job done. L.has_run job.lane job.pass done.end done.pass };

    fn run<R: Threads + Wait + Sync>(self, rt: &R, shared: &Shared<M>) -> LaneDone<M, L::End> {
        let LaneJob { lane, pass } = self;
        let (end, pass) = lane.run(rt, &shared.desk, &shared.bells, pass);
        LaneDone { end, pass }
    }
}
