// A lane that runs jobs.
ghost use Rattle.std.specs.Prelude.{IfOk, OnErr};
ghost use Rattle.json_framing.specs.declared.cutter.Framing.TheVariants as framing;
ghost use Rattle.remote_messages.specs.Job.{SpellsJob};
ghost use Rattle.job_runner.specs.Answers.{framed};
ghost use Rattle.job_lanes.specs.Pools.{number_of, cancels_in, HasDone, HasBrokenOff, SaysJob, DoesJob, BreaksJob};

use job_runner::{Executor, given_up, has_bad_path, refused, run_job};
use json_framing::Framing;
use message_service::Service;
use outside::Shop;
use plain_values::NoMemory;
use remote_messages::{Job, JobResult};
use std::alloc::Global;
use std::sync::Wait;
use wire_messages::encode_delimited;
use work_lanes::{Answerer, Flag, Kind, Made};

/// A lane that runs jobs in its own shop, one after another. A job that has begun is run to its end.
#[derive(Drop)]
pub struct JobLane<S> {
    pub shop: S,
}

impl<S: Shop> Kind<Job, JobResult> for JobLane<S> {
    ghost number = { number_of };

    ghost cancels = { cancels_in };

    ghost says = { SaysJob S.told };

    ghost written = { framed };

    fn number(job: &Job) -> i32 {
        job.id
    }

    fn cancels(job: &Job) -> bool {
        job.cancel
    }
}

impl<S: Shop> Answerer<Job, JobResult> for JobLane<S> {
    ghost framing = { framing.Delimited };

    ghost answers = { DoesJob S.told };

    ghost breaks = { BreaksJob S.told };

    ghost spells = { SpellsJob };

    fn framing() -> Framing {
        Framing::Delimited
    }

    fn read(alloc: Global, frame: &[u8]) -> Result<Option<Job>, NoMemory> {
        Service::<S>::read(&Executor, alloc, frame)
    }

    fn write(alloc: Global, response: &JobResult) -> Result<Vec<u8>, NoMemory> {
        encode_delimited(alloc, response)
    }

    fn answer<R: Wait, F: Flag>(
        &mut self,
        _rt: &R,
        alloc: Global,
        request: &Job,
        _flag: &mut F,
    ) -> Result<Made<JobResult>, NoMemory> {
        Ok(Made {
            response: do_job(alloc, &mut self.shop, request)?,
            stopped: false,
        })
    }

    fn give_up(alloc: Global, request: &Job) -> JobResult {
        given_up(alloc, request)
    }
}

// Runs a job that isn't given up. If a path of it may lead out of its folder, the job is refused instead.
fn do_job<S: Shop>(alloc: Global, shop: &mut S, job: &Job) -> Result<JobResult, NoMemory>
    ensures done { IfOk result (λ r. HasDone job.now r (S.told shop.old) (S.told shop.new)) }
    ensures broken { OnErr result (HasBrokenOff job.now (S.told shop.old) (S.told shop.new)) }
{
    if has_bad_path(job) {
        refused(alloc, job, "bad path")
    } else {
        run_job(alloc, shop, job)
    }
}
