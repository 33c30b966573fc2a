ghost use Rattle.std.specs.Prelude.{◌≡◌, List, ℕ, IfOk, Some};
ghost use Rattle.json_framing.specs.declared.cutter.Framing.TheVariants as framing;
ghost use Rattle.remote_messages.specs.Job.{SpellsJob};
ghost use Rattle.job_runner.specs.Answers.{Answers, framed};

use crate::fate::{Fate, fate_of};
use crate::results::{given_up, refused};
use crate::running::run_job;
use json_framing::Framing;
use message_service::Service;
use outside::Shop;
use plain_values::{Items, NoMemory};
use remote_messages::{Job, JobResult, decode_job};
use std::alloc::Global;
use wire_messages::{MessageFault, encode_delimited};

/// The executor's first message, preceded by its length: it understands version 2 of the remote protocol.
pub const GREETING: [u8; 3] = [2, 64, 2];

/// The service that answers jobs.
#[derive(Clone, Copy)]
pub struct Executor;

impl<S: Shop> Service<S> for Executor {
    type Message = Job;

    ghost framing = { framing.Delimited };

    ghost spells = { SpellsJob };

    ghost answers = { Answers };

    fn framing(&self) -> Framing {
        Framing::Delimited
    }

    fn read(&self, alloc: Global, frame: &[u8]) -> Result<Option<Job>, NoMemory> {
        match decode_job(alloc, frame) {
            Ok(job) => Ok(Some(job)),
            Err(fault) => match fault {
                MessageFault::NoMemory => Err(NoMemory),
                _ => Ok(None),
            },
        }
    }

    fn answer(
        &self,
        alloc: Global,
        shop: &mut S,
        message: &Job,
        behind: &[Job],
    ) -> Result<Option<Items<u8>>, NoMemory> {
        match fate_of(message, behind) {
            Fate::Cancels => Ok(None),
            Fate::GivenUp => framed(alloc, &given_up(alloc, message)),
            Fate::BadPath => framed(alloc, &refused(alloc, message, "bad path")?),
            Fate::Runs => framed(alloc, &run_job(alloc, shop, message)?),
        }
    }
}

// Returns the result, preceded by its length.
fn framed(alloc: Global, job_result: &JobResult) -> Result<Option<Items<u8>>, NoMemory>
    ensures { IfOk result (λ reply. reply ≡ Some (framed job_result.now)) }
{
    Ok(Some(Items::of(encode_delimited(alloc, job_result)?)))
}
