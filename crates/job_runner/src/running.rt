// Runs a job from its first call to its result.
ghost use Rattle.std.specs.Prelude.{◌≡◌, List};
ghost use Rattle.outside.specs.declared.shop.ShopCall.{ShopCall};
ghost use Rattle.message_service.specs.Calls.{Made};
ghost use Rattle.job_runner.specs.Results.{Comes, ComesBehind, ComesWhole};

use crate::collecting::collect;
use crate::filling::fill;
use crate::paths::job_folder;
use crate::results::{bounded, empty_result, refused, text_of};
use outside::{Io, JobEnd, Shop};
use plain_values::NoMemory;
use remote_messages::{Job, JobResult};
use std::alloc::Global;

/// Runs a job: fills its folder, runs its arguments there, and looks at its outputs. If a call fails, the
/// job is refused and nothing more is done. It is also refused if the message of its result would have more
/// than 67,108,864 bytes, which no client accepts.
///
/// # Errors
///
/// Returns `NoMemory` if memory runs out, perhaps after some of the calls.
pub fn run_job<S: Shop>(alloc: Global, shop: &mut S, job: &Job) -> Result<JobResult, NoMemory>
    ensures { (calls : List ShopCall) × Comes job.now result calls
        × Made calls (S.told shop.old) (S.told shop.new) }
{
    let whole = do_job(alloc, shop, job)?;
    bounded(alloc, job, whole)
}

// Makes all calls for a job.
fn do_job<S: Shop>(alloc: Global, shop: &mut S, job: &Job) -> Result<JobResult, NoMemory>
    ensures { (calls : List ShopCall) × ComesWhole job.now result calls
        × Made calls (S.told shop.old) (S.told shop.new) }
{
    let folder = job_folder(alloc, job)?;
    match fill(alloc, shop, folder.as_str(), job)? {
        Io::Done => start(alloc, shop, folder.as_str(), job),
        Io::Failed => refused(alloc, job, "cannot write"),
    }
}

// Runs the arguments in the filled folder, and looks at the outputs.
fn start<S: Shop>(
    alloc: Global,
    shop: &mut S,
    folder: &str,
    job: &Job,
) -> Result<JobResult, NoMemory>
    ensures { (calls : List ShopCall) × ComesBehind folder.now job.now result calls
        × Made calls (S.told shop.old) (S.told shop.new) }
{
    match shop.run(folder, job.arguments.as_slice(), job.env.as_slice())? {
        JobEnd::Exit(code, output) => {
            match collect(alloc, shop, folder, job.outputs.as_slice())? {
                Some(files) => {
                    let mut result = empty_result(alloc, job);
                    result.exit_code = code;
                    result.text = text_of(alloc, output.bytes())?;
                    result.files = files;
                    Ok(result)
                }
                None => refused(alloc, job, "cannot read"),
            }
        }
        JobEnd::Signal => refused(alloc, job, "ended by a signal"),
        JobEnd::Failed => refused(alloc, job, "cannot start"),
    }
}
