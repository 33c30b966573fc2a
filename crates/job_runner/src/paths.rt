// The paths of a job's files in the shop.
ghost use Rattle.std.specs.Prelude.{◌≡◌, IfOk};
ghost use Rattle.job_runner.specs.Jobs.{job_folder, in_folder};

use plain_values::{NoMemory, Text};
use remote_messages::Job;
use std::alloc::Global;

/// Returns the folder of a job.
pub fn job_folder(alloc: Global, job: &Job) -> Result<Text, NoMemory>
    ensures { IfOk result (λ t. t ≡ job_folder job.now.id) }
{
    let id = job.id;
    Ok(Text::of(format!(in alloc; "job{id}")?))
}

/// Returns a path of the job as a path in the shop.
pub fn in_folder(alloc: Global, folder: &str, path: &str) -> Result<Text, NoMemory>
    ensures { IfOk result (λ t. t ≡ in_folder folder.now path.now) }
{
    Ok(Text::of(format!(in alloc; "{folder}/{path}")?))
}
