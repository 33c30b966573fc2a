// Decides how a job is treated.
ghost use Rattle.std.specs.Prelude.{◌≡◌};
ghost use Rattle.std.specs.List.{list_any};
ghost use Rattle.job_runner.specs.Answers.{fate_of};
ghost use Rattle.job_runner.specs.Jobs.{has_bad_input, has_bad_path, is_bad_path, is_given_up};

use path_rules::check_path;
use plain_values::Text;
use remote_messages::{Job, NamedFile};

/// The treatment of a job.
#[derive(Clone, Copy, PartialEq, Eq)]
pub enum Fate {
    /// Nothing is done, because it cancels another job.
    Cancels,
    /// It isn't run, because a later job cancels it.
    GivenUp,
    /// It isn't run, because one of its paths may lead out of its folder.
    BadPath,
    /// It is run.
    Runs,
}

/// Returns the treatment of a job. `behind` is the jobs that had been read after it when its turn came.
pub fn fate_of(job: &Job, behind: &[Job]) -> Fate
    ensures { result ≡ fate_of job.now behind.now }
{
    if job.cancel {
        Fate::Cancels
    } else if is_given_up(job.id, behind) {
        Fate::GivenUp
    } else if has_bad_path(job) {
        Fate::BadPath
    } else {
        Fate::Runs
    }
}

fn is_given_up(id: i32, behind: &[Job]) -> bool
    ensures { result ≡ is_given_up id behind.now }
{
    behind.iter().any(|later| later.cancel && later.id == id)
}

/// Returns true if a path of the job may lead out of its folder.
pub fn has_bad_path(job: &Job) -> bool
    ensures { result ≡ has_bad_path job.now }
{
    has_bad_input(job.inputs.as_slice()) || has_bad_output(job.outputs.as_slice())
}

fn has_bad_input(inputs: &[NamedFile]) -> bool
    ensures { result ≡ has_bad_input inputs.now }
{
    inputs.iter().any(|input| is_bad_path(input.path.as_str()))
}

fn has_bad_output(outputs: &[Text]) -> bool
    ensures { result ≡ list_any is_bad_path outputs.now }
{
    outputs.iter().any(|output| is_bad_path(output.as_str()))
}

fn is_bad_path(path: &str) -> bool
    ensures { result ≡ is_bad_path path.now }
{
    check_path(path).is_err()
}
