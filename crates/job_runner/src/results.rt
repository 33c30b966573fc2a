// The results of jobs.
ghost use Rattle.std.specs.Prelude.{◌≡◌, true, false, IfOk, MatchOption, length};
ghost use Rattle.std.specs.Str.{is_utf8};
ghost use Rattle.wire_fields.specs.Spelling.{capped};
ghost use Rattle.remote_messages.specs.JobResult.{job_result_spelling};
ghost use Rattle.job_runner.specs.Results.{bounded, empty_result, refused, given_up, text_of};

use plain_values::{Items, NoMemory, Text};
use remote_messages::{Job, JobResult};
use std::alloc::Global;
use wire_messages::Message;

/// The limit for the bytes of a result's message.
const MOST_BYTES: u64 = 1 << 26;

/// Returns a result of the job with only its number.
pub fn empty_result(alloc: Global, job: &Job) -> JobResult
    ensures { result ≡ empty_result job.now.id }
{
    JobResult {
        id: job.id,
        exit_code: 0,
        text: Text::of(String::new(alloc)),
        files: Items::of(Vec::new(alloc)),
        refusal: Text::of(String::new(alloc)),
        cancelled: false,
        more: false,
        version: 0,
    }
}

/// Returns the result of a job that is refused.
pub fn refused(alloc: Global, job: &Job, why: &str) -> Result<JobResult, NoMemory>
    ensures { IfOk result (λ r. r ≡ refused job.now.id why.now) }
{
    let mut result = empty_result(alloc, job);
    result.refusal = Text::copy_of(alloc, why)?;
    Ok(result)
}

/// Returns the answer to a job. It is the job's result, or a refusal if the result's message would have too
/// many bytes.
#[tactic(auto, unfolding(crate::specs::Results::too_large))]
pub fn bounded(alloc: Global, job: &Job, whole: JobResult) -> Result<JobResult, NoMemory>
    ensures { IfOk result (λ r. r ≡ bounded job.now.id whole) }
{
    if length_of(&whole) > MOST_BYTES {
        return refused(alloc, job, "too large");
    }
    Ok(whole)
}

// Returns the number of bytes of a result's message, capped at 2^64 - 1.
fn length_of(whole: &JobResult) -> u64
    ensures { result ≡ capped (length (job_result_spelling whole.now)) }
{
    whole.encoded_len()
}

/// Returns the result of a job that was given up.
pub fn given_up(alloc: Global, job: &Job) -> JobResult
    ensures { result ≡ given_up job.now.id }
{
    let mut result = empty_result(alloc, job);
    result.cancelled = true;
    result
}

/// Returns the output as a string if it is UTF-8, and otherwise an empty one.
pub fn text_of(alloc: Global, output: &[u8]) -> Result<Text, NoMemory>
    ensures { IfOk result (λ t. t ≡ text_of output.now) }
{
    match as_text(output) {
        Some(text) => Text::copy_of(alloc, text),
        None => Ok(Text::of(String::new(alloc))),
    }
}

fn as_text(bytes: &[u8]) -> Option<&str>
    ensures { MatchOption result
        (is_utf8 bytes.now ≡ false)
        (λ t. (is_utf8 bytes.now ≡ true) × (t.now ≡ bytes.now)) }
{
    match std::str::from_utf8(bytes) {
        Ok(text) => Some(text),
        Err(_) => None,
    }
}
