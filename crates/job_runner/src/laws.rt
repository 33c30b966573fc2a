// A law that holds for all replies.
ghost use Rattle.job_runner.specs.Answers.{RepliesFit};

/// Proves that each job, unless it is a cancelling one, is answered with one result, which has its number.
/// The result reports that the job was given up exactly if a cancelling job of that number had been read
/// after it by its turn. No call was made for such a job.
pub fn replies_fit()
    ensures { RepliesFit }
{}
