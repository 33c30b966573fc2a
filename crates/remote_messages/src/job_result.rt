// Results of jobs.
ghost use Rattle.std.specs.Prelude.{◌≡◌, IfOk, IfErr, Ok, Err};
ghost use Rattle.wire_fields.specs.Varint.{Fault};
ghost use Rattle.wire_messages.specs.Fault.{Fails, Answers};
ghost use Rattle.remote_messages.specs.JobResult.{SpellsJobResult, FaultyJobResult, job_result_spelling};
ghost use Rattle.remote_messages.specs.declared.job_result.JobResult.{JobResult};

use crate::file::NamedFile;
use plain_values::{Items, NoMemory, Text};
use std::alloc::Global;
use wire_messages::{
    Message, MessageFault, Value, bool_len, bytes_len, decode, encode, int32_len, messages_len,
    push_bool, push_bytes, push_int32, push_messages,
};

/// The executor's answer to a job.
#[derive(Drop)]
pub struct JobResult {
    pub id: i32,
    pub exit_code: i32,
    /// The job's output.
    pub text: Text,
    pub files: Items<NamedFile>,
    /// The reason why the job was not run; empty if it was.
    pub refusal: Text,
    /// True if the job was given up.
    pub cancelled: bool,
    /// True if further results of this job follow.
    pub more: bool,
    /// The version of the remote protocol, in a greeting: a result with id 0 and version 2 or more, which is
    /// the executor's first message. 0 elsewhere.
    pub version: i32,
}

impl Message for JobResult {
    ghost use Rattle.remote_messages.specs.JobResult.{IsJobResult, job_result_refuses, job_result_fields, IsJobResultValue};

    ghost means = { IsJobResult };

    ghost refuses = { job_result_refuses };

    ghost fields = { job_result_fields };

    ghost has_form = { IsJobResultValue };

    ghost use Rattle.remote_messages.specs.JobResultLaws.{one_job_result, one_job_result_fault, job_result_again};

    ghost again = { job_result_again };

    ghost one_meaning = { one_job_result };

    ghost one_fault = { one_job_result_fault };

    #[tactic(auto, using(wire_fields::proofs::Values::field_starts))]
    fn empty(alloc: Global) -> Result<JobResult, MessageFault> {
        Ok(JobResult {
            id: 0,
            exit_code: 0,
            text: Text::of(String::new(alloc)),
            files: Items::of(Vec::new(alloc)),
            refusal: Text::of(String::new(alloc)),
            cancelled: false,
            more: false,
            version: 0,
        })
    }

    #[tactic(auto, using(wire_fields::proofs::Values::field_steps))]
    fn take(&mut self, alloc: Global, number: u32, value: Value<'_>) -> Result<(), MessageFault> {
        match number {
            1 => value.set_int32(&mut self.id),
            2 => value.set_int32(&mut self.exit_code),
            3 => value.set_text(alloc, &mut self.text)?,
            4 => value.push_message(alloc, &mut self.files)?,
            5 => value.set_text(alloc, &mut self.refusal)?,
            6 => value.set_bool(&mut self.cancelled),
            7 => value.set_bool(&mut self.more),
            8 => value.set_int32(&mut self.version),
            _ => {}
        }
        Ok(())
    }

    fn encoded_len(&self) -> u64 {
        let id = int32_len(1, self.id);
        let exit_code = int32_len(2, self.exit_code);
        let text = bytes_len(3, self.text.as_str().as_bytes());
        let files = messages_len(4, self.files.as_slice());
        let refusal = bytes_len(5, self.refusal.as_str().as_bytes());
        let cancelled = bool_len(6, self.cancelled);
        let more = bool_len(7, self.more);
        let version = int32_len(8, self.version);
        id.saturating_add(exit_code)
            .saturating_add(text)
            .saturating_add(files)
            .saturating_add(refusal)
            .saturating_add(cancelled)
            .saturating_add(more)
            .saturating_add(version)
    }

    fn put(&self, out: &mut Vec<u8>) -> Result<(), NoMemory> {
        push_int32(out, 1, self.id)?;
        push_int32(out, 2, self.exit_code)?;
        push_bytes(out, 3, self.text.as_str().as_bytes())?;
        push_messages(out, 4, self.files.as_slice())?;
        push_bytes(out, 5, self.refusal.as_str().as_bytes())?;
        push_bool(out, 6, self.cancelled)?;
        push_bool(out, 7, self.more)?;
        push_int32(out, 8, self.version)?;
        Ok(())
    }
}

/// Returns the result that the bytes spell.
///
/// # Errors
///
/// Returns the first fault from the left, or `NoMemory` if memory runs out.
pub fn decode_result(alloc: Global, bytes: &[u8]) -> Result<JobResult, MessageFault>
    // The bytes spell the result that is returned.
    ensures found { IfOk result (SpellsJobResult bytes.now) }
    // A fault that is returned is the first one.
    ensures fault { IfErr result (λ e. Fails e (FaultyJobResult bytes.now)) }
    // A result that the bytes spell is returned, and so is the first fault, unless memory runs out.
    ensures only { (m : JobResult) → SpellsJobResult bytes.now m → Answers result (Ok m) }
    ensures only_fault { (x : Fault) → FaultyJobResult bytes.now x → Answers result (Err x) }
{
    decode::<JobResult>(alloc, bytes)
}

/// Returns the only spelling of the result.
///
/// # Errors
///
/// Returns `NoMemory` if memory runs out.
pub fn encode_result(alloc: Global, m: &JobResult) -> Result<Vec<u8>, NoMemory>
    ensures written { IfOk result (λ v. v.items ≡ job_result_spelling m.now) }
    ensures spelled { IfOk result (λ v. SpellsJobResult v.items m.now) }
{
    encode(alloc, m)
}
