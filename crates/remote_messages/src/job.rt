// Jobs for the executor.
ghost use Rattle.std.specs.Prelude.{◌≡◌, length, IfOk, IfErr, Ok, Err};
ghost use Rattle.wire_fields.specs.Varint.{Fault};
ghost use Rattle.wire_fields.specs.Spelling.{capped};
ghost use Rattle.wire_messages.specs.Fault.{Fails, Answers};
ghost use Rattle.remote_messages.specs.Job.{SpellsJob, FaultyJob, job_spelling};
ghost use Rattle.remote_messages.specs.declared.job.Job.{Job};

use crate::environment::{env_len, push_env, take_variable};
use crate::file::NamedFile;
use plain_values::{Items, NoMemory, Text, Variable};
use std::alloc::Global;
use wire_messages::{
    Message, MessageFault, Value, bool_len, decode, encode, int32_len, messages_len, push_bool,
    push_int32, push_messages, push_texts, texts_len,
};

/// A job for the executor.
#[derive(Drop)]
pub struct Job {
    pub id: i32,
    pub arguments: Items<Text>,
    pub inputs: Items<NamedFile>,
    pub outputs: Items<Text>,
    pub env: Items<Variable>,
    /// True if the job with this number should be given up. The other fields are then empty.
    pub cancel: bool,
}

impl Message for Job {
    ghost use Rattle.remote_messages.specs.Job.{IsJob, job_refuses, job_fields, IsJobValue};

    ghost means = { IsJob };

    ghost refuses = { job_refuses };

    ghost fields = { job_fields };

    ghost has_form = { IsJobValue };

    ghost use Rattle.remote_messages.specs.JobLaws.{one_job, one_job_fault, job_again};

    ghost again = { job_again };

    ghost one_meaning = { one_job };

    ghost one_fault = { one_job_fault };

    #[tactic(auto, using(wire_fields::proofs::Values::field_starts))]
    fn empty(alloc: Global) -> Result<Job, MessageFault> {
        Ok(Job {
            id: 0,
            arguments: Items::of(Vec::new(alloc)),
            inputs: Items::of(Vec::new(alloc)),
            outputs: Items::of(Vec::new(alloc)),
            env: Items::of(Vec::new(alloc)),
            cancel: false,
        })
    }

    #[tactic(auto, using(wire_fields::proofs::Values::field_steps))]
    fn take(&mut self, alloc: Global, number: u32, value: Value<'_>) -> Result<(), MessageFault> {
        match number {
            1 => value.set_int32(&mut self.id),
            2 => value.push_text(alloc, &mut self.arguments)?,
            3 => value.push_message(alloc, &mut self.inputs)?,
            4 => value.push_text(alloc, &mut self.outputs)?,
            5 => take_variable(value, alloc, &mut self.env)?,
            6 => value.set_bool(&mut self.cancel),
            _ => {}
        }
        Ok(())
    }

    fn encoded_len(&self) -> u64 {
        let id = int32_len(1, self.id);
        let arguments = texts_len(2, self.arguments.as_slice());
        let inputs = messages_len(3, self.inputs.as_slice());
        let outputs = texts_len(4, self.outputs.as_slice());
        let env = env_len(5, self.env.as_slice());
        let cancel = bool_len(6, self.cancel);
        id.saturating_add(arguments)
            .saturating_add(inputs)
            .saturating_add(outputs)
            .saturating_add(env)
            .saturating_add(cancel)
    }

    fn put(&self, out: &mut Vec<u8>) -> Result<(), NoMemory> {
        push_int32(out, 1, self.id)?;
        push_texts(out, 2, self.arguments.as_slice())?;
        push_messages(out, 3, self.inputs.as_slice())?;
        push_texts(out, 4, self.outputs.as_slice())?;
        push_env(out, 5, self.env.as_slice())?;
        push_bool(out, 6, self.cancel)?;
        Ok(())
    }
}

/// Returns the job that the bytes spell.
///
/// # Errors
///
/// Returns the first fault from the left, or `NoMemory` if memory runs out.
pub fn decode_job(alloc: Global, bytes: &[u8]) -> Result<Job, MessageFault>
    // The bytes spell the job that is returned.
    ensures found { IfOk result (SpellsJob bytes.now) }
    // A fault that is returned is the first one.
    ensures fault { IfErr result (λ e. Fails e (FaultyJob bytes.now)) }
    // A job that the bytes spell is returned, and so is the first fault, unless memory runs out.
    ensures only { (m : Job) → SpellsJob bytes.now m → Answers result (Ok m) }
    ensures only_fault { (x : Fault) → FaultyJob bytes.now x → Answers result (Err x) }
{
    decode::<Job>(alloc, bytes)
}

/// Returns the only spelling of the job.
///
/// # Errors
///
/// Returns `NoMemory` if memory runs out.
pub fn encode_job(alloc: Global, m: &Job) -> Result<Vec<u8>, NoMemory>
    ensures written { IfOk result (λ v. v.items ≡ job_spelling m.now) }
    ensures spelled { IfOk result (λ v. SpellsJob v.items m.now) }
{
    encode(alloc, m)
}

/// Returns the length of the job's spelling, or 2^64 - 1 if that is more. It takes no memory. It looks at each part of
/// the job a fixed number of times, and at no content.
pub fn job_length(m: &Job) -> u64
    ensures { result ≡ capped (length (job_spelling m.now)) }
{
    m.encoded_len()
}
