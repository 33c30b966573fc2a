//! A child that carries out each request at once.
ghost use Rattle.std.specs.Prelude.{◌≡◌, [], map, IfOk};
ghost use Rattle.mem_children.specs.Obliging.{response_to, result_to, made_file, made_content, under};

use crate::actor::Acted;
use crate::ears::Ears;
use crate::line::Line;
use crate::patience::Patience;
use crate::ready::Ready;
use json_framing::Framing;
use json_messages::{read_request_line, response_line};
use plain_values::{Blob, Items, NoMemory, Text};
use remote_messages::{Job, JobResult, NamedFile, decode_job};
use std::alloc::Global;
use std::sync::Wait;
use wire_messages::{
    Message, MessageFault, WorkRequest, WorkResponse, decode_request, encode_delimited,
};

/// The version of the remote protocol that it understands as an executor.
const VERSION: i32 = 2;

#[derive(Drop)]
pub struct Obliging {
    alloc: Global,
    ears: Ears,
    greeted: bool,
}

impl Obliging {
    pub fn new(alloc: Global, ears: Ears) -> Obliging {
        Obliging {
            alloc,
            ears,
            greeted: false,
        }
    }

    /// Answers until bytes are ready, or until nothing is left to answer and the child was killed.
    pub fn play<R: Wait>(
        &mut self,
        rt: &R,
        line: &Line,
        ready: &mut Ready,
    ) -> Result<Acted, NoMemory> {
        if line.serves && !self.greeted {
            self.greeted = true;
            add_greeting(self.alloc, ready)?;
            return Ok(Acted::On);
        }
        let mut patience = Patience::new();
        for _ in rt.forever() {
            let rings = line.bell.rings();
            let killed = line.is_killed(rt);
            self.ears.listen(rt, line)?;
            if self.answer_next(rt, line, ready)? {
                if !ready.is_empty() {
                    return Ok(Acted::On);
                }
            } else if killed {
                return Ok(Acted::Ended);
            } else {
                patience.turn(rt, &line.bell, rings);
            }
        }
        unreachable!()
    }

    // Answers the next frame. Returns true if there was one.
    fn answer_next<R: Wait>(
        &mut self,
        rt: &R,
        line: &Line,
        ready: &mut Ready,
    ) -> Result<bool, NoMemory> {
        match self.ears.next()? {
            Some((framing, frame)) => {
                self.answer(rt, line, framing, frame.as_slice(), ready)?;
                Ok(true)
            }
            None => Ok(false),
        }
    }

    // Answers one frame. A frame that spells no message gets no answer.
    fn answer<R: Wait>(
        &self,
        rt: &R,
        line: &Line,
        framing: Framing,
        frame: &[u8],
        ready: &mut Ready,
    ) -> Result<(), NoMemory> {
        if line.serves {
            return answer_job(self.alloc, frame, ready);
        }
        match read(decode_framed(self.alloc, framing, frame))? {
            Some(request) => answer_request(self.alloc, rt, line, framing, &request, ready),
            None => Ok(()),
        }
    }
}

fn answer_job(alloc: Global, frame: &[u8], ready: &mut Ready) -> Result<(), NoMemory> {
    match read(decode_job(alloc, frame))? {
        Some(job) => add_result(alloc, &job, ready),
        None => Ok(()),
    }
}

fn add_result(alloc: Global, job: &Job, ready: &mut Ready) -> Result<(), NoMemory> {
    match result_of(alloc, job)? {
        Some(result) => add(alloc, &result, ready),
        None => Ok(()),
    }
}

fn decode_framed(
    alloc: Global,
    framing: Framing,
    frame: &[u8],
) -> Result<WorkRequest, MessageFault> {
    match framing {
        Framing::Delimited => decode_request(alloc, frame),
        Framing::Lines => read_request_line(alloc, frame),
    }
}

fn answer_request<R: Wait>(
    alloc: Global,
    rt: &R,
    line: &Line,
    framing: Framing,
    request: &WorkRequest,
    ready: &mut Ready,
) -> Result<(), NoMemory> {
    match response_of(alloc, request) {
        Some(response) => {
            leave_outputs(alloc, rt, line, request)?;
            add_response(alloc, framing, &response, ready)
        }
        None => Ok(()),
    }
}

fn add_response(
    alloc: Global,
    framing: Framing,
    response: &WorkResponse,
    ready: &mut Ready,
) -> Result<(), NoMemory> {
    match framing {
        Framing::Delimited => add(alloc, response, ready),
        Framing::Lines => ready.add(response_line(alloc, response)?.as_slice()),
    }
}

// Returns the message, if the frame spells one.
fn read<M>(message: Result<M, MessageFault>) -> Result<Option<M>, NoMemory> {
    match message {
        Ok(message) => Ok(Some(message)),
        Err(MessageFault::NoMemory) => Err(NoMemory),
        Err(_) => Ok(None),
    }
}

fn add<M: Message>(alloc: Global, message: &M, ready: &mut Ready) -> Result<(), NoMemory> {
    ready.add(encode_delimited(alloc, message)?.as_slice())
}

fn add_greeting(alloc: Global, ready: &mut Ready) -> Result<(), NoMemory> {
    add(alloc, &greeting(alloc), ready)
}

fn empty(alloc: Global) -> Text
    ensures { result ≡ [] }
{
    Text::of(String::new(alloc))
}

fn greeting(alloc: Global) -> JobResult {
    JobResult {
        id: 0,
        exit_code: 0,
        text: empty(alloc),
        files: Items::of(Vec::new(alloc)),
        refusal: empty(alloc),
        cancelled: false,
        more: false,
        version: VERSION,
    }
}

// Returns the response to a request. A cancel request gets none.
fn response_of(alloc: Global, request: &WorkRequest) -> Option<WorkResponse>
    ensures { result ≡ response_to request.now }
{
    if request.cancel {
        return None;
    }
    Some(WorkResponse {
        exit_code: 0,
        output: empty(alloc),
        request_id: request.request_id,
        was_cancelled: false,
    })
}

// Returns the result of a job. A cancelling job gets none.
fn result_of(alloc: Global, job: &Job) -> Result<Option<JobResult>, NoMemory>
    ensures { IfOk result (λ r. r ≡ result_to job.now) }
{
    if job.cancel {
        return Ok(None);
    }
    Ok(Some(JobResult {
        id: job.id,
        exit_code: 0,
        text: empty(alloc),
        files: made_files(alloc, job.outputs.as_slice())?,
        refusal: empty(alloc),
        cancelled: false,
        more: false,
        version: 0,
    }))
}

fn made_files(alloc: Global, outputs: &[Text]) -> Result<Items<NamedFile>, NoMemory>
    ensures { IfOk result (λ files. files ≡ map made_file outputs.now) }
{
    let mut files = Vec::new(alloc);
    for output in outputs {
        files.push(made_file_of(alloc, output.as_str())?)?;
    }
    Ok(Items::of(files))
}

fn made_file_of(alloc: Global, path: &str) -> Result<NamedFile, NoMemory>
    ensures { IfOk result (λ file. file ≡ made_file path.now) }
{
    Ok(NamedFile {
        path: Text::copy_of(alloc, path)?,
        content: content_of(alloc, path)?,
    })
}

// Returns the bytes of an output: its path and a line feed.
fn content_of(alloc: Global, path: &str) -> Result<Blob, NoMemory>
    ensures { IfOk result (λ b. b ≡ made_content path.now) }
{
    let mut bytes = Vec::new(alloc);
    bytes.extend_from_slice(path.as_bytes())?;
    bytes.push(b'\n')?;
    Blob::of(alloc, bytes)
}

// Returns the path at which an output of a request is left. It is below the folder that the request names,
// if it names one.
fn left_path(alloc: Global, request: &WorkRequest, path: &str) -> Result<Text, NoMemory>
    ensures { IfOk result (λ left. left ≡ under request.now.sandbox_dir path.now) }
{
    let folder = request.sandbox_dir.as_str();
    if folder.is_empty() {
        return Text::copy_of(alloc, path);
    }
    let mut left = String::from_str(alloc, folder)?;
    left.push_str("/")?;
    left.push_str(path)?;
    Ok(Text::of(left))
}

fn leave_outputs<R: Wait>(
    alloc: Global,
    rt: &R,
    line: &Line,
    request: &WorkRequest,
) -> Result<(), NoMemory> {
    for argument in request.arguments.as_slice() {
        if let Some(path) = argument.as_str().strip_prefix("--out=") {
            let left = left_path(alloc, request, path)?;
            line.leave(rt, left.as_str(), content_of(alloc, path)?)?;
        }
    }
    Ok(())
}
