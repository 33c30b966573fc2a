ghost use Rattle.std.specs.Prelude.{◌≡◌, IfOk};
ghost use Rattle.remote_branch.specs.Jobs.{cancel_for};
ghost use Rattle.request_frames.specs.Requests.{cancelling};
ghost use Rattle.request_frames.specs.Due.{request_due, job_due};
ghost use Rattle.request_frames.specs.Frames.{send_due, cancel_due, framed_request, request_line, framed_job, due_job};

use crate::requests::{DueWork, cancelling, request_of};
use json_messages::request_line;
use plain_values::{Items, NoMemory};
use remote_branch::{cancel_of, job_of};
use remote_messages::job_length;
use run_plan::Speech;
use sandbox_rooms::Room;
use std::alloc::Global;
use wire_fields::LARGEST;
use wire_messages::encode_delimited;

/// The data to write for a Send.
#[derive(Drop)]
pub enum Due {
    /// These bytes.
    Frame(Items<u8>),
    /// Nothing, because the job would have more than 67,108,864 bytes.
    TooLarge,
}

/// Returns the data to write for a Send of this work: the request, or the job.
///
/// # Errors
///
/// Returns `NoMemory` if memory runs out.
pub fn send_frame(
    alloc: Global,
    speech: Speech,
    room: Room,
    work: &DueWork<'_>,
    verbose: bool,
) -> Result<Due, NoMemory>
    ensures { IfOk result (λ due.
        due ≡ send_due speech (request_due work.now verbose room) (job_due work.now)) }
{
    match speech {
        Speech::Proto => {
            let frame = request_frame(alloc, room, work, verbose)?;
            Ok(Due::Frame(frame))
        }
        Speech::Json => {
            let line = json_request(alloc, room, work, verbose)?;
            Ok(Due::Frame(line))
        }
        Speech::Remote => job_frame(alloc, work),
    }
}

/// Returns the bytes to write for a Cancel of the request, or the job, with this number.
///
/// # Errors
///
/// Returns `NoMemory` if memory runs out.
pub fn cancel_frame(alloc: Global, speech: Speech, number: i32) -> Result<Items<u8>, NoMemory>
    ensures { IfOk result (λ frame. frame ≡ cancel_due speech number) }
{
    match speech {
        Speech::Proto => cancelling_frame(alloc, number),
        Speech::Json => cancelling_line(alloc, number),
        Speech::Remote => cancelling_job_frame(alloc, number),
    }
}

fn request_frame(
    alloc: Global,
    room: Room,
    work: &DueWork<'_>,
    verbose: bool,
) -> Result<Items<u8>, NoMemory>
    ensures { IfOk result (λ frame. frame ≡ framed_request (request_due work.now verbose room)) }
{
    let request = request_of(alloc, room, work, verbose)?;
    Ok(Items::of(encode_delimited(alloc, &request)?))
}

fn json_request(
    alloc: Global,
    room: Room,
    work: &DueWork<'_>,
    verbose: bool,
) -> Result<Items<u8>, NoMemory>
    ensures { IfOk result (λ line. line ≡ request_line (request_due work.now verbose room)) }
{
    let request = request_of(alloc, room, work, verbose)?;
    Ok(Items::of(request_line(alloc, &request)?))
}

fn cancelling_frame(alloc: Global, number: i32) -> Result<Items<u8>, NoMemory>
    ensures { IfOk result (λ frame. frame ≡ framed_request (cancelling number)) }
{
    Ok(Items::of(encode_delimited(alloc, &cancelling(alloc, number))?))
}

fn cancelling_line(alloc: Global, number: i32) -> Result<Items<u8>, NoMemory>
    ensures { IfOk result (λ line. line ≡ request_line (cancelling number)) }
{
    Ok(Items::of(request_line(alloc, &cancelling(alloc, number))?))
}

fn job_frame(alloc: Global, work: &DueWork<'_>) -> Result<Due, NoMemory>
    ensures { IfOk result (λ due. due ≡ due_job (job_due work.now)) }
{
    let job = job_of(alloc, work.number, work.action, work.inputs)?;
    if job_length(&job) > LARGEST {
        return Ok(Due::TooLarge);
    }
    Ok(Due::Frame(Items::of(encode_delimited(alloc, &job)?)))
}

fn cancelling_job_frame(alloc: Global, number: i32) -> Result<Items<u8>, NoMemory>
    ensures { IfOk result (λ frame. frame ≡ framed_job (cancel_for number)) }
{
    Ok(Items::of(encode_delimited(alloc, &cancel_of(alloc, number))?))
}
