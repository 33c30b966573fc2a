// The answer in one frame.
ghost use Rattle.std.specs.Prelude.{◌≡◌, IfOk};
ghost use Rattle.wire_messages.specs.Response.{SpellsResponse};
ghost use Rattle.answer_reader.specs.Answers.{of_response, SpellsLine, ReadsResult};
ghost use Rattle.answer_reader.specs.Reading.{Reads};
ghost use Rattle.answer_reader.specs.Says.{ReadsAs};

use crate::reader::Spoken;
use exec_journal::Answer;
use json_messages::read_response_line;
use plain_values::{Items, NoMemory, Text};
use remote_branch::Parts;
use remote_messages::decode_result;
use run_plan::Speech;
use std::alloc::Global;
use wire_messages::{MessageFault, WorkResponse, decode_response};

/// Returns the content of one frame in this protocol.
pub(crate) fn spoken_by(
    alloc: Global,
    speech: Speech,
    parts: &mut Parts,
    frame: &[u8],
) -> Result<Spoken, NoMemory>
    ensures { IfOk result (λ out. ReadsAs speech frame.now parts.old out parts.new) }
{
    match speech {
        Speech::Proto => worker_answer(alloc, frame),
        Speech::Json => line_answer(alloc, frame),
        Speech::Remote => executor_answer(alloc, parts, frame),
    }
}

// Returns the answer of an executor, whose results come in parts.
fn executor_answer(alloc: Global, parts: &mut Parts, frame: &[u8]) -> Result<Spoken, NoMemory>
    ensures { IfOk result (λ out. ReadsResult frame.now parts.old out parts.new) }
{
    match decode_result(alloc, frame) {
        Ok(part) => match parts.add(alloc, part)? {
            Some(answer) => Ok(Spoken::Answer(answer)),
            None => Ok(Spoken::More),
        },
        Err(fault) => match fault {
            MessageFault::NoMemory => Err(NoMemory),
            _ => Ok(Spoken::Bad),
        },
    }
}

// Returns the answer of a worker that uses the binary form.
fn worker_answer(alloc: Global, frame: &[u8]) -> Result<Spoken, NoMemory>
    ensures { IfOk result (Reads SpellsResponse of_response frame.now) }
{
    match decode_response(alloc, frame) {
        Ok(response) => Ok(Spoken::Answer(answer_of_response(alloc, response))),
        Err(fault) => match fault {
            MessageFault::NoMemory => Err(NoMemory),
            _ => Ok(Spoken::Bad),
        },
    }
}

// Returns the answer of a worker that uses JSON.
fn line_answer(alloc: Global, line: &[u8]) -> Result<Spoken, NoMemory>
    ensures { IfOk result (Reads SpellsLine of_response line.now) }
{
    match read_response_line(alloc, line) {
        Ok(response) => Ok(Spoken::Answer(answer_of_response(alloc, response))),
        Err(fault) => match fault {
            MessageFault::NoMemory => Err(NoMemory),
            _ => Ok(Spoken::Bad),
        },
    }
}

// Returns the answer of a response. The function takes no memory.
fn answer_of_response(alloc: Global, response: WorkResponse) -> Answer
    ensures { result ≡ of_response response }
{
    Answer {
        number: response.request_id,
        exit: response.exit_code,
        cancelled: response.was_cancelled,
        text: response.output,
        refusal: Text::of(String::new(alloc)),
        files: Items::of(Vec::new(alloc)),
        version: 0,
    }
}
