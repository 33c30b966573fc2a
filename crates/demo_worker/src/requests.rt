// Requests that contain commands, handled one after another.
ghost use Rattle.std.specs.Prelude.{◌≡◌, List, IfOk, Some};
ghost use Rattle.outside.specs.declared.shop.ShopCall.{ShopCall};
ghost use Rattle.json_framing.specs.declared.cutter.Framing.TheVariants as framing;
ghost use Rattle.message_service.specs.Calls.{Made};
ghost use Rattle.demo_worker.specs.Answers.{Answers, Responds, SpellsLine, as_line, response_to};

use crate::folders::run_in;
use crate::running::Answer;
use json_framing::Framing;
use json_messages::{read_request_line, response_line};
use message_service::Service;
use outside::Shop;
use plain_values::{Items, NoMemory};
use std::alloc::Global;
use wire_messages::{MessageFault, WorkRequest, WorkResponse};

/// A service that answers requests in JSON lines.
#[derive(Clone, Copy)]
pub struct RequestLines;

impl<S: Shop> Service<S> for RequestLines {
    type Message = WorkRequest;

    ghost framing = { framing.Lines };

    ghost spells = { SpellsLine };

    ghost answers = { Answers as_line };

    fn framing(&self) -> Framing {
        Framing::Lines
    }

    fn read(&self, alloc: Global, frame: &[u8]) -> Result<Option<WorkRequest>, NoMemory> {
        match read_request_line(alloc, frame) {
            Ok(request) => Ok(Some(request)),
            Err(fault) => match fault {
                MessageFault::NoMemory => Err(NoMemory),
                _ => Ok(None),
            },
        }
    }

    fn answer(
        &self,
        alloc: Global,
        shop: &mut S,
        message: &WorkRequest,
        _behind: &[WorkRequest],
    ) -> Result<Option<Items<u8>>, NoMemory> {
        match respond(alloc, shop, message)? {
            Some(response) => as_line(alloc, &response),
            None => Ok(None),
        }
    }
}

// Returns the response to a request. If the request cancels another, does nothing and returns `None`.
fn respond<S: Shop>(
    alloc: Global,
    shop: &mut S,
    request: &WorkRequest,
) -> Result<Option<WorkResponse>, NoMemory>
    ensures { (calls : List ShopCall) × Responds request.now result calls
        × Made calls (S.told shop.old) (S.told shop.new) }
{
    if request.cancel {
        return Ok(None);
    }
    let folder = request.sandbox_dir.as_str();
    let answer = run_in(alloc, shop, folder, request.arguments.as_slice())?;
    Ok(Some(response_to(request, answer)))
}

fn response_to(request: &WorkRequest, answer: Answer) -> WorkResponse
    ensures { result ≡ response_to request.now answer }
{
    WorkResponse {
        exit_code: i32::from(answer.exit_code),
        output: answer.text,
        request_id: request.request_id,
        was_cancelled: false,
    }
}

// Returns the response as a line.
fn as_line(alloc: Global, response: &WorkResponse) -> Result<Option<Items<u8>>, NoMemory>
    ensures { IfOk result (λ reply. reply ≡ Some (as_line response.now)) }
{
    Ok(Some(Items::of(response_line(alloc, response)?)))
}
