// Requests that are answered in parallel, by lanes with a shop each.
ghost use Rattle.std.specs.Prelude.{◌≡◌, List, IfOk, OnErr};
ghost use Rattle.outside.specs.declared.shop.ShopCall.{ShopCall};
ghost use Rattle.message_service.specs.Calls.{Made};
ghost use Rattle.demo_worker.specs.Lanes.{Handles, HasHandled, HasBrokenOff, DoesRequest, BreaksRequest, IsHandled, handled_as};

use crate::folders::run_in;
use crate::running::Answer;
use outside::Shop;
use plain_values::NoMemory;
use std::alloc::Global;
use std::sync::Wait;
use wire_messages::WorkRequest;
use worker_kit::{Flag, Handled, LaneHandler};

/// A lane that answers requests by commands in its own shop, one after another. A command that has begun is
/// run to its end, even if its request is cancelled.
#[derive(Drop)]
pub struct DemoLane<S> {
    pub shop: S,
}

impl<S: Shop> LaneHandler for DemoLane<S> {
    ghost answers = { IsHandled };

    ghost does = { DoesRequest S.told };

    ghost breaks = { BreaksRequest S.told };

    fn handle<R: Wait, F: Flag>(
        &mut self,
        _rt: &R,
        alloc: Global,
        request: &WorkRequest,
        _flag: &mut F,
    ) -> Result<Handled, NoMemory> {
        do_request(alloc, &mut self.shop, request)
    }
}

// Handles a request in this shop.
fn do_request<S: Shop>(
    alloc: Global,
    shop: &mut S,
    request: &WorkRequest,
) -> Result<Handled, NoMemory>
    ensures handled { IfOk result (IsHandled request.now) }
    ensures done { IfOk result (λ handled.
        HasHandled request.now handled (S.told shop.old) (S.told shop.new)) }
    ensures broken { OnErr result (HasBrokenOff request.now (S.told shop.old) (S.told shop.new)) }
{
    make_of(alloc, shop, request)
}

// Runs a request's arguments as a command in this shop.
fn make_of<S: Shop>(alloc: Global, shop: &mut S, request: &WorkRequest) -> Result<Handled, NoMemory>
    ensures { (calls : List ShopCall) × Handles request.now result calls
        × Made calls (S.told shop.old) (S.told shop.new) }
{
    let folder = request.sandbox_dir.as_str();
    let answer = run_in(alloc, shop, folder, request.arguments.as_slice())?;
    Ok(handled_as(answer))
}

fn handled_as(answer: Answer) -> Handled
    ensures { result ≡ handled_as answer }
{
    Handled {
        exit: i32::from(answer.exit_code),
        output: answer.text,
        stopped: false,
    }
}
