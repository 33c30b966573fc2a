// The calls of the lanes.
ghost use Rattle.std.specs.Prelude.{◌≡◌, true, Some, IfOk, IfSome, IfNone};
ghost use Rattle.seat_desk.specs.Passes.{IsSamePass};
ghost use Rattle.work_queue.specs.declared.queue.Ask.TheVariants as ask;
ghost use Rattle.work_queue.specs.declared.queue.Told.TheVariants as told;
ghost use Rattle.work_queue.specs.declared.queue.Load.TheVariants as load;
ghost use Rattle.work_queue.specs.States.{reader};
ghost use Rattle.work_lanes.specs.Calls.{state_at, heard_at, read_at, most_at, begun_at, owner_at, raised_at, is_idle, is_open, done_by, idle_not_kept, InHand, GivesNone, HasRoom, HearsMore, HasHeard, HasTaken, HasBegun};

use lane_threads::{Caller, Question};
use outside::Sink;
use plain_values::NoMemory;
use std::snapshot::Snapshot;
use std::sync::Wait;
use work_queue::{Ask, Asked, Kind, Load, Told, WorkQueue};

// Whether fewer requests than this wait.
#[derive(Drop)]
struct Room {
    depth: u32,
}

impl<O: Sink, X: Drop, Y: Drop, K: Kind<X, Y>> Question<WorkQueue<O, X, Y, K>> for Room {
    ghost asks = { λ self. ask.Room self.depth };

    ghost idles = { is_idle };

    ghost idle_is_not_kept = { λ e idle. idle_not_kept e.call e.reply idle };

    fn call(&self) -> Ask<X, Y> {
        Ask::Room(self.depth)
    }

    fn is_idle(&self, reply: &Told) -> bool {
        matches!(reply, Told::Idle)
    }
}

// The next request.
struct Next;

impl<O: Sink, X: Drop, Y: Drop, K: Kind<X, Y>> Question<WorkQueue<O, X, Y, K>> for Next {
    ghost asks = { λ self. ask.Take };

    ghost idles = { is_idle };

    ghost idle_is_not_kept = { λ e idle. idle_not_kept e.call e.reply idle };

    fn call(&self) -> Ask<X, Y> {
        Ask::Take
    }

    fn is_idle(&self, reply: &Told) -> bool {
        matches!(reply, Told::Idle)
    }
}

fn done_by(reply: Told) -> Result<(), NoMemory>
    ensures { result ≡ done_by reply }
{
    match reply {
        Told::Done => Ok(()),
        Told::Open | Told::Idle | Told::Closed => Err(NoMemory),
    }
}

fn is_open(reply: Told) -> bool
    ensures { result ≡ is_open reply }
{
    matches!(reply, Told::Open)
}

// What was taken by a reply.
fn task_in<X: Drop>(reply: Told, good: Option<Load<X>>) -> Option<Asked<X>>
    ensures some { IfSome result (λ asked. (reply ≡ told.Done)
        × (good ≡ Some (load.Task asked))) }
    ensures none { IfNone result (GivesNone reply good) }
{
    match (reply, good) {
        (Told::Done, Some(Load::Task(asked))) => Some(asked),
        _ => None,
    }
}

/// Waits until fewer requests than this wait. `false` where all is over.
///
/// # Errors
///
/// `NoMemory`.
pub(crate) fn await_room<O: Sink, X: Drop, Y: Drop, K: Kind<X, Y>, R: Wait>(
    rt: &R,
    caller: &mut Caller<WorkQueue<O, X, Y, K>>,
    depth: u32,
) -> Result<bool, NoMemory>
    requires lane { caller.old.pass.lane ≡ reader }
    ensures same { IsSamePass caller.old.pass caller.new.pass }
    ensures heard { heard_at K.number K.cancels caller.new.pass
        ≡ heard_at K.number K.cancels caller.old.pass }
    ensures room { HasRoom depth result (read_at K.number K.cancels caller.old.pass)
        (read_at K.number K.cancels caller.new.pass) }
{
    match caller.ask(rt, &Room { depth }) {
        Ok((reply, _)) => Ok(is_open(reply)),
        Err(_) => Err(NoMemory),
    }
}

/// Lets the queue hear a request.
///
/// # Errors
///
/// `NoMemory`, also where all is over. Then it wasn't heard.
pub(crate) fn hear<O: Sink, X: Drop, Y: Drop, K: Kind<X, Y>, R: Wait>(
    rt: &R,
    caller: &mut Caller<WorkQueue<O, X, Y, K>>,
    request: X,
) -> Result<(), NoMemory>
    requires lane { caller.old.pass.lane ≡ reader }
    ensures same { IsSamePass caller.old.pass caller.new.pass }
    ensures heard { HasHeard request result (heard_at K.number K.cancels caller.old.pass)
        (heard_at K.number K.cancels caller.new.pass) }
    ensures more { HearsMore (read_at K.number K.cancels caller.old.pass)
        (read_at K.number K.cancels caller.new.pass) }
{
    let about = Snapshot::of(&request);
    match caller.call(rt, Ask::Hear(about), Some(Load::Request(request))) {
        Ok((reply, _)) => done_by(reply),
        Err(_) => Err(NoMemory),
    }
}

/// Says that no more comes. It takes no memory.
pub(crate) fn close<O: Sink, X: Drop, Y: Drop, K: Kind<X, Y>, R: Wait>(
    rt: &R,
    caller: &mut Caller<WorkQueue<O, X, Y, K>>,
)
    requires lane { caller.old.pass.lane ≡ reader }
    ensures same { IsSamePass caller.old.pass caller.new.pass }
    ensures heard { heard_at K.number K.cancels caller.new.pass
        ≡ heard_at K.number K.cancels caller.old.pass }
    ensures most { most_at K.number K.cancels caller.new.pass
        ≡ most_at K.number K.cancels caller.old.pass }
{
    caller.call_paid(rt, Ask::Close, None);
}

/// Says that memory has run out, as the reader. It takes no memory.
pub(crate) fn halt_reading<O: Sink, X: Drop, Y: Drop, K: Kind<X, Y>, R: Wait>(
    rt: &R,
    caller: &mut Caller<WorkQueue<O, X, Y, K>>,
)
    requires lane { caller.old.pass.lane ≡ reader }
    ensures same { IsSamePass caller.old.pass caller.new.pass }
    ensures heard { heard_at K.number K.cancels caller.new.pass
        ≡ heard_at K.number K.cancels caller.old.pass }
    ensures most { most_at K.number K.cancels caller.new.pass
        ≡ most_at K.number K.cancels caller.old.pass }
{
    caller.call_paid(rt, Ask::Halt, None);
}

/// Says that memory has run out. It takes none.
pub(crate) fn halt<O: Sink, X: Drop, Y: Drop, K: Kind<X, Y>, R: Wait>(
    rt: &R,
    caller: &mut Caller<WorkQueue<O, X, Y, K>>,
)
    ensures same { IsSamePass caller.old.pass caller.new.pass }
    ensures begun { begun_at K.number K.cancels caller.new.pass
        ≡ begun_at K.number K.cancels caller.old.pass }
{
    caller.call_paid(rt, Ask::Halt, None);
}

/// Takes the next request, once there is one. `None` where all is over.
///
/// # Errors
///
/// `NoMemory`.
pub(crate) fn take<O: Sink, X: Drop, Y: Drop, K: Kind<X, Y>, R: Wait>(
    rt: &R,
    caller: &mut Caller<WorkQueue<O, X, Y, K>>,
) -> Result<Option<Asked<X>>, NoMemory>
    requires hand { caller.old.pass.lane ≡ reader → ⊥ }
    ensures same { IsSamePass caller.old.pass caller.new.pass }
    ensures begun { HasBegun result (begun_at K.number K.cancels caller.old.pass)
        (begun_at K.number K.cancels caller.new.pass) }
    ensures taken { HasTaken caller.new.pass.lane result
        (state_at K.number K.cancels caller.new.pass) }
{
    match caller.ask(rt, &Next) {
        Ok((reply, good)) => Ok(task_in(reply, good)),
        Err(_) => Err(NoMemory),
    }
}

/// Returns true if the request that the lane has in hand was cancelled.
///
/// # Errors
///
/// Returns `NoMemory` if memory runs out.
pub(crate) fn is_cancelled<O: Sink, X: Drop, Y: Drop, K: Kind<X, Y>, R: Wait>(
    rt: &R,
    caller: &mut Caller<WorkQueue<O, X, Y, K>>,
) -> Result<bool, NoMemory>
    ensures same { owner_at K.number K.cancels caller.new.pass
        ≡ owner_at K.number K.cancels caller.old.pass }
    ensures stays { raised_at K.number K.cancels caller.old.pass ≡ true
        → raised_at K.number K.cancels caller.new.pass ≡ true }
    ensures raised { IfOk result (λ yes. yes ≡ true
        → raised_at K.number K.cancels caller.new.pass ≡ true) }
{
    match caller.call(rt, Ask::IsCancelled, None) {
        Ok((reply, _)) => Ok(is_open(reply)),
        Err(_) => Err(NoMemory),
    }
}

/// Puts the response to what the lane has in hand, in these bytes. What was cancelled before it was
/// begun is given up.
///
/// # Errors
///
/// `NoMemory`, also where all is over.
pub(crate) fn answer<O: Sink, X: Drop, Y: Drop, K: Kind<X, Y>, R: Wait>(
    rt: &R,
    caller: &mut Caller<WorkQueue<O, X, Y, K>>,
    request: &X,
    was: bool,
    cancelled: bool,
    response: Y,
    bytes: Vec<u8>,
) -> Result<(), NoMemory>
    requires hand { InHand caller.old.pass.lane request.now was cancelled
        (state_at K.number K.cancels caller.old.pass) }
    requires says { K.says request.now cancelled response }
    requires begun { was ≡ true → cancelled ≡ true }
    requires written { bytes.items ≡ K.written response }
    ensures same { IsSamePass caller.old.pass caller.new.pass }
    ensures begun { begun_at K.number K.cancels caller.new.pass
        ≡ begun_at K.number K.cancels caller.old.pass }
{
    let about = Snapshot::of(&response);
    match caller.call(rt, Ask::Answer(about), Some(Load::Bytes(bytes))) {
        Ok((reply, _)) => done_by(reply),
        Err(_) => Err(NoMemory),
    }
}
