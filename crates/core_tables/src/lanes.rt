// The outstanding work of each lane.
ghost use Rattle.std.specs.Prelude.{◌≡◌, ◌<◌, ◌&&◌, not, length, IfOk, replicate, slice_get, Some};
ghost use Rattle.run_plan.specs.declared.plan.Kind.{Kind};
ghost use Rattle.run_plan.specs.declared.plan.Plan.{Plan};
ghost use Rattle.exec_journal.specs.declared.call.Call.TheVariants.{Ask, Take};
ghost use Rattle.std.specs.List.{list_any};
ghost use Rattle.exec_journal.specs.Scripts.{is_made, outputs_of, makes, may_find, is_gathered, is_exit, is_refusal, is_whole_or_fault};
ghost use Rattle.run_plan.specs.Groups.{is_remote};
ghost use Rattle.core_tables.specs.Lanes.{no_work, allows_by, may_by, allowed_by, order_after, said_after, worked, noted, owes_commit_by, is_owed_by, may_ask_by, may_take_by, hears_by, may_look_by};

use exec_journal::{Attempt, Branch, Call, Found, Kind, Maker, Plan, Reply, Wanted, Written};
use plain_values::NoMemory;
use std::alloc::Global;
use std::marker::Model;

/// The order in the reply of a lane's newest work.
#[derive(Clone, Copy)]
pub enum Owed {
    Nothing,
    Launch {
        line: u32,
        attempt: Attempt,
    },
    Send {
        line: u32,
        number: i32,
        attempt: Attempt,
    },
    Cancel {
        line: u32,
        number: i32,
    },
    Gather {
        line: u32,
        number: i32,
        attempt: Attempt,
        exit: i32,
        refused: bool,
    },
    Kill {
        line: u32,
    },
    Line {
        line: u32,
    },
    Stop,
}

/// The work that the call of a lane's newest work leaves.
#[derive(Clone, Copy)]
pub enum Said {
    Nothing,
    /// An answer of this line, which the lane still reads.
    Answer { line: u32 },
    /// The branch was granted files.
    Won { action: u32, branch: Branch },
}

/// The state of a lane: its newest work, and whether it was told to stop or has halted.
#[derive(Clone, Copy)]
pub struct LaneState {
    pub order: Owed,
    pub said: Said,
    pub stopped: bool,
    pub halted: bool,
}

/// The outstanding work of each lane of a plan.
#[derive(Drop)]
pub struct Lanes {
    lanes: Vec<LaneState>,
}

impl Model for Lanes {
    ghost use Rattle.std.specs.Prelude.{List};
    ghost use Rattle.core_tables.specs.declared.lanes.LaneState.{LaneState};

    ghost Value = { List LaneState };

    ghost view = { λ a. a.lanes.items };
}

impl Lanes {
    pub fn new(alloc: Global, lanes: usize) -> Result<Lanes, NoMemory>
        ensures { IfOk result (λ t. t ≡ replicate lanes no_work) }
    {
        let none = LaneState {
            order: Owed::Nothing,
            said: Said::Nothing,
            stopped: false,
            halted: false,
        };
        let lanes = vec![in alloc; none; lanes]?;
        Ok(Lanes { lanes })
    }

    /// Returns true if the call is in the lane's script.
    pub fn allows(&self, plan: &Plan, kind: Kind, lane: u32, call: &Call) -> bool
        ensures { result ≡ allows_by plan.now kind self.now lane call.now }
    {
        match self.lanes.get(lane as usize) {
            Some(state) => state.may(plan, kind, lane % 2 == 0, call),
            None => false,
        }
    }

    /// Returns true if the lane may ask for an order.
    pub fn may_ask(&self, lane: u32) -> bool
        ensures { (p : Plan) (kind : Kind) → result ≡ allows_by p kind self.now lane Ask }
    {
        match self.lanes.get(lane as usize) {
            Some(state) => lane % 2 == 0 && state.is_free() && may_ask(state.order, state.said),
            None => false,
        }
    }

    /// Returns true if the lane may take a line.
    pub fn may_take(&self, lane: u32) -> bool
        ensures { (p : Plan) (kind : Kind) → result ≡ allows_by p kind self.now lane Take }
    {
        match self.lanes.get(lane as usize) {
            Some(state) => lane % 2 != 0 && state.is_free() && may_take(state.order, state.said),
            None => false,
        }
    }

    /// Returns the state of the lane.
    pub fn state(&self, lane: u32) -> LaneState
        requires { lane < length self.now }
        ensures { slice_get self.now lane ≡ Some result }
    {
        self.lanes[lane as usize]
    }

    /// Notes an entry of the lane.
    pub fn note(&mut self, lane: u32, call: &Call, reply: &Reply)
        requires { lane < length self.old }
        ensures { self.new ≡ noted self.old lane call.now reply.now }
    {
        let state = self.lanes[lane as usize];
        self.lanes[lane as usize] = state.worked(call, reply);
    }
}

impl LaneState {
    // Returns true if the lane was not told to stop and has not halted.
    fn is_free(&self) -> bool
        ensures { result ≡ not self.now.stopped && not self.now.halted }
    {
        !self.stopped && !self.halted
    }

    fn may(&self, plan: &Plan, kind: Kind, proxy: bool, call: &Call) -> bool
        ensures { result ≡ may_by plan.now kind proxy self.now call.now }
    {
        if self.stopped {
            false
        } else if self.halted {
            owes_commit(self.said, call)
        } else {
            self.is_allowed(plan, kind, proxy, call)
        }
    }

    fn is_allowed(&self, plan: &Plan, kind: Kind, proxy: bool, call: &Call) -> bool
        ensures { result ≡ allowed_by plan.now kind proxy self.now.order self.now.said call.now }
    {
        match call {
            Call::Ask => proxy && may_ask(self.order, self.said),
            Call::Take => !proxy && may_take(self.order, self.said),
            Call::Answer { line, .. } => !proxy && hears(self.order, self.said, *line),
            Call::Ended { line, .. } => !proxy && hears(self.order, self.said, *line),
            Call::Halt => true,
            _ => proxy && (is_owed(plan, kind, self.order, call) || owes_commit(self.said, call)),
        }
    }

    fn worked(self, call: &Call, reply: &Reply) -> LaneState
        ensures { result ≡ worked call.now reply.now self }
    {
        match call {
            Call::Look(_) => LaneState {
                stopped: matches!(reply, Reply::Stop) || self.stopped,
                ..self
            },
            Call::Halt => LaneState {
                order: self.order,
                said: self.said,
                stopped: matches!(reply, Reply::Stop) || self.stopped,
                halted: true,
            },
            _ => LaneState {
                order: order_after(reply),
                said: said_after(call, reply),
                stopped: matches!(reply, Reply::Stop) || self.stopped,
                halted: self.halted,
            },
        }
    }
}

fn may_ask(order: Owed, said: Said) -> bool
    ensures { result ≡ may_ask_by order said }
{
    match order {
        Owed::Nothing => !matches!(said, Said::Won { .. }),
        Owed::Line { .. } => true,
        _ => false,
    }
}

fn may_take(order: Owed, said: Said) -> bool
    ensures { result ≡ may_take_by order said }
{
    match order {
        Owed::Line { .. } => false,
        Owed::Stop => false,
        _ => !matches!(said, Said::Answer { .. }),
    }
}

fn hears(order: Owed, said: Said, line: u32) -> bool
    ensures { result ≡ hears_by line order said }
{
    match order {
        Owed::Line { line: own } => own == line,
        _ => match said {
            Said::Answer { line: own } => own == line,
            _ => false,
        },
    }
}

fn owes_commit(said: Said, call: &Call) -> bool
    ensures { result ≡ owes_commit_by call.now said }
{
    match call {
        Call::Committed { action, branch, .. } => match said {
            Said::Won {
                action: own,
                branch: won,
            } => own == *action && won == *branch,
            _ => false,
        },
        _ => false,
    }
}

// Returns true if the order requires the call of the lane.
fn is_owed(plan: &Plan, kind: Kind, order: Owed, call: &Call) -> bool
    ensures { result ≡ is_owed_by plan.now kind call.now order }
{
    match call {
        Call::Launched { line, .. } => match order {
            Owed::Launch { line: own, .. } => own == *line,
            _ => false,
        },
        Call::Wrote { line, number, how } => match order {
            Owed::Send {
                line: own,
                number: sent,
                ..
            } => own == *line && sent == *number,
            Owed::Cancel {
                line: own,
                number: sent,
            } => {
                own == *line && sent == *number && matches!(how, Written::Done | Written::FeedFault)
            }
            _ => false,
        },
        Call::Claim {
            action,
            branch,
            attempt,
            found,
        } => match order {
            Owed::Gather {
                attempt: own,
                exit,
                refused,
                ..
            } => {
                own.is(*action, *branch, *attempt)
                    && may_find(plan, *action, kind, exit, refused, found)
            }
            _ => false,
        },
        Call::Killed { line } => match order {
            Owed::Kill { line: own } => own == *line,
            _ => false,
        },
        Call::Look(wanted) => may_look(plan, *wanted, order),
        _ => false,
    }
}

fn outputs_of(plan: &Plan, action: u32) -> usize
    ensures { result ≡ outputs_of plan.now action }
{
    match plan.actions.as_slice().get(action as usize) {
        Some(work) => work.outputs.as_slice().len(),
        None => 0,
    }
}

fn may_find(plan: &Plan, action: u32, kind: Kind, exit: i32, refused: bool, found: &Found) -> bool
    ensures { result ≡ may_find (outputs_of plan.now action)
        (is_remote kind) exit refused found.now }
{
    if exit != 0 {
        match found {
            Found::Exit(code) => *code == exit,
            _ => false,
        }
    } else if refused {
        matches!(found, Found::Refused)
    } else {
        match found {
            Found::Files(files) => files.as_slice().len() == outputs_of(plan, action),
            Found::Missing(output) => (*output as usize) < outputs_of(plan, action),
            Found::RoomFault => kind != Kind::Remote,
            _ => false,
        }
    }
}

fn may_look(plan: &Plan, wanted: Wanted, order: Owed) -> bool
    ensures { result ≡ may_look_by plan.now wanted order }
{
    match wanted {
        Wanted::Made { action, output } => match order {
            Owed::Send { attempt, .. } => makes(plan, attempt.action, action, output),
            _ => false,
        },
        Wanted::Answered {
            line,
            number,
            output,
        } => match order {
            Owed::Gather {
                line: own,
                number: sent,
                attempt,
                exit,
                refused,
            } => {
                line == own
                    && number == sent
                    && exit == 0
                    && !refused
                    && (output as usize) < outputs_of(plan, attempt.action)
            }
            _ => false,
        },
    }
}

// Returns true if this output of an action is an input of the action `user`.
fn makes(plan: &Plan, user: u32, action: u32, output: u32) -> bool
    ensures { result ≡ makes plan.now user action output }
{
    match plan.actions.as_slice().get(user as usize) {
        Some(work) => some_is(work.makers.as_slice(), action, output),
        None => false,
    }
}

fn some_is(makers: &[Maker], action: u32, output: u32) -> bool
    ensures { result ≡ list_any (λ m. is_made m action output) makers.now }
{
    makers
        .iter()
        .any(|maker| maker.action == action && maker.output == output)
}

fn order_after(reply: &Reply) -> Owed
    ensures { result ≡ order_after reply.now }
{
    match reply {
        Reply::Launch {
            line,
            action,
            branch,
            attempt,
        } => Owed::Launch {
            line: *line,
            attempt: Attempt::of(*action, *branch, *attempt),
        },
        Reply::Send {
            line,
            number,
            action,
            branch,
            attempt,
        } => Owed::Send {
            line: *line,
            number: *number,
            attempt: Attempt::of(*action, *branch, *attempt),
        },
        Reply::Cancel { line, number } => Owed::Cancel {
            line: *line,
            number: *number,
        },
        Reply::Gather {
            line,
            number,
            action,
            branch,
            attempt,
            exit,
            refused,
        } => Owed::Gather {
            line: *line,
            number: *number,
            attempt: Attempt::of(*action, *branch, *attempt),
            exit: *exit,
            refused: *refused,
        },
        Reply::Kill { line, .. } => Owed::Kill { line: *line },
        Reply::Line { line } => Owed::Line { line: *line },
        Reply::Stop => Owed::Stop,
        _ => Owed::Nothing,
    }
}

fn said_after(call: &Call, reply: &Reply) -> Said
    ensures { result ≡ said_after call.now reply.now }
{
    match call {
        Call::Claim {
            action,
            branch,
            found,
            ..
        } => match found {
            Found::Files(_) if matches!(reply, Reply::Granted) => Said::Won {
                action: *action,
                branch: *branch,
            },
            _ => Said::Nothing,
        },
        Call::Answer { line, .. } => Said::Answer { line: *line },
        _ => Said::Nothing,
    }
}
