// A core with a local delay, and its replies while the worker's branch of an action waits.
ghost use Rattle.list_actions.specs.Whole.{IsWhole};

use action_list::{ActionList, plan, read_list};
use exec_journal::{Call, Reply};
use placed_berths::{DelayCore, delay_core};
use plain_values::NoMemory;
use std::alloc::Global;

// One action, for a worker or the executor.
const LIST: &str = "{\"actions\":[{\"name\":\"a\",\"mnemonic\":\"T\",\"argv\":[\"t\",\"@f\"],\
\"inputs\":[\"f\"],\"outputs\":[\"o\"],\"strategy\":\"dynamic\",\
\"requirements\":{\"supports-workers\":\"1\"}}]}";

// The number of Ticks for which the worker waits.
const TICKS: u32 = 2;

// The proxy lanes of the worker's berth, of the executor's berth, and of the berth after both.
const WORKER: u32 = 0;

const EXECUTOR: u32 = 2;

const TICKER: u32 = 4;

// The calls: the lane that calls, and true for a Tick or false for an Ask.
const CALLS: [(u32, bool); 8] = [
    (WORKER, false),
    (EXECUTOR, false),
    (TICKER, true),
    (WORKER, false),
    (TICKER, true),
    (TICKER, true),
    (WORKER, false),
    (WORKER, true),
];

/// Returns the replies to these lanes, one line for each call.
///
/// # Errors
///
/// Returns `NoMemory` if memory runs out for the core or for the replies.
pub fn tell_delay(alloc: Global) -> Result<String, NoMemory> {
    match read_list(alloc, LIST.as_bytes()) {
        Ok(list) => tell_list(alloc, &list),
        Err(_fault) => Ok(String::from_str(alloc, "no list\n")?),
    }
}

fn tell_list(alloc: Global, list: &ActionList) -> Result<String, NoMemory>
    requires { IsWhole list.now.actions }
{
    let plan = plan(alloc, list, 1, 1, 1)?;
    let mut core = delay_core(alloc, plan, TICKS)?;
    tell_each(alloc, &mut core)
}

fn tell_each(alloc: Global, core: &mut DelayCore) -> Result<String, NoMemory> {
    let mut told = String::new(alloc);
    for (lane, ticks) in CALLS {
        let reply = if ticks {
            core.step(lane, &Call::Tick)
        } else {
            core.step(lane, &Call::Ask)
        };
        let line = format!(in alloc; "lane {lane}: {}\n", word_for(&reply))?;
        told.push_str(line.as_str())?;
    }
    Ok(told)
}

fn word_for(reply: &Reply) -> &'static str {
    match reply {
        Reply::Launch { .. } => "Launch",
        Reply::Noted => "Noted",
        Reply::Idle => "Idle",
        Reply::Astray => "Astray",
        _ => "another reply",
    }
}
