//! The action list: its JSON text is read and checked. Also the plan of a run, and the commands of each group of
//! workers.
#![tactic(auto)]

mod checks;
mod draft;
mod keys;
mod listed;
mod made;
mod needs;
mod parts;
mod planning;
mod table;
mod top;
mod twin;

ghost use Rattle.list_actions.specs.Answers.{Answers};
ghost use Rattle.action_list.specs.Lists.{list_of};
ghost use Rattle.list_actions.specs.Whole.{IsWhole};
ghost use Rattle.std.specs.Prelude.{IfOk};
ghost use Rattle.run_plan.specs.Limits.{most_local_berths};

pub use keys::has_local;
pub use list_actions::{
    ActionList, Key, ListAction, ListFault, ListRefusal, Needs, Producers, Strategy, What,
};
pub use parts::{GroupPart, group_parts};
pub use planning::plan;
use run_plan::MOST_LOCAL_BERTHS;
use std::alloc::Global;
pub use twin::plan_again;

/// Reads an action list: the JSON text that `docs/FORMATS.md` describes.
///
/// # Errors
///
/// Returns the first fault, in this order:
///
/// - the bytes, the JSON, the object and its `actions`
/// - each action, with its keys in their order
/// - for each action in order: a name that an earlier action has, an output that is made before, an input that is made
///   later
/// - too many worker keys
pub fn read_list(alloc: Global, bytes: &[u8]) -> Result<ActionList, ListRefusal>
    ensures answer { Answers result (list_of most_local_berths bytes.now) }
    ensures whole { IfOk result (λ l. IsWhole l.actions) }
{
    listed::list_of(alloc, MOST_LOCAL_BERTHS as usize, bytes)
}

/// Reads an action list that may have up to `keys` worker keys.
///
/// # Errors
///
/// Same as `read_list`.
pub fn read_list_with(alloc: Global, bytes: &[u8], keys: u32) -> Result<ActionList, ListRefusal>
    ensures answer { Answers result (list_of keys bytes.now) }
    ensures whole { IfOk result (λ l. IsWhole l.actions) }
{
    listed::list_of(alloc, keys as usize, bytes)
}
