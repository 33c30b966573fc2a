// The action that a draft without a fault gives.
ghost use Rattle.std.specs.Prelude.{◌≡◌, IfOk, codes};
ghost use Rattle.std.specs.Option.{option_copied};
ghost use Rattle.action_list.specs.Actions.{action_of, needs_of, strategy_in};
ghost use Rattle.action_list.specs.Checks.{list_in, says, value_of};

use crate::draft::{Draft, Slot};
use crate::needs::{is_set, strategy_named, value_of};
use crate::{ListAction, Needs, Strategy};
use plain_values::{Items, NoMemory, Text, Variable};
use std::alloc::Global;

/// Returns the action of a draft, with defaults for missing parts.
#[tactic(auto, unfolding(crate::specs::Actions::action_of))]
pub fn action_of(alloc: Global, draft: Draft) -> Result<ListAction, NoMemory>
    ensures { IfOk result (λ x. x ≡ action_of draft) }
{
    let Draft {
        is_object: _,
        name,
        mnemonic,
        argv,
        env,
        tools,
        inputs,
        outputs,
        requirements,
        strategy,
    } = draft;
    let requirements = items_of(alloc, requirements);
    Ok(ListAction {
        name: text_of(alloc, name),
        mnemonic: text_of(alloc, mnemonic),
        argv: items_of(alloc, argv),
        env: items_of(alloc, env),
        tools: items_of(alloc, tools),
        inputs: items_of(alloc, inputs),
        outputs: items_of(alloc, outputs),
        needs: needs_of(alloc, requirements.as_slice())?,
        strategy: strategy_of(&strategy),
    })
}

fn text_of(alloc: Global, slot: Slot<Text>) -> Text
    ensures { result ≡ list_in slot }
{
    match slot {
        Slot::Held(text) => text,
        Slot::Missing | Slot::Other => Text::of(String::new(alloc)),
    }
}

fn items_of<T: Drop>(alloc: Global, slot: Slot<Items<T>>) -> Items<T>
    ensures { result ≡ list_in slot }
{
    match slot {
        Slot::Held(items) => items,
        Slot::Missing | Slot::Other => Items::of(Vec::new(alloc)),
    }
}

fn needs_of(alloc: Global, requirements: &[Variable]) -> Result<Needs, NoMemory>
    ensures { IfOk result (λ n. n ≡ needs_of requirements.now) }
{
    Ok(Needs {
        workers: is_set(requirements, "supports-workers"),
        multiplex: is_set(requirements, "supports-multiplex-workers"),
        cancel: is_set(requirements, "supports-worker-cancellation"),
        sandboxing: is_set(requirements, "supports-multiplex-sandboxing"),
        json: speaks_json(requirements),
        key_mnemonic: copy_of(alloc, value_of(requirements, "worker-key-mnemonic"))?,
    })
}

fn speaks_json(requirements: &[Variable]) -> bool
    ensures { result ≡ says (codes "json") (value_of
        (codes "requires-worker-protocol") requirements.now) }
{
    value_of(requirements, "requires-worker-protocol") == Some("json")
}

fn copy_of(alloc: Global, text: Option<&str>) -> Result<Option<Text>, NoMemory>
    ensures { IfOk result (λ t. t ≡ option_copied text.entry) }
{
    match text {
        None => Ok(None),
        Some(text) => Ok(Some(Text::copy_of(alloc, text)?)),
    }
}

fn strategy_of(slot: &Slot<Text>) -> Strategy
    ensures { result ≡ strategy_in slot.now }
{
    match slot {
        Slot::Missing | Slot::Other => Strategy::Worker,
        Slot::Held(text) => strategy_named(text.as_str()).unwrap_or(Strategy::Worker),
    }
}
