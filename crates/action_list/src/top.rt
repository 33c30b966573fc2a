// From bytes to the values of the actions.
ghost use Rattle.std.specs.Prelude.{◌≡◌, ◌≤◌, length, map, true, false, MatchOption, MatchResult, Ok};
ghost use Rattle.std.specs.Str.{is_utf8};
ghost use Rattle.serde_json.specs.Find.{as_array};
ghost use Rattle.serde_json.specs.Read.{read};
ghost use Rattle.serde_json.specs.View.{view};
ghost use Rattle.list_actions.specs.Answers.{Refuses};
ghost use Rattle.action_list.specs.Top.{actions_in, if_array, if_read, json_in};
ghost use Rattle.run_plan.specs.Limits.{most_actions};

use crate::{Key, ListFault, ListRefusal, What};
use run_plan::MOST_ACTIONS;
use serde_json::Value;
use std::alloc::Global;

const MAX_BYTES: usize = 33_554_432;

/// Returns the JSON value of these bytes.
pub fn read_json(alloc: Global, bytes: &[u8]) -> Result<Value, ListRefusal>
    ensures { MatchResult result
        (λ v. json_in bytes.now ≡ Ok (view v))
        (λ r. Refuses r (json_in bytes.now)) }
{
    if bytes.len() > MAX_BYTES {
        return Err(ListRefusal::Fault(ListFault::TooMany {
            what: What::Bytes,
            count: bytes.len() as u64,
        }));
    }
    match as_text(bytes) {
        Some(text) => parse(alloc, text),
        None => Err(ListRefusal::Fault(ListFault::NotJson)),
    }
}

fn as_text(bytes: &[u8]) -> Option<&str>
    ensures { MatchOption result
        (is_utf8 bytes.now ≡ false)
        (λ t. (is_utf8 bytes.now ≡ true) × (t.now ≡ bytes.now)) }
{
    match str::from_utf8(bytes) {
        Ok(text) => Some(text),
        Err(_) => None,
    }
}

fn parse(alloc: Global, text: &str) -> Result<Value, ListRefusal>
    ensures { MatchResult result
        (λ v. if_read (read text.now) ≡ Ok (view v))
        (λ r. Refuses r (if_read (read text.now))) }
{
    match Value::from_str(alloc, text) {
        Ok(value) => Ok(value),
        Err(error) => {
            if error.is_memory() {
                return Err(ListRefusal::NoMemory);
            }
            Err(ListRefusal::Fault(ListFault::NotJson))
        }
    }
}

/// Returns the values of the actions, if there are not too many.
pub fn actions_in(top: &Value) -> Result<&[Value], ListRefusal>
    ensures { MatchResult result
        (λ l. (actions_in (view top.now) ≡ Ok (map view l.now)) × (length l.now ≤ most_actions))
        (λ r. Refuses r (actions_in (view top.now))) }
{
    if !top.is_object() {
        return Err(ListRefusal::Fault(ListFault::WrongKind {
            action: None,
            key: Key::Top,
        }));
    }
    match top.get("actions") {
        None => Err(ListRefusal::Fault(ListFault::MissingKey {
            action: None,
            key: Key::Actions,
        })),
        Some(actions) => list_in(actions),
    }
}

fn list_in(actions: &Value) -> Result<&[Value], ListRefusal>
    ensures { MatchResult result
        (λ l. (if_array (as_array (view actions.now)) ≡ Ok (map view l.now))
        × (length l.now ≤ most_actions))
        (λ r. Refuses r (if_array (as_array (view actions.now)))) }
{
    match actions.as_array() {
        None => Err(ListRefusal::Fault(ListFault::WrongKind {
            action: None,
            key: Key::Actions,
        })),
        Some(list) => {
            let values = list.as_slice();
            if values.len() > MOST_ACTIONS {
                return Err(ListRefusal::Fault(ListFault::TooMany {
                    what: What::Actions,
                    count: values.len() as u64,
                }));
            }
            Ok(values)
        }
    }
}
