// Hints for a list that is refused, or whose flag files are refused.
ghost use Rattle.std.specs.Prelude.{IfOk, string_bytes};
ghost use Rattle.fault_hints.specs.Lines.{AreBehind};

use crate::action::{Listed, add_keys};
use crate::keys::{OF_LIST, STRATEGIES, is_known};
use crate::page::Page;
use flag_files::FlagFault;
use list_actions::{Key, ListFault};
use plain_values::NoMemory;
use serde_json::{Error, Value};
use std::alloc::Global;

/// Returns the lines that follow a fault of the list with these bytes.
///
/// # Errors
///
/// Returns `NoMemory` if memory runs out.
pub fn list_lines(alloc: Global, bytes: &[u8], fault: &ListFault) -> Result<String, NoMemory>
    ensures { IfOk result (λ lines. AreBehind (string_bytes lines)) }
{
    let mut page = Page::new(alloc);
    let Ok(text) = str::from_utf8(bytes) else {
        page.add(alloc, "it isn't text: some of its bytes aren't UTF-8")?;
        return Ok(page.text());
    };
    match Value::from_str(alloc, text) {
        Ok(top) => add_fault(alloc, &mut page, &top, fault)?,
        Err(error) => add_place(alloc, &mut page, text, &error)?,
    }
    Ok(page.text())
}

/// Returns the lines that follow a fault of the flag files of the action with this number.
///
/// # Errors
///
/// Same as `list_lines`.
pub fn flag_lines(
    alloc: Global,
    bytes: &[u8],
    action: u32,
    fault: &FlagFault,
) -> Result<String, NoMemory>
    ensures { IfOk result (λ lines. AreBehind (string_bytes lines)) }
{
    let mut page = Page::new(alloc);
    if let Some(top) = value_of(alloc, bytes)
        && let Some(listed) = Listed::of(&top, action)
    {
        listed.add_name(alloc, &mut page)?;
        if let FlagFault::NoSuchFile { path } = fault {
            add_flag_file(alloc, &mut page, &listed, path.as_str())?;
        }
        listed.add_unknown(alloc, &mut page)?;
    }
    Ok(page.text())
}

/// Returns the lines about keys that look misspelled, in the actions with these numbers of the list with these bytes.
///
/// # Errors
///
/// Returns `NoMemory` if memory runs out.
pub fn key_lines(alloc: Global, bytes: &[u8], actions: &[u32]) -> Result<String, NoMemory>
    ensures { IfOk result (λ lines. AreBehind (string_bytes lines)) }
{
    let mut page = Page::new(alloc);
    if let Some(top) = value_of(alloc, bytes) {
        for number in actions {
            if let Some(listed) = Listed::of(&top, *number) {
                listed.add_misspelled(alloc, &mut page)?;
            }
        }
    }
    Ok(page.text())
}

/// Returns the value of these bytes, if they are JSON.
pub fn value_of(alloc: Global, bytes: &[u8]) -> Option<Value> {
    let Ok(text) = str::from_utf8(bytes) else {
        return None;
    };
    Value::from_str(alloc, text).ok()
}

// Adds the place at which a string stops being JSON.
fn add_place(alloc: Global, page: &mut Page, text: &str, error: &Error) -> Result<(), NoMemory> {
    if text.is_empty() {
        page.add(alloc, "it is empty")?;
    } else if text.starts_with("\u{feff}") {
        page.add(
            alloc,
            "it begins with a byte order mark: save it as UTF-8 without one",
        )?;
    } else {
        let line = format!(in alloc; "{error}")?;
        page.add(alloc, line.as_str())?;
    }
    Ok(())
}

fn add_fault(
    alloc: Global,
    page: &mut Page,
    top: &Value,
    fault: &ListFault,
) -> Result<(), NoMemory> {
    let Some(number) = action_of(fault) else {
        return add_top(alloc, page, top);
    };
    let Some(listed) = Listed::of(top, number) else {
        return Ok(());
    };
    listed.add_name(alloc, page)?;
    add_cause(alloc, page, &listed, fault)?;
    listed.add_unknown(alloc, page)
}

fn add_top(alloc: Global, page: &mut Page, top: &Value) -> Result<(), NoMemory> {
    match top.as_object() {
        Some(members) => add_keys(alloc, page, "the whole text", members, &OF_LIST),
        None => page.add(
            alloc,
            "the whole text isn't an object, as {\"actions\": [..]} is",
        ),
    }
}

// Adds the part of the action that the fault means, if the fault's own line leaves it open.
fn add_cause(
    alloc: Global,
    page: &mut Page,
    listed: &Listed,
    fault: &ListFault,
) -> Result<(), NoMemory> {
    match fault {
        ListFault::NoStrategy { .. } => add_strategy(alloc, page, listed),
        ListFault::BadPath { path, .. } => add_path_key(alloc, page, listed, path.as_str()),
        ListFault::WrongKind { key, .. } => add_kind(alloc, page, listed, *key),
        _ => Ok(()),
    }
}

fn add_strategy(alloc: Global, page: &mut Page, listed: &Listed) -> Result<(), NoMemory> {
    let number = listed.number;
    let strategy = listed.text("strategy").unwrap_or("worker");
    if !is_known(strategy, &STRATEGIES) {
        let line = format!(in alloc;
            "actions[{number}].strategy: {strategy:?} is none of worker, remote and dynamic"
        )?;
        return page.add(alloc, line.as_str());
    }
    let line = match listed.requirement("supports-workers") {
        None => format!(in alloc;
            "actions[{number}].requirements lacks \"supports-workers\": \"1\", which {strategy} needs"
        )?,
        Some(_) => format!(in alloc;
            "actions[{number}].requirements: \"supports-workers\" has another text than \"1\", which {strategy} needs"
        )?,
    };
    page.add(alloc, line.as_str())
}

// Adds the key that lists the path.
fn add_path_key(
    alloc: Global,
    page: &mut Page,
    listed: &Listed,
    path: &str,
) -> Result<(), NoMemory> {
    let number = listed.number;
    for key in ["tools", "inputs", "outputs"] {
        if listed.has(key, path) {
            let line = format!(in alloc; "actions[{number}].{key} has this path")?;
            return page.add(alloc, line.as_str());
        }
    }
    Ok(())
}

// Adds the kind of value that a key takes.
fn add_kind(alloc: Global, page: &mut Page, listed: &Listed, key: Key) -> Result<(), NoMemory> {
    let kind = match key {
        Key::Name | Key::Mnemonic | Key::Strategy => "a text that isn't empty",
        Key::Argv => "an array of texts, the first of which isn't empty",
        Key::Tools | Key::Inputs | Key::Outputs => "an array of texts",
        Key::Env => "an object whose values are texts, as {\"LC_ALL\": \"C\"}",
        Key::Requirements => "an object whose values are texts, as {\"supports-workers\": \"1\"}",
        Key::Action => "an object",
        Key::Top | Key::Actions => return Ok(()),
    };
    let number = listed.number;
    let line = format!(in alloc; "actions[{number}]{key}: {kind} may stand there")?;
    page.add(alloc, line.as_str())
}

fn add_flag_file(
    alloc: Global,
    page: &mut Page,
    listed: &Listed,
    path: &str,
) -> Result<(), NoMemory> {
    let number = listed.number;
    let word = format!(in alloc; "@{path}")?;
    let word = word.as_str();
    let named = if listed.has("argv", word) {
        "argv"
    } else {
        "a flag file"
    };
    let line = if listed.has("inputs", path) {
        format!(in alloc;
            "actions[{number}]: {named} names it by {word:?}, and an action makes it: a flag file is a source"
        )?
    } else {
        format!(in alloc;
            "actions[{number}]: {named} names it by {word:?}, and the inputs haven't got {path:?}"
        )?
    };
    page.add(alloc, line.as_str())
}

// Returns the number of the action, if the fault is one of an action.
fn action_of(fault: &ListFault) -> Option<u32> {
    match fault {
        ListFault::TooMany { .. } | ListFault::NotJson => None,
        ListFault::WrongKind { action, .. } | ListFault::MissingKey { action, .. } => *action,
        ListFault::BadName { action }
        | ListFault::BadPath { action, .. }
        | ListFault::BadRequirement { action }
        | ListFault::NoStrategy { action }
        | ListFault::NoFlagFile { action }
        | ListFault::TwiceNamed { action }
        | ListFault::TwiceMade { action, .. }
        | ListFault::MadeLater { action, .. } => Some(*action),
    }
}
