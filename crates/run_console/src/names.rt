// The names of a list's actions. The list is read once more for them, since looks contain only numbers.
use outside::{Floor, Read};
use plain_values::NoMemory;
use serde_json::Value;
use std::alloc::Global;
use tool_words::read_words;

/// Returns the names of all actions of the list that these words name, in its order, as far as the list can be read and
/// gives them. The words are those of `worker_tool`.
///
/// # Errors
///
/// Returns `NoMemory` if memory runs out.
pub(crate) fn action_names(
    alloc: Global,
    words: &[String],
    floor: &mut impl Floor,
) -> Result<Vec<String>, NoMemory> {
    let mut names = Vec::new(alloc);
    let Some(options) = read_words(alloc, words)? else {
        return Ok(names);
    };
    let Some(path) = options.list.as_ref().map(|path| path.as_str()) else {
        return Ok(names);
    };
    if let Read::Found(bytes) = floor.read(path)?
        && let Ok(text) = std::str::from_utf8(bytes.bytes())
        && let Ok(list) = Value::from_str(alloc, text)
    {
        push_names(alloc, &list, &mut names)?;
    }
    Ok(names)
}

// Appends the name of each action, or an empty one if it has none.
fn push_names(alloc: Global, list: &Value, names: &mut Vec<String>) -> Result<(), NoMemory> {
    let Some(actions) = list.get("actions").and_then(|actions| actions.as_array()) else {
        return Ok(());
    };
    for action in actions {
        let name = action.get("name").and_then(|name| name.as_str());
        names.push(String::from_str(alloc, name.unwrap_or(""))?)?;
    }
    Ok(())
}
