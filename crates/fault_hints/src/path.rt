// The action that needs the file at a path, and what is at that path.
ghost use Rattle.std.specs.Prelude.{IfOk, string_bytes};
ghost use Rattle.fault_hints.specs.Lines.{AreBehind};

use crate::action::Listed;
use crate::list::value_of;
use crate::page::Page;
use plain_values::NoMemory;
use serde_json::Value;
use std::alloc::Global;

/// Returns the lines that follow a fault of the file at a path named by the list of these bytes. They give the first
/// action that names the path, and the key. There are no lines if no action names it.
///
/// # Errors
///
/// Returns `NoMemory` if memory runs out.
pub fn path_lines(alloc: Global, bytes: &[u8], path: &str) -> Result<String, NoMemory>
    ensures { IfOk result (λ lines. AreBehind (string_bytes lines)) }
{
    let mut page = Page::new(alloc);
    if let Some(top) = value_of(alloc, bytes)
        && let Some((listed, key)) = wanted_by(&top, path)
    {
        let number = listed.number;
        let name = listed.text("name").unwrap_or("");
        let line = format!(in alloc;
            "actions[{number}].{key} has it; the action's name is {name:?}"
        )?;
        page.add(alloc, line.as_str())?;
        listed.add_unknown(alloc, &mut page)?;
    }
    Ok(page.text())
}

/// What is at a path that should be a file.
#[derive(Clone, Copy)]
pub enum AtPath<'a> {
    /// A folder.
    Folder,
    /// Neither a folder nor a regular file.
    Other,
    /// Nothing, below this folder.
    NothingIn(&'a str),
}

/// Returns the line about what was found.
///
/// # Errors
///
/// Returns `NoMemory` if memory runs out.
pub fn at_path_line(alloc: Global, found: AtPath<'_>) -> Result<String, NoMemory>
    ensures { IfOk result (λ lines. AreBehind (string_bytes lines)) }
{
    let mut page = Page::new(alloc);
    match found {
        AtPath::Folder => page.add(alloc, "a folder stands there, and a file is wanted")?,
        AtPath::Other => page.add(alloc, "no regular file stands there, and one is wanted")?,
        AtPath::NothingIn(folder) => {
            let line = format!(in alloc; "it was looked for in {folder:?}")?;
            page.add(alloc, line.as_str())?;
        }
    }
    Ok(page.text())
}

// Returns the first action that names the path among its tools or inputs, and the key.
fn wanted_by<'a>(top: &'a Value, path: &str) -> Option<(Listed<'a>, &'static str)> {
    let actions = top.get("actions")?.as_array()?;
    for (number, value) in (0..u32::MAX).zip(actions.iter()) {
        let listed = Listed { value, number };
        if listed.has("tools", path) {
            return Some((listed, "tools"));
        }
        if listed.has("inputs", path) {
            return Some((listed, "inputs"));
        }
    }
    None
}
