// The words of the command that aren't accepted.
ghost use Rattle.std.specs.Prelude.{IfOk, string_bytes};
ghost use Rattle.fault_hints.specs.Lines.{AreBehind};

use crate::page::Page;
use plain_values::NoMemory;
use std::alloc::Global;
use tool_words::read_words;

/// Returns the lines that follow words that aren't accepted: one for each word that isn't accepted by itself. If each
/// word is, the line is the rule for all of them together.
///
/// # Errors
///
/// Returns `NoMemory` if memory runs out.
pub fn word_lines(alloc: Global, words: &[String], together: &str) -> Result<String, NoMemory>
    ensures { IfOk result (λ lines. AreBehind (string_bytes lines)) }
{
    let mut page = Page::new(alloc);
    let mut is_told = false;
    for word in words {
        let word = word.as_str();
        if !is_accepted(alloc, word)? {
            let line = format!(in alloc; "this word isn't accepted: {word:?}")?;
            page.add(alloc, line.as_str())?;
            is_told = true;
        }
    }
    if !is_told {
        page.add(alloc, together)?;
    }
    Ok(page.text())
}

// Returns true if a command may have this word, alone or together with a list.
fn is_accepted(alloc: Global, word: &str) -> Result<bool, NoMemory> {
    let mut words = Vec::new(alloc);
    words.push(String::from_str(alloc, word)?)?;
    if read_words(alloc, words.as_slice())?.is_some() {
        return Ok(true);
    }
    words.push(String::from_str(alloc, "list.json")?)?;
    Ok(read_words(alloc, words.as_slice())?.is_some())
}
