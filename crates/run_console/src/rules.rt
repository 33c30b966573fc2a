// The rules for the words of a command together.
use crate::hints::Program;
use plain_values::NoMemory;
use std::alloc::Global;

// The option that may stand several times.
const SEVERAL: &str = "--extra_flag";

// The word by which a program makes its list.
const GENERATES: &str = "--generate";

/// Returns the rule that these words break, if each is accepted by itself. It is the program's own rule if no list is
/// missing, and no list and no option stands twice.
///
/// # Errors
///
/// Returns `NoMemory` if memory runs out.
pub fn broken_rule(alloc: Global, program: &Program, words: &[String]) -> Result<String, NoMemory> {
    let lists = words.iter().filter(|word| is_list(word.as_str())).count();
    let one = if program.generates {
        "one list or one --generate"
    } else {
        "one list"
    };
    if lists == 0 {
        return Ok(format!(in alloc; "there is {one}, and none is named")?);
    }
    if lists > 1 {
        return Ok(format!(in alloc; "there is {one}, and {lists} are named")?);
    }
    match repeated(words) {
        Some(option) => Ok(format!(in alloc; "{option} stands once at most")?),
        None => Ok(String::from_str(alloc, program.together)?),
    }
}

// Returns true if a word is the path of a list, or has a list made.
fn is_list(word: &str) -> bool {
    !word.starts_with('-') || option_of(word) == GENERATES
}

// Returns the option that stands twice, and may stand once.
fn repeated(words: &[String]) -> Option<&str> {
    for (place, word) in words.iter().enumerate() {
        let option = option_of(word.as_str());
        let mut before = words.iter().take(place);
        if option != SEVERAL && before.any(|other| option_of(other.as_str()) == option) {
            return Some(option);
        }
    }
    None
}

// Returns a word as far as its `=`, or all of it.
fn option_of(word: &str) -> &str {
    match word.split_once('=') {
        Some((option, _)) => option,
        None => word,
    }
}
