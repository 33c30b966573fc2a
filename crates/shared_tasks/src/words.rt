// The arguments of the command with shared berths.
ghost use Rattle.std.specs.Prelude.{◌≡◌, IfOk, IfSome, map, string_bytes, filter_map};
ghost use Rattle.shared_tasks.specs.Words.{AreShared, IsWithin, only, others, shared_options_of, workers_in};

use plain_values::NoMemory;
use std::alloc::Global;
use tool_words::{Options, number_behind, read_words};

/// The options of the command with shared berths.
#[derive(Drop)]
pub struct SharedOptions {
    /// The options of `worker_tool` among the arguments. They name a list.
    pub options: Options,
    /// The maximum number of local workers of each protocol, 1 to 24.
    pub workers: u32,
}

/// Returns the options that these arguments give, or `None` exactly if the arguments aren't accepted.
/// `words` are the arguments after the program's name.
///
/// Exactly one argument is `--max_workers=N`, with N from 1 to 24. The others are options of
/// `worker_tool`, without `--generate`.
///
/// # Errors
///
/// Returns `NoMemory` if memory runs out.
pub fn read_shared_words(alloc: Global, words: &[String]) -> Result<Option<SharedOptions>, NoMemory>
    ensures words { IfOk result (λ o. o ≡ shared_options_of (map string_bytes words.now)) }
    ensures limits { IfOk result (λ o. IfSome o AreShared) }
{
    let Some(workers) = only_number(words) else {
        return Ok(None);
    };
    let others = other_words(alloc, words)?;
    match read_words(alloc, others.as_slice())? {
        Some(options) if options.list.is_some() => Ok(Some(SharedOptions { options, workers })),
        _ => Ok(None),
    }
}

// Returns the number that an argument gives, if exactly one argument gives a number.
fn only_number(words: &[String]) -> Option<u32>
    ensures only { result ≡ only (filter_map workers_in (map string_bytes words.now)) }
    ensures few { IfSome result (IsWithin 1 24) }
{
    let mut found = None;
    for word in words {
        if let Some(workers) = workers_in(word.as_str()) {
            if found.is_some() {
                return None;
            }
            found = Some(workers);
        }
    }
    found
}

/// Returns the arguments of the command that are options of `worker_tool`.
///
/// # Errors
///
/// Returns `NoMemory` if memory runs out.
pub fn other_words(alloc: Global, words: &[String]) -> Result<Vec<String>, NoMemory>
    ensures { IfOk result
        (λ v. map string_bytes v.items ≡ others (map string_bytes words.now)) }
{
    let mut others = Vec::new(alloc);
    for word in words {
        if workers_in(word.as_str()).is_none() {
            others.push(String::from_str(alloc, word.as_str())?)?;
        }
    }
    Ok(others)
}

fn workers_in(word: &str) -> Option<u32>
    ensures is { result ≡ workers_in word.now }
    ensures few { IfSome result (IsWithin 1 24) }
{
    number_behind("--max_workers=", 1, 24, word)
}
