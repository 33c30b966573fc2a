// The arguments of the command that has all options.
ghost use Rattle.std.specs.Prelude.{◌≡◌, IfOk, IfSome, filter_map, map, string_bytes};
ghost use Rattle.tool_words.specs.Options.{first_of};
ghost use Rattle.shared_tasks.specs.Words.{workers_in};
ghost use Rattle.placed_tasks.specs.Words.{AreRunOptions, fits, if_fitting, is_own, other_words, run_options_of};

use plain_values::{Items, NoMemory};
use run_plan::MOST_REMOTE_BERTHS;
use spawn_strategies::{SpawnOptions, read_given_words};
use std::alloc::Global;
use tool_words::number_behind;

/// The options of a run, all of which may stand together.
#[derive(Drop)]
pub struct RunOptions {
    /// The options of a run on berths of its own, with the strategies and the delay.
    pub given: SpawnOptions,
    /// The maximum number of local workers of each protocol, 1 to 24, if worker keys share berths.
    pub workers: Option<u32>,
}

/// Returns the options that these words give, the words after the program's name. Returns `None` exactly if the
/// words aren't accepted.
///
/// `--max_workers=N`, with N from 1 to 24, stands at most once. The others are words of `spawn_strategies::read_given_words`. If a list of strategies names `sandboxed`, the numbers of
/// `--remote` and `--sandboxed` add up to 16 at most. The order of the words doesn't matter, but for rules and extra
/// flags.
///
/// # Errors
///
/// Returns `NoMemory` if memory runs out.
pub fn read_run_words(alloc: Global, words: &[String]) -> Result<Option<RunOptions>, NoMemory>
    ensures words { IfOk result (λ o. o ≡ run_options_of (map string_bytes words.now)) }
    ensures limits { IfOk result (λ o. IfSome o AreRunOptions) }
{
    let workers = workers(alloc, words)?;
    if workers.as_slice().len() > 1 {
        return Ok(None);
    }
    let others = other_words(alloc, words)?;
    match read_given_words(alloc, others.as_slice())? {
        Some(given) => Ok(if_fitting(given, workers)),
        None => Ok(None),
    }
}

// Returns the options with these, if executors and sandboxes together are few enough.
fn if_fitting(given: SpawnOptions, workers: Items<u32>) -> Option<RunOptions>
    ensures { result ≡ if_fitting workers given }
{
    if !fits(&given) {
        return None;
    }
    Some(RunOptions {
        given,
        workers: first_of(workers),
    })
}

fn fits(given: &SpawnOptions) -> bool
    ensures { result ≡ fits given.now }
{
    let executors = given.strategies.sandboxes() as u64 + given.options.remote as u64;
    executors <= MOST_REMOTE_BERTHS as u64
}

fn workers(alloc: Global, words: &[String]) -> Result<Items<u32>, NoMemory>
    ensures { IfOk result (λ l. l ≡ filter_map workers_in (map string_bytes words.now)) }
{
    let mut workers = Vec::new(alloc);
    for word in words {
        if let Some(number) = workers_in(word.as_str()) {
            workers.push(number)?;
        }
    }
    Ok(Items::of(workers))
}

// Returns the words that don't give a number of workers, in order.
fn other_words(alloc: Global, words: &[String]) -> Result<Vec<String>, NoMemory>
    ensures { IfOk result
        (λ v. map string_bytes v.items ≡ other_words (map string_bytes words.now)) }
{
    let mut others = Vec::new(alloc);
    for word in words {
        if !is_own(word.as_str()) {
            others.push(String::from_str(alloc, word.as_str())?)?;
        }
    }
    Ok(others)
}

fn is_own(word: &str) -> bool
    ensures { result ≡ is_own word.now }
{
    workers_in(word).is_some()
}

fn workers_in(word: &str) -> Option<u32>
    ensures { result ≡ workers_in word.now }
{
    number_behind("--max_workers=", 1, 24, word)
}

fn first_of<T: Drop>(values: Items<T>) -> Option<T>
    ensures { result ≡ first_of values }
{
    let mut values = values.into_vec();
    if values.is_empty() {
        None
    } else {
        Some(values.remove(0))
    }
}
