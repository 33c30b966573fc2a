// The options that the words of a command give, with strategies.
ghost use Rattle.std.specs.Prelude.{◌≡◌, IfOk, IfSome, codes, map, string_bytes, unwrap_or};
ghost use Rattle.tool_words.specs.Options.{first_of};
ghost use Rattle.spawn_strategies.specs.SpawnOptions.{AreGiven, AreSpawnLimits, fits_together, given_options, if_fitting, spawn_given, spawn_options_of};

use crate::said::{Said, other_words};
use crate::types::{SpawnOptions, Strategies};
use plain_values::{Items, NoMemory, Text};
use run_plan::MOST_REMOTE_BERTHS;
use std::alloc::Global;
use tool_words::{Options, read_words};

/// Returns the options of a list with strategies. `words` are the words after the program's name. Returns `None` exactly
/// if the words aren't accepted.
///
/// They are the words of `read_given_words`. They name a list, which isn't generated, and the numbers of `--remote` and
/// `--sandboxed` add up to 16 at most.
///
/// # Errors
///
/// Returns `NoMemory` if memory runs out.
pub fn read_spawn_words(alloc: Global, words: &[String]) -> Result<Option<SpawnOptions>, NoMemory>
    ensures words { IfOk result (λ o. o ≡ spawn_options_of (map string_bytes words.now)) }
    ensures limits { IfOk result (λ o. IfSome o AreSpawnLimits) }
{
    Ok(read_given_words(alloc, words)?.and_then(if_fitting))
}

/// Returns the options that these words give, the words after the program's name. Returns `None` exactly if the words
/// can't be read.
///
/// A word is one of the following.
///
/// - `--strategy=M=LIST`, at most once for each mnemonic M
/// - `--spawn_strategy=LIST`, at most once
/// - `--sandboxed=N` with N from 1 to 16, at most once
/// - `--sandbox_executor=TEXT`, at most once
/// - `--local_delay=N` with N from 0 to 9999, at most once
/// - a word of `tool_words::read_words`
///
/// M isn't empty and has no `=`. LIST is one to four different names of `worker`, `sandboxed`, `remote` and `dynamic`,
/// joined by commas.
///
/// # Errors
///
/// Returns `NoMemory` if memory runs out.
pub fn read_given_words(alloc: Global, words: &[String]) -> Result<Option<SpawnOptions>, NoMemory>
    ensures words { IfOk result (λ o. o ≡ given_options (map string_bytes words.now)) }
    ensures limits { IfOk result (λ o. IfSome o AreGiven) }
{
    let said = Said::of(alloc, words)?;
    if !said.is_single() {
        return Ok(None);
    }
    let others = other_words(alloc, words)?;
    match read_words(alloc, others.as_slice())? {
        None => Ok(None),
        Some(options) => Ok(Some(spawn_given(alloc, options, said)?)),
    }
}

fn if_fitting(spawn: SpawnOptions) -> Option<SpawnOptions>
    ensures { result ≡ if_fitting spawn }
{
    if fits_together(&spawn) {
        Some(spawn)
    } else {
        None
    }
}

// Returns true if a list is given and not generated, and executors and sandboxes together are few enough.
fn fits_together(spawn: &SpawnOptions) -> bool
    ensures { result ≡ fits_together spawn.now }
{
    let executors = spawn.options.remote as u64 + spawn.strategies.sandboxed as u64;
    spawn.options.generate.is_none() && executors <= MOST_REMOTE_BERTHS as u64
}

fn spawn_given(alloc: Global, options: Options, said: Said) -> Result<SpawnOptions, NoMemory>
    ensures { IfOk result (λ spawn. spawn ≡ spawn_given options said) }
{
    let Said {
        rules,
        commons,
        executors,
        sandboxes,
        delays,
    } = said;
    Ok(SpawnOptions {
        options,
        strategies: Strategies {
            rules,
            common: first_of(commons).unwrap_or(Items::of(Vec::new(alloc))),
            sandboxed: first_of(sandboxes).unwrap_or(1),
        },
        sandbox_executor: executor(alloc, first_of(executors))?,
        local_delay: first_of(delays).unwrap_or(0),
    })
}

fn executor(alloc: Global, given: Option<Text>) -> Result<Text, NoMemory>
    ensures { IfOk result (λ text. text ≡ unwrap_or given (codes "remote_exec")) }
{
    match given {
        Some(text) => Ok(text),
        None => Text::copy_of(alloc, "remote_exec"),
    }
}

fn first_of<T: Drop>(values: Items<T>) -> Option<T>
    ensures { result ≡ first_of values }
{
    let mut values = values.into_vec();
    if values.is_empty() {
        None
    } else {
        Some(values.remove(0))
    }
}
