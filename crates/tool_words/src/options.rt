// The options that the words of the command give.
ghost use Rattle.std.specs.Prelude.{◌≡◌, ◌==◌, ◌+◌, nat_le, IfOk, IfSome, map, string_bytes, filter_map};
ghost use Rattle.std.specs.List.{list_all};
ghost use Rattle.std.specs.Option.{option_copied};
ghost use Rattle.tool_words.specs.Options.{options_of, AreInLimits, is_accepted, is_known, single_kinds, count, number_given, text_given, given, generated};
ghost use Rattle.tool_words.specs.Words.{text_in};

use crate::word::Kind;
use plain_values::{Items, NoMemory, Text};
use std::alloc::Global;

// Every kind of word that there is.
const KINDS: [Kind; 8] = [
    Kind::List,
    Kind::Verbose,
    Kind::Instances,
    Kind::Remote,
    Kind::Retries,
    Kind::Generate,
    Kind::Executor,
    Kind::ExtraFlag,
];

// The kinds that occur at most once.
const SINGLE_KINDS: [Kind; 7] = [
    Kind::List,
    Kind::Verbose,
    Kind::Instances,
    Kind::Remote,
    Kind::Retries,
    Kind::Generate,
    Kind::Executor,
];

/// The options of a command. It has exactly one of `list` and `generate`.
#[derive(Drop)]
pub struct Options {
    /// The path of the list.
    pub list: Option<Text>,
    /// The number of actions to generate instead of reading a list, 1 to 1000.
    pub generate: Option<u32>,
    /// True if requests ask the workers for more output.
    pub verbose: bool,
    /// The largest number of workers of one key, 1 to 48; default 4.
    pub instances: u32,
    /// The largest number of executors, 1 to 16; default 1.
    pub remote: u32,
    /// The number of further attempts of a branch, 0 to 9; default 1.
    pub retries: u32,
    /// The executor's program; default `remote_exec`.
    pub executor: Text,
    /// Further start-up words of each worker, in order.
    pub extra: Items<Text>,
}

/// Returns the options that these words give, the words after the program's name; `None` exactly if the
/// words aren't accepted.
///
/// Each word is the path of a list (not empty, not beginning with `-`), `--worker_verbose`,
/// `--instances=N`, `--remote=N`, `--retries=N`, `--generate=N`, `--executor=TEXT` or `--extra_flag=TEXT`.
/// N is one to four decimal digits within the option's limits, TEXT isn't empty. Every option occurs at
/// most once, except the extra flags, and there is either one list or one `--generate`. The order matters
/// only among the extra flags.
///
/// # Errors
///
/// Returns `NoMemory` if memory runs out.
pub fn read_words(alloc: Global, words: &[String]) -> Result<Option<Options>, NoMemory>
    ensures words { IfOk result (λ o. o ≡ options_of (map string_bytes words.now)) }
    ensures limits { IfOk result (λ o. IfSome o AreInLimits) }
{
    if !is_accepted(words) {
        return Ok(None);
    }
    Ok(Some(given(alloc, words)?))
}

/// Returns the number of actions to generate instead of reading a list; `None` exactly if the words aren't
/// accepted or have no `--generate`. It takes no memory.
pub fn generated(words: &[String]) -> Option<u32>
    ensures { result ≡ generated (map string_bytes words.now) }
{
    if is_accepted(words) {
        number_given(Kind::Generate, words)
    } else {
        None
    }
}

fn is_accepted(words: &[String]) -> bool
    ensures { result ≡ is_accepted (map string_bytes words.now) }
{
    is_all_known(words) && stand_once(words) && has_one_source(words)
}

fn is_all_known(words: &[String]) -> bool
    ensures { result ≡ list_all is_known (map string_bytes words.now) }
{
    for word in words {
        if !is_known(word.as_str()) {
            return false;
        }
    }
    true
}

// Returns true if each kind except the extra flags occurs at most once.
fn stand_once(words: &[String]) -> bool
    ensures { result ≡ list_all (λ k. nat_le (count k
        (map string_bytes words.now)) 1) single_kinds }
{
    SINGLE_KINDS.iter().all(|k| count(*k, words) <= 1)
}

// Returns true if there is either one list or one generator.
fn has_one_source(words: &[String]) -> bool
    ensures { result ≡ (count Kind.List (map string_bytes words.now) + count Kind.Generate
        (map string_bytes words.now) == 1) }
{
    count(Kind::List, words) + count(Kind::Generate, words) == 1
}

fn is_known(word: &str) -> bool
    ensures { result ≡ is_known word.now }
{
    KINDS.iter().any(|k| k.fits(word))
}

fn count(kind: Kind, words: &[String]) -> usize
    ensures { result ≡ count kind (map string_bytes words.now) }
{
    words.iter().filter(|w| kind.fits(w.as_str())).count()
}

fn given(alloc: Global, words: &[String]) -> Result<Options, NoMemory>
    ensures { IfOk result (λ o. o ≡ given (map string_bytes words.now)) }
{
    Ok(Options {
        list: list(alloc, words)?,
        generate: number_given(Kind::Generate, words),
        verbose: count(Kind::Verbose, words) == 1,
        instances: number_given(Kind::Instances, words).unwrap_or(4),
        remote: number_given(Kind::Remote, words).unwrap_or(1),
        retries: number_given(Kind::Retries, words).unwrap_or(1),
        executor: Text::copy_of(
            alloc,
            text_given(Kind::Executor, words).unwrap_or("remote_exec"),
        )?,
        extra: extra_flags(alloc, words)?,
    })
}

fn list(alloc: Global, words: &[String]) -> Result<Option<Text>, NoMemory>
    ensures { IfOk result (λ t. t ≡ text_given Kind.List (map string_bytes words.now)) }
{
    match text_given(Kind::List, words) {
        Some(path) => Ok(Some(Text::copy_of(alloc, path)?)),
        None => Ok(None),
    }
}

fn number_given(kind: Kind, words: &[String]) -> Option<u32>
    ensures { result ≡ number_given kind (map string_bytes words.now) }
{
    for word in words {
        if let Some(number) = kind.number_in(word.as_str()) {
            return Some(number);
        }
    }
    None
}

fn text_given(kind: Kind, words: &[String]) -> Option<&str>
    ensures { option_copied result ≡ text_given kind (map string_bytes words.now) }
{
    for word in words {
        if let Some(text) = kind.text_in(word.as_str()) {
            return Some(text);
        }
    }
    None
}

fn extra_flags(alloc: Global, words: &[String]) -> Result<Items<Text>, NoMemory>
    ensures { IfOk result (λ flags. flags ≡ filter_map (text_in Kind.ExtraFlag)
        (map string_bytes words.now)) }
{
    let mut flags = Vec::new(alloc);
    for word in words {
        if let Some(text) = Kind::ExtraFlag.text_in(word.as_str()) {
            flags.push(Text::copy_of(alloc, text)?)?;
        }
    }
    Ok(Items::of(flags))
}
