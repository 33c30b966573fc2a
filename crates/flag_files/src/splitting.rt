ghost use Rattle.std.specs.Prelude.{◌<◌, ◌≡◌, ◌∷◌, ◌++◌, length, filter, not, IfOk, OnOk};
ghost use Rattle.flag_files.specs.Split.{Splits, begins_longer, is_flag_file_word, persistent_worker, request_words};
ghost use Rattle.flag_files.specs.declared.splitting.SplitFault.TheVariants.{NoMemory as no_memory};

use crate::texts::begins_with;
use plain_values::{Items, NoMemory, Text};
use std::alloc::{AllocFailed, Global};

/// An action's argument words in two parts.
#[derive(Drop)]
pub struct Split {
    /// The words that a worker is started with: the program, the words that name no flag file in
    /// order, `--persistent_worker`, and the extra flags in order.
    pub startup: Items<Text>,
    /// The words that name a flag file, in order. They go into each request.
    pub request: Items<Text>,
}

#[derive(Clone, Copy, Debug, PartialEq, Eq)]
pub enum SplitFault {
    NoFlagFile,
    NoMemory,
}

/// Splits an action's argument words, of which the first is the program.
///
/// A word names a flag file if it is `@`, `-flagfile=` or `--flagfile=` with at least one more byte.
///
/// # Errors
///
/// Returns `NoFlagFile` exactly if no word after the program names a flag file.
pub fn split_args(alloc: Global, argv: &[Text], extra: &[Text]) -> Result<Split, SplitFault>
    requires { 0 < length argv.now }
    ensures { Splits argv.now extra.now result }
{
    let mut startup = Vec::new(alloc);
    let mut request = Vec::new(alloc);
    startup.push(Text::copy_of(alloc, argv[0].as_str())?)?;
    sort_words(alloc, &argv[1..], &mut startup, &mut request)?;
    if request.is_empty() {
        return Err(SplitFault::NoFlagFile);
    }
    push_flags(alloc, extra, &mut startup)?;
    Ok(Split {
        startup: Items::of(startup),
        request: Items::of(request),
    })
}

/// Returns the words of an action's requests: the words after the program that name a flag file, in order.
///
/// # Errors
///
/// Returns `NoMemory` if memory runs out.
pub fn request_words(alloc: Global, argv: &[Text]) -> Result<Items<Text>, NoMemory>
    ensures { IfOk result (λ words. words ≡ request_words argv.now) }
{
    match argv {
        [] => Ok(Items::of(Vec::new(alloc))),
        [_, words @ ..] => flag_file_words(alloc, words),
    }
}

fn flag_file_words(alloc: Global, words: &[Text]) -> Result<Items<Text>, NoMemory>
    ensures { IfOk result (λ l. l ≡ filter is_flag_file_word words.now) }
{
    let mut named = Vec::new(alloc);
    for word in words {
        if is_flag_file_word(word.as_str()) {
            named.push(Text::copy_of(alloc, word.as_str())?)?;
        }
    }
    Ok(Items::of(named))
}

fn sort_words(
    alloc: Global,
    words: &[Text],
    startup: &mut Vec<Text>,
    request: &mut Vec<Text>,
) -> Result<(), NoMemory>
    ensures startup { OnOk result (startup.new.items
        ≡ startup.old.items ++ filter (λ w. not (is_flag_file_word w)) words.now) }
    ensures request { OnOk result
        (request.new.items ≡ request.old.items ++ filter is_flag_file_word words.now) }
{
    for word in words {
        let copy = Text::copy_of(alloc, word.as_str())?;
        if is_flag_file_word(word.as_str()) {
            request.push(copy)?;
        } else {
            startup.push(copy)?;
        }
    }
    Ok(())
}

fn push_flags(alloc: Global, extra: &[Text], startup: &mut Vec<Text>) -> Result<(), NoMemory>
    ensures { OnOk result (startup.new.items ≡ startup.old.items ++ persistent_worker ∷ extra.now) }
{
    startup.push(persistent_worker(alloc)?)?;
    for flag in extra {
        startup.push(Text::copy_of(alloc, flag.as_str())?)?;
    }
    Ok(())
}

#[tactic(auto, unfolding(crate::specs::Split::persistent_worker))]
fn persistent_worker(alloc: Global) -> Result<Text, NoMemory>
    ensures { IfOk result (λ t. t ≡ persistent_worker) }
{
    Text::copy_of(alloc, "--persistent_worker")
}

fn is_flag_file_word(word: &str) -> bool
    ensures { result ≡ is_flag_file_word word.now }
{
    begins_longer(word, "@")
        || begins_longer(word, "-flagfile=")
        || begins_longer(word, "--flagfile=")
}

fn begins_longer(word: &str, front: &str) -> bool
    ensures { result ≡ begins_longer word.now front.now }
{
    begins_with(word, front) && front.len() < word.len()
}

impl From<NoMemory> for SplitFault {
    ghost from_gives = { λ _ e. e ≡ no_memory };

    fn from(_: NoMemory) -> Self {
        SplitFault::NoMemory
    }
}

impl<T: Drop> From<AllocFailed<T>> for SplitFault {
    ghost from_gives = { λ _ e. e ≡ no_memory };

    fn from(_: AllocFailed<T>) -> Self {
        SplitFault::NoMemory
    }
}
