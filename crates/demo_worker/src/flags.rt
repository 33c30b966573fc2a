// Commands whose arguments may be replaced by the lines of files.
ghost use Rattle.std.specs.Prelude.{◌≡◌, List, map, string_bytes, true, false, IfOk, MatchOption};
ghost use Rattle.std.specs.Str.{is_utf8};
ghost use Rattle.std.specs.Str.Lines.{lines};
ghost use Rattle.outside.specs.declared.shop.ShopCall.{ShopCall};
ghost use Rattle.message_service.specs.Calls.{Made};
ghost use Rattle.demo_worker.specs.Once.{ComesOnce};
ghost use Rattle.demo_worker.specs.Steps.{ExpandsTo, LooksIn};

use crate::looking::look;
use crate::running::{Answer, run_words};
use crate::stop::{Stop, missing};
use crate::words::flag_file_in;
use outside::Shop;
use plain_values::{NoMemory, Text};
use std::alloc::Global;

/// Runs a command once. First each argument of `@` and a name is replaced by the lines of that file, in
/// order. Those lines aren't expanded again. A file that isn't UTF-8 counts as missing.
///
/// # Errors
///
/// Returns `NoMemory` if memory runs out, perhaps after some of the calls.
pub fn run_once<S: Shop>(alloc: Global, shop: &mut S, words: &[String]) -> Result<Answer, NoMemory>
    ensures { (calls : List ShopCall) × ComesOnce (map string_bytes words.now) result calls
        × Made calls (S.told shop.old) (S.told shop.new) }
{
    match expand(alloc, shop, words) {
        Ok(expanded) => run_words(alloc, shop, &expanded),
        Err(Stop::Says(text)) => Ok(Answer::stopped(text)),
        Err(Stop::NoMemory) => Err(NoMemory),
    }
}

fn expand<S: Shop>(alloc: Global, shop: &mut S, words: &[String]) -> Result<Vec<Text>, Stop>
    ensures { (looks : List ShopCall) × ExpandsTo (map string_bytes words.now) result looks
        × Made looks (S.told shop.old) (S.told shop.new) }
{
    let mut expanded = Vec::new(alloc);
    for word in words {
        match flag_file_in(word.as_str()) {
            Some(path) => {
                let mut lines = lines_in(alloc, shop, path)?;
                expanded.append(&mut lines)?;
            }
            None => expanded.push(Text::copy_of(alloc, word.as_str())?)?,
        }
    }
    Ok(expanded)
}

// Returns the lines of a file.
fn lines_in<S: Shop>(alloc: Global, shop: &mut S, path: &str) -> Result<Vec<Text>, Stop>
    ensures { (looks : List ShopCall) × LooksIn path.now result looks
        × Made looks (S.told shop.old) (S.told shop.new) }
{
    let content = look(alloc, shop, path)?;
    match as_text(content.bytes()) {
        Some(text) => Ok(lines_of(alloc, text)?),
        None => Err(Stop::Says(missing(alloc, path)?)),
    }
}

fn lines_of(alloc: Global, text: &str) -> Result<Vec<Text>, NoMemory>
    ensures { IfOk result (λ v. v.items ≡ lines text.now) }
{
    let mut copies = Vec::new(alloc);
    for line in text.lines() {
        copies.push(Text::copy_of(alloc, line)?)?;
    }
    Ok(copies)
}

fn as_text(bytes: &[u8]) -> Option<&str>
    ensures { MatchOption result
        (is_utf8 bytes.now ≡ false)
        (λ t. (is_utf8 bytes.now ≡ true) × (t.now ≡ bytes.now)) }
{
    match std::str::from_utf8(bytes) {
        Ok(text) => Some(text),
        Err(_) => None,
    }
}
