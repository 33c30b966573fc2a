// The arguments of a request that has its own folder.
ghost use Rattle.std.specs.Prelude.{◌≡◌, ◌++◌, List, IfOk};
ghost use Rattle.outside.specs.declared.shop.ShopCall.{ShopCall};
ghost use Rattle.message_service.specs.Calls.{Made};
ghost use Rattle.demo_worker.specs.Does.{Comes};
ghost use Rattle.demo_worker.specs.Folders.{path_in, word_in, words_in};

use crate::running::{Answer, run_words};
use crate::words::{input_in, output_in};
use outside::Shop;
use plain_values::{NoMemory, Text};
use std::alloc::Global;

/// Runs a command whose paths are relative to this folder. If it is empty, the paths are used as they are.
///
/// # Errors
///
/// Returns `NoMemory` if memory runs out, perhaps after some of the calls.
pub fn run_in<S: Shop>(
    alloc: Global,
    shop: &mut S,
    folder: &str,
    words: &[Text],
) -> Result<Answer, NoMemory>
    ensures { (calls : List ShopCall) × Comes (words_in folder.now words.now) result calls
        × Made calls (S.told shop.old) (S.told shop.new) }
{
    let placed = words_in(alloc, folder, words)?;
    run_words(alloc, shop, &placed)
}

fn words_in(alloc: Global, folder: &str, words: &[Text]) -> Result<Vec<Text>, NoMemory>
    ensures { IfOk result (λ v. v.items ≡ words_in folder.now words.now) }
{
    let mut placed = Vec::new(alloc);
    for word in words {
        placed.push(word_in(alloc, folder, word.as_str())?)?;
    }
    Ok(placed)
}

fn word_in(alloc: Global, folder: &str, word: &str) -> Result<Text, NoMemory>
    ensures { IfOk result (λ t. t ≡ word_in folder.now word.now) }
{
    if let Some(path) = input_in(word) {
        return behind(alloc, "--in=", path_in(alloc, folder, path)?);
    }
    if let Some(path) = output_in(word) {
        return behind(alloc, "--out=", path_in(alloc, folder, path)?);
    }
    Ok(Text::copy_of(alloc, word)?)
}

fn behind(alloc: Global, front: &str, path: Text) -> Result<Text, NoMemory>
    ensures { IfOk result (λ t. t ≡ front.now ++ path) }
{
    Ok(Text::of(format!(in alloc; "{front}{}", path.as_str())?))
}

fn path_in(alloc: Global, folder: &str, path: &str) -> Result<Text, NoMemory>
    ensures { IfOk result (λ t. t ≡ path_in folder.now path.now) }
{
    if folder.is_empty() {
        return Ok(Text::copy_of(alloc, path)?);
    }
    Ok(Text::of(format!(in alloc; "{folder}/{path}")?))
}
