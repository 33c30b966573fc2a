// Runs a command from its first call to its answer.
ghost use Rattle.std.specs.Prelude.{◌≡◌, List};
ghost use Rattle.outside.specs.declared.shop.ShopCall.{ShopCall};
ghost use Rattle.message_service.specs.Calls.{Made};
ghost use Rattle.demo_worker.specs.Does.{Comes};
ghost use Rattle.demo_worker.specs.Steps.{CopiesSo, Puts};

use crate::looking::gather;
use crate::stop::{Stop, cannot_write};
use crate::words::{exit_code, output_of};
use outside::{Io, Shop};
use plain_values::{NoMemory, Text};
use std::alloc::Global;

/// The exit code of a command that has stopped.
const STOPPED: u8 = 1;

/// The answer to a command.
#[derive(Drop)]
pub struct Answer {
    pub exit_code: u8,
    /// The reason why it has stopped; empty if it hasn't.
    pub text: Text,
}

impl Answer {
    /// Returns the answer to a command that has stopped for this reason.
    pub fn stopped(text: Text) -> Answer
        ensures { result ≡ record { exit_code = 1; text = text } }
    {
        Answer {
            exit_code: STOPPED,
            text,
        }
    }
}

/// Runs a command: reads the inputs in order, and writes their contents to the output, if there is one. If
/// an input is missing or a call fails, the command stops at once, with exit code 1 and a message.
///
/// # Errors
///
/// Returns `NoMemory` if memory runs out, perhaps after some of the calls.
pub fn run_words<S: Shop>(alloc: Global, shop: &mut S, words: &[Text]) -> Result<Answer, NoMemory>
    ensures { (calls : List ShopCall) × Comes words.now result calls
        × Made calls (S.told shop.old) (S.told shop.new) }
{
    match copy(alloc, shop, words) {
        Ok(()) => Ok(Answer {
            exit_code: exit_code(words),
            text: Text::of(String::new(alloc)),
        }),
        Err(Stop::Says(text)) => Ok(Answer::stopped(text)),
        Err(Stop::NoMemory) => Err(NoMemory),
    }
}

fn copy<S: Shop>(alloc: Global, shop: &mut S, words: &[Text]) -> Result<(), Stop>
    ensures { (calls : List ShopCall) × CopiesSo words.now result calls
        × Made calls (S.told shop.old) (S.told shop.new) }
{
    let contents = gather(alloc, shop, words)?;
    match output_of(words) {
        Some(path) => put(alloc, shop, path, &contents),
        None => Ok(()),
    }
}

fn put<S: Shop>(alloc: Global, shop: &mut S, path: &str, bytes: &[u8]) -> Result<(), Stop>
    ensures { (calls : List ShopCall) × Puts path.now bytes.now result calls
        × Made calls (S.told shop.old) (S.told shop.new) }
{
    match shop.put(path, bytes) {
        Io::Done => Ok(()),
        Io::Failed => Err(Stop::Says(cannot_write(alloc, path)?)),
    }
}
