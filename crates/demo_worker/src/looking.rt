// Reads files of the shop.
ghost use Rattle.std.specs.Prelude.{◌≡◌, List};
ghost use Rattle.outside.specs.declared.shop.ShopCall.{ShopCall};
ghost use Rattle.message_service.specs.Calls.{Made};
ghost use Rattle.demo_worker.specs.Words.{inputs_of};
ghost use Rattle.demo_worker.specs.Steps.{Gathers, Looks};

use crate::stop::{Stop, cannot_read, missing};
use crate::words::input_in;
use outside::{Read, Shop};
use plain_values::{Blob, Text};
use std::alloc::Global;

/// Returns the contents of all inputs that the arguments name, one after the other.
///
/// # Errors
///
/// Fails at the first input that can't be read, and looks at no input after it.
pub fn gather<S: Shop>(alloc: Global, shop: &mut S, words: &[Text]) -> Result<Vec<u8>, Stop>
    ensures { (looks : List ShopCall) × Gathers (inputs_of words.now) result looks
        × Made looks (S.told shop.old) (S.told shop.new) }
{
    let mut contents = Vec::new(alloc);
    for word in words {
        if let Some(path) = input_in(word.as_str()) {
            let content = look(alloc, shop, path)?;
            contents.extend_from_slice(content.bytes())?;
        }
    }
    Ok(contents)
}

/// Returns the bytes of a file.
///
/// # Errors
///
/// Returns a message if the file is missing or can't be read.
pub fn look<S: Shop>(alloc: Global, shop: &mut S, path: &str) -> Result<Blob, Stop>
    ensures { (looks : List ShopCall) × Looks path.now result looks
        × Made looks (S.told shop.old) (S.told shop.new) }
{
    match shop.get(path)? {
        Read::Found(content) => Ok(content),
        Read::Absent => Err(Stop::Says(missing(alloc, path)?)),
        Read::Failed => Err(Stop::Says(cannot_read(alloc, path)?)),
    }
}
