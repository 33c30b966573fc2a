// Reads the outputs that a job has left.
ghost use Rattle.std.specs.Prelude.{◌≡◌, ◌∷◌, [], List, IfOk, OnErr};
ghost use Rattle.outside.specs.declared.shop.ShopCall.{ShopCall};
ghost use Rattle.outside.specs.declared.shop.ShopCall.TheVariants as call;
ghost use Rattle.message_service.specs.Calls.{Made};
ghost use Rattle.job_runner.specs.Jobs.{in_folder};
ghost use Rattle.job_runner.specs.Results.{Collects};

use crate::paths::in_folder;
use outside::{Read, Shop};
use plain_values::{Items, NoMemory, Text};
use remote_messages::NamedFile;
use std::alloc::Global;

/// Looks at the outputs of a job in its folder, one after another, and returns those that exist. Returns
/// `None` if a look failed, and looks at no more outputs then.
///
/// # Errors
///
/// Returns `NoMemory` if memory runs out. All looks before succeeded.
pub fn collect<S: Shop>(
    alloc: Global,
    shop: &mut S,
    folder: &str,
    outputs: &[Text],
) -> Result<Option<Items<NamedFile>>, NoMemory>
    ensures { (looks : List ShopCall) × Collects folder.now outputs.now result looks
        × Made looks (S.told shop.old) (S.told shop.new) }
{
    let mut files = Vec::new(alloc);
    for output in outputs {
        let path = Text::copy_of(alloc, output.as_str())?;
        files.reserve(1)?;
        match get_one(alloc, shop, folder, output.as_str())? {
            Read::Found(content) => files.push_reserved(NamedFile { path, content }),
            Read::Absent => {}
            Read::Failed => return Ok(None),
        }
    }
    Ok(Some(Items::of(files)))
}

fn get_one<S: Shop>(
    alloc: Global,
    shop: &mut S,
    folder: &str,
    output: &str,
) -> Result<Read, NoMemory>
    ensures made { IfOk result (λ answer.
        Made (call.Get (in_folder folder.now output.now) answer ∷ []) (S.told shop.old)
        (S.told shop.new)) }
    ensures none { OnErr result (Made [] (S.told shop.old) (S.told shop.new)) }
{
    let path = in_folder(alloc, folder, output)?;
    shop.get(path.as_str())
}
