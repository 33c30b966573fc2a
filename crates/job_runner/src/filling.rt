// Fills a job's folder: puts its inputs there and makes the folders of its outputs.
ghost use Rattle.std.specs.Prelude.{◌≡◌, ◌∷◌, [], map};
ghost use Rattle.job_runner.specs.Calls.{Does};
ghost use Rattle.job_runner.specs.Jobs.{fill_asks, fill_way, put_ask, folder_asks};

use crate::paths::in_folder;
use outside::{Io, Shop};
use plain_values::{NoMemory, Text};
use remote_messages::{Job, NamedFile};
use sandbox_rooms::folder_of;
use std::alloc::Global;

/// Puts the inputs of a job into its folder and makes the folders of its outputs, in order. It stops at the
/// first call that fails. Contents are put as they are, without a copy.
///
/// # Errors
///
/// Returns `NoMemory` if memory runs out. All calls before succeeded.
pub fn fill<S: Shop>(alloc: Global, shop: &mut S, folder: &str, job: &Job) -> Result<Io, NoMemory>
    ensures { Does (fill_way result) (fill_asks folder.now job.now) (S.told shop.old)
        (S.told shop.new) }
{
    match put_all(alloc, shop, folder, job.inputs.as_slice())? {
        Io::Done => make_folders(alloc, shop, folder, job.outputs.as_slice()),
        Io::Failed => Ok(Io::Failed),
    }
}

fn put_all<S: Shop>(
    alloc: Global,
    shop: &mut S,
    folder: &str,
    inputs: &[NamedFile],
) -> Result<Io, NoMemory>
    ensures { Does (fill_way result) (map (put_ask folder.now) inputs.now) (S.told shop.old)
        (S.told shop.new) }
{
    for input in inputs {
        match put_one(alloc, shop, folder, input)? {
            Io::Done => {}
            Io::Failed => return Ok(Io::Failed),
        }
    }
    Ok(Io::Done)
}

fn put_one<S: Shop>(
    alloc: Global,
    shop: &mut S,
    folder: &str,
    input: &NamedFile,
) -> Result<Io, NoMemory>
    ensures { Does (fill_way result) (put_ask folder.now input.now ∷ []) (S.told shop.old)
        (S.told shop.new) }
{
    let path = in_folder(alloc, folder, input.path.as_str())?;
    Ok(shop.put(path.as_str(), input.content.bytes()))
}

fn make_folders<S: Shop>(
    alloc: Global,
    shop: &mut S,
    folder: &str,
    outputs: &[Text],
) -> Result<Io, NoMemory>
    ensures { Does (fill_way result) (folder_asks folder.now outputs.now) (S.told shop.old)
        (S.told shop.new) }
{
    for output in outputs {
        match make_folder(alloc, shop, folder, output.as_str())? {
            Io::Done => {}
            Io::Failed => return Ok(Io::Failed),
        }
    }
    Ok(Io::Done)
}

// Makes the folder of a path, if it has one.
fn make_folder<S: Shop>(
    alloc: Global,
    shop: &mut S,
    folder: &str,
    output: &str,
) -> Result<Io, NoMemory>
    ensures { Does (fill_way result) (folder_asks folder.now (output.now ∷ [])) (S.told shop.old)
        (S.told shop.new) }
{
    match folder_of(output) {
        Some(part) => {
            let path = in_folder(alloc, folder, part)?;
            Ok(shop.folder(path.as_str()))
        }
        None => Ok(Io::Done),
    }
}
