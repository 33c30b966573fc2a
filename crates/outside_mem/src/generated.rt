use outside::SourceFile;
use plain_values::{Blob, NoMemory, Text};
use std::alloc::Global;

/// Returns the sources of the generated list of `actions` actions. They are the flag file of each action,
/// which names its output.
///
/// # Errors
///
/// Returns `NoMemory` if memory runs out.
pub fn generated_sources(alloc: Global, actions: u32) -> Result<Vec<SourceFile>, NoMemory> {
    let mut files = Vec::new(alloc);
    for action in 0..actions {
        let path = format!(in alloc; "flags/{action}")?;
        let flags = format!(in alloc; "--out=out/{action}\n")?;
        files.push(SourceFile {
            path: Text::of(path),
            bytes: Blob::of(alloc, flags.into_bytes())?,
        })?;
    }
    Ok(files)
}
