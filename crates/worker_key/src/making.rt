ghost use Rattle.std.specs.Prelude.{◌≡◌, IfOk, map};
ghost use Rattle.worker_key.specs.Keys.{key_of, named_tool};

use crate::{KeyParts, Named, Tool, WorkerKey};
use plain_values::{Items, NoMemory, Text, digest_of, texts_again};
use std::alloc::Global;

impl WorkerKey {
    /// Makes the key of these parts, with the digest of each tool instead of its bytes.
    ///
    /// # Errors
    ///
    /// Returns `NoMemory` if memory runs out.
    pub fn of(alloc: Global, parts: &KeyParts) -> Result<WorkerKey, NoMemory>
        ensures { IfOk result (λ k. k ≡ key_of parts.now) }
    {
        Ok(WorkerKey {
            mnemonic: Text::copy_of(alloc, parts.mnemonic.as_str())?,
            startup: texts_again(alloc, parts.startup.as_slice())?,
            env: named_again(alloc, parts.env.as_slice())?,
            tools: tools_named(alloc, parts.tools.as_slice())?,
            json: parts.json,
            mode: parts.mode,
            cancel: parts.cancel,
        })
    }
}

fn named_again(alloc: Global, pairs: &[Named]) -> Result<Items<Named>, NoMemory>
    ensures { IfOk result (λ l. l ≡ pairs.now) }
{
    let mut copies = Vec::new(alloc);
    for pair in pairs {
        copies.push(Named {
            name: Text::copy_of(alloc, pair.name.as_str())?,
            value: Text::copy_of(alloc, pair.value.as_str())?,
        })?;
    }
    Ok(Items::of(copies))
}

fn tools_named(alloc: Global, tools: &[Tool]) -> Result<Items<Named>, NoMemory>
    ensures { IfOk result (λ l. l ≡ map named_tool tools.now) }
{
    let mut named = Vec::new(alloc);
    for tool in tools {
        named.push(Named {
            name: Text::copy_of(alloc, tool.path.as_str())?,
            value: digest_of(alloc, tool.bytes.bytes())?,
        })?;
    }
    Ok(Items::of(named))
}
