// The key of one worker.
use plain_values::{Blob, Items, NoMemory, Text};
use std::alloc::Global;
use worker_key::{KeyParts, Mode, Named, Tool, WorkerKey};

/// Returns the length of the key's canonical bytes, and its name.
pub fn key(alloc: Global) -> Result<String, NoMemory> {
    let parts = parts(alloc)?;
    key_of(alloc, &parts)
}

fn key_of(alloc: Global, parts: &KeyParts) -> Result<String, NoMemory> {
    let key = WorkerKey::of(alloc, parts)?;
    told(alloc, &key)
}

fn told(alloc: Global, key: &WorkerKey) -> Result<String, NoMemory> {
    let length = length(alloc, key)?;
    let name = key.name(alloc)?;
    Ok(format!(in alloc; "{length} {}", name.as_str())?)
}

fn length(alloc: Global, key: &WorkerKey) -> Result<usize, NoMemory> {
    Ok(key.canonical_bytes(alloc)?.len())
}

fn parts(alloc: Global) -> Result<KeyParts, NoMemory> {
    Ok(KeyParts {
        mnemonic: Text::copy_of(alloc, "Javac")?,
        startup: Items::of(startup(alloc)?),
        env: Items::of(environment(alloc)?),
        tools: Items::of(tools(alloc)?),
        json: true,
        mode: Mode::Multi,
        cancel: true,
    })
}

fn startup(alloc: Global) -> Result<Vec<Text>, NoMemory> {
    let mut words = Vec::new(alloc);
    for word in ["t", "--persistent_worker"] {
        words.push(Text::copy_of(alloc, word)?)?;
    }
    Ok(words)
}

fn environment(alloc: Global) -> Result<Vec<Named>, NoMemory> {
    let variable = Named {
        name: Text::copy_of(alloc, "K")?,
        value: Text::copy_of(alloc, "1")?,
    };
    Ok(vec![in alloc; variable]?)
}

fn tools(alloc: Global) -> Result<Vec<Tool>, NoMemory> {
    let tool = Tool {
        path: Text::copy_of(alloc, "tool/jar")?,
        bytes: Blob::of(alloc, b"abc".to_vec(alloc)?)?,
    };
    Ok(vec![in alloc; tool]?)
}
