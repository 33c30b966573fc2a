ghost use Rattle.std.specs.Prelude.{◌≡◌, ◌++◌, ◌^◌, ◌<◌, ◌∷◌, [], IfOk, OnOk, length};
ghost use Rattle.std.specs.List.{flat_map};
ghost use Rattle.std.specs.Fmt.{decimal};
ghost use Rattle.worker_key.specs.Keys.{AreOnlyOf, AreShort, canonical, counted, listed, pairs, letters};
ghost use Rattle.plain_values.specs.Digests.{digest_text};

use crate::{Mode, Named, WorkerKey};
use plain_values::{NoMemory, Text, digest_of};
use std::alloc::Global;

impl WorkerKey {
    /// Returns the key's bytes: each of its strings after the string's length, which takes eight bytes, the highest
    /// first. The strings are, in this order:
    ///
    /// - the mnemonic
    /// - the number of startup arguments in decimal, then each argument
    /// - the number of variables, then the name and the value of each
    /// - the number of tools, then the path and the digest of each
    /// - `p` or `j` for the protocol
    /// - `s`, `m` or `b` for the mode
    /// - `0` or `1` for cancellation
    ///
    /// Different keys have different bytes.
    ///
    /// # Errors
    ///
    /// Returns `NoMemory` if memory runs out.
    pub fn canonical_bytes(&self, alloc: Global) -> Result<Vec<u8>, NoMemory>
        ensures bytes { IfOk result (λ v. v.items ≡ canonical self.now) }
        ensures unique { IfOk result (λ v. AreOnlyOf self.now v.items) }
    {
        let mut out = Vec::new(alloc);
        push_counted(&mut out, self.mnemonic.as_str().as_bytes())?;
        push_texts(alloc, &mut out, self.startup.as_slice())?;
        push_pairs(alloc, &mut out, self.env.as_slice())?;
        push_pairs(alloc, &mut out, self.tools.as_slice())?;
        push_letters(&mut out, self)?;
        Ok(out)
    }

    /// Returns the 64 lower-case hexadecimal digits of the SHA-256 of the canonical bytes.
    ///
    /// # Errors
    ///
    /// Returns `NoMemory` if memory runs out.
    pub fn name(&self, alloc: Global) -> Result<Text, NoMemory>
        ensures { IfOk result (λ t. t ≡ digest_text (canonical self.now)) }
    {
        digest_of(alloc, self.canonical_bytes(alloc)?.as_slice())
    }
}

#[tactic(auto, unfolding(crate::specs::Keys::counted))]
fn push_counted(out: &mut Vec<u8>, bytes: &[u8]) -> Result<(), NoMemory>
    ensures put { OnOk result (out.new.items ≡ out.old.items ++ counted bytes.now) }
    ensures short { length bytes.now < 2 ^ 64 }
{
    let length = bytes.len() as u64;
    out.extend_from_slice(&length.to_be_bytes())?;
    out.extend_from_slice(bytes)?;
    Ok(())
}

fn push_number(alloc: Global, out: &mut Vec<u8>, number: usize) -> Result<(), NoMemory>
    ensures { OnOk result (out.new.items ≡ out.old.items ++ counted (decimal number)) }
{
    let digits = format!(in alloc; "{number}")?;
    push_counted(out, digits.as_str().as_bytes())
}

fn push_texts(alloc: Global, out: &mut Vec<u8>, texts: &[Text]) -> Result<(), NoMemory>
    ensures put { OnOk result (out.new.items ≡ out.old.items ++ listed
        (length texts.now) texts.now) }
    ensures few { length texts.now < 2 ^ 64 }
    ensures short { OnOk result (AreShort texts.now) }
{
    push_number(alloc, out, texts.len())?;
    for text in texts {
        push_counted(out, text.as_str().as_bytes())?;
    }
    Ok(())
}

fn push_pairs(alloc: Global, out: &mut Vec<u8>, named: &[Named]) -> Result<(), NoMemory>
    ensures put { OnOk result
        (out.new.items ≡ out.old.items ++ listed (length named.now) (pairs named.now)) }
    ensures few { length named.now < 2 ^ 64 }
    ensures short { OnOk result (AreShort (pairs named.now)) }
{
    push_number(alloc, out, named.len())?;
    for pair in named {
        push_counted(out, pair.name.as_str().as_bytes())?;
        push_counted(out, pair.value.as_str().as_bytes())?;
    }
    Ok(())
}

fn push_letters(out: &mut Vec<u8>, key: &WorkerKey) -> Result<(), NoMemory>
    ensures { OnOk result (out.new.items ≡ out.old.items ++ flat_map counted (letters key.now)) }
{
    let protocol = if key.json { "j" } else { "p" };
    let mode = match key.mode {
        Mode::Single => "s",
        Mode::Multi => "m",
        Mode::Boxed => "b",
    };
    let cancel = if key.cancel { "1" } else { "0" };
    push_counted(out, protocol.as_bytes())?;
    push_counted(out, mode.as_bytes())?;
    push_counted(out, cancel.as_bytes())
}
