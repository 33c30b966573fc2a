ghost use Rattle.std.specs.Prelude.{◌≡◌, IfOk};
ghost use Rattle.plain_values.specs.Digests.{digest_text};

use crate::{Items, NoMemory, Text};
use counted_slot::Fits;
use hex::encode;
use sha2::{Digest, Sha256};
use std::alloc::Global;

/// The digits of the digest of some contents.
#[derive(Drop)]
pub(crate) struct Digits {
    pub(crate) digits: Items<u8>,
}

impl Fits for Digits {
    type Tag = Items<u8>;

    ghost fits = { λ content d. d.digits ≡ digest_text content };
}

/// Returns the 64 lower-case hexadecimal digits of the SHA-256 of the bytes.
///
/// # Errors
///
/// Returns `NoMemory` if memory runs out.
pub fn digest_of(alloc: Global, bytes: &[u8]) -> Result<Text, NoMemory>
    ensures { IfOk result (λ t. t ≡ digest_text bytes.now) }
{
    Ok(Text::of(encode(alloc, Sha256::digest(bytes))?))
}

/// Returns the same digits as a list of bytes, the form in an input of a request.
pub(crate) fn digits_of(alloc: Global, bytes: &[u8]) -> Result<Items<u8>, NoMemory>
    ensures { IfOk result (λ digits. digits ≡ digest_text bytes.now) }
{
    let digits = digest_of(alloc, bytes)?;
    Ok(Items::of(digits.as_str().as_bytes().to_vec(alloc)?))
}
