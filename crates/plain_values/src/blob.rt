ghost use Rattle.std.specs.Prelude.{◌≡◌, List, ℕ, IfOk};
ghost use Rattle.std.specs.Arc.{arc_value};
ghost use Rattle.plain_values.specs.Digests.{digest_text};

use crate::digest::{Digits, digits_of};
use crate::digit_slot::DigitSlot;
use crate::{Items, NoMemory};
use std::alloc::Global;
use std::marker::Model;
use std::sync::{Arc, Mutex, Wait};

/// Bytes that don't change and may have several owners, so that large contents are shared and never
/// copied. Their digest is computed at most once, and the owners share it too. A contract sees the list
/// of the bytes.
#[derive(Drop)]
pub struct Blob {
    shared: Arc<Body>,
}

/// The bytes, their digits, and the lock of the thread that may compute these.
#[derive(Drop)]
struct Body {
    bytes: Items<u8>,
    digits: DigitSlot,
    // Held by the thread that computes the digits.
    computing: Mutex<()>,
}

impl Model for Blob {
    ghost Value = { List ℕ };

    ghost view = { λ b. (arc_value b.shared).bytes };

    ghost invariant = { λ b. (arc_value b.shared).digits.slot ≡ (arc_value b.shared).bytes };
}

impl Blob {
    /// Makes a blob of the bytes of a `Vec`, whose memory it takes over. No digest is computed.
    ///
    /// # Errors
    ///
    /// Returns `NoMemory` if the count of owners finds no memory.
    pub fn of(alloc: Global, bytes: Vec<u8>) -> Result<Blob, NoMemory>
        ensures { IfOk result (λ b. b ≡ bytes.items) }
    {
        let bytes = Items::of(bytes);
        let body = Body {
            digits: DigitSlot::of(&bytes),
            bytes,
            computing: Mutex::new(()),
        };
        Ok(Blob {
            shared: Arc::new(alloc, body)?,
        })
    }

    /// Returns the bytes.
    pub fn bytes(&self) -> &[u8]
        ensures { result.now ≡ self.now }
    {
        self.shared.bytes.as_slice()
    }

    /// Returns an equal value that shares the bytes and the digest.
    ///
    /// # Errors
    ///
    /// Returns `NoMemory` if the count of owners can grow no further.
    pub fn again(&self) -> Result<Blob, NoMemory>
        ensures { IfOk result (λ b. b ≡ self.now) }
    {
        Ok(Blob {
            shared: Arc::try_clone(&self.shared)?,
        })
    }

    /// Computes the digest, unless an owner has done so. If several threads come at once, one of them computes it and
    /// the others wait.
    ///
    /// # Errors
    ///
    /// Returns `NoMemory` if memory runs out.
    pub fn know_digest<R: Wait>(&self, rt: &R, alloc: Global) -> Result<(), NoMemory> {
        if self.shared.digits.is_filled() {
            return Ok(());
        }
        let _guard = self.shared.computing.lock(rt);
        if !self.shared.digits.is_filled() {
            self.compute(alloc)?;
        }
        Ok(())
    }

    /// Returns true if the digest was computed, by any owner.
    pub fn knows_digest(&self) -> bool {
        self.shared.digits.is_filled()
    }

    /// Returns the 64 lower-case hexadecimal digits of the SHA-256 of the bytes. If they aren't known, they are
    /// computed here.
    ///
    /// # Errors
    ///
    /// Returns `NoMemory` if memory runs out.
    pub fn digits(&self, alloc: Global) -> Result<Items<u8>, NoMemory>
        ensures { IfOk result (λ digits. digits ≡ digest_text self.now) }
    {
        match self.shared.digits.digits(alloc)? {
            Some(digits) => Ok(digits),
            None => digits_of(alloc, self.bytes()),
        }
    }

    fn compute(&self, alloc: Global) -> Result<(), NoMemory> {
        let digits = digits_of(alloc, self.bytes())?;
        self.shared.digits.put(Digits { digits });
        Ok(())
    }
}
