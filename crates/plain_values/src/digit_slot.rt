ghost use Rattle.std.specs.Prelude.{◌≡◌, ◌%◌, ◌<◌, IfOk, IfSome};
ghost use Rattle.counted_slot.specs.Counting.{readers, IsTurn};
ghost use Rattle.plain_values.specs.Digests.{digest_text};

use crate::digest::Digits;
use crate::{Items, NoMemory};
use counted_slot::{Claim, Counted, FREE, MOST_READERS, ONE_READER, PRESENT, TAKEN};
use std::alloc::Global;

/// The number of times that a reader tries to be counted. Each try that fails is one that another reader won.
const TRIES: u32 = 1_000_000;

/// Room for the digits of the digest of some contents. They are put once and then read by all.
#[derive(Drop)]
pub(crate) struct DigitSlot {
    slot: Counted<Option<Digits>>,
}

impl DigitSlot {
    /// Returns empty room for the digits of these contents.
    pub(crate) fn of(content: &Items<u8>) -> DigitSlot
        ensures { result.slot ≡ content.now }
    {
        DigitSlot {
            slot: Counted::new(None, content),
        }
    }

    /// Returns true if the digits were put.
    pub(crate) fn is_filled(&self) -> bool {
        self.slot.load() % 4 == PRESENT
    }

    /// Puts the digits, unless they are there or are being put.
    pub(crate) fn put(&self, digits: Digits)
        requires { digits.digits ≡ digest_text self.now.slot }
    {
        let (found, claim) = self.slot.turn(FREE, TAKEN);
        if found == FREE {
            let _ = claim.put(Some(digits), PRESENT);
        } else {
            claim.done();
        }
    }

    /// Returns a copy of the digits, if they were put.
    ///
    /// # Errors
    ///
    /// Returns `NoMemory` if memory runs out.
    pub(crate) fn digits(&self, alloc: Global) -> Result<Option<Items<u8>>, NoMemory>
        ensures { IfOk result (λ known. IfSome known (λ digits.
            digits ≡ digest_text self.now.slot)) }
    {
        for _ in 0..TRIES {
            let seen = self.slot.load();
            let Some(counted) = one_more(seen) else {
                return Ok(None);
            };
            let (found, claim) = self.slot.turn(seen, counted);
            if found == seen {
                return read(alloc, claim);
            }
            claim.done();
        }
        Ok(None)
    }
}

// Returns the word with one more reader, if the value is there and one more may read it.
fn one_more(word: u64) -> Option<u64>
    ensures turn { IfSome result (λ new. IsTurn word new) }
    ensures reads { IfSome result (λ new. (new % 4 < 3) × (readers word < readers new)) }
{
    let readers = word % 0x1_0000_0000 / 4;
    if word % 4 == PRESENT && readers < MOST_READERS {
        Some(word + ONE_READER)
    } else {
        None
    }
}

// Copies the digits, and ends the claim.
fn read(alloc: Global, claim: Claim<'_, Option<Digits>>) -> Result<Option<Items<u8>>, NoMemory>
    requires { claim.right ≡ 1 }
    ensures { IfOk result (λ known. IfSome known (λ digits.
        digits ≡ digest_text claim.entry.tag)) }
{
    let copy = match claim.get() {
        Some(known) => copy_of(alloc, known),
        None => Ok(None),
    };
    let _ = claim.leave();
    copy
}

fn copy_of(alloc: Global, known: &Digits) -> Result<Option<Items<u8>>, NoMemory>
    ensures { IfOk result (λ copy. IfSome copy (λ digits. digits ≡ known.now.digits)) }
{
    let digits = known.digits.as_slice().to_vec(alloc)?;
    Ok(Some(Items::of(digits)))
}
