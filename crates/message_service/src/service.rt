ghost use Rattle.std.specs.Prelude.{◌≡◌, List, ℕ, Option, Result, IfOk};
ghost use Rattle.plain_values.specs.declared.no_memory.NoMemory.{NoMemory};
ghost use Rattle.outside.specs.declared.shop.ShopCall.{ShopCall};
ghost use Rattle.json_framing.specs.declared.cutter.Framing.{Framing};
ghost use Rattle.message_service.specs.Stream.{ReadsFrame};
ghost use Rattle.message_service.specs.Calls.{Made};

use json_framing::Framing;
use outside::Shop;
use plain_values::{Items, NoMemory};
use std::alloc::Global;

/// A kind of messages, and how each of them is answered by calls on a shop.
pub trait Service<S: Shop> {
    /// The meaning of a frame of the input.
    type Message: Drop;

    // The framing of the input.
    ghost framing: { Framing };

    // The message that a frame spells.
    ghost spells: { List ℕ → Self.Message → Type 0 };

    // The calls that are made for a message, with their answers, and the bytes that are written for it, if
    // any. The second argument is the messages that had been read after it by then. The result is an error
    // if memory ran out before the bytes were known.
    ghost answers: { Self.Message → List Self.Message → List ShopCall
        → Result (Option (List ℕ)) NoMemory → Type 0 };

    /// Returns the framing of the input.
    fn framing(&self) -> Framing
        ensures { result ≡ framing };

    /// Returns the message that a frame spells, or `None` if it spells none.
    ///
    /// # Errors
    ///
    /// Returns `NoMemory` if memory runs out.
    fn read(&self, alloc: Global, frame: &[u8]) -> Result<Option<Self::Message>, NoMemory>
        ensures { IfOk result (ReadsFrame spells frame.now) };

    /// Makes the calls for a message, and returns the bytes to write for it, if there are any. `behind` is
    /// the messages that have been read after it.
    ///
    /// # Errors
    ///
    /// Returns `NoMemory` if memory runs out, perhaps after some of the calls.
    fn answer(
        &self,
        alloc: Global,
        shop: &mut S,
        message: &Self::Message,
        behind: &[Self::Message],
    ) -> Result<Option<Items<u8>>, NoMemory>
        ensures { (calls : List ShopCall) × answers message.now behind.now calls result
            × Made calls (S.told shop.old) (S.told shop.new) };
}
