// Handles messages that have been read, one after another.
ghost use Rattle.std.specs.Prelude.{◌≡◌, ◌++◌, [], IfErr};
ghost use Rattle.message_service.specs.Ends.{end_of};
ghost use Rattle.message_service.specs.Serves.{Handled};
ghost use Rattle.message_service.specs.Steps.{Deals, Puts, CutsOff};

use crate::{Finish, Service};
use outside::{Io, Shop, Sink};
use plain_values::{Items, NoMemory};
use std::alloc::Global;

/// Handles these messages in order; each can see the messages after it.
///
/// # Errors
///
/// Returns `NoMemory` or `OutputFault`, and then does nothing more.
pub fn answer_all<O: Sink, S: Shop, V: Service<S>>(
    alloc: Global,
    service: &V,
    messages: &[V::Message],
    out: &mut O,
    shop: &mut S,
) -> Result<(), Finish>
    ensures answered { Handled V.answers (end_of result) messages.now (O.told out.old)
        (O.told out.new) (S.told shop.old) (S.told shop.new) }
    ensures err { IfErr result CutsOff }
{
    for (k, message) in messages.iter().enumerate() {
        answer_one(alloc, service, message, &messages[k + 1..], out, shop)?;
    }
    Ok(())
}

/// Handles one message. `behind` is the messages that were read after it.
///
/// # Errors
///
/// Same as [`answer_all`].
pub fn answer_one<O: Sink, S: Shop, V: Service<S>>(
    alloc: Global,
    service: &V,
    message: &V::Message,
    behind: &[V::Message],
    out: &mut O,
    shop: &mut S,
) -> Result<(), Finish>
    ensures { Deals V.answers (end_of result) message.now behind.now (O.told out.old)
        (O.told out.new) (S.told shop.old) (S.told shop.new) }
{
    match service.answer(alloc, shop, message, behind) {
        Ok(reply) => put(out, reply),
        Err(NoMemory) => Err(Finish::NoMemory),
    }
}

fn put<O: Sink>(out: &mut O, reply: Option<Items<u8>>) -> Result<(), Finish>
    ensures { Puts (end_of result) reply (O.told out.old) (O.told out.new) }
{
    match reply {
        Some(bytes) => match out.put(bytes.as_slice()) {
            Io::Done => Ok(()),
            Io::Failed => Err(Finish::OutputFault),
        },
        None => Ok(()),
    }
}
