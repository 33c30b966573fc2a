// Reads the input from its start to its end.
ghost use Rattle.std.specs.Prelude.{◌++◌, [], List, ℕ, IfErr};
ghost use Rattle.delimited_framing.specs.Splitter.{Held};
ghost use Rattle.json_framing.specs.Cutter.{form_of};
ghost use Rattle.message_service.specs.Stream.{HeardAll};
ghost use Rattle.message_service.specs.Serves.{Serves};
ghost use Rattle.message_service.specs.Steps.{Round, StopsReading};

use crate::answering::answer_all;
use crate::hearing::{Come, hear_piece};
use crate::{Finish, Service};
use json_framing::Cutter;
use outside::{PIECE, READS, Shop, Sink, Taken, Tap};
use plain_values::NoMemory;
use std::alloc::Global;
use std::sync::Wait;
use wire_fields::LARGEST;

/// Reads the available input, answers its messages one after another, and reads on. It stops at the end of
/// the input or at bytes that spell no message.
///
/// Returns the cause of its end. Until then each message is handled by its service, in order. Nothing more
/// is written, and no other call is made.
pub fn serve<T: Tap, O: Sink, S: Shop, V: Service<S>, R: Wait>(
    rt: &R,
    alloc: Global,
    service: &V,
    input: &mut T,
    out: &mut O,
    shop: &mut S,
) -> Finish
    ensures { Serves (form_of V.framing) V.spells V.answers result []
        (record { input = T.told input.old; out = O.told out.old; shop = S.told shop.old })
        (record { input = T.told input.new; out = O.told out.new; shop = S.told shop.new }) }
{
    let mut cutter = Cutter::new(alloc, service.framing(), LARGEST);
    let mut piece = [0u8; PIECE];
    for _ in 0..READS {
        match input.read(&mut piece) {
            Taken::Bytes(count) => {
                let come = match hear_piece(rt, alloc, service, &mut cutter, &piece[..count]) {
                    Ok(come) => come,
                    Err(NoMemory) => return Finish::NoMemory,
                };
                if let Err(finish) = round(alloc, service, &come, out, shop) {
                    return finish;
                }
            }
            Taken::End => return Finish::AtEnd,
            Taken::Failed => return Finish::InputFault,
        }
    }
    Finish::TooLong
}

// Answers the messages that are complete with one more piece.
fn round<O: Sink, S: Shop, V: Service<S>>(
    alloc: Global,
    service: &V,
    come: &Come<V::Message>,
    out: &mut O,
    shop: &mut S,
) -> Result<(), Finish>
    ensures round { (fed : List ℕ) (heard : List V.Message) (s : Held)
        → HeardAll (form_of V.framing) V.spells come.now.goes_on fed
        (heard ++ come.now.messages.items) s
        → Round (form_of V.framing) V.spells V.answers result fed heard s (O.told out.old)
        (O.told out.new) (S.told shop.old) (S.told shop.new) }
    ensures err { IfErr result StopsReading }
{
    answer_all(alloc, service, &come.messages, out, shop)?;
    if come.goes_on {
        Ok(())
    } else {
        Err(Finish::BadInput)
    }
}
