// Splits the input into messages.
ghost use Rattle.std.specs.Prelude.{◌≡◌, ◌++◌, List, ℕ, IfOk, IfErr};
ghost use Rattle.delimited_framing.specs.Splitter.{Held};
ghost use Rattle.json_framing.specs.Cutter.{form_of, framing_of, held};
ghost use Rattle.message_service.specs.Stream.{Begins, Heard, HeardAll};

use crate::Service;
use delimited_framing::Next;
use json_framing::Cutter;
use outside::Shop;
use plain_values::NoMemory;
use std::alloc::Global;
use std::sync::Wait;

/// The messages that are complete, in order.
#[derive(Drop)]
pub struct Come<M> {
    pub messages: Vec<M>,
    /// True if the bytes after them may still become a message.
    pub goes_on: bool,
}

/// Reads one more piece of the input, and returns all messages that are complete with it. Stops at bytes
/// that spell no message.
///
/// # Errors
///
/// Returns `NoMemory` if memory runs out. The bytes read before the piece still begin the input.
pub fn hear_piece<S: Shop, V: Service<S>, R: Wait>(
    rt: &R,
    alloc: Global,
    service: &V,
    cutter: &mut Cutter,
    piece: &[u8],
) -> Result<Come<V::Message>, NoMemory>
    requires { framing_of cutter.old ≡ V.framing }
    ensures framing { framing_of cutter.new ≡ V.framing }
    ensures ok { IfOk result (λ come. (fed : List ℕ) (heard : List V.Message)
        → Heard (form_of V.framing) V.spells fed heard (held cutter.old)
        → HeardAll (form_of V.framing) V.spells come.goes_on (fed ++ piece.now)
        (heard ++ come.messages.items) (held cutter.new)) }
    ensures err { IfErr result (λ _. (fed : List ℕ) (heard : List V.Message)
        → Heard (form_of V.framing) V.spells fed heard (held cutter.old)
        → Begins (form_of V.framing) V.spells (fed ++ piece.now) heard) }
{
    let Ok(()) = cutter.feed(piece) else {
        return Err(NoMemory);
    };
    match hear_all(rt, alloc, service, cutter) {
        Ok(come) => Ok(come),
        Err(NoMemory) => Err(NoMemory),
    }
}

// Returns all complete messages, up to bytes that spell none.
fn hear_all<S: Shop, V: Service<S>, R: Wait>(
    rt: &R,
    alloc: Global,
    service: &V,
    cutter: &mut Cutter,
) -> Result<Come<V::Message>, NoMemory>
    requires { framing_of cutter.old ≡ V.framing }
    ensures framing { framing_of cutter.new ≡ V.framing }
    ensures ok { IfOk result (λ come. (fed : List ℕ) (heard : List V.Message)
        → Heard (form_of V.framing) V.spells fed heard (held cutter.old)
        → HeardAll (form_of V.framing) V.spells come.goes_on fed (heard ++ come.messages.items)
        (held cutter.new)) }
{
    let mut messages = Vec::new(alloc);
    for _ in rt.forever() {
        match cutter.next()? {
            Next::Frame(frame) => match service.read(alloc, &frame)? {
                Some(message) => messages.push(message)?,
                None => {
                    return Ok(Come {
                        messages,
                        goes_on: false,
                    });
                }
            },
            Next::NotYet => {
                return Ok(Come {
                    messages,
                    goes_on: true,
                });
            }
            Next::Bad(_) => {
                return Ok(Come {
                    messages,
                    goes_on: false,
                });
            }
        }
    }
    unreachable!()
}
