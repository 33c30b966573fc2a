// Messages of any kind, field by field.
ghost use Rattle.std.specs.Prelude.{◌≡◌, ◌++◌, ◌∷◌, ◌<◌, ◌^◌, [], List, length, IfOk, IfErr, OnOk, Ok, Err};
ghost use Rattle.wire_fields.specs.Varint.{Fault};
ghost use Rattle.wire_fields.specs.Field.{WireField};
ghost use Rattle.wire_fields.specs.Message.{Spells, FirstFault};
ghost use Rattle.wire_fields.specs.Spelling.{spelling, delimited, capped};
ghost use Rattle.wire_messages.specs.Value.{field};
ghost use Rattle.wire_messages.specs.Fault.{Fails, Answers};

use crate::fault::MessageFault;
use crate::value::{Value, split_field};
use plain_values::NoMemory;
use std::alloc::Global;
use wire_fields::{push_varint, varint_length};

/// A kind of message, which takes its fields in order.
pub trait Message: Sized + Drop {
    /// The meaning of the fields.
    ghost means: { List WireField → Self → Type 0 };

    /// The whole fields that are at fault.
    ghost refuses: { WireField → Fault → Type 0 };

    /// The fields that are written.
    ghost fields: { Self → List WireField };

    /// The form of each value: its strings are UTF-8, and its numbers fit their types.
    ghost has_form: { Self → Type 0 };

    /// Returns the message without fields.
    fn empty(alloc: Global) -> Result<Self, MessageFault>
        ensures ok { IfOk result (λ m. means [] m) }
        ensures err { IfErr result (λ e. Fails e (λ x. ⊥)) };

    /// Takes one more field.
    fn take(&mut self, alloc: Global, number: u32, value: Value<'_>) -> Result<(), MessageFault>
        ensures meaning { OnOk result ((fs : List WireField) → means fs self.old
            → means (fs ++ field number value.entry ∷ []) self.new) }
        ensures sound { OnOk result ((x : Fault) → refuses (field number value.entry) x → ⊥) }
        ensures err { IfErr result (λ e. Fails e (refuses (field number value.entry))) };

    /// Returns the number of bytes that `put` appends, or 2^64 - 1 if that is more. It takes no memory.
    fn encoded_len(&self) -> u64
        ensures { result ≡ capped (length (spelling (fields self.now))) };

    /// Appends the written form.
    fn put(&self, out: &mut Vec<u8>) -> Result<(), NoMemory>
        ensures written { OnOk result (out.new.items ≡ out.old.items ++ spelling
            (fields self.now)) }
        ensures form { OnOk result (has_form self.now) };

    ghost again: { (m : Self) → has_form m → Spells refuses means (spelling (fields m)) m };

    ghost one_meaning: { (fs : List WireField) (m n : Self) → means fs m → means fs n → m ≡ n };

    ghost one_fault: { (f : WireField) (x y : Fault) → refuses f x → refuses f y → x ≡ y };
}

/// Returns the message that all of the bytes spell.
pub fn decode<M: Message>(alloc: Global, bytes: &[u8]) -> Result<M, MessageFault>
    ensures found { IfOk result (λ m. Spells M.refuses M.means bytes.now m) }
    ensures fault { IfErr result (λ e. Fails e (FirstFault M.refuses bytes.now)) }
    ensures only { (m : M) → Spells M.refuses M.means bytes.now m → Answers result (Ok m) }
    ensures only_fault { (x : Fault) → FirstFault M.refuses bytes.now x → Answers result (Err x) }
{
    read(alloc, bytes)
}

fn read<M: Message>(alloc: Global, bytes: &[u8]) -> Result<M, MessageFault>
    ensures found { IfOk result (λ m. Spells M.refuses M.means bytes.now m) }
    ensures fault { IfErr result (λ e. Fails e (FirstFault M.refuses bytes.now)) }
{
    let mut message = M::empty(alloc)?;
    let mut rest = bytes;
    while !rest.is_empty() {
        let (number, value, after) = split_field(rest)?;
        message.take(alloc, number, value)?;
        rest = after;
    }
    Ok(message)
}

/// Returns the only written form of the message.
pub fn encode<M: Message>(alloc: Global, m: &M) -> Result<Vec<u8>, NoMemory>
    ensures written { IfOk result (λ v. v.items ≡ spelling (M.fields m.now)) }
    ensures spelled { IfOk result (λ v. Spells M.refuses M.means v.items m.now) }
    ensures form { OnOk result (M.has_form m.now) }
{
    let mut out = Vec::with_capacity(alloc, m.encoded_len() as usize)?;
    m.put(&mut out)?;
    Ok(out)
}

/// Returns the written form after its length, as a frame of a stream. The message is written directly to its place, so
/// its parts are copied once.
pub fn encode_delimited<M: Message>(alloc: Global, m: &M) -> Result<Vec<u8>, NoMemory>
    ensures written { IfOk result (λ v. v.items ≡ delimited (spelling (M.fields m.now))) }
    ensures spelled { OnOk result (Spells M.refuses M.means (spelling (M.fields m.now)) m.now) }
    ensures form { OnOk result (M.has_form m.now × (length (spelling (M.fields m.now)) < 2 ^ 64)) }
{
    let length = m.encoded_len();
    let room = varint_length(length).saturating_add(length);
    let mut out = Vec::with_capacity(alloc, room as usize)?;
    push_varint(length, &mut out)?;
    m.put(&mut out)?;
    Ok(out)
}
