// The values of fields, and the effect of one field on a part of a message.
ghost use Rattle.std.specs.Prelude.{◌≡◌, ◌≢◌, ◌++◌, ◌∷◌, [], ◌<◌, length, Ok, Err, IfOk, IfErr, OnOk, IsUtf8};
ghost use Rattle.wire_fields.specs.Varint.{Fault, BadText};
ghost use Rattle.wire_fields.specs.Message.{HoldsNoText, HoldsFaulty, Spells, FirstFault, bytes_in};
ghost use Rattle.wire_fields.specs.Field.{field_at};
ghost use Rattle.wire_fields.specs.After.{int32_after, bool_after, bytes_after, PushesMessage};
ghost use Rattle.wire_messages.specs.Value.{field, content};
ghost use Rattle.wire_messages.specs.Fault.{Fails};
ghost use Rattle.wire_messages.specs.declared.fault.MessageFault.TheVariants as fault;

use crate::fault::MessageFault;
use crate::message::{Message, decode};
use plain_values::{Blob, Items, NoMemory, Text};
use std::alloc::Global;
use std::mem;
use wire_fields::{Field, FieldValue, next_field};

/// The value of a field.
#[derive(Clone, Copy)]
pub enum Value<'a> {
    /// A varint, wire type 0.
    Number(u64),
    /// Eight bytes, wire type 1. No message has such a field, so its bytes are left out.
    Eight,
    /// A counted span of bytes, wire type 2.
    Bytes(&'a [u8]),
    /// Four bytes, wire type 5.
    Four,
}

/// Returns the number and the value of the field at the front, and the bytes after it.
///
/// # Errors
///
/// Returns the fault of the field's tag or value, but never lack of memory.
pub(crate) fn split_field(bytes: &[u8]) -> Result<(u32, Value<'_>, &[u8]), MessageFault>
    requires { 0 < length bytes.now }
    ensures ok { IfOk result (λ p. field_at bytes.now ≡ Ok (field p.0 p.1, p.2.now)) }
    ensures shorter { IfOk result (λ p. length p.2.now < length bytes.now) }
    ensures err { IfErr result (λ e. Fails e (λ x. field_at bytes.now ≡ Err x)) }
    ensures never_memory { IfErr result (λ e. e ≢ fault.NoMemory) }
{
    match next_field(bytes) {
        Field::Cut => Err(MessageFault::CutField),
        Field::Bad(fault) => Err(MessageFault::from(fault)),
        Field::Known {
            number,
            value,
            used,
        } => {
            let value = match value {
                FieldValue::Number(n) => Value::Number(n),
                FieldValue::Eight => Value::Eight,
                FieldValue::Span { start, length } => Value::Bytes(&bytes[start..start + length]),
                FieldValue::Four => Value::Four,
            };
            Ok((number, value, &bytes[used..]))
        }
    }
}

/// Appends an element to a list. If memory runs out, the list is lost, and so is the message that it is for.
pub fn push_item<T: Drop>(alloc: Global, slot: &mut Items<T>, item: T) -> Result<(), NoMemory>
    ensures { OnOk result (slot.new ≡ slot.old ++ item ∷ []) }
{
    let mut items = mem::replace(slot, Items::of(Vec::new(alloc))).into_vec();
    items.push(item)?;
    *slot = Items::of(items);
    Ok(())
}

fn text_of(alloc: Global, bytes: &[u8]) -> Result<Text, MessageFault>
    ensures text { IfOk result (λ t. (t ≡ bytes.now) × IsUtf8 bytes.now) }
    ensures no_text { IfErr result (λ e. Fails e (λ x. (¬ (IsUtf8 bytes.now)) × (x ≡ BadText))) }
{
    match str::from_utf8(bytes) {
        Ok(text) => Ok(Text::copy_of(alloc, text)?),
        Err(_) => Err(MessageFault::BadText),
    }
}

impl Value<'_> {
    /// Sets a signed number, if this is one. Only the low 32 bits count.
    pub fn set_int32(self, slot: &mut i32)
        ensures { slot.new ≡ int32_after slot.old (content self.entry) }
    {
        if let Value::Number(n) = self {
            *slot = ((n % (1 << 32)) as u32).cast_signed();
        }
    }

    /// Sets a flag, if this is one. Every number except 0 is true.
    pub fn set_bool(self, slot: &mut bool)
        ensures { slot.new ≡ bool_after slot.old (content self.entry) }
    {
        if let Value::Number(n) = self {
            *slot = n != 0;
        }
    }

    /// Sets a string, if this is one.
    ///
    /// # Errors
    ///
    /// Returns `BadText` if the span isn't UTF-8.
    pub fn set_text(self, alloc: Global, slot: &mut Text) -> Result<(), MessageFault>
        ensures ok { OnOk result (slot.new ≡ bytes_after slot.old (content self.entry)) }
        ensures sound { OnOk result (HoldsNoText (content self.entry) → ⊥) }
        ensures err { IfErr result (λ e. Fails e (λ x. HoldsNoText (content self.entry)
            × (x ≡ BadText))) }
    {
        if let Value::Bytes(bytes) = self {
            *slot = text_of(alloc, bytes)?;
        }
        Ok(())
    }

    /// Sets bytes, if this is a span of bytes.
    pub fn set_bytes(self, alloc: Global, slot: &mut Items<u8>) -> Result<(), MessageFault>
        ensures ok { OnOk result (slot.new ≡ bytes_after slot.old (content self.entry)) }
        ensures err { IfErr result (λ e. Fails e (λ x. ⊥)) }
    {
        if let Value::Bytes(bytes) = self {
            *slot = Items::of(Vec::from_slice(alloc, bytes)?);
        }
        Ok(())
    }

    /// Sets bytes that may be shared, if this is a span of bytes.
    pub fn set_blob(self, alloc: Global, slot: &mut Blob) -> Result<(), MessageFault>
        ensures ok { OnOk result (slot.new ≡ bytes_after slot.old (content self.entry)) }
        ensures err { IfErr result (λ e. Fails e (λ x. ⊥)) }
    {
        if let Value::Bytes(bytes) = self {
            *slot = Blob::of(alloc, Vec::from_slice(alloc, bytes)?)?;
        }
        Ok(())
    }

    /// Appends a string, if this is one.
    ///
    /// # Errors
    ///
    /// Returns `BadText` if the span isn't UTF-8.
    pub fn push_text(self, alloc: Global, slot: &mut Items<Text>) -> Result<(), MessageFault>
        ensures ok { OnOk result (slot.new ≡ slot.old ++ bytes_in (content self.entry)) }
        ensures sound { OnOk result (HoldsNoText (content self.entry) → ⊥) }
        ensures err { IfErr result (λ e. Fails e (λ x. HoldsNoText (content self.entry)
            × (x ≡ BadText))) }
    {
        if let Value::Bytes(bytes) = self {
            push_item(alloc, slot, text_of(alloc, bytes)?)?;
        }
        Ok(())
    }

    /// Appends a message, if this is one.
    ///
    /// # Errors
    ///
    /// Returns the first fault inside the span.
    pub fn push_message<M: Message>(
        self,
        alloc: Global,
        slot: &mut Items<M>,
    ) -> Result<(), MessageFault>
        ensures ok { OnOk result (PushesMessage (Spells M.refuses M.means)
            (content self.entry) slot.old slot.new) }
        ensures sound { OnOk result ((x : Fault)
            → HoldsFaulty (FirstFault M.refuses) (content self.entry) x → ⊥) }
        ensures err { IfErr result (λ e. Fails e (HoldsFaulty (FirstFault M.refuses)
            (content self.entry))) }
    {
        if let Value::Bytes(bytes) = self {
            push_item(alloc, slot, decode(alloc, bytes)?)?;
        }
        Ok(())
    }
}
