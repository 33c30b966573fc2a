// The reasons that bytes aren't a message.
ghost use Rattle.std.specs.Prelude.{◌≡◌};

use plain_values::NoMemory;
use std::alloc::{AllocError, AllocFailed};
use wire_fields::FieldFault;

/// The first fault from the left. Bytes in the binary form have one of the first four. The next four are the faults of
/// a line in the JSON form, and never come from this crate.
#[derive(Clone, Copy, Debug, PartialEq, Eq)]
pub enum MessageFault {
    /// The bytes end inside a number, inside four or eight bytes, or before the end of a counted span.
    CutField,
    /// A number has more than ten bytes, or more than 64 bits.
    BadVarint,
    /// A tag is 2^32 or more, has the field number 0, or a wire type that isn't 0, 1, 2 or 5.
    BadTag,
    /// A string isn't UTF-8.
    BadText,
    /// The line isn't JSON.
    NotJson,
    /// The line's value isn't an object.
    NotObject,
    /// The value of a key has the wrong type.
    WrongKind(JsonKey),
    /// The number of a key doesn't fit 32 bits.
    OutOfRange(JsonKey),
    /// Memory ran out. The bytes may have a fault or none.
    NoMemory,
}

/// The keys of the JSON form, one for each field of the messages.
#[derive(Clone, Copy, Debug, PartialEq, Eq)]
pub enum JsonKey {
    Arguments,
    Inputs,
    Path,
    Digest,
    RequestId,
    Cancel,
    Verbosity,
    SandboxDir,
    ExitCode,
    Output,
    WasCancelled,
}

impl From<NoMemory> for MessageFault {
    ghost use Rattle.wire_messages.specs.declared.fault.MessageFault.TheVariants as fault;

    ghost from_gives = { λ _ e. e ≡ fault.NoMemory };

    fn from(_: NoMemory) -> MessageFault {
        MessageFault::NoMemory
    }
}

impl From<AllocError> for MessageFault {
    ghost use Rattle.wire_messages.specs.declared.fault.MessageFault.TheVariants as fault;

    ghost from_gives = { λ _ e. e ≡ fault.NoMemory };

    fn from(_: AllocError) -> MessageFault {
        MessageFault::NoMemory
    }
}

impl From<FieldFault> for MessageFault {
    ghost use Rattle.wire_messages.specs.Fault.{fault_of};

    ghost from_gives = { λ f e. e ≡ fault_of f };

    fn from(fault: FieldFault) -> MessageFault {
        match fault {
            FieldFault::BadVarint => MessageFault::BadVarint,
            FieldFault::BadTag => MessageFault::BadTag,
        }
    }
}

impl<T: Drop> From<AllocFailed<T>> for MessageFault {
    ghost use Rattle.wire_messages.specs.declared.fault.MessageFault.TheVariants as fault;

    ghost from_gives = { λ _ e. e ≡ fault.NoMemory };

    fn from(_: AllocFailed<T>) -> MessageFault {
        MessageFault::NoMemory
    }
}
