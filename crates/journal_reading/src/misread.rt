// The reasons that a value can't be read.
ghost use Rattle.std.specs.Prelude.{◌≡◌};

use plain_values::NoMemory;
use std::alloc::{AllocError, AllocFailed};

/// The reason that nothing was read.
#[derive(Clone, Copy, Debug, PartialEq, Eq)]
pub enum Misread {
    /// The value is of another form.
    Otherwise,
    /// Memory ran out. The value may have that form or not.
    NoMemory,
}

impl From<NoMemory> for Misread {
    ghost use Rattle.journal_reading.specs.declared.misread.Misread.TheVariants as misread;

    ghost from_gives = { λ _ e. e ≡ misread.NoMemory };

    fn from(_: NoMemory) -> Misread {
        Misread::NoMemory
    }
}

impl From<AllocError> for Misread {
    ghost use Rattle.journal_reading.specs.declared.misread.Misread.TheVariants as misread;

    ghost from_gives = { λ _ e. e ≡ misread.NoMemory };

    fn from(_: AllocError) -> Misread {
        Misread::NoMemory
    }
}

impl<T: Drop> From<AllocFailed<T>> for Misread {
    ghost use Rattle.journal_reading.specs.declared.misread.Misread.TheVariants as misread;

    ghost from_gives = { λ _ e. e ≡ misread.NoMemory };

    fn from(_: AllocFailed<T>) -> Misread {
        Misread::NoMemory
    }
}
