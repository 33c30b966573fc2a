// The reasons why a command stops, with their messages.
ghost use Rattle.std.specs.Prelude.{◌≡◌, IfOk};
ghost use Rattle.demo_worker.specs.Looks.{cannot_read, cannot_write, missing};
ghost use Rattle.demo_worker.specs.declared.stop.Stop.TheVariants.{NoMemory as no_memory};

use plain_values::{NoMemory, Text};
use std::alloc::{AllocError, AllocFailed, Global};

/// The reason why a command stops before its end.
#[derive(Drop)]
pub enum Stop {
    /// A file is missing or a call on the shop failed. This is the message.
    Says(Text),
    NoMemory,
}

/// Returns the message for a missing file.
#[tactic(auto, unfolding(crate::specs::Looks::missing))]
pub fn missing(alloc: Global, path: &str) -> Result<Text, NoMemory>
    ensures { IfOk result (λ text. text ≡ missing path.now) }
{
    Ok(Text::of(format!(in alloc; "missing: {path}")?))
}

/// Returns the message for a file that can't be read.
#[tactic(auto, unfolding(crate::specs::Looks::cannot_read))]
pub fn cannot_read(alloc: Global, path: &str) -> Result<Text, NoMemory>
    ensures { IfOk result (λ text. text ≡ cannot_read path.now) }
{
    Ok(Text::of(format!(in alloc; "cannot read: {path}")?))
}

/// Returns the message for a file that can't be written.
#[tactic(auto, unfolding(crate::specs::Looks::cannot_write))]
pub fn cannot_write(alloc: Global, path: &str) -> Result<Text, NoMemory>
    ensures { IfOk result (λ text. text ≡ cannot_write path.now) }
{
    Ok(Text::of(format!(in alloc; "cannot write: {path}")?))
}

impl From<NoMemory> for Stop {
    ghost from_gives = { λ _ e. e ≡ no_memory };

    fn from(_: NoMemory) -> Self {
        Stop::NoMemory
    }
}

impl From<AllocError> for Stop {
    ghost from_gives = { λ _ e. e ≡ no_memory };

    fn from(_: AllocError) -> Self {
        Stop::NoMemory
    }
}

impl<T: Drop> From<AllocFailed<T>> for Stop {
    ghost from_gives = { λ _ e. e ≡ no_memory };

    fn from(_: AllocFailed<T>) -> Self {
        Stop::NoMemory
    }
}
