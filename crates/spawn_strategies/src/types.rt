ghost use Rattle.std.specs.Prelude.{◌≡◌};
ghost use Rattle.spawn_strategies.specs.declared.types.ChoiceFault.TheVariants.{NoMemory as no_memory};

use plain_values::{Items, NoMemory, Text};
use std::alloc::AllocFailed;
use tool_words::Options;

/// A strategy: a way to run an action.
#[derive(Clone, Copy, Debug, PartialEq, Eq)]
pub enum Name {
    /// On a worker.
    Worker,
    /// Once, as a job of a sandbox.
    Sandboxed,
    /// On the remote executor.
    Remote,
    /// On a worker and on the remote executor at once.
    Dynamic,
}

/// The strategies for the actions of one mnemonic, the first choice first.
#[derive(Drop)]
pub struct Rule {
    pub mnemonic: Text,
    pub names: Items<Name>,
}

/// The strategies for the actions.
#[derive(Drop)]
pub struct Strategies {
    /// One rule for each mnemonic with its own list.
    pub rules: Items<Rule>,
    /// The list of every other action. Empty if these have no list.
    pub common: Items<Name>,
    /// The largest number of sandboxes.
    pub sandboxed: u32,
}

/// The options that the words of a command give.
#[derive(Drop)]
pub struct SpawnOptions {
    /// The options other than strategies. They contain a list.
    pub options: Options,
    pub strategies: Strategies,
    /// The program of the sandboxes. The default is `remote_exec`.
    pub sandbox_executor: Text,
    /// The delay of a local branch while a remote one runs, in milliseconds, 0 to 9999. The default is 0.
    pub local_delay: u32,
}

/// The limits of a plan.
#[derive(Clone, Copy)]
pub struct PlanLimits {
    /// The largest number of worker keys, at most 4,096.
    pub keys: u32,
    /// The largest number of berths of a worker key, at most 48. It is 0 if the keys share their berths.
    pub instances: u32,
    /// The largest number of executors, at least 1.
    pub remote: u32,
    /// The largest number of retries of an action, at most 9.
    pub retries: u32,
}

/// The reason that the chosen strategies yield no plan.
#[derive(Clone, Copy, Debug, PartialEq, Eq)]
pub enum ChoiceFault {
    /// No name in the list of the action with this number supports it.
    NoneSupports(u32),
    /// This many worker keys, more than the plan may have.
    TooManyKeys(u32),
    NoMemory,
}

impl From<NoMemory> for ChoiceFault {
    ghost from_gives = { λ _ e. e ≡ no_memory };

    fn from(_: NoMemory) -> Self {
        ChoiceFault::NoMemory
    }
}

impl<T: Drop> From<AllocFailed<T>> for ChoiceFault {
    ghost from_gives = { λ _ e. e ≡ no_memory };

    fn from(_: AllocFailed<T>) -> Self {
        ChoiceFault::NoMemory
    }
}
