ghost use Rattle.std.specs.Prelude.{◌≡◌};
ghost use Rattle.list_actions.specs.declared.faults.ListRefusal.TheVariants.{NoMemory as no_memory};

use path_rules::PathFault;
use plain_values::{NoMemory, Text};
use std::alloc::{AllocError, AllocFailed};
use std::fmt;

/// The things of which there can be too many.
#[derive(Clone, Copy, PartialEq, Eq)]
pub enum What {
    Bytes,
    Actions,
    Argv,
    Env,
    Tools,
    Inputs,
    Outputs,
    Requirements,
    Keys,
}

/// The place of a fault: the whole text, its `actions`, one action, or a key of one.
#[derive(Clone, Copy, PartialEq, Eq)]
pub enum Key {
    Top,
    Actions,
    Action,
    Name,
    Mnemonic,
    Argv,
    Env,
    Tools,
    Inputs,
    Outputs,
    Requirements,
    Strategy,
}

/// The reason that bytes aren't an action list.
#[derive(Drop)]
pub enum ListFault {
    TooMany {
        what: What,
        count: u64,
    },
    NotJson,
    WrongKind {
        action: Option<u32>,
        key: Key,
    },
    MissingKey {
        action: Option<u32>,
        key: Key,
    },
    BadName {
        action: u32,
    },
    BadPath {
        action: u32,
        path: Text,
        fault: PathFault,
    },
    BadRequirement {
        action: u32,
    },
    NoStrategy {
        action: u32,
    },
    NoFlagFile {
        action: u32,
    },
    TwiceNamed {
        action: u32,
    },
    TwiceMade {
        action: u32,
        path: Text,
    },
    MadeLater {
        action: u32,
        path: Text,
    },
}

/// A fault of the list, or lack of memory.
#[derive(Drop)]
pub enum ListRefusal {
    Fault(ListFault),
    NoMemory,
}

impl From<NoMemory> for ListRefusal {
    ghost from_gives = { λ _ e. e ≡ no_memory };

    fn from(_: NoMemory) -> Self {
        ListRefusal::NoMemory
    }
}

impl From<AllocError> for ListRefusal {
    ghost from_gives = { λ _ e. e ≡ no_memory };

    fn from(_: AllocError) -> Self {
        ListRefusal::NoMemory
    }
}

impl<T: Drop> From<AllocFailed<T>> for ListRefusal {
    ghost from_gives = { λ _ e. e ≡ no_memory };

    fn from(_: AllocFailed<T>) -> Self {
        ListRefusal::NoMemory
    }
}

/// The place as a reader of the list finds it: a key's name after a `.`, since it follows `actions[3]`.
impl fmt::Display for Key {
    fn fmt<W: fmt::Write>(&self, f: &mut fmt::Formatter<W>) -> fmt::Result {
        f.write_str(match self {
            Key::Top => "the whole text",
            Key::Actions => "actions",
            Key::Action => "",
            Key::Name => ".name",
            Key::Mnemonic => ".mnemonic",
            Key::Argv => ".argv",
            Key::Env => ".env",
            Key::Tools => ".tools",
            Key::Inputs => ".inputs",
            Key::Outputs => ".outputs",
            Key::Requirements => ".requirements",
            Key::Strategy => ".strategy",
        })
    }
}

/// The thing that is counted, with its limit.
impl fmt::Display for What {
    fn fmt<W: fmt::Write>(&self, f: &mut fmt::Formatter<W>) -> fmt::Result {
        f.write_str(match self {
            What::Bytes => "bytes, and at most 33554432 may be",
            What::Actions => "actions, and at most 4096 may be",
            What::Argv => "words in an action's argv, and at most 1024 may be",
            What::Env => "variables in an action's env, and at most 256 may be",
            What::Tools => "tools of an action, and at most 256 may be",
            What::Inputs => "inputs of an action, and at most 4096 may be",
            What::Outputs => "outputs of an action, and at most 256 may be",
            What::Requirements => "requirements of an action, and at most 64 may be",
            What::Keys => "worker keys, and at most 48 may be",
        })
    }
}

/// The place at which the list is at fault, and what to look at there.
impl fmt::Display for ListFault {
    fn fmt<W: fmt::Write>(&self, f: &mut fmt::Formatter<W>) -> fmt::Result {
        match self {
            ListFault::TooMany { what, count } => write!(f, "there are {count} {what}"),
            ListFault::NotJson => f.write_str("the text isn't JSON"),
            ListFault::WrongKind { action, key } => {
                fmt_place(f, *action, *key)?;
                f.write_str(": not a value that may stand there")
            }
            ListFault::MissingKey { action, key } => {
                fmt_place(f, *action, *key)?;
                f.write_str(": isn't there")
            }
            ListFault::BadPath {
                action,
                path,
                fault,
            } => write!(f, "actions[{action}]: {:?}: {fault}", path.as_str()),
            ListFault::TwiceMade { action, path } => write!(
                f,
                "actions[{action}].outputs: {:?} is made before",
                path.as_str()
            ),
            ListFault::MadeLater { action, path } => write!(
                f,
                "actions[{action}].inputs: {:?} is made by this action or by a later one",
                path.as_str()
            ),
            ListFault::BadName { action } => fmt_action(
                f,
                *action,
                ".name: empty, above 256 bytes, or with a byte that a name can't have",
            ),
            ListFault::BadRequirement { action } => fmt_action(
                f,
                *action,
                ".requirements: an empty worker-key-mnemonic, or a protocol other than proto and json",
            ),
            ListFault::NoStrategy { action } => fmt_action(
                f,
                *action,
                ".strategy: not worker, remote or dynamic; or not remote, without supports-workers",
            ),
            ListFault::NoFlagFile { action } => fmt_action(
                f,
                *action,
                ".argv: no word names a flag file, as @FILE or --flagfile=FILE does",
            ),
            ListFault::TwiceNamed { action } => {
                fmt_action(f, *action, ".name: an earlier action has this name")
            }
        }
    }
}

// Writes an action, and what is wrong with it.
fn fmt_action<W: fmt::Write>(f: &mut fmt::Formatter<W>, action: u32, wrong: &str) -> fmt::Result {
    write!(f, "actions[{action}]{wrong}")
}

fn fmt_place<W: fmt::Write>(
    f: &mut fmt::Formatter<W>,
    action: Option<u32>,
    key: Key,
) -> fmt::Result {
    match action {
        Some(action) => write!(f, "actions[{action}]{key}"),
        None => write!(f, "{key}"),
    }
}
