use plain_values::{Blob, Items, Text};

/// A name with a value: a variable, or the path of a tool with the digits of its digest.
#[derive(Drop)]
pub struct Named {
    pub name: Text,
    pub value: Text,
}

/// How the requests of a worker run: one at a time, several at once, or several at once with a
/// folder for each.
#[derive(Clone, Copy, Debug, PartialEq, Eq)]
pub enum Mode {
    Single,
    Multi,
    Boxed,
}

/// A tool of a worker, with the contents of its file.
#[derive(Drop)]
pub struct Tool {
    pub path: Text,
    pub bytes: Blob,
}

/// The parts of a key.
#[derive(Drop)]
pub struct KeyParts {
    pub mnemonic: Text,
    pub startup: Items<Text>,
    /// In the order of the names.
    pub env: Items<Named>,
    pub tools: Items<Tool>,
    pub json: bool,
    pub mode: Mode,
    pub cancel: bool,
}

/// The common properties of all workers of a group. Two actions may share a worker exactly if their keys
/// are equal.
#[derive(Drop)]
pub struct WorkerKey {
    pub mnemonic: Text,
    pub startup: Items<Text>,
    /// In the order of the names.
    pub env: Items<Named>,
    /// The paths, each with the 64 digits of its digest.
    pub tools: Items<Named>,
    pub json: bool,
    pub mode: Mode,
    pub cancel: bool,
}
