use plain_values::{Items, Text, Variable};

/// The actions of a run, in order.
#[derive(Drop)]
pub struct ActionList {
    pub actions: Items<ListAction>,
}

/// One action: a tool's command, with its inputs and outputs.
#[derive(Drop)]
pub struct ListAction {
    pub name: Text,
    pub mnemonic: Text,
    pub argv: Items<Text>,
    /// In the order of the bytes of the names.
    pub env: Items<Variable>,
    pub tools: Items<Text>,
    pub inputs: Items<Text>,
    pub outputs: Items<Text>,
    pub needs: Needs,
    pub strategy: Strategy,
}

/// The requirements of an action on its worker.
#[derive(Drop)]
pub struct Needs {
    pub workers: bool,
    pub multiplex: bool,
    pub cancel: bool,
    pub sandboxing: bool,
    pub json: bool,
    /// The replacement for the mnemonic in the worker's key, if there is one.
    pub key_mnemonic: Option<Text>,
}

/// Where an action may run: on a worker, on the remote executor, or on both at once.
#[derive(Clone, Copy, PartialEq, Eq)]
pub enum Strategy {
    Worker,
    Remote,
    Dynamic,
}
