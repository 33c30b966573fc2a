use exec_journal::Call;

/// The reason why a lane halts. It is always lack of memory.
#[derive(Drop)]
pub enum ProxyHalt {
    /// Memory ran out for the next step. All steps before went well.
    NoMemory,
    /// Memory ran out for the entry of this call. The work that it reports is done.
    Refused(Call),
}
