/// One call of a lane with its reply, in a history or a journal. The type has no bound, so that any
/// contract may use it.
#[derive(Drop)]
pub struct Entry<C, R> {
    /// The number of the lane that called.
    pub lane: u32,
    /// The call.
    pub call: C,
    /// The reply.
    pub reply: R,
}
