//! A call that was answered.

/// A call with its reply. It exists only in contracts.
pub struct Operation<C, R> {
    /// The number of the caller: of a turn, that of the pass.
    pub by: u64,
    /// The call.
    pub call: C,
    /// The reply of the machine.
    pub reply: R,
}
