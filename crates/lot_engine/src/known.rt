//! Facts for the prover.

/// Does nothing at run time. Its argument brings facts into the proof: a call's contract, or for the read of a field
/// the system's invariant and the range of the number's type.
#[inline(always)]
pub(crate) fn known<T: Copy>(_told: T) {}
