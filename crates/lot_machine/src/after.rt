//! A thread's disposition after its trap.

use crate::Status;

/// The effect of a trap on the thread that made it: it runs on, leaves its processor, or ends.
#[derive(Clone, Copy, Debug, PartialEq, Eq)]
pub enum After {
    /// It runs on, unless its quantum is used up.
    GoesOn,
    /// It yields or blocks, with this status afterwards.
    Leaves(Status),
    /// It has ended.
    Ends,
}
