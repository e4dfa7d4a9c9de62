//! An interval of time.

/// An interval of a run's time. It is empty if it ends at its beginning or before.
#[derive(Clone, Copy, Debug, PartialEq, Eq)]
pub struct Interval {
    /// The tick at which it begins.
    pub from: u64,
    /// The tick at which it ends, or `None` for the end of the last turn.
    pub to: Option<u64>,
}
