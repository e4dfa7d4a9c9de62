//! The subjects of a picture's lines: threads or currencies.

/// The subjects of a picture's lines. A line and its stretches have the number of their thread or currency.
#[derive(Clone, Copy, Debug, PartialEq, Eq)]
pub enum By {
    /// Threads: a turn has one stretch, that of its thread.
    Thread,
    /// Currencies other than base: a turn has one stretch with number 0, and one more for each currency that its thread
    /// stood below.
    Currency,
}
