//! The faults of turns.
use crate::turn::Work;
use thiserror::Error;

/// The reason why the system doesn't make a turn. A fault changes nothing.
#[derive(Debug, Drop, Error)]
pub enum TurnFault {
    /// The slice isn't that of the actor's work. The fault carries the work.
    #[error("the slice isn't that of the actor's work")]
    Stale(Option<Work>),
    /// The actor is the console, and no command remains.
    #[error("no command is left")]
    Ended,
    /// The history is full.
    #[error("the history is full")]
    HistoryFull,
}
