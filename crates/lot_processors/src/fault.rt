//! Faults that stop workers early.

use lot_engine::TurnFault;
use thiserror::Error;

/// The reason why the run is incomplete. All workers have stopped, and the seats count the turns made.
#[derive(Debug, Drop, Error)]
pub enum RunFault {
    /// A worker's turn failed. Of several workers' faults this is the lowest actor's.
    #[error("a worker's turn wasn't made: {0}")]
    Turn(TurnFault),
}
