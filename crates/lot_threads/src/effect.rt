//! The effect of a trap.

use lot_machine::{After, Outcome};

/// A trap's outcome, and the disposition of the thread that made it.
#[derive(Clone, Copy, Debug)]
pub struct TrapEffect {
    pub outcome: Outcome,
    pub after: After,
}
