//! The competitors in draws, and the winner of one.
ghost use Rattle.lot_draw.specs.Competing.{HasTicks};

/// A competing thread's part in a draw.
#[derive(Clone, Copy, Debug, PartialEq, Eq)]
pub struct Competitor {
    /// The ticks of its quantum that the thread used before it yielded or blocked, if it left some (3.4, 4.5).
    pub compensation: Option<u32>,
}

/// The winner of a draw.
#[derive(Clone, Copy, Debug, PartialEq, Eq)]
pub struct Winner {
    /// The winner's number.
    pub thread: u32,
    /// The drawn number, below the total.
    pub number: u128,
    /// The sum of the weights.
    pub total: u128,
}
