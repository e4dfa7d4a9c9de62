//! The result of a lottery.

/// The winner of a lottery, with the drawn number and the total (2, 4.2).
#[derive(Clone, Copy, Debug, PartialEq, Eq)]
pub struct Drawn {
    /// The winner's index in the list of weights, from 0.
    pub place: usize,
    /// The drawn number, below the total.
    pub number: u128,
    /// The sum of the weights.
    pub total: u128,
}
