//! Styles of printed lines.

/// The style of the lines printed for a turn.
#[derive(Clone, Copy, Debug, PartialEq, Eq)]
pub enum LineStyle {
    /// Values are whole numbers, for inputs of `lottery 1` and `lottery 2`.
    Whole,
    /// The line begins with this time, in ticks, and values have digits after the point, for inputs of `lottery 3`.
    Timed(u32),
}
