//! Curves: the ticks and the draws of each thread over time, or the ticks below each currency, computed from the turns
//! of a run.
//!
//! Its tests stand in `lot_system_tests`.
#![tactic(auto)]

mod by;
mod curves;
mod interval;
pub mod laws;
mod stretch;

pub use by::By;
pub use curves::Curves;
pub use interval::Interval;
pub use stretch::{Measure, Stretch, had_by, had_in, start_of};
