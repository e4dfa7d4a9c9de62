//! Explains a play: the output of `play` with the lots of each won lottery before its line. The lots are the entrants,
//! with their weights and their ranges of numbers, so a reader can check each draw by hand. In timed style a
//! compensated thread's lot gives the reason for its weight, and each blocked thread has a line with its loan.
//!
//! Its tests stand in `lot_system_tests`.
#![tactic(auto)]

mod detail;
mod entrants;
mod explained;
mod explaining;
mod funding;
mod gathering;
pub mod laws;
mod lines;
mod loans;
pub mod rows;
mod won;

pub use detail::Detail;
pub use explaining::{explain_bytes, explain_program};
