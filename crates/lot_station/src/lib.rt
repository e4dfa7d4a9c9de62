//! One system shared by many threads: under a lock, or as a baton that its seats pass around.
//!
//! Its tests stand in `lot_system_tests`.
#![tactic(auto)]

mod baton;
mod calls;
mod closing;
mod desk;
mod holding;
mod opening;
mod seat;
mod station;

pub use baton::{BatonSeat, BatonStation, SeatMissing};
pub use desk::TurnLedger;
pub use seat::Seat;
pub use station::{CloseFault, Station};
