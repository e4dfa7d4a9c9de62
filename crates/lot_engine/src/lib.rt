//! The engine: a simulated system of a console with commands, processors with generators, and threads with scripts.
//! It makes one turn at a time, records its actor, and counts it.
//!
//! Its tests stand in `lot_system_tests`.
#![tactic(auto)]

mod counts;
mod fault;
mod generators;
mod history;
mod known;
pub mod laws;
mod opening;
mod places;
mod slices;
mod system;
mod tickets;
mod turn;

pub use counts::Counts;
pub use fault::TurnFault;
pub use lot_kept::Stack;
pub use lot_kernel::Settled;
pub use slices::{slice_for, slice_in};
pub use system::System;
pub use turn::{Answer, Work};
