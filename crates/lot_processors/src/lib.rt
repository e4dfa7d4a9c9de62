//! Worker threads: one for each processor of a shared system, and one for its console.
//!
//! Its tests stand in `lot_command_tests`.
#![tactic(auto)]

mod baton_workers;
mod fault;
mod free_runs;
mod gate;
mod later;
mod workers;

pub use baton_workers::run_all_baton;
pub use fault::RunFault;
pub use free_runs::{FreeRunFault, free_run};
pub use gate::{Gate, OpenGate};
pub use workers::run_all;
