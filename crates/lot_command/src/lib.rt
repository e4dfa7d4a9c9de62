//! The program as a function of its words, its inputs and its outputs: the requests of command lines, diagnostics in
//! words, and the exit status. `main` of `lot_sim` adds the terminal and the files.
//!
//! Its tests stand in `lot_command_tests`.
#![tactic(auto)]

mod command_line;
mod diagnostics;
mod exit_status;
pub mod laws;
mod run;
mod schedule;
mod source;
mod view;

pub use exit_status::{status, unread_status};
pub use run::{InputRunFault, run_bytes};
pub use source::Inputs;
