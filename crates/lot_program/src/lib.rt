//! Programs: a system, the console's commands, and the order of turns.
//!
//! Its tests stand in `lot_text_tests`.
#![tactic(auto)]

mod commands;
mod packed;
mod program;
mod seed;

pub use commands::{CommandList, Commands};
pub use program::{Parts, Program};
pub use seed::Seed;
