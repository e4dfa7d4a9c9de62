//! Parsing of inputs.
//!
//! Its tests stand in `lot_text_tests`.
#![tactic(auto)]

mod body;
mod commands;
mod fault;
mod header;
mod input;
mod name;
mod number;
mod reading;
mod runs;
mod script_lines;
mod ticket;
mod tokens;

pub use fault::ParseFault;
pub use input::{parse, parse_seeded};
pub use lot_io::Watched;
pub use lot_program::Program;
