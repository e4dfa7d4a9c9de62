//! Diagnostics for the author of an input: why it was refused, with the line, the word in question and the expectation;
//! or the warnings of a run, and why it may show little.
//!
//! The proofs show only safety and termination; the tests of `lot_system_tests` and `lot_command_tests` check the text.
#![tactic(auto)]

mod limit;
mod lines;
mod message;
mod notes;
mod reason;
mod refusals;
mod stuck;
mod traps;
mod unmade;
mod warnings;

pub use lines::{Location, line_of_command};
pub use notes::{Asked, write_no_thread, write_notes};
pub use refusals::{line_to_skip, write_words};
pub use warnings::write_warnings;
