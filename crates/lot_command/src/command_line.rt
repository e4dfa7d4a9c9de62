//! The command line: parsing the words of a call of the program, and the subcommands with their options.
//!
//! A contract says which intervals are empty. Otherwise the proofs show only safety and termination; the tests of
//! `lot_command_tests` check the requests.
mod parsing;
mod request;
mod subcommands;
mod tips;

pub use parsing::command_line_of;
pub use request::{CommandLine, Request, Showing, View};
