//! The simulated system, and `play`, which makes the turns of a program and writes a line for each, the listings, and
//! the report. It re-exports the engine's `System` and the parser of inputs.
//!
//! Its tests stand in `lot_command_tests`.
#![tactic(auto)]

mod answers;
mod cells;
mod ending;
mod figures;
mod form;
mod inputs;
mod lack;
pub mod laws;
mod lines;
mod listing;
mod playing;
mod refused_traps;
mod report;
mod report_table;
mod reports;
pub mod rows;
mod seeds;
mod summary;
mod timed_report;
mod told;
mod warnings;

pub use answers::{heading, printed_actor, put_answer, style_of};
pub use ending::write_end;
pub use form::ReportForm;
pub use inputs::{Played, play, play_bytes, refuse};
pub use lines::play_program;
pub use lot_engine::{Answer, Counts, Stack, System, TurnFault, Work, slice_for, slice_in};
pub use lot_io::{IoFault as PlayFault, read_input};
pub use playing::play_through;
pub use report::write_report;
pub use reports::{end_play, note_last};
pub use seeds::{Seeds, report_seeds};
pub use summary::report_program;
pub use warnings::{note_end, note_turn};
