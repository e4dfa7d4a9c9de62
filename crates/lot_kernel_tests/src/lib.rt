//! Tests of `lot_kernel` and all crates below it. `funding`: lists, trees, graphs, activity, values and draws;
//! `threads`: threads, calls, locks and queues; the others: rows of events with their replies, the reads of draws,
//! unlocks and rows, and generated events. They are a crate of their own, so that the tested crates aren't proved a second time for them.
//! `commands`, which the crates of tests above use as well, has commands from text and from one argument of each kind.
#![tactic(auto)]

mod commands;
#[cfg(test)]
mod tests;

pub use commands::{OneOfEach, command_with};
