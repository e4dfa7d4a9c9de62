//! Tests of the simulator: turns, reports and faults; `shown`: explanations, warnings, curves, tables and pictures;
//! `stations`: seats of one thread and of many, and workers; `sizes`: inputs, kernels, systems and stations at their
//! least and largest sizes; and runs in which an allocation fails. They are a crate of their own, so that the tested
//! crates aren't proved a second time for them.
#![tactic(auto)]

#[cfg(test)]
mod tests;
