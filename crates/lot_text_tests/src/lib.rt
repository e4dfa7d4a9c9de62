//! Tests of `lot_script`, `lot_text`, `lot_print` and `lot_diagnostics`: slices of scripts, accepted and refused inputs,
//! printed texts, and words about refused inputs. They are a crate of their own, so that those four aren't proved a
//! second time for them.
#![tactic(auto)]

mod faults;
#[cfg(test)]
mod tests;

pub use faults::fault_of;
