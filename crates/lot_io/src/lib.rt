//! Reading and writing: readers and writers that remember a failure, the reading of an input, and one fault type for
//! both.
#![tactic(auto)]

mod fault;
mod input;
mod watched;
mod writing;

pub use fault::IoFault;
pub use input::read_input;
pub use watched::Watched;
pub use writing::{flush, write_bytes};

#[cfg(test)]
mod tests;
