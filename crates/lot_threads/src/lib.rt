//! The threads of a kernel, and everything that follows from their records: the live threads and lends in the funding
//! graph, the competitors in draws, and the thread on each processor.
//!
//! `Threads` updates all of these together, so that a thread's record changes by one call, `Threads::change`. Only
//! `Threads::new` allocates.
//!
//! Its tests stand in `lot_kernel_tests`.
#![tactic(auto)]

mod effect;
mod following;
mod moves;
mod runners;
mod threads;

pub use effect::TrapEffect;
pub use runners::Runner;
pub use threads::Threads;
