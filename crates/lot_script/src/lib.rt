//! Scripts of simulated threads, and the slices of them that processors run.
//!
//! A `Script` means a list of marks, each worth one tick, and of traps. It ends with an exit trap. Loops are unrolled
//! in that list, never in memory. A `Place` is a thread's place in the list, with its accumulator. A `Slice` is the
//! thread's work from there within a budget of ticks.
//!
//! Its tests stand in `lot_text_tests`.
#![tactic(auto)]

mod builder;
pub mod laws;
mod open_loops;
mod passing;
mod place;
mod script;
mod slice;

pub use builder::ScriptBuilder;
pub use place::Place;
pub use script::Script;
pub use slice::{Slice, SliceDone};
