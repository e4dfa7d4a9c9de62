//! The kernel: a library that takes events, such as commands, draws and traps, and returns the reply that the paper's
//! machine gives to each.
//!
//! Its tests stand in `lot_kernel_tests`.
#![tactic(auto)]

mod counts;
mod ending;
mod free_places;
mod freed;
mod kernel;
mod leads;
mod names;
mod settled;
mod tables;

pub use kernel::Kernel;
pub use lot_graph::Above;
pub use lot_kept::Stack;
pub use lot_machine::{
    Action, Command, CurrencyNumber, CurrencyRef, CurrencyRow, Event, Kind, Limits, MutexNumber,
    Name, Outcome, Processor, Refusal, Reply, Sizes, Status, Target, TargetRef, ThreadNumber,
    ThreadRef, ThreadRow, TicketNumber, TicketRow, TrapRefusal,
};
pub use lot_threads::Runner;
pub use lot_value::Meter;
pub use settled::Settled;
