//! The queues of the kernel: the calls and receivers of ports, the owners and waiters of mutexes, and the clients of
//! servers (4.6, 6.1).
//!
//! A thread is in at most one queue, and every call except `list_waiters` and `owners` takes a constant number of
//! steps. `Queues::new` allocates all memory, so no other call can fail.
//!
//! Its tests stand in `lot_kernel_tests`.
#![tactic(auto)]

pub mod laws;
mod layout;
mod queues;

pub use queues::{Queues, TakenCall};
