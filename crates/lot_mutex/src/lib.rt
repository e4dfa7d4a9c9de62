//! Lottery mutexes, with the lends of waiters to a mutex's owner (6.1).
//!
//! `lock` and `unlock` take the threads and the queues by reference, and change both according to the machine's
//! definitions. The thread that makes the trap remains Running: the function returns its disposition as an `After`. A
//! `Lottery` holds a lottery over the waiters' values, with scratch memory for it; only `Lottery::new` allocates.
//! `pass_all_on` passes on the mutexes of a killed thread.
//!
//! Its tests stand in `lot_kernel_tests`.
#![tactic(auto)]

mod checks;
mod leaving;
mod lottery;
mod mutexes;

pub use checks::{are_waiting, have_same_owners};
pub use leaving::pass_all_on;
pub use lottery::Lottery;
pub use mutexes::{lock, unlock};
