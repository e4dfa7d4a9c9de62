//! Ports: calls, receives and replies, with the lends of clients to the thread that serves them (4.6).
//!
//! Each function takes the threads and the queues by reference, and changes both according to the machine's
//! definitions. None allocates, and none computes a value. The thread that makes the trap remains Running: the function
//! returns its disposition as an `After`. `release_clients` ends the calls of a killed server's clients.
//!
//! Its tests stand in `lot_kernel_tests`.
#![tactic(auto)]

mod ports;

pub use ports::{call, receive, release_clients, reply, serve};
