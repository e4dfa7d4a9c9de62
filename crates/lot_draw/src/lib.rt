//! Lotteries: the weights of threads, the winners, and the generators of drawn numbers.
//!
//! A `RunQueue` holds each thread's part in a draw, and the weights of the competitors in a tree of partial sums.
//! `RunQueue::set_competitor` and `RunQueue::settle` write nothing to the tree: they list the threads whose weight may
//! have to change. `RunQueue::draw` settles stale nodes, sets the weights of the listed threads, and visits the tree
//! once. Only `RunQueue::new` allocates.
//!
//! Its tests stand in `lot_kernel_tests`.
#![tactic(auto)]

mod competing;
mod generator;
pub mod laws;
mod lottery;
mod run_queue;

pub use competing::{Competitor, Winner};
pub use generator::{ParkMiller, mixed_seed};
pub use lottery::{weight, winner};
pub use run_queue::RunQueue;
