//! One module for each of `lot_threads`, `lot_ports`, `lot_mutex` and `lot_queues`, and their helpers.

mod helpers;
mod mutexes;
mod ports;
mod queues;
mod threads;
