//! The values of currencies, threads and mutexes (4.4), cached, and recomputed only when stale.
//!
//! `Values::touch` makes a node and all nodes downstream of it stale. `Values::settle` recomputes the values of the
//! stale nodes in an order along the edges, so that it reads each edge into a stale node once, and counts these reads.
//!
//! A `ValuedGraph` holds a graph, its activity and its values together. `ValuedGraph::apply` makes one `GraphChange`,
//! and makes stale the nodes that depend on it. Only `new` allocates.
//!
//! Its tests stand in `lot_kernel_tests`.
#![tactic(auto)]

mod change;
mod edges;
pub mod laws;
mod marking;
mod meter;
mod readings;
mod reissuing;
mod relending;
mod settling;
mod touching;
mod valued_graph;
mod values;

pub use change::GraphChange;
pub use meter::Meter;
pub use valued_graph::ValuedGraph;
pub use values::Values;
