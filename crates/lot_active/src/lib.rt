//! Active tickets and threads, and each currency's active amount, updated incrementally (4.4).
//!
//! A node of the graph is active if a path of edges, perhaps empty, leads from it to a live thread. An edge is active
//! if its target is. A change spreads against the edges, node by node, from a worklist of linked lists. So only `new`
//! allocates, and each call reads the edges into a node at most once.
//!
//! Its tests stand in `lot_kernel_tests`.
#![tactic(auto)]

mod active;
mod changed;
mod edge_ends;
pub mod laws;
mod marks;

pub use active::Active;
pub use changed::ChangedNodes;
pub use edge_ends::{EdgeEnds, ends_of_edge, funded_node, lent_node};
