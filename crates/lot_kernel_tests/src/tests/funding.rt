//! One module for each of `lot_graph`, `lot_active`, `lot_lists` and `lot_tree`, for the stale nodes of `lot_value`,
//! and for the generator and the lottery of `lot_draw`.

mod above;
mod active;
mod generator;
mod graph;
mod lists;
mod lottery;
mod required;
mod tree;
mod value;
