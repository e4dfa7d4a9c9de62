//! The knowledge of a pass of the queue, as ghost values, which have no size at run time.

use lot_engine::System;
use std::collections::LinkedList;

/// The pass owns the actors from `from` to below `to`, and last saw the system like this.
pub struct Claim {
    pub from: u64,
    pub to: u64,
    pub seen: System,
}

/// Whether nothing has been pushed yet, the system that the pass holds, if any, and its claims.
pub struct View {
    pub fresh: bool,
    pub held: Option<System>,
    pub claims: LinkedList<Claim>,
}
