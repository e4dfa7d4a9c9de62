//! Changes of a valued graph.

use lot_machine::{Lend, Ticket};

/// One change of the tickets, the currencies, a mutex's owner, or a thread, for `ValuedGraph::apply`.
#[derive(Clone, Copy, Debug, PartialEq, Eq)]
pub enum GraphChange {
    /// A new ticket, which funds nothing. Its number is one more than the last.
    NewTicket(Ticket),
    /// A ticket that funds nothing, with the number of a removed one.
    ReuseTicket(u32, Ticket),
    /// Sets or clears a ticket's target. The ticket keeps its amount and issuer.
    PutTicket(u32, Ticket),
    /// Sets a ticket's amount, whether it funds something or not (3.2).
    SetAmount(u32, u32),
    /// Removes a ticket that funds nothing.
    DropTicket(u32),
    /// A new currency. Its number is one more than the last.
    NewCurrency,
    /// A currency with the number of a removed one.
    ReuseCurrency(u32),
    /// Removes a currency that has neither issued nor backing tickets.
    DropCurrency(u32),
    /// Gives a free mutex an owner, or frees a mutex, at which the lends of waiting threads then end (6.1).
    PutOwner(u32, Option<u32>),
    /// Passes a mutex from a live owner to another live thread (6.1). Both are backed before and after, so no node
    /// changes between active and inactive, and both are stale afterwards.
    MoveOwner { mutex: u32, owner: u32, next: u32 },
    /// Sets a thread's lend, and whether the thread is live.
    PutThread { thread: u32, lend: Lend, live: bool },
}
