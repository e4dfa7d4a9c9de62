//! A funding graph together with its activity and its values.
ghost use Rattle.std.specs.Prelude.{◌≡◌, ◌+◌, ◌*◌, ◌<◌, ◌≤◌, ◌↔◌, ◌++◌, ◌∷◌, ◌≢◌, false, [], Some, None};
ghost use Rattle.std.specs.Prelude.{IfOk, IfSome, IfNone, IsTrue, length};
ghost use Rattle.lot_machine.specs.State.{holders, sizes_of};
ghost use Rattle.lot_machine.specs.declared.funding.Node.{Node as ANode};
ghost use Rattle.lot_machine.specs.declared.funding.Node.TheVariants.{Currency as CurrencyNode, Thread as ThreadNode};
ghost use Rattle.lot_machine.specs.declared.funding.Node.TheVariants.{Mutex as MutexNode};
ghost use Rattle.lot_machine.specs.declared.ticket.Ticket.{Ticket as ATicket};
ghost use Rattle.lot_machine.specs.declared.ticket.Target.{Target as ATarget};
ghost use Rattle.lot_machine.specs.declared.ticket.Target.TheVariants.{Unfunded};
ghost use Rattle.lot_machine.specs.Numbered.{at_number, set_number};
ghost use Rattle.lot_machine.specs.Funding.{edge_count_into, ticket_at, target_of, owner_of, with_amount, with_target};
ghost use Rattle.lot_machine.specs.Activity.{IsActive, active_amount};
ghost use Rattle.lot_machine.specs.Lends.{IsLive};
ghost use Rattle.lot_machine.specs.declared.funding.Lend.TheVariants.{Nobody};
ghost use Rattle.lot_machine.specs.Equations.{HasEquation, Reaches};
ghost use Rattle.lot_machine.specs.Value.{node_value, ticket_value};
ghost use Rattle.lot_graph.specs.Graphs.{IsNodeOf, IsThread, IsMutex, IsTarget, IsCycle};
ghost use Rattle.lot_graph.specs.Graphs.{IsFunding, IsLender, IsBorrower, LendReaches, opening_funding};
ghost use Rattle.lot_graph.specs.Places.{layout_of};
ghost use Rattle.lot_value.specs.Counts.{counted_up};
ghost use Rattle.lot_value.specs.Caches.{IsStale, IsOnce, Settles, edges_into_all, value_in};
ghost use Rattle.lot_value.specs.Valued.{FollowsGraph, FollowsLives};
ghost use Rattle.lot_value.specs.Changing.{CanApply, StaleBy, applied};
ghost use Rattle.lot_value.specs.declared.change.GraphChange.TheVariants.{NewTicket, PutTicket, DropTicket};
ghost use Rattle.lot_value.specs.declared.change.GraphChange.TheVariants.{NewCurrency, ReuseTicket, ReuseCurrency};
ghost use Rattle.lot_value.specs.declared.change.GraphChange.TheVariants.{DropCurrency, PutOwner};
ghost use Rattle.lot_graph.specs.Changes.{with_lends, with_owners, with_tickets};

use crate::change::GraphChange;
use crate::edges::{attach, detach};
use crate::reissuing::set_amount;
use crate::relending::put_thread;
use crate::touching::touch_listed;
use crate::values::Values;
use lot_active::{Active, ends_of_edge};
use lot_graph::{Graph, Layout};
use lot_machine::{Edge, Lend, Limits, Node, Target, Ticket};
use std::alloc::{AllocError, Global};
use std::marker::Model;

/// The tickets with their targets, the lends and the owners of mutexes; the live threads, and so the active tickets;
/// and the value of each currency, thread and mutex (4.4), if it isn't stale. Each change of the first two makes stale
/// the nodes that depend on it, and reads no edge for a value.
pub struct ValuedGraph {
    graph: Graph,
    active: Active,
    values: Values,
}

impl Drop for ValuedGraph {
    // An explicit drop: code that drops a `ValuedGraph` is then proved without unfolding its parts.
    fn drop(self) {
        let Self {
            graph: _,
            active: _,
            values: _,
        } = self;
    }
}

impl Model for ValuedGraph {
    ghost use Rattle.lot_value.specs.Valued.{Valued, live_of, AreTogether};

    ghost Value = { Valued };

    ghost view = { λ s. record { now = s.graph; live = live_of s.graph s.active; known = s.values } };

    ghost invariant = { λ s. AreTogether s.graph s.active s.values };
}

impl ValuedGraph {
    /// Base alone, free mutexes, no live thread, nothing stale, and counts of 0. It fails only if out of memory.
    pub fn new(alloc: Global, limits: &Limits) -> Result<Self, AllocError>
        ensures now { IfOk result (λ made. made.now
            ≡ record {
              funding = opening_funding (holders (sizes_of limits.now));
              ticket_limit = limits.now.tickets;
              currency_limit = limits.now.currencies;
              thread_limit = limits.now.threads;
            }) }
        ensures live { IfOk result (λ made. made.live ≡ []) }
        ensures unit { IfOk result (λ made. made.known.unit ≡ limits.now.unit) }
        ensures stale { IfOk result (λ made. made.known.stale ≡ []) }
        ensures reads { IfOk result (λ made. made.known.reads ≡ 0) }
    {
        let graph = Graph::new(alloc, limits)?;
        let active = Active::new(alloc, &graph)?;
        let values = Values::new(alloc, &graph, limits.unit)?;
        Ok(ValuedGraph {
            graph,
            active,
            values,
        })
    }

    /// The number of bytes that `new` requests from the allocator.
    pub fn bytes(limits: &Limits) -> u64
        ensures { result ≡ 40 * limits.now.tickets + 70 * limits.now.currencies + 81 * limits.now.threads
            + 81 * holders (sizes_of limits.now) + 110 }
    {
        let layout = Layout::of(limits);
        Graph::bytes(limits) + Active::bytes(layout) + Values::bytes(layout)
    }

    /// The capacity in bytes: always exactly what `new` requested.
    pub fn held(&self) -> u64
        ensures { result ≡ 40 * self.now.now.ticket_limit + 70 * self.now.now.currency_limit
            + 81 * self.now.now.thread_limit + 81 * length self.now.now.funding.owners + 110 }
    {
        // Its numbers are below 2^32, so the sum fits.
        let _layout = self.graph.layout();
        self.graph.held() + self.active.held() + self.values.held()
    }

    /// Makes one change, and makes stale the nodes that depend on it. It computes no value.
    #[inline(always)]
    pub fn apply(&mut self, change: GraphChange)
        requires allowed { CanApply self.old.now self.old.live change }
        ensures applied { self.new ≡ applied self.old change self.new.known.stale }
        ensures stale { StaleBy change self.old self.new }
    {
        match change {
            GraphChange::NewTicket(ticket) => self.new_ticket(ticket),
            GraphChange::ReuseTicket(number, ticket) => self.reuse_ticket(number, ticket),
            GraphChange::PutTicket(number, ticket) => self.put_ticket(number, ticket),
            GraphChange::SetAmount(number, amount) => set_amount(self, number, amount),
            GraphChange::DropTicket(number) => self.drop_ticket(number),
            GraphChange::NewCurrency => self.new_currency(),
            GraphChange::ReuseCurrency(currency) => self.reuse_currency(currency),
            GraphChange::DropCurrency(currency) => self.drop_currency(currency),
            GraphChange::PutOwner(mutex, owner) => self.put_owner(mutex, owner),
            GraphChange::MoveOwner { mutex, owner, next } => self.move_owner(mutex, owner, next),
            GraphChange::PutThread { thread, lend, live } => put_thread(self, thread, lend, live),
        }
    }

    #[inline(always)]
    fn new_ticket(&mut self, ticket: Ticket)
        requires allowed { CanApply self.old.now self.old.live (NewTicket ticket) }
        ensures applied { self.new ≡ applied self.old (NewTicket ticket) self.new.known.stale }
        ensures stale { StaleBy (NewTicket ticket) self.old self.new }
    {
        let _ = self.graph.issue(ticket.issuer, ticket.amount);
    }

    #[inline(always)]
    fn reuse_ticket(&mut self, number: u32, ticket: Ticket)
        requires allowed { CanApply self.old.now self.old.live (ReuseTicket number ticket) }
        ensures applied { self.new ≡ applied self.old (ReuseTicket number ticket) self.new.known.stale }
        ensures stale { StaleBy (ReuseTicket number ticket) self.old self.new }
    {
        self.graph.issue_again(number, ticket.issuer, ticket.amount);
    }

    #[inline(always)]
    fn put_ticket(&mut self, number: u32, ticket: Ticket)
        requires allowed { CanApply self.old.now self.old.live (PutTicket number ticket) }
        ensures applied { self.new ≡ applied self.old (PutTicket number ticket) self.new.known.stale }
        ensures stale { StaleBy (PutTicket number ticket) self.old self.new }
    {
        match ticket.target {
            Target::Unfunded => self.unfund(number),
            target => self.give(number, target),
        }
    }

    /// Gives a ticket that funds nothing a target: a user currency or a thread.
    #[inline(always)]
    pub(crate) fn give(&mut self, ticket: u32, target: Target)
        requires unfunded { target_of self.old.now.funding ticket ≡ Some Unfunded }
        requires target { IsTarget self.old.now.funding target }
        requires apart { ¬ IsCycle self.old.now.funding ticket target }
        ensures follows { FollowsGraph self.old self.new
            (with_tickets self.old.now (with_target self.old.now.funding.tickets ticket target)) }
    {
        self.graph.give(ticket, target);
        let edge = Edge::OfTicket(ticket);
        attach(&self.graph, &mut self.active, &mut self.values, edge);
    }

    /// Clears a ticket's target. The target itself stays.
    pub(crate) fn unfund(&mut self, ticket: u32)
        requires funding { IsFunding self.old.now.funding ticket }
        ensures follows { FollowsGraph self.old self.new
            (with_tickets self.old.now (with_target self.old.now.funding.tickets ticket Unfunded)) }
        ensures there { (to : ATarget) → target_of self.old.now.funding ticket ≡ Some to
            → IsTarget self.new.now.funding to }
    {
        let Some(ends) = ends_of_edge(&self.graph, Edge::OfTicket(ticket)) else {
            unreachable!()
        };
        self.graph.unfund(ticket);
        detach(&self.graph, &mut self.active, &mut self.values, ends);
    }

    /// Sets the amount of a ticket that funds nothing.
    #[inline(always)]
    pub(crate) fn reissue(&mut self, ticket: u32, amount: u32)
        requires unfunded { target_of self.old.now.funding ticket ≡ Some Unfunded }
        requires amount { 0 < amount }
        ensures follows { FollowsGraph self.old self.new
            (with_tickets self.old.now (with_amount self.old.now.funding.tickets ticket amount)) }
    {
        self.graph.set_amount(ticket, amount);
    }

    #[inline(always)]
    fn drop_ticket(&mut self, number: u32)
        requires allowed { CanApply self.old.now self.old.live (DropTicket number) }
        ensures applied { self.new ≡ applied self.old (DropTicket number) self.new.known.stale }
        ensures stale { StaleBy (DropTicket number) self.old self.new }
    {
        self.graph.destroy(number);
    }

    #[inline(always)]
    fn new_currency(&mut self)
        requires allowed { CanApply self.old.now self.old.live NewCurrency }
        ensures applied { self.new ≡ applied self.old NewCurrency self.new.known.stale }
        ensures stale { StaleBy NewCurrency self.old self.new }
    {
        let _ = self.graph.make_currency();
    }

    #[inline(always)]
    fn reuse_currency(&mut self, currency: u32)
        requires allowed { CanApply self.old.now self.old.live (ReuseCurrency currency) }
        ensures applied { self.new ≡ applied self.old (ReuseCurrency currency) self.new.known.stale }
        ensures stale { StaleBy (ReuseCurrency currency) self.old self.new }
    {
        self.graph.make_currency_again(currency);
    }

    #[inline(always)]
    fn drop_currency(&mut self, currency: u32)
        requires allowed { CanApply self.old.now self.old.live (DropCurrency currency) }
        ensures applied { self.new ≡ applied self.old (DropCurrency currency) self.new.known.stale }
        ensures stale { StaleBy (DropCurrency currency) self.old self.new }
    {
        self.graph.remove_currency(currency);
    }

    #[inline(always)]
    fn put_owner(&mut self, mutex: u32, owner: Option<u32>)
        requires allowed { CanApply self.old.now self.old.live (PutOwner mutex owner) }
        ensures applied { self.new ≡ applied self.old (PutOwner mutex owner) self.new.known.stale }
        ensures stale { StaleBy (PutOwner mutex owner) self.old self.new }
    {
        match owner {
            Some(owner) => self.take_mutex(mutex, owner),
            None => self.give_up_mutex(mutex),
        }
    }

    /// Frees a mutex, at which the lends of waiting threads then end (6.1). A free mutex stays free.
    fn give_up_mutex(&mut self, mutex: u32)
        requires mutex { IsMutex self.old.now.funding mutex }
        ensures follows { FollowsGraph self.old self.new
            (with_owners self.old.now (set_number self.old.now.funding.owners mutex None)) }
    {
        let Some(ends) = ends_of_edge(&self.graph, Edge::OfMutex(mutex)) else {
            return;
        };
        self.graph.give_up_mutex(mutex);
        detach(&self.graph, &mut self.active, &mut self.values, ends);
    }

    /// Makes a thread the owner of a free mutex that it doesn't reach. The lends of waiting threads then go on to it
    /// (6.1).
    fn take_mutex(&mut self, mutex: u32, owner: u32)
        requires mutex { IsMutex self.old.now.funding mutex }
        requires free { owner_of self.old.now.funding mutex ≡ None }
        requires owner { IsThread self.old.now.funding owner }
        requires apart { ¬ Reaches self.old.now.funding (ThreadNode owner) (MutexNode mutex) }
        ensures follows { FollowsGraph self.old self.new
            (with_owners self.old.now (set_number self.old.now.funding.owners mutex (Some owner))) }
    {
        self.graph.take_mutex(mutex, owner);
        let edge = Edge::OfMutex(mutex);
        attach(&self.graph, &mut self.active, &mut self.values, edge);
    }

    /// Passes a mutex from its live owner to another live thread that doesn't reach it (6.1).
    fn move_owner(&mut self, mutex: u32, owner: u32, next: u32)
        requires mutex { IsMutex self.old.now.funding mutex }
        requires owner { owner_of self.old.now.funding mutex ≡ Some owner }
        requires next { IsThread self.old.now.funding next }
        requires other { owner ≢ next }
        requires live { IsLive self.old.live owner × IsLive self.old.live next }
        requires apart { ¬ Reaches self.old.now.funding (ThreadNode next) (MutexNode mutex) }
        ensures follows { FollowsGraph self.old self.new
            (with_owners self.old.now (set_number self.old.now.funding.owners mutex (Some next))) }
        ensures owners { IsStale self.new.known (ThreadNode owner) × IsStale self.new.known (ThreadNode next) }
    {
        let graph = &mut self.graph;
        graph.give_up_mutex(mutex);
        graph.take_mutex(mutex, next);
        self.values.touch(&self.graph, Node::Thread(owner));
        self.values.touch(&self.graph, Node::Thread(next));
    }

    /// Makes a thread, which isn't live and lends to nobody. Its number is one more than the last.
    pub fn add_thread(&mut self)
        requires room { length self.old.now.funding.lends < self.old.now.thread_limit }
        ensures added { self.new.now ≡ with_lends self.old.now (self.old.now.funding.lends ++ Nobody ∷ []) }
        ensures live { self.new.live ≡ self.old.live ++ false ∷ [] }
        ensures known { self.new.known ≡ self.old.known }
    {
        self.graph.add_thread();
    }

    /// Makes a thread live, or ends that.
    #[inline(always)]
    pub fn set_live(&mut self, thread: u32, live: bool)
        requires thread { IsThread self.old.now.funding thread }
        ensures follows { FollowsLives self.old self.new (set_number self.old.live thread live) }
    {
        self.active.set_live(&self.graph, thread, live);
        touch_listed(&self.graph, &self.active, &mut self.values);
    }

    /// Makes a thread lend to another thread or a mutex, from which no path leads back to it.
    pub(crate) fn lend(&mut self, thread: u32, lend: Lend)
        requires nobody { at_number self.old.now.funding.lends thread ≡ Some Nobody }
        requires borrower { IsBorrower self.old.now.funding lend }
        requires apart { ¬ LendReaches self.old.now.funding lend thread }
        ensures follows { FollowsGraph self.old self.new
            (with_lends self.old.now (set_number self.old.now.funding.lends thread lend)) }
    {
        self.graph.lend(thread, lend);
        let edge = Edge::OfLender(thread);
        attach(&self.graph, &mut self.active, &mut self.values, edge);
    }

    /// Ends a thread's lend.
    pub(crate) fn unlend(&mut self, thread: u32)
        requires lender { IsLender self.old.now.funding thread }
        ensures follows { FollowsGraph self.old self.new
            (with_lends self.old.now (set_number self.old.now.funding.lends thread Nobody)) }
    {
        let Some(ends) = ends_of_edge(&self.graph, Edge::OfLender(thread)) else {
            unreachable!()
        };
        self.graph.unlend(thread);
        detach(&self.graph, &mut self.active, &mut self.values, ends);
    }

    /// Whether the ticket would make a cycle by funding the target (4.4).
    pub fn would_cycle(&mut self, ticket: u32, target: Target) -> bool
        requires unfunded { target_of self.old.now.funding ticket ≡ Some Unfunded }
        requires target { IsTarget self.old.now.funding target }
        ensures cycle { IsTrue result ↔ IsCycle self.old.now.funding ticket target }
        ensures unchanged { self.new ≡ self.old }
    {
        self.graph.would_cycle(ticket, target)
    }

    /// The graph, read-only.
    pub fn graph(&self) -> &Graph
        ensures { result.now ≡ self.now.now }
    {
        &self.graph
    }

    /// Whether a ticket is active (4.4): its target is backed.
    pub fn is_active(&self, ticket: u32) -> bool
        ensures { IsTrue result ↔ IsActive self.now.now.funding self.now.live ticket }
    {
        match self.graph.ticket(ticket) {
            Some(record) => self.active.is_active(record.target),
            None => false,
        }
    }

    /// The sum of the amounts of the active tickets of a currency (4.4), in tickets of the currency.
    pub fn active_amount(&self, currency: u32) -> u64
        requires currency { currency ≤ self.now.now.currency_limit }
        ensures { result ≡ active_amount self.now.now.funding self.now.live currency }
    {
        self.active.active_amount(currency)
    }

    /// Whether a path of edges, perhaps empty, leads from one node to another.
    pub fn reaches(&mut self, from: Node, to: Node) -> bool
        requires from { IsNodeOf self.old.now from }
        requires to { IsNodeOf self.old.now to }
        ensures reaches { IsTrue result ↔ Reaches self.old.now.funding from to }
        ensures unchanged { self.new ≡ self.old }
    {
        self.graph.reaches(from, to)
    }

    /// Whether a node is stale.
    pub fn is_stale(&self, node: Node) -> bool
        requires node { IsNodeOf self.now.now node }
        ensures { IsTrue result ↔ IsStale self.now.known node }
    {
        self.values.is_stale(node)
    }

    /// Whether no node is stale.
    pub fn is_settled(&self) -> bool
        ensures { IsTrue result ↔ (self.now.known.stale ≡ []) }
    {
        self.values.is_settled()
    }

    /// A node's value (4.4), if it isn't stale.
    pub fn value_of(&self, node: Node) -> u64
        requires node { IsNodeOf self.now.now node }
        ensures worth { ¬ IsStale self.now.known node → HasEquation self.now.now.funding node
            → result ≡ node_value self.now.known.unit self.now.now.funding self.now.live node }
    {
        self.values.value_of(node)
    }

    /// A ticket's value (4.4), in base units, if its issuer isn't stale. It counts one read of a ticket that funds
    /// something. A ticket that funds nothing is worth 0.
    pub fn ticket_value(&mut self, ticket: u32) -> u64
        requires fresh { (t : ATicket) → ticket_at self.old.now.funding ticket ≡ Some t
            → ¬ IsStale self.old.known (CurrencyNode t.issuer) }
        ensures worth { (t : ATicket) → ticket_at self.old.now.funding ticket ≡ Some t
            → result ≡ ticket_value self.old.known.unit self.old.now.funding self.old.live t }
        ensures counted { IsFunding self.old.now.funding ticket
            → self.new ≡ record self.old {
              known = record self.old.known {
                reads = counted_up self.old.known.reads 1;
              };
            } }
        ensures uncounted { ¬ IsFunding self.old.now.funding ticket → self.new ≡ self.old }
    {
        self.values.ticket_value(&self.graph, &self.active, ticket)
    }

    /// A ticket's value (4.4), in base units, if nothing is stale. A ticket that funds nothing is worth 0. It counts no
    /// read.
    pub fn settled_ticket_value(&self, ticket: u32) -> u64
        requires settled { self.now.known.stale ≡ [] }
        ensures { (t : ATicket) → ticket_at self.now.now.funding ticket ≡ Some t
            → result ≡ ticket_value self.now.known.unit self.now.now.funding self.now.live t }
    {
        self.values
            .settled_ticket_value(&self.graph, &self.active, ticket)
    }

    /// The number of edges read for values. The count saturates at the largest `u64`.
    pub fn reads(&self) -> u64
        ensures { result ≡ self.now.known.reads }
    {
        self.values.reads()
    }

    /// Recomputes the values of all stale nodes. Counts each edge into a stale node once.
    pub fn settle(&mut self)
        ensures now { self.new.now ≡ self.old.now }
        ensures live { self.new.live ≡ self.old.live }
        ensures unit { self.new.known.unit ≡ self.old.known.unit }
        ensures settled { self.new.known.stale ≡ [] }
        ensures once { IsOnce self.old.known }
        ensures counted { self.new.known.reads
            ≡ counted_up self.old.known.reads (edges_into_all self.old.now.funding self.old.known.stale) }
    {
        self.values.settle(&self.graph, &self.active);
    }

    /// Recomputes the value of one stale node and returns the node, or `None` if no node is stale. Counts each edge
    /// into it.
    #[inline(always)]
    pub fn settle_next(&mut self) -> Option<Node>
        ensures now { self.new.now ≡ self.old.now }
        ensures live { self.new.live ≡ self.old.live }
        ensures layout { self.new.known.layout ≡ layout_of self.new.now }
        ensures worth { (node : ANode) → IsNodeOf self.new.now node → ¬ IsStale self.new.known node
            → HasEquation self.new.now.funding node
            → value_in self.new.known node ≡ node_value self.new.known.unit self.new.now.funding self.new.live node }
        ensures node { IfSome result (HasEquation self.old.now.funding) }
        ensures within { IfSome result (IsNodeOf self.old.now) }
        ensures once { IsOnce self.old.known }
        ensures settles { IfSome result (Settles self.old.known self.new.known) }
        ensures counted { IfSome result (λ node. self.new.known.reads
            ≡ counted_up self.old.known.reads (edge_count_into self.old.now.funding node)) }
        ensures none { IfNone result ((self.old.known.stale ≡ []) × (self.new ≡ self.old)) }
    {
        self.values.settle_next(&self.graph, &self.active)
    }
}
