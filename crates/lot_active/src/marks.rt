//! The marks, the amounts and the worklist.
ghost use Rattle.std.specs.Prelude.{◌≡◌, ℕ, ◌+◌, ◌*◌, ◌^◌, ◌<◌, ◌||◌, IfOk, IfSome, IfNone, [], length, replicate};
ghost use Rattle.std.specs.Prelude.{false, nat_lt};
ghost use Rattle.lot_lists.specs.NodeLists.{nodes_of, HasSameSize, IsConsistent, empty_lists};
ghost use Rattle.lot_graph.specs.Places.{layout_of, node_count};
ghost use Rattle.lot_active.specs.Fundings.{graph_net};
ghost use Rattle.lot_active.specs.Held.{Held, IsSized, AllEmpty, Relists, NotesChange, MayMove, moved, Adjusts};
ghost use Rattle.lot_active.specs.Held.{SetsAwake, Settles, on_at, held_at};
ghost use Rattle.lot_active.specs.Spread.{Spreading, Crossing};

use crate::edge_ends::source_of_edge;
use lot_graph::Graph;
use lot_kept::Kept;
use lot_lists::{Lists, Nodes};
use std::alloc::{AllocError, Global};
use std::marker::Model;
use std::mem::size_of;

// The lists: nodes with changed marks before they are published, the same after it, and nodes with only another amount.
const PENDING: usize = 0;

const SWITCHED: usize = 1;

const ADJUSTED: usize = 2;

// The bytes of one node's mark and amount.
const MARK_BYTES: u64 = size_of::<bool>() as u64 + size_of::<u64>() as u64;

#[derive(Drop)]
pub(crate) struct Marks {
    awake: Kept<bool>,
    amounts: Kept<u64>,
    lists: Lists,
    // The number of edges along which changes have spread, for tests. No clause mentions it.
    passed: u64,
}

impl Model for Marks {
    ghost use Rattle.lot_active.specs.Held.{Held, IsSized};

    ghost Value = { Held };

    ghost view = { λ s. record { awake = s.awake.items; amounts = s.amounts.items; lists = s.lists } };

    ghost invariant = { λ s. IsSized (record { awake = s.awake.items; amounts = s.amounts.items; lists = s.lists }) };
}

impl Marks {
    pub(crate) fn new(alloc: Global, nodes: usize) -> Result<Self, AllocError>
        ensures made { IfOk result (λ made. made
            ≡ record { awake = replicate nodes false; amounts = replicate nodes 0; lists = empty_lists 3 nodes }) }
        ensures sized { IfOk result IsSized }
    {
        Ok(Marks {
            awake: Kept::filled(alloc, false, nodes)?,
            amounts: Kept::filled(alloc, 0, nodes)?,
            lists: Lists::new(alloc, 3, nodes)?,
            passed: 0,
        })
    }

    /// The number of bytes that `new` requests from the allocator.
    pub(crate) fn bytes(nodes: usize) -> u64
        requires few { nodes < 2 ^ 40 }
        ensures { result ≡ 21 * nodes + 24 }
    {
        MARK_BYTES * nodes as u64 + Lists::bytes(3, nodes)
    }

    /// The capacity in bytes: always exactly what `new` requested.
    pub(crate) fn held(&self) -> u64
        ensures { result ≡ 21 * length self.now.amounts + 24 }
    {
        size_of::<bool>() as u64 * self.awake.room() as u64
            + size_of::<u64>() as u64 * self.amounts.room() as u64
            + self.lists.held()
    }

    pub(crate) fn is_on(&self, node: usize) -> bool
        requires node { node < length self.now.amounts }
        ensures mark { result ≡ on_at self.now node }
        ensures sized { IsSized self.now }
    {
        self.awake[node] || self.amounts[node] > 0
    }

    pub(crate) fn amount(&self, node: usize) -> u64
        requires node { node < length self.now.amounts }
        ensures { result ≡ held_at self.now node }
    {
        self.amounts[node]
    }

    pub(crate) fn passed(&self) -> u64 {
        self.passed
    }

    pub(crate) fn switched(&self) -> Nodes<'_>
        ensures { result ≡ nodes_of self.now.lists 1 }
    {
        self.lists.iter(SWITCHED)
    }

    pub(crate) fn adjusted(&self) -> Nodes<'_>
        ensures { result ≡ nodes_of self.now.lists 2 }
    {
        self.lists.iter(ADJUSTED)
    }

    /// Empties the lists of nodes changed by the last call.
    pub(crate) fn clear(&mut self)
        requires pending { nodes_of self.old.lists 0 ≡ [] }
        ensures awake { self.new.awake ≡ self.old.awake }
        ensures amounts { self.new.amounts ≡ self.old.amounts }
        ensures empty { AllEmpty self.new.lists }
        ensures sized { IsSized self.new }
    {
        clear(&mut self.lists, SWITCHED);
        clear(&mut self.lists, ADJUSTED);
    }

    pub(crate) fn set_awake(&mut self, node: usize, awake: bool)
        requires node { node < length self.old.amounts }
        ensures sets { SetsAwake self.old self.new node awake }
    {
        let amount = self.amounts[node];
        let was = is_marked(self.awake[node], amount);
        self.awake[node] = awake;
        // Computed from the values read before the write, so that nothing is read twice.
        if is_marked(awake, amount) != was {
            relist(&mut self.lists, node, PENDING);
        }
    }

    /// Adds one edge's amount to a node's, or subtracts it.
    pub(crate) fn adjust(&mut self, node: usize, amount: u32, on: bool)
        requires node { node < length self.old.amounts }
        requires may { MayMove on (held_at self.old node) amount }
        ensures adjusts { Adjusts self.old self.new node amount on }
    {
        let awake = self.awake[node];
        let before = self.amounts[node];
        let after = shifted(before, amount, on);
        self.amounts[node] = after;
        let was = is_marked(awake, before);
        let is = is_marked(awake, after);
        note(&mut self.lists, node, was, is);
        self.passed = self.passed.saturating_add(1);
    }

    /// Takes the next node whose mark isn't published, if there is one, and lists it as published.
    #[inline(always)]
    fn take_pending(&mut self) -> Option<usize>
        ensures none { IfNone result (nodes_of self.old.lists 0 ≡ []) }
        ensures unchanged { IfNone result (self.new ≡ self.old) }
        ensures some { IfSome result (Settles self.old self.new) }
        ensures within { IfSome result (λ node. node < length self.old.amounts) }
    {
        let node = self.lists.first(PENDING)?;
        relist(&mut self.lists, node, SWITCHED);
        Some(node)
    }

    /// Publishes a node's mark: the edges into it count, or stop counting.
    #[inline(always)]
    fn publish(&mut self, graph: &Graph, node: usize, on: bool)
        requires nodes { length self.old.amounts ≡ node_count (layout_of graph.now) }
        requires node { node < node_count (layout_of graph.now) }
        requires sized { IsSized self.old }
        requires crossing { (seed : ℕ) × (was : Held) × Crossing (graph_net graph.now) seed on was self.old node [] }
        ensures spreads { (seed : ℕ) (was : Held) → Crossing (graph_net graph.now) seed on was self.old node []
            → Spreading (graph_net graph.now) seed on was self.new }
        ensures switched { nodes_of self.new.lists 1 ≡ nodes_of self.old.lists 1 }
        ensures awake { self.new.awake ≡ self.old.awake }
        ensures size { length self.new.amounts ≡ length self.old.amounts }
        ensures sized { IsSized self.new }
    {
        let layout = graph.layout();
        for edge in graph.edges_into(layout.node_of(node)) {
            let Some(source) = source_of_edge(graph, edge) else {
                unreachable!()
            };
            self.adjust(source.place, source.amount, on);
        }
    }

    /// Publishes marks until all are published.
    #[inline(always)]
    pub(crate) fn propagate(&mut self, graph: &Graph, on: bool)
        requires nodes { length self.old.amounts ≡ node_count (layout_of graph.now) }
        requires sized { IsSized self.old }
        requires spreading { (seed : ℕ) × (was : Held) × Spreading (graph_net graph.now) seed on was self.old }
        ensures spreads { (seed : ℕ) (was : Held) → Spreading (graph_net graph.now) seed on was self.old
            → Spreading (graph_net graph.now) seed on was self.new }
        ensures pending { nodes_of self.new.lists 0 ≡ [] }
        ensures awake { self.new.awake ≡ self.old.awake }
        ensures size { length self.new.amounts ≡ length self.old.amounts }
        ensures sized { IsSized self.new }
    {
        while let Some(node) = self.take_pending() {
            self.publish(graph, node, on);
        }
    }
}

/// A node's mark, given whether it is awake, and its amount.
fn is_marked(awake: bool, amount: u64) -> bool
    ensures { result ≡ (awake || nat_lt 0 amount) }
{
    awake || amount > 0
}

/// A sum after adding or subtracting one edge's amount.
fn shifted(sum: u64, amount: u32, on: bool) -> u64
    requires may { MayMove on sum amount }
    ensures { result ≡ moved on sum amount }
{
    if on {
        sum + u64::from(amount)
    } else {
        sum - u64::from(amount)
    }
}

/// Empties a list.
fn clear(lists: &mut Lists, list: usize)
    requires list { list < length lists.old.lists }
    ensures empty { nodes_of lists.new list ≡ [] }
    ensures others { (other : ℕ) → ¬ (other ≡ list) → nodes_of lists.new other ≡ nodes_of lists.old other }
    ensures size { HasSameSize lists.old lists.new }
    ensures consistent { IsConsistent lists.new }
{
    while let Some(node) = lists.first(list) {
        lists.remove(node);
    }
}

/// Moves a node from its list, if it is in one, into another.
fn relist(lists: &mut Lists, node: usize, list: usize)
    requires node { node < lists.old.nodes }
    requires list { list < length lists.old.lists }
    ensures relists { Relists lists.old lists.new node list }
    ensures size { HasSameSize lists.old lists.new }
    ensures consistent { IsConsistent lists.new }
{
    match lists.list_of(node) {
        Some(_) => {
            lists.remove(node);
            lists.push_back(list, node);
        }
        None => lists.push_back(list, node),
    }
}

/// Lists a node whose amount changed, according to its old and new mark.
fn note(lists: &mut Lists, node: usize, was: bool, is: bool)
    requires node { node < lists.old.nodes }
    requires lists { length lists.old.lists ≡ 3 }
    ensures notes { NotesChange lists.old lists.new node was is }
    ensures size { HasSameSize lists.old lists.new }
    ensures consistent { IsConsistent lists.new }
{
    if was != is {
        relist(lists, node, PENDING);
    } else if lists.list_of(node).is_none() {
        lists.push_back(ADJUSTED, node);
    }
}
