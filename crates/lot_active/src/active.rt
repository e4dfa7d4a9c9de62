//! The activity of a graph, given its live threads.
ghost use Rattle.std.specs.Prelude.{◌≡◌, ℕ, ◌<◌, ◌≤◌, ◌^◌, ◌↔◌, Bool, List, IfOk, IsTrue, Some, length, slice_set};
ghost use Rattle.std.specs.Prelude.{◌+◌, ◌*◌, false, true};
ghost use Rattle.lot_machine.specs.declared.funding.Edge.{Edge};
ghost use Rattle.lot_machine.specs.declared.funding.Node.TheVariants.{Thread as ThreadNode};
ghost use Rattle.lot_machine.specs.Numbered.{set_number};
ghost use Rattle.lot_machine.specs.Funding.{target_of};
ghost use Rattle.lot_machine.specs.Lends.{IsLive, IsBacked};
ghost use Rattle.lot_machine.specs.Activity as machine;
ghost use Rattle.lot_graph.specs.Graphs.{LimitedFunding, IsSound, IsThread};
ghost use Rattle.lot_graph.specs.Places.{FitsLimits, layout_of, node_count};
ghost use Rattle.lot_active.specs.declared.edge_ends.EdgeEnds.{EdgeEnds};
ghost use Rattle.lot_active.specs.Nets.{Net, IsNet, HasNoCycle};
ghost use Rattle.lot_active.specs.Activity.{IsKept, Changes, Adds, amount_of, mark_of};
ghost use Rattle.lot_active.specs.Fundings.{IsKeptFor, AddsEdge, graph_net};
ghost use Rattle.lot_active.specs.Changes.{ChangesNodes, switched_nodes, adjusted_nodes};

use crate::changed::ChangedNodes;
use crate::edge_ends::{EdgeEnds, EdgePlaces, ends_of_edge, funded_node};
use crate::marks::Marks;
use lot_graph::{Graph, Layout};
use lot_machine::{Edge, Node, Target};
use std::alloc::{AllocError, Global};
use std::marker::Model;

/// The live threads, the tickets and threads that are active through them, and for each currency the sum of the amounts
/// of its active tickets.
#[derive(Drop)]
pub struct Active {
    marks: Marks,
    layout: Layout,
}

impl Model for Active {
    ghost use Rattle.lot_lists.specs.NodeLists.{nodes_of};
    ghost use Rattle.lot_active.specs.Activity.{Activity};
    ghost use Rattle.lot_active.specs.Held.{IsQuiet};

    ghost Value = { Activity };

    ghost view = { λ s. record {
      layout = s.layout;
      awake = s.marks.awake;
      amounts = s.marks.amounts;
      switched = nodes_of s.marks.lists 1;
      adjusted = nodes_of s.marks.lists 2;
    } };

    ghost invariant = { λ s. IsQuiet s.marks };
}

impl Active {
    /// The activity of a graph without live threads. It fails only if out of memory.
    pub fn new(alloc: Global, graph: &Graph) -> Result<Self, AllocError>
        ensures kept { IfOk result (λ made. (live : List Bool) → ((t : ℕ) → ¬ IsLive live t)
            → IsKeptFor made graph.now live) }
    {
        let layout = graph.layout();
        let nodes = layout.node_count();
        Ok(Active {
            marks: Marks::new(alloc, nodes)?,
            layout,
        })
    }

    /// The number of bytes that `new` requests from the allocator for a graph with this layout.
    pub fn bytes(layout: Layout) -> u64
        ensures { result ≡ 21 * node_count layout + 24 }
    {
        Marks::bytes(layout.node_count())
    }

    /// The capacity in bytes: always exactly what `new` requested.
    pub fn held(&self) -> u64
        ensures { result ≡ 21 * length self.now.amounts + 24 }
    {
        self.marks.held()
    }

    /// Whether a ticket with this target is active, in each graph to which this activity belongs.
    pub fn is_active(&self, target: Target) -> bool
        requires target { (w : LimitedFunding) × (live : List Bool) × (ticket : ℕ) × IsKeptFor self.now w live
            × (target_of w.funding ticket ≡ Some target) }
        ensures active { (w : LimitedFunding) (live : List Bool) (ticket : ℕ) → IsKeptFor self.now w live
            → target_of w.funding ticket ≡ Some target → IsTrue result ↔ machine.IsActive w.funding live ticket }
    {
        match funded_node(target) {
            Some(node) => self.is_on(self.layout.list_of(node)),
            None => false,
        }
    }

    /// Whether a chain of lends, perhaps empty, leads from a thread to a live one, in each graph to which this activity
    /// belongs.
    pub fn is_backed(&self, thread: u32) -> bool
        requires thread { (w : LimitedFunding) × (live : List Bool) × IsKeptFor self.now w live
            × IsThread w.funding thread }
        ensures backed { (w : LimitedFunding) (live : List Bool) → IsKeptFor self.now w live
            → IsThread w.funding thread → IsTrue result ↔ IsBacked w.funding live thread }
    {
        self.is_on(self.layout.list_of(Node::Thread(thread)))
    }

    /// The sum of the amounts of a currency's active tickets, in each graph to which this activity belongs.
    pub fn active_amount(&self, currency: u32) -> u64
        requires currency { (w : LimitedFunding) × (live : List Bool) × IsKeptFor self.now w live
            × (currency ≤ w.currency_limit) }
        ensures amount { (w : LimitedFunding) (live : List Bool) → IsKeptFor self.now w live
            → currency ≤ w.currency_limit → result ≡ machine.active_amount w.funding live currency }
    {
        self.amount(currency as usize)
    }

    /// Makes a thread live, or ends that.
    #[inline(always)]
    pub fn set_live(&mut self, graph: &Graph, thread: u32, live: bool)
        requires thread { IsThread graph.now.funding thread }
        requires kept { (before : List Bool) × IsKeptFor self.old graph.now before }
        ensures kept { (before : List Bool) → IsKeptFor self.old graph.now before → thread ≤ length before
            → IsKeptFor self.new graph.now (set_number before thread live) }
        ensures changes { (before : List Bool) → IsKeptFor self.old graph.now before → thread ≤ length before
            → ChangesNodes graph.now before graph.now (set_number before thread live) (ThreadNode thread) self.new }
    {
        let node = self.layout.list_of(Node::Thread(thread));
        self.set_awake(graph, node, live);
    }

    /// Updates the activity for an edge added to the graph.
    #[inline(always)]
    pub fn attach(&mut self, graph: &Graph, edge: Edge)
        requires kept { (before : LimitedFunding) × (ends : EdgeEnds) × (live : List Bool)
            × AddsEdge before graph.now edge ends × IsKeptFor self.old before live }
        ensures kept { (before : LimitedFunding) (ends : EdgeEnds) (live : List Bool)
            → AddsEdge before graph.now edge ends → IsKeptFor self.old before live → IsKeptFor self.new graph.now live }
        ensures changes { (before : LimitedFunding) (ends : EdgeEnds) (live : List Bool)
            → AddsEdge before graph.now edge ends → IsKeptFor self.old before live
            → ChangesNodes before live graph.now live ends.from self.new }
    {
        let Some(ends) = ends_of_edge(graph, edge) else {
            unreachable!()
        };
        self.attach_places(graph, ends.places(graph.layout()));
    }

    /// Updates the activity for an edge removed from the graph, given its former ends.
    #[inline(always)]
    pub fn detach(&mut self, graph: &Graph, ends: EdgeEnds)
        requires sound { IsSound graph.now.funding }
        requires fits { FitsLimits graph.now }
        requires kept { (before : LimitedFunding) × (edge : Edge) × (live : List Bool)
            × AddsEdge graph.now before edge ends × IsKeptFor self.old before live }
        ensures kept { (before : LimitedFunding) (edge : Edge) (live : List Bool)
            → AddsEdge graph.now before edge ends → IsKeptFor self.old before live → IsKeptFor self.new graph.now live }
        ensures changes { (before : LimitedFunding) (edge : Edge) (live : List Bool)
            → AddsEdge graph.now before edge ends → IsKeptFor self.old before live
            → ChangesNodes before live graph.now live ends.from self.new }
    {
        self.detach_places(graph, ends.places(graph.layout()));
    }

    /// The nodes that the last call switched between active and inactive.
    pub fn switched(&self) -> ChangedNodes<'_>
        requires kept { (w : LimitedFunding) × (live : List Bool) × IsKeptFor self.now w live }
        ensures nodes { (w : LimitedFunding) (live : List Bool) → IsKeptFor self.now w live
            → result ≡ switched_nodes w self.now }
        ensures count { length result < 2 ^ 32 }
    {
        ChangedNodes {
            places: self.marks.switched(),
            layout: self.layout,
        }
    }

    /// The nodes of which the last call changed only the amount, and not whether they are active.
    pub fn adjusted(&self) -> ChangedNodes<'_>
        requires kept { (w : LimitedFunding) × (live : List Bool) × IsKeptFor self.now w live }
        ensures nodes { (w : LimitedFunding) (live : List Bool) → IsKeptFor self.now w live
            → result ≡ adjusted_nodes w self.now }
        ensures count { length result < 2 ^ 32 }
    {
        ChangedNodes {
            places: self.marks.adjusted(),
            layout: self.layout,
        }
    }

    /// The number of edges along which changes have spread: a statistic without a contract.
    pub fn passed(&self) -> u64 {
        self.marks.passed()
    }

    fn is_on(&self, node: usize) -> bool
        requires node { node < length self.now.amounts }
        ensures mark { result ≡ mark_of self.now node }
    {
        self.marks.is_on(node)
    }

    fn amount(&self, node: usize) -> u64
        requires node { node < length self.now.amounts }
        ensures amount { result ≡ amount_of self.now node }
    {
        self.marks.amount(node)
    }

    #[inline(always)]
    fn set_awake(&mut self, graph: &Graph, node: usize, awake: bool)
        requires node { node < node_count (layout_of graph.now) }
        requires graph { IsNet (graph_net graph.now) }
        requires no_cycle { HasNoCycle (graph_net graph.now) }
        requires kept { IsKept (graph_net graph.now) self.old }
        ensures layout { self.new.layout ≡ self.old.layout }
        ensures awake { self.new.awake ≡ slice_set self.old.awake node awake }
        ensures kept { IsKept (graph_net graph.now) self.new }
        ensures changes { Changes (graph_net graph.now) node self.old self.new }
    {
        self.marks.clear();
        self.marks.set_awake(node, awake);
        self.marks.propagate(graph, awake);
    }

    #[inline(always)]
    fn attach_places(&mut self, graph: &Graph, places: EdgePlaces)
        requires graph { IsNet (graph_net graph.now) }
        requires no_cycle { HasNoCycle (graph_net graph.now) }
        requires kept { (before : Net) × (edge : ℕ) × Adds before (graph_net graph.now) edge places
            × IsKept before self.old }
        ensures layout { self.new.layout ≡ self.old.layout }
        ensures awake { self.new.awake ≡ self.old.awake }
        ensures kept { IsKept (graph_net graph.now) self.new }
        ensures changes { Changes (graph_net graph.now) places.from self.old self.new }
    {
        self.marks.clear();
        if self.marks.is_on(places.to) {
            self.marks.adjust(places.from, places.amount, true);
            self.marks.propagate(graph, true);
        }
    }

    #[inline(always)]
    fn detach_places(&mut self, graph: &Graph, places: EdgePlaces)
        requires no_cycle { HasNoCycle (graph_net graph.now) }
        requires kept { (before : Net) × (edge : ℕ) × Adds (graph_net graph.now) before edge places × IsNet before
            × IsKept before self.old }
        ensures layout { self.new.layout ≡ self.old.layout }
        ensures awake { self.new.awake ≡ self.old.awake }
        ensures kept { IsKept (graph_net graph.now) self.new }
        ensures changes { Changes (graph_net graph.now) places.from self.old self.new }
    {
        self.marks.clear();
        if self.marks.is_on(places.to) {
            self.marks.adjust(places.from, places.amount, false);
            self.marks.propagate(graph, false);
        }
    }
}
