//! The threads that compete for a processor, with their weights in a tree of partial sums.
ghost use Rattle.std.specs.Prelude.{◌≡◌, ◌⊎◌, ◌↔◌, ℕ, ◌-◌, ◌+◌, ◌*◌, ◌<◌, ◌^◌, [], Contains, IfOk, IfSome, IsSome};
ghost use Rattle.std.specs.Prelude.{MatchOption, length, replicate, slice_get, slice_set};
ghost use Rattle.std.specs.List.{remove};
ghost use Rattle.lot_machine.specs.declared.funding.Node.TheVariants.{Thread as ThreadNode};
ghost use Rattle.lot_machine.specs.Numbered.{numbers, set_number};
ghost use Rattle.lot_machine.specs.Value.{thread_value};
ghost use Rattle.lot_machine.specs.Lottery as lottery;
ghost use Rattle.lot_graph.specs.Graphs.{IsThread};
ghost use Rattle.lot_tree.specs.Visits.{CountsReads};
ghost use Rattle.lot_value.specs.Counts.{counted_up};
ghost use Rattle.lot_value.specs.Caches.{Known, IsStale, IsOnce, edges_into_all, value_in};
ghost use Rattle.lot_draw.specs.Competing.{HasTicks, competitor_at, weight_with, weight_among, winner_among};
ghost use Rattle.lot_draw.specs.Competing.{drawn_among};
ghost use Rattle.lot_draw.specs.Queued.{AreWeights, CompetesIn, IsChanged, IsPlaced, IsSettled};

use crate::competing::{Competitor, Winner};
use crate::lottery::{reduced, weight};
use lot_kept::Kept;
use lot_lists::Lists;
use lot_machine::{Limits, Node, index_of};
use lot_tree::SumTree;
use lot_value::ValuedGraph;
use std::alloc::{AllocError, Global};
use std::marker::Model;
use std::mem::size_of;

// The only list: the changed threads.
const CHANGED: usize = 0;

// The bytes of one thread's part in a draw.
const COMPETITOR_BYTES: u64 = size_of::<Option<Competitor>>() as u64;

/// The competitors, their weights, and the number of places visited in the tree of weights.
///
/// Only a draw writes to the tree of weights. A list has the threads whose weight may have to change before the next
/// draw.
pub struct RunQueue {
    tree: SumTree,
    changed: Lists,
    competitors: Kept<Option<Competitor>>,
    quantum: u32,
    visits: u64,
}

impl Drop for RunQueue {
    // An explicit drop: code that drops a `RunQueue` is then proved without unfolding its fields.
    fn drop(self) {
        let Self {
            tree: _,
            changed: _,
            competitors: _,
            quantum: _,
            visits: _,
        } = self;
    }
}

impl Model for RunQueue {
    ghost use Rattle.lot_lists.specs.NodeLists.{nodes_of};
    ghost use Rattle.lot_draw.specs.Queued.{Queued, IsQueue};

    ghost Value = { Queued };

    ghost view = { λ s. record {
      quantum = s.quantum;
      competitors = s.competitors.items;
      weights = s.tree;
      changed = nodes_of s.changed 0;
      visits = s.visits;
    } };

    ghost invariant = { λ s. IsQueue s.tree s.changed s.competitors.items };
}

impl RunQueue {
    /// A queue without competitors, whose count of visits is 0. It fails only if out of memory.
    pub fn new(alloc: Global, limits: &Limits) -> Result<Self, AllocError>
        ensures queue { IfOk result (λ made. made
            ≡ record {
              quantum = limits.now.quantum;
              competitors = replicate limits.now.threads None;
              weights = replicate limits.now.threads 0;
              changed = [];
              visits = 0;
            }) }
        ensures weights { IfOk result (λ made. (c : Known) → AreWeights made c) }
    {
        let threads = limits.threads as usize;
        Ok(RunQueue {
            tree: SumTree::new(alloc, threads)?,
            changed: Lists::new(alloc, 1, threads)?,
            competitors: Kept::filled(alloc, None, threads)?,
            quantum: limits.quantum,
            visits: 0,
        })
    }

    /// The number of bytes that `new` requests from the allocator.
    pub fn bytes(limits: &Limits) -> u64
        ensures { result ≡ 56 * limits.now.threads + 8 }
    {
        let threads = limits.threads as usize;
        SumTree::bytes(threads) + Lists::bytes(1, threads) + COMPETITOR_BYTES * threads as u64
    }

    /// The capacity in bytes: always exactly what `new` requested.
    pub fn held(&self) -> u64
        ensures { result ≡ 56 * length self.now.competitors + 8 }
    {
        self.tree.held() + self.changed.held() + COMPETITOR_BYTES * self.competitors.room() as u64
    }

    /// The quantum, in ticks.
    pub fn quantum(&self) -> u32
        ensures { result ≡ self.now.quantum }
    {
        self.quantum
    }

    /// The number of places visited in the tree of weights. The count saturates at the largest `u64`.
    pub fn visits(&self) -> u64
        ensures { result ≡ self.now.visits }
    {
        self.visits
    }

    /// Sets a thread's part in draws from now on; `None` if it doesn't compete. The next draw sets its weight.
    pub fn set_competitor(&mut self, thread: u32, competitor: Option<Competitor>)
        requires thread { IsPlaced self.old thread }
        requires ticks { HasTicks competitor }
        ensures set { self.new ≡ record self.old {
          competitors = set_number self.old.competitors thread competitor;
          changed = self.new.changed;
        } }
        ensures listed { (place : ℕ)
            → Contains self.new.changed place ↔ (Contains self.old.changed place ⊎ (place ≡ thread - 1)) }
        ensures weights { (c : Known) → AreWeights self.old c → AreWeights self.new c }
    {
        let place = index_of(thread);
        self.competitors[place] = competitor;
        self.list(place);
    }

    /// Recomputes the values of all stale nodes, like `ValuedGraph::settle`. The next draw sets the weights of the
    /// threads among them.
    pub fn settle(&mut self, graph: &mut ValuedGraph)
        requires places { length self.old.competitors ≡ graph.old.now.thread_limit }
        requires weights { AreWeights self.old graph.old.known }
        ensures queue { self.new ≡ record self.old { changed = self.new.changed } }
        ensures listed { (place : ℕ) → Contains self.new.changed place
            → Contains self.old.changed place ⊎ IsStale graph.old.known (ThreadNode (place + 1)) }
        ensures weights { AreWeights self.new graph.new.known }
        ensures now { graph.new.now ≡ graph.old.now }
        ensures live { graph.new.live ≡ graph.old.live }
        ensures unit { graph.new.known.unit ≡ graph.old.known.unit }
        ensures settled { IsSettled graph.new }
        ensures once { IsOnce graph.old.known }
        ensures counted { graph.new.known.reads
            ≡ counted_up graph.old.known.reads (edges_into_all graph.old.now.funding graph.old.known.stale) }
    {
        while let Some(node) = graph.settle_next() {
            self.list_node(node);
        }
    }

    /// Holds a draw with the number `d` (2, 4.2) among the competing threads. Returns `None` if their weights sum to
    /// 0.
    ///
    /// Settles stale nodes, sets the weights that may have changed, and visits the tree once.
    pub fn draw(&mut self, graph: &mut ValuedGraph, d: u128) -> Option<Winner>
        requires competes { CompetesIn self.old.competitors graph.old }
        requires weights { AreWeights self.old graph.old.known }
        ensures winner { result ≡ drawn_among self.old.quantum self.old.competitors
            (thread_value graph.old.known.unit graph.old.now.funding graph.old.live) d }
        ensures competes { IfSome result (λ w. IsSome (competitor_at self.old.competitors w.thread)) }
        ensures queue { self.new ≡ record self.old {
          weights = self.new.weights;
          changed = [];
          visits = self.new.visits;
        } }
        ensures weights { AreWeights self.new graph.new.known }
        ensures now { graph.new.now ≡ graph.old.now }
        ensures live { graph.new.live ≡ graph.old.live }
        ensures unit { graph.new.known.unit ≡ graph.old.known.unit }
        ensures settled { IsSettled graph.new }
        ensures once { IsOnce graph.old.known }
        ensures reads { graph.new.known.reads
            ≡ counted_up graph.old.known.reads (edges_into_all graph.old.now.funding graph.old.known.stale) }
        ensures visits { MatchOption result (self.new.visits ≡ self.old.visits)
            (λ w. CountsReads (length self.old.competitors) self.old.visits self.new.visits) }
    {
        self.settle(graph);
        self.weigh_changed(graph);
        self.hold_lottery(d)
    }

    /// Lists the thread at a place, unless it is listed.
    fn list(&mut self, place: usize)
        requires place { place < length self.old.competitors }
        ensures others { self.new ≡ record self.old { changed = self.new.changed } }
        ensures listed { (x : ℕ) → Contains self.new.changed x ↔ (Contains self.old.changed x ⊎ (x ≡ place)) }
    {
        if self.changed.list_of(place).is_none() {
            self.changed.push_back(CHANGED, place);
        }
    }

    /// Lists a node's thread, if it is one.
    fn list_node(&mut self, node: Node)
        requires place { (t : ℕ) → node ≡ ThreadNode t → IsPlaced self.old t }
        ensures others { self.new ≡ record self.old { changed = self.new.changed } }
        ensures kept { (x : ℕ) → Contains self.old.changed x → Contains self.new.changed x }
        ensures only { (x : ℕ) → Contains self.new.changed x
            → Contains self.old.changed x ⊎ (node ≡ ThreadNode (x + 1)) }
        ensures listed { (t : ℕ) → node ≡ ThreadNode t → IsChanged self.new t }
    {
        if let Node::Thread(thread) = node {
            self.list(index_of(thread));
        }
    }

    /// Sets the weights of the listed threads.
    fn weigh_changed(&mut self, graph: &ValuedGraph)
        requires competes { CompetesIn self.old.competitors graph.now }
        requires settled { IsSettled graph.now }
        requires weights { AreWeights self.old graph.now.known }
        ensures queue { self.new ≡ record self.old { weights = self.new.weights; changed = [] } }
        ensures weights { AreWeights self.new graph.now.known }
        ensures places { length self.new.weights ≡ length self.new.competitors }
    {
        while let Some(place) = self.first_changed() {
            self.weigh(graph, place);
        }
    }

    /// The place of the listed thread at the front, if there is one.
    fn first_changed(&self) -> Option<usize>
        ensures first { result ≡ slice_get self.now.changed 0 }
        ensures place { IfSome result (λ place. place < length self.now.competitors) }
        ensures places { length self.now.weights ≡ length self.now.competitors }
    {
        self.changed.first(CHANGED)
    }

    /// Sets the weight of the listed thread at the front, and removes it from the list.
    fn weigh(&mut self, graph: &ValuedGraph, place: usize)
        requires first { slice_get self.old.changed 0 ≡ Some place }
        requires place { place < length self.old.competitors }
        requires competes { CompetesIn self.old.competitors graph.now }
        requires settled { IsSettled graph.now }
        ensures changed { self.new.changed ≡ remove self.old.changed 0 }
        ensures weight { self.new.weights
            ≡ slice_set self.old.weights place (weight_among self.old.quantum self.old.competitors
            (λ t. value_in graph.now.known (ThreadNode t)) (place + 1)) }
        ensures others { self.new ≡ record self.old { weights = self.new.weights; changed = self.new.changed } }
    {
        let weight = weight_at(graph, place, self.competitors[place], self.quantum);
        self.tree.set(place, weight);
        self.changed.remove(place);
    }

    /// Holds the lottery over the weights in the tree.
    fn hold_lottery(&mut self, d: u128) -> Option<Winner>
        ensures winner { result ≡ winner_among (numbers self.old.competitors) (lottery.winner self.old.weights d) }
        ensures queue { self.new ≡ record self.old { visits = self.new.visits } }
        ensures visits { MatchOption result (self.new.visits ≡ self.old.visits)
            (λ w. CountsReads (length self.old.competitors) self.old.visits self.new.visits) }
    {
        let total = self.tree.total();
        if total == 0 {
            return None;
        }
        let number = reduced(d, total);
        let place = self.tree.find(number, &mut self.visits);
        Some(Winner {
            thread: place as u32 + 1,
            number,
            total,
        })
    }
}

/// The weight of the thread at a place, from its cached value and its compensation: 0 if it doesn't compete.
fn weight_at(
    graph: &ValuedGraph,
    place: usize,
    competitor: Option<Competitor>,
    quantum: u32,
) -> u128
    requires ticks { HasTicks competitor }
    requires place { place < graph.now.now.thread_limit }
    requires there { IfSome competitor (λ c. IsThread graph.now.now.funding (place + 1)) }
    requires settled { IsSettled graph.now }
    requires few { place < 65535 }
    ensures weight { result ≡ weight_with (value_in graph.now.known (ThreadNode (place + 1))) quantum competitor }
    ensures small { result < 2 ^ 96 }
{
    let Some(competitor) = competitor else {
        return 0;
    };
    let value = graph.value_of(Node::Thread(place as u32 + 1));
    weight(value, competitor.compensation, quantum)
}
