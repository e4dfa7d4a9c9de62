//! Lists: calls against plain vectors, and a sum over one list.
ghost use Rattle.std.specs.Prelude.{◌≡◌, ℕ, ◌+◌, ◌^◌, ◌<◌, ◌≤◌, length, sum_by, slice_index};
ghost use Rattle.lot_lists.specs.NodeLists.{NodeLists, nodes_of, HasSameSize, IsListed};

use crate::tests::same::check_same;
use lot_lists::Lists;
use std::alloc::{AllocError, Global};
use std::process::Abort;

const LISTS: usize = 4;

const NODES: usize = 9;

/// The lists as vectors.
struct Plain {
    lists: Vec<Vec<usize>>,
}

impl Drop for Plain {
    // An explicit drop: code that drops a `Plain` is then proved without unfolding its field.
    fn drop(self) {
        let Self { lists: _ } = self;
    }
}

impl Plain {
    fn new(alloc: Global) -> Result<Self, AllocError> {
        let mut lists = Vec::new(alloc);
        for _ in 0..LISTS {
            lists.push(Vec::new(alloc))?;
        }
        Ok(Plain { lists })
    }

    fn list_of(&self, node: usize) -> Option<usize> {
        self.lists.iter().position(|nodes| nodes.contains(&node))
    }

    fn push_back(&mut self, rt: &impl Abort, list: usize, node: usize) {
        if let Some(nodes) = self.lists.get_mut(list) {
            nodes.push(node).expect(rt, "memory");
        }
    }

    fn remove(&mut self, node: usize) {
        for nodes in self.lists.iter_mut() {
            nodes.retain(|other| *other != node);
        }
    }
}

/// The pseudo-random number after this one.
fn next_random(seed: u64) -> u64 {
    seed.wrapping_mul(6364136223846793005)
        .wrapping_add(1442695040888963407)
}

/// One call to the lists, and the same to the vectors.
fn step(
    rt: &impl Abort,
    lists: &mut Lists,
    plain: &mut Plain,
    list: usize,
    node: usize,
    removes: bool,
)
    requires list_exists { list < length lists.old.lists }
    requires node_exists { node < lists.old.nodes }
    ensures { HasSameSize lists.old lists.new }
{
    let Some(_home) = lists.list_of(node) else {
        lists.push_back(list, node);
        plain.push_back(rt, list, node);
        return;
    };
    plain.remove(node);
    if removes {
        lists.remove(node);
        return;
    }
    lists.move_to(node, list);
    plain.push_back(rt, list, node);
}

/// Checks that the node is in this list.
fn check_home(rt: &impl Abort, lists: &Lists, list: usize, node: usize)
    requires all_nodes { lists.now.nodes ≡ NODES }
    ensures { IsListed lists.now node }
{
    assert!(rt; node < NODES);
    let home = lists.list_of(node).expect(rt, "the node is in no list");
    check_same(rt, &home, &list);
}

/// The neighbours of a node agree with its index in the vector.
fn compare_node(rt: &impl Abort, lists: &Lists, nodes: &[usize], place: usize)
    requires place { place < length nodes.now }
    requires listed { IsListed lists.now (slice_index nodes.now place) }
{
    let node = nodes[place];
    check_same(rt, &lists.next(node), &nodes.get(place + 1).copied());
    // Before index 0 this is the largest number, an index of no slice.
    let before = place.wrapping_sub(1);
    check_same(rt, &lists.prev(node), &nodes.get(before).copied());
}

/// The first and the last of one list are those of the vector.
fn compare_ends(rt: &impl Abort, lists: &Lists, list: usize, nodes: &[usize])
    requires list_exists { list < length lists.now.lists }
{
    check_same(rt, &lists.first(list), &nodes.first().copied());
    check_same(rt, &lists.last(list), &nodes.last().copied());
    check_same(rt, &lists.is_empty(list), &nodes.is_empty());
}

/// Each query of one list agrees with the vector.
fn compare_list(rt: &impl Abort, lists: &Lists, list: usize, nodes: &[usize])
    requires list_exists { list < length lists.now.lists }
    requires all_nodes { lists.now.nodes ≡ NODES }
{
    compare_ends(rt, lists, list, nodes);
    assert!(rt; lists.iter(list).eq(nodes.iter().copied()));
    for place in 0..nodes.len() {
        check_home(rt, lists, list, nodes[place]);
        compare_node(rt, lists, nodes, place);
    }
}

fn compare(rt: &impl Abort, lists: &Lists, plain: &Plain)
    requires all_lists { length lists.now.lists ≡ LISTS }
    requires all_nodes { lists.now.nodes ≡ NODES }
{
    assert!(rt; plain.lists.len() == LISTS);
    for list in 0..LISTS {
        compare_list(rt, lists, list, &plain.lists[list]);
    }
    for node in 0..NODES {
        check_same(rt, &lists.list_of(node), &plain.list_of(node));
    }
}

/// A call with the list and the node that this number picks, after which the lists are compared.
fn turn(rt: &impl Abort, lists: &mut Lists, plain: &mut Plain, random: u64)
    requires all_lists { length lists.old.lists ≡ LISTS }
    requires all_nodes { lists.old.nodes ≡ NODES }
    ensures { HasSameSize lists.old lists.new }
{
    let list = (random >> 33) as usize % LISTS;
    let node = (random >> 40) as usize % NODES;
    let removes = (random >> 50) % 4 == 0;
    step(rt, lists, plain, list, node, removes);
    compare(rt, lists, plain);
}

/// Four hundred such calls.
fn turns(rt: &impl Abort, lists: &mut Lists, plain: &mut Plain)
    requires all_lists { length lists.old.lists ≡ LISTS }
    requires all_nodes { lists.old.nodes ≡ NODES }
{
    let mut random = 1;
    for _ in 0..400 {
        random = next_random(random);
        turn(rt, lists, plain, random);
    }
}

/// Such calls, beside vectors that are made for them.
fn plain_turns(rt: &impl Abort, alloc: Global, lists: &mut Lists)
    requires all_lists { length lists.old.lists ≡ LISTS }
    requires all_nodes { lists.old.nodes ≡ NODES }
{
    let mut plain = Plain::new(alloc).expect(rt, "memory");
    turns(rt, lists, &mut plain);
}

#[test]
fn calls_match_plain_vectors(rt: HostRuntime) {
    let mut lists = Lists::new(rt.alloc(), LISTS, NODES).expect(&rt, "memory");
    plain_turns(&rt, rt.alloc(), &mut lists);
}

/// The weights of one list's nodes, added up.
fn total(lists: &Lists, list: usize, weights: &[u32]) -> u64
    requires list_exists { list < length lists.now.lists }
    requires all_weighed { lists.now.nodes ≤ length weights.now }
    ensures { result ≡ sum_by (λ node. slice_index weights.now node) (nodes_of lists.now list) }
{
    let mut sum = 0;
    for node in lists.iter(list) {
        sum += u64::from(weights[node]);
    }
    sum
}

const WEIGHTS: &[u32] = &[5, 7, 11];

#[test]
fn total_of_a_list(rt: HostRuntime) {
    let mut lists = Lists::new(rt.alloc(), 2, 3).expect(&rt, "memory");
    lists.push_back(1, 2);
    check_same(&rt, &lists.next(2), &None);
    check_same(&rt, &lists.list_of(0), &None);
    lists.push_back(1, 0);
    check_same(&rt, &total(&lists, 1, WEIGHTS), &16);
    check_same(&rt, &total(&lists, 0, WEIGHTS), &0);
}

#[test]
fn more_than_a_u32_can_number(rt: HostRuntime) {
    assert!(rt; Lists::new(rt.alloc(), 1, u32::MAX as usize).is_err());
    assert!(rt; Lists::new(rt.alloc(), usize::MAX, 1).is_err());
}
