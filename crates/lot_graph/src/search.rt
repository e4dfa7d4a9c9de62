//! A search over nodes. It follows each node that it finds once.
ghost use Rattle.std.specs.Prelude.{◌≡◌, ◌<◌, [], IfSome, length};
ghost use Rattle.lot_machine.specs.declared.funding.Node.{Node};
ghost use Rattle.lot_lists.specs.NodeLists.{nodes_of, IsConsistent};
ghost use Rattle.lot_graph.specs.declared.layout.Layout.{Layout};
ghost use Rattle.lot_graph.specs.Places.{IsNodeWithin};
ghost use Rattle.lot_graph.specs.Spread.{Finds, IsFoundList, IsListOf, IsNext, Spreads};

use crate::layout::Layout;
use lot_lists::Lists;
use lot_machine::Node;

/// The steps of a search from node to node.
pub(crate) trait Steps {
    // a step leads from one node to another
    ghost leads: { Self → Node → Node → Type 0 };

    // the steps are between nodes of this layout
    ghost fit: { Self → Layout → Type 0 };

    /// Adds the nodes one step after this one.
    fn add_next(&self, layout: Layout, found: &mut Lists, node: Node)
        requires fit { fit self.now layout }
        requires list { IsFoundList layout found.old }
        requires within { IsNodeWithin layout node }
        ensures spreads { Spreads found.old found.new (IsNext layout (leads self.now) node) };
}

/// Lists in `found` the places of the nodes to which steps, perhaps none, lead from a node. It makes each step once.
pub(crate) fn find<S: Steps>(steps: &S, layout: Layout, found: &mut Lists, from: Node)
    requires fit { S.fit steps.now layout }
    requires ahead { (a b : Node) → S.leads steps.now a b → IsNodeWithin layout b }
    requires list { IsFoundList layout found.old }
    requires from { IsNodeWithin layout from }
    ensures list { IsFoundList layout found.new }
    ensures finds { Finds layout (S.leads steps.now) from found.new }
    ensures consistent { IsConsistent found.new }
{
    clear(found);
    let start = layout.list_of(from);
    add(found, start);
    let mut next = Some(start);
    // As many iterations as there are nodes: each follows the next node found.
    for _ in 0..layout.node_count() {
        let Some(place) = next else {
            return;
        };
        steps.add_next(layout, found, layout.node_of(place));
        next = found.next(place);
    }
}

/// Empties the list.
fn clear(found: &mut Lists)
    requires list { 0 < length found.old.lists }
    ensures empty { nodes_of found.new 0 ≡ [] }
    ensures nodes { found.new.nodes ≡ found.old.nodes }
    ensures lists { length found.new.lists ≡ length found.old.lists }
    ensures consistent { IsConsistent found.new }
{
    while let Some(place) = found.first(0) {
        found.remove(place);
    }
}

/// Adds the place of a node, unless it was found before.
fn add(found: &mut Lists, place: usize)
    requires list { length found.old.lists ≡ 1 }
    requires within { place < found.old.nodes }
    ensures spreads { Spreads found.old found.new (λ x. x ≡ place) }
    ensures consistent { IsConsistent found.new }
{
    if found.list_of(place).is_none() {
        found.push_back(0, place);
    }
}

/// Adds a node, if there is one and it wasn't found before.
pub(crate) fn add_node(found: &mut Lists, layout: Layout, node: Option<Node>)
    requires list { IsFoundList layout found.old }
    requires within { IfSome node (IsNodeWithin layout) }
    ensures spreads { Spreads found.old found.new (IsListOf layout node) }
{
    if let Some(node) = node {
        add(found, layout.list_of(node));
    }
}
