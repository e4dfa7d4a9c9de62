//! The nodes changed by a call.
ghost use Rattle.std.specs.Iterator.{YieldsFirst, item_count};

use lot_graph::Layout;
use lot_lists::Nodes;
use lot_machine::Node;
use std::marker::Model;

/// The remaining nodes changed by a call.
#[derive(Drop)]
pub struct ChangedNodes<'a> {
    pub(crate) places: Nodes<'a>,
    pub(crate) layout: Layout,
}

impl<'a> Model for ChangedNodes<'a> {
    ghost use Rattle.std.specs.Prelude.{List, map, ◌<◌, All};
    ghost use Rattle.lot_machine.specs.declared.funding.Node.{Node as ANode};
    ghost use Rattle.lot_graph.specs.Places.{node_of, node_count};

    ghost Value = { List ANode };

    ghost view = { λ s. map (node_of s.layout) s.places };

    ghost invariant = { λ s. All (λ place. place < node_count s.layout) s.places };
}

impl Iterator for ChangedNodes<'_> {
    type Item = Node;

    ghost next_gives = { YieldsFirst (λ rest. rest) };

    ghost remaining = { item_count (λ rest. rest) };

    fn next(&mut self) -> Option<Node> {
        let place = self.places.next()?;
        Some(self.layout.node_of(place))
    }
}
