//! Changing a ticket's amount.
ghost use Rattle.std.specs.Prelude.{◌≡◌, ◌≢◌, ◌<◌, Some};
ghost use Rattle.lot_machine.specs.declared.ticket.Target.TheVariants.{Unfunded};
ghost use Rattle.lot_machine.specs.Funding.{ticket_at, with_amount};
ghost use Rattle.lot_graph.specs.Changes.{with_tickets};
ghost use Rattle.lot_graph.specs.Graphs.{IsSound};
ghost use Rattle.lot_value.specs.declared.change.GraphChange.TheVariants.{SetAmount};
ghost use Rattle.lot_value.specs.Changing.{CanApply, StaleBy, applied};
ghost use Rattle.lot_value.specs.Valued.{FollowsGraph};

use crate::valued_graph::ValuedGraph;
use lot_machine::{Target, Ticket};

/// Sets a ticket's amount. With the same amount nothing changes, and nothing becomes stale.
#[inline(always)]
pub(crate) fn set_amount(graph: &mut ValuedGraph, ticket: u32, amount: u32)
    requires allowed { CanApply graph.old.now graph.old.live (SetAmount ticket amount) }
    ensures applied { graph.new ≡ applied graph.old (SetAmount ticket amount) graph.new.known.stale }
    ensures stale { StaleBy (SetAmount ticket amount) graph.old graph.new }
{
    let Some(before) = graph.graph().ticket(ticket) else {
        unreachable!()
    };
    if before.amount == amount {
        return;
    }
    match before.target {
        Target::Unfunded => graph.reissue(ticket, amount),
        _ => fund_again(graph, ticket, before, amount),
    }
}

/// Sets the amount of a ticket that funds something: it unfunds the ticket and funds the same target again, so that the
/// new amount counts as active. The target becomes stale. If the ticket is active and its issuer isn't base, so do the
/// targets of the issuer's other tickets. The issuer becomes stale only if it stops being active in between.
fn fund_again(graph: &mut ValuedGraph, ticket: u32, before: Ticket, amount: u32)
    requires sound { IsSound graph.old.now.funding }
    requires ticket { ticket_at graph.old.now.funding ticket ≡ Some before }
    requires funding { before.target ≢ Unfunded }
    requires other { before.amount ≢ amount }
    requires amount { 0 < amount }
    ensures follows { FollowsGraph graph.old graph.new
        (with_tickets graph.old.now (with_amount graph.old.now.funding.tickets ticket amount)) }
{
    graph.unfund(ticket);
    graph.reissue(ticket, amount);
    graph.give(ticket, before.target);
}
