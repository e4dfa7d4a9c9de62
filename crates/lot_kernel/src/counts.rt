//! The numbers of a currency's issued and backing tickets (4.4).
ghost use Rattle.std.specs.Prelude.{◌≡◌, ◌==◌, length};
ghost use Rattle.lot_machine.specs.Funding as funding;
ghost use Rattle.lot_machine.specs.Funding.{backing_currency, issued_in};
ghost use Rattle.lot_machine.specs.Numbered.{option_any};

use lot_graph::Graph;
use lot_machine::{Target, Ticket};

/// The number of tickets that the currency issues, active or not.
pub(crate) fn count_issued(graph: &Graph, currency: u32) -> u32
    ensures { result ≡ length (issued_in graph.now.funding currency) }
{
    let mut count = 0;
    for place in 0..graph.ticket_count() {
        if is_issued(graph.ticket(place + 1), currency) {
            count += 1;
        }
    }
    count
}

/// The number of tickets that fund the currency, active or not.
pub(crate) fn count_backing(graph: &Graph, currency: u32) -> u32
    ensures { result ≡ length (backing_currency graph.now.funding currency) }
{
    let mut count = 0;
    for place in 0..graph.ticket_count() {
        if is_backing(graph.ticket(place + 1), currency) {
            count += 1;
        }
    }
    count
}

/// Whether the ticket exists and the currency issues it.
fn is_issued(ticket: Option<Ticket>, currency: u32) -> bool
    ensures { result ≡ option_any (λ t. t.issuer == currency) ticket }
{
    match ticket {
        Some(found) => found.issuer == currency,
        None => false,
    }
}

/// Whether the ticket exists and funds the currency.
fn is_backing(ticket: Option<Ticket>, currency: u32) -> bool
    ensures { result ≡ option_any (λ t. funding.is_currency currency t.target) ticket }
{
    let Some(found) = ticket else {
        return false;
    };
    match found.target {
        Target::Currency(other) => other == currency,
        _ => false,
    }
}
