//! Reasons why threads weigh nothing.
use lot_engine::Settled;
use lot_machine::{Name, TicketNumber, TicketRow};
use lot_simulation::Lack;

/// The reason why the Ready thread with this name weighs nothing. From the thread up it follows one ticket at each
/// step.
pub(crate) fn lack_of(settled: Settled<'_>, thread: &Name) -> Lack {
    let Some(mut ticket) = backing(settled, thread) else {
        return Lack::Ticket;
    };
    for _step in 0..settled.kernel.currency_count() {
        if ticket.value > 0 {
            return Lack::Value;
        }
        let TicketRow { issuer, .. } = ticket;
        match backing(settled, &issuer) {
            Some(above) => ticket = above,
            None => return Lack::Funding(issuer),
        }
    }
    Lack::Value
}

/// A ticket that funds the thread or the currency with this name, if one does, preferably one with a value above 0.
fn backing(settled: Settled<'_>, name: &Name) -> Option<TicketRow> {
    let mut first: Option<TicketRow> = None;
    for place in 0..settled.kernel.ticket_count() {
        if let Some(row) = funding_row(settled, place + 1, name) {
            if row.value > 0 {
                return Some(row);
            }
            first = Some(first.unwrap_or(row));
        }
    }
    first
}

/// The row of the ticket with this number, if it funds the thread or the currency with this name.
fn funding_row(settled: Settled<'_>, ticket: u32, name: &Name) -> Option<TicketRow> {
    let row = settled.ticket_row(TicketNumber { number: ticket })?;
    match &row.target {
        Some(target) if target == name => Some(row),
        _ => None,
    }
}
