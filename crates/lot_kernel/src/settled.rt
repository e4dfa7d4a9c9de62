//! Rows of a settled kernel (4.7).
ghost use Rattle.std.specs.Prelude.{◌≡◌, ◌≢◌, ◌<◌, [], Some, IfNone, IfSome, length, if◌then◌else◌};
ghost use Rattle.lot_machine.specs.declared.funding.Node.TheVariants as node;
ghost use Rattle.lot_machine.specs.Bounds.{IsBetween};
ghost use Rattle.lot_machine.specs.Funding.{ticket_in};
ghost use Rattle.lot_machine.specs.Lends.{is_live};
ghost use Rattle.lot_machine.specs.Numbered.{at_number};
ghost use Rattle.lot_machine.specs.Rows as rows;
ghost use Rattle.lot_machine.specs.State.{funding_of, live_of, value_of};
ghost use Rattle.lot_machine.specs.Value.{node_value, ticket_value};

use crate::counts::{count_backing, count_issued};
use crate::kernel::Kernel;
use lot_draw::weight;
use lot_machine::{
    CurrencyNumber, CurrencyRow, Name, Node, Record, ThreadNumber, ThreadRow, Ticket, TicketNumber,
    TicketRow,
};

/// A kernel in which no value is stale. Reading its rows neither changes nor counts anything, so several host threads
/// may read it at once.
#[derive(Clone, Copy)]
pub struct Settled<'a> {
    /// The kernel, none of whose values is stale.
    pub kernel: &'a Kernel,
    pub ghost settled: { kernel.now.stale ≡ [] },
}

impl<'a> Settled<'a> {
    /// This kernel, or `None` if and only if a value is stale.
    pub fn of(kernel: &'a Kernel) -> Option<Settled<'a>>
        ensures same { IfSome result (λ s. s.kernel.now ≡ kernel.now) }
        ensures stale { IfNone result (kernel.now.stale ≢ []) }
    {
        if kernel.tables.threads.is_settled() {
            Some(Settled { kernel })
        } else {
            None
        }
    }

    /// The row of the ticket with this number, or `None` if and only if it doesn't exist.
    pub fn ticket_row(&self, ticket: TicketNumber) -> Option<TicketRow>
        ensures { result ≡ rows.ticket_row self.now.kernel.now.state ticket.number }
    {
        let kernel = self.kernel;
        let found = kernel.tables.threads.graph().ticket(ticket.number)?;
        let value = kernel.tables.threads.settled_ticket_value(ticket);
        self.row_of_ticket(ticket, found, value)
    }

    /// The row of the currency with this number, or `None` if and only if it doesn't exist; base is worth its active
    /// amount.
    pub fn currency_row(&self, currency: CurrencyNumber) -> Option<CurrencyRow>
        ensures { result ≡ rows.currency_row self.now.kernel.now.state currency.number }
    {
        let name = self.kernel.currency_name(currency)?;
        Some(self.row_of_currency(currency, name))
    }

    /// The row of the thread with this number, or `None` if and only if it doesn't exist.
    pub fn thread_row(&self, thread: ThreadNumber) -> Option<ThreadRow>
        ensures { result ≡ rows.thread_row self.now.kernel.now.state thread.number }
    {
        let kernel = self.kernel;
        let found = kernel.tables.threads.record(thread)?;
        let name = kernel.thread_name(thread)?;
        Some(self.row_of_thread(thread, found, name))
    }

    /// The row of this ticket with its value.
    pub(crate) fn row_of_ticket(
        &self,
        ticket: TicketNumber,
        found: Ticket,
        value: u64,
    ) -> Option<TicketRow>
        requires found { ticket_in self.now.kernel.now.state.tickets ticket.number ≡ Some found }
        requires value { value ≡ ticket_value self.now.kernel.now.state.limits.unit
            (funding_of self.now.kernel.now.state) (live_of self.now.kernel.now.state) found }
        ensures { result ≡ rows.ticket_row self.now.kernel.now.state ticket.number }
    {
        let kernel = self.kernel;
        // A currency that issues a ticket exists. For one that doesn't, the definitions give an empty name.
        let issuer = kernel
            .currency_name(CurrencyNumber {
                number: found.issuer,
            })
            .or(Name::new(""))?;
        Some(TicketRow {
            amount: found.amount,
            issuer,
            target: kernel.target_name(found.target),
            funds: found.target,
            is_active: kernel.tables.threads.is_active(ticket),
            value,
        })
    }

    pub(crate) fn row_of_currency(&self, currency: CurrencyNumber, name: Name) -> CurrencyRow
        requires { rows.currency_name self.now.kernel.now.state currency.number ≡ Some name }
        ensures { Some result ≡ rows.currency_row self.now.kernel.now.state currency.number }
    {
        let kernel = self.kernel;
        let graph = kernel.tables.threads.graph();
        CurrencyRow {
            name,
            backing: count_backing(graph, currency.number),
            issued: count_issued(graph, currency.number),
            active_amount: kernel.tables.threads.active_amount(currency),
            value: self.currency_value(currency),
        }
    }

    pub(crate) fn row_of_thread(&self, thread: ThreadNumber, found: Record, name: Name) -> ThreadRow
        requires found { at_number self.now.kernel.now.state.records thread.number ≡ Some found }
        requires compensation { IfSome found.compensation (λ used. 0 < used) }
        requires name { rows.thread_name self.now.kernel.now.state thread.number ≡ Some name }
        ensures { Some result ≡ rows.thread_row self.now.kernel.now.state thread.number }
    {
        let value = self.worth_of(thread);
        ThreadRow {
            name,
            status: found.status,
            value,
            weight: weight(value, found.compensation, self.kernel.limits().quantum),
            quanta: found.quanta,
            ticks: found.ticks,
        }
    }

    /// The value of a currency, in base units; base is worth its active amount.
    pub fn currency_value(&self, currency: CurrencyNumber) -> u64
        requires { currency.number < length self.now.kernel.now.state.currencies }
        ensures { result ≡ node_value self.now.kernel.now.state.limits.unit (funding_of self.now.kernel.now.state)
            (live_of self.now.kernel.now.state) (node.Currency currency.number) }
    {
        let kernel = self.kernel;
        if currency.number == 0 {
            return kernel
                .tables
                .threads
                .active_amount(CurrencyNumber { number: 0 });
        }
        kernel
            .tables
            .threads
            .value_of(Node::Currency(currency.number))
    }

    /// The thread's value, in base units, if it is live (Ready or Running), and otherwise 0.
    pub fn live_value(&self, thread: ThreadNumber) -> u64
        ensures { result ≡ (if is_live (live_of self.now.kernel.now.state) thread.number
            then value_of self.now.kernel.now.state thread.number else 0) }
    {
        if self.kernel.is_live(thread) {
            self.worth_of(thread)
        } else {
            0
        }
    }

    /// The thread's value, in base units.
    pub(crate) fn worth_of(&self, thread: ThreadNumber) -> u64
        requires { IsBetween 1 (length self.now.kernel.now.state.records) thread.number }
        ensures { result ≡ value_of self.now.kernel.now.state thread.number }
    {
        let kernel = self.kernel;
        kernel.tables.threads.worth_of(thread)
    }
}
