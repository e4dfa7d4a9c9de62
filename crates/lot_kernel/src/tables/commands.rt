//! The commands of the console (4.7): each is checked, and does its part only then.
ghost use Rattle.std.specs.Prelude.{◌≡◌, ◌<◌, ◌+◌, ◌≤◌, ◌++◌, ◌∷◌, [], true, false, Some, IfNone, OnSome, is_some};
ghost use Rattle.std.specs.Prelude.{length, map, option_map, slice_get};
ghost use Rattle.lot_machine.specs.declared.record.Thread.{Thread};
ghost use Rattle.lot_machine.specs.declared.ticket.Target.TheVariants.{Unfunded};
ghost use Rattle.lot_machine.specs.declared.ticket.Ticket.{Ticket};
ghost use Rattle.lot_machine.specs.Commands as names;
ghost use Rattle.lot_machine.specs.Commands.{command_step};
ghost use Rattle.lot_machine.specs.Funding.{backing_currency, issued_in, target_of, ticket_at, ticket_in};
ghost use Rattle.lot_machine.specs.Funding.{with_amount, with_target};
ghost use Rattle.lot_machine.specs.Numbered.{at_number};
ghost use Rattle.lot_machine.specs.Order.{IsInOrder};
ghost use Rattle.lot_machine.specs.State.{free_currencies, free_threads, free_tickets, funding_of};
ghost use Rattle.lot_machine.specs.State.{next_currency, next_thread, next_ticket};
ghost use Rattle.lot_graph.specs.Graphs.{IsUserCurrency};
ghost use Rattle.lot_value.specs.Changing.{CanTarget};
ghost use Rattle.lot_kernel.specs.Checked.{CanBeDone, CanIssue, done_step};
ghost use Rattle.lot_kernel.specs.declared.tables.checks.Checked.TheVariants.{NewFunded};
ghost use Rattle.lot_kernel.specs.Counted.{KeepsStale};
ghost use Rattle.lot_kernel.specs.FreePlaces.{HasIdlePlace};
ghost use Rattle.lot_kernel.specs.Snapshots.{MakesStale};

use crate::names::Hashed;
use crate::tables::Tables;
use crate::tables::checks::Checked;
use lot_machine::{Command, Reply, Target, Thread, ThreadNumber, Ticket, index_of};
use lot_value::GraphChange;

impl Tables {
    /// Makes one command and stores its reply in `reply`.
    pub(super) fn command(&mut self, command: &Command, reply: &mut Reply)
        requires { IsInOrder self.old.state }
        ensures reply { reply.new ≡ (command_step self.old.state command.now).reply }
        ensures state { self.new.state ≡ (command_step self.old.state command.now).state }
        ensures stale { MakesStale self.old self.new }
        ensures kept { KeepsStale self.old self.new }
        ensures meter { self.new.meter ≡ self.old.meter }
    {
        match self.checked(command) {
            Ok(checked) => *reply = self.done(checked),
            Err(refusal) => *reply = Reply::Refused(refusal),
        }
    }

    /// Does what passed its checks, and returns the reply.
    fn done(&mut self, checked: Checked<'_>) -> Reply
        requires order { IsInOrder self.old.state }
        requires ready { CanBeDone self.old.state checked }
        ensures reply { result ≡ (done_step self.old.state checked.entry).reply }
        ensures state { self.new.state ≡ (done_step self.old.state checked.entry).state }
        ensures stale { MakesStale self.old self.new }
        ensures kept { KeepsStale self.old self.new }
        ensures meter { self.new.meter ≡ self.old.meter }
    {
        match checked {
            Checked::NewTicket(ticket) => Reply::Ticket(self.issue(ticket)),
            Checked::DropTicket(ticket) => {
                self.drop_ticket(ticket);
                Reply::Done
            }
            Checked::NewCurrency(name) => Reply::Currency(self.add_currency(&name)),
            Checked::DropCurrency(currency) => {
                self.drop_currency(currency);
                Reply::Done
            }
            Checked::PutTarget(ticket, found, target) => {
                self.put_target(ticket, found, target);
                Reply::Done
            }
            Checked::SetAmount(ticket, amount) => {
                self.set_amount(ticket, amount);
                Reply::Done
            }
            Checked::NewThread(name, script) => Reply::Thread(
                self.add_thread(&name, script).number,
            ),
            Checked::DropThread(thread) => {
                self.drop_thread(thread);
                Reply::Done
            }
            Checked::EndThread(thread) => {
                self.end(thread);
                Reply::Killed(thread.number)
            }
            Checked::NewFunded(ticket, name, script) => self.add_funded(ticket, &name, script),
            Checked::List(kind) => Reply::List(kind),
        }
    }

    /// Makes one more ticket, which funds nothing, and returns its number.
    fn issue(&mut self, ticket: Ticket) -> u32
        requires order { IsInOrder self.old.state }
        requires ticket { CanIssue self.old.state ticket }
        ensures number { result ≡ next_ticket self.old.state }
        ensures issued { self.new ≡ record self.old { state = names.with_ticket self.old.state ticket } }
    {
        match self.issue_again(ticket) {
            Some(number) => number,
            None => self.issue_last(ticket),
        }
    }

    /// Makes a ticket with the next number that was never given, and returns it.
    fn issue_last(&mut self, ticket: Ticket) -> u32
        requires room { length self.old.state.tickets < self.old.state.limits.tickets }
        requires issuer { slice_get (map is_some self.old.state.currencies) ticket.issuer ≡ Some true }
        requires amount { 0 < ticket.amount }
        requires unfunded { ticket.target ≡ Unfunded }
        ensures number { result ≡ length self.old.state.tickets + 1 }
        ensures issued { self.new
            ≡ record self.old {
              state = record self.old.state { tickets = self.old.state.tickets ++ Some ticket ∷ [] };
            } }
    {
        self.threads.apply(GraphChange::NewTicket(ticket));
        self.threads.graph().ticket_count()
    }

    /// Makes a ticket in the first free place and returns its number, or `None` if no place is free.
    fn issue_again(&mut self, ticket: Ticket) -> Option<u32>
        requires order { IsInOrder self.old.state }
        requires issuer { slice_get (map is_some self.old.state.currencies) ticket.issuer ≡ Some true }
        requires amount { 0 < ticket.amount }
        requires unfunded { ticket.target ≡ Unfunded }
        ensures number { result ≡ option_map (λ place. place + 1) (slice_get (free_tickets self.old.state) 0) }
        ensures issued { OnSome result (self.new
            ≡ record self.old { state = names.with_ticket self.old.state ticket }) }
        ensures none { IfNone result (self.old.state.freed.tickets ≡ []) }
        ensures unchanged { IfNone result (self.new ≡ self.old) }
    {
        let place = self.freed.tickets.pop()?;
        let number = place + 1;
        self.threads.apply(GraphChange::ReuseTicket(number, ticket));
        Some(number)
    }

    fn drop_ticket(&mut self, ticket: u32)
        requires order { IsInOrder self.old.state }
        requires unfunded { target_of (funding_of self.old.state) ticket ≡ Some Unfunded }
        ensures state { self.new.state ≡ names.drop_ticket self.old.state ticket }
        ensures stale { self.new.stale ≡ self.old.stale }
        ensures meter { self.new.meter ≡ self.old.meter }
    {
        self.threads.apply(GraphChange::DropTicket(ticket));
        self.freed
            .tickets
            .leave(index_of(ticket) as u32, self.limits.reuse);
    }

    /// Makes one more currency and returns its number.
    fn add_currency(&mut self, name: &Hashed<'_>) -> u32
        requires order { IsInOrder self.old.state }
        requires room { names.are_currencies_full self.old.state ≡ false }
        ensures number { result ≡ next_currency self.old.state }
        ensures made { self.new ≡ record self.old { state = names.with_currency self.old.state name.now } }
    {
        match self.add_currency_again(name) {
            Some(number) => number,
            None => self.add_currency_last(name),
        }
    }

    /// Makes a currency with the next number that was never given, and returns it.
    fn add_currency_last(&mut self, name: &Hashed<'_>) -> u32
        requires { length self.old.state.currencies ≤ self.old.state.limits.currencies }
        ensures number { result ≡ length self.old.state.currencies }
        ensures made { self.new
            ≡ record self.old {
              state = record self.old.state { currencies = self.old.state.currencies ++ Some name.now ∷ [] };
            } }
    {
        let number = self.currencies.len() as u32;
        self.threads.apply(GraphChange::NewCurrency);
        self.currency_index.add(number as usize, name);
        self.currencies.push(Some(name.copied()));
        number
    }

    /// Makes a currency in the first free place and returns its number, or `None` if no place is free.
    fn add_currency_again(&mut self, name: &Hashed<'_>) -> Option<u32>
        requires { IsInOrder self.old.state }
        ensures number { result ≡ slice_get (free_currencies self.old.state) 0 }
        ensures made { OnSome result (self.new
            ≡ record self.old { state = names.with_currency self.old.state name.now }) }
        ensures none { IfNone result (self.old.state.freed.currencies ≡ []) }
        ensures unchanged { IfNone result (self.new ≡ self.old) }
    {
        let place = self.freed.currencies.pop()?;
        self.threads.apply(GraphChange::ReuseCurrency(place));
        self.currency_index.add(place as usize, name);
        self.currencies[place as usize] = Some(name.copied());
        Some(place)
    }

    fn drop_currency(&mut self, currency: u32)
        requires order { IsInOrder self.old.state }
        requires unused { IsUserCurrency (funding_of self.old.state) currency
            × (issued_in (funding_of self.old.state) currency ≡ [])
            × (backing_currency (funding_of self.old.state) currency ≡ []) }
        ensures state { self.new.state ≡ names.drop_currency self.old.state currency }
        ensures stale { self.new.stale ≡ self.old.stale }
        ensures meter { self.new.meter ≡ self.old.meter }
    {
        self.threads.apply(GraphChange::DropCurrency(currency));
        self.currency_index.remove(currency as usize);
        self.currencies[currency as usize] = None;
        self.freed.currencies.leave(currency, self.limits.reuse);
    }

    /// Makes one more thread, which is Ready and serves nobody, and returns its number.
    fn add_thread(&mut self, name: &Hashed<'_>, script: u32) -> ThreadNumber
        requires room { names.are_threads_full self.old.state ≡ false }
        requires idle { HasIdlePlace self.old.state }
        ensures number { result.number ≡ next_thread self.old.state }
        ensures state { self.new.state ≡ names.with_thread self.old.state name.now script }
        ensures stale { MakesStale self.old self.new }
        ensures kept { KeepsStale self.old self.new }
        ensures meter { self.new.meter ≡ self.old.meter }
    {
        match self.add_thread_again(name, script) {
            Some(number) => number,
            None => self.add_thread_last(name, script),
        }
    }

    /// Makes a thread with the next number that was never given, and returns it.
    fn add_thread_last(&mut self, name: &Hashed<'_>, script: u32) -> ThreadNumber
        requires { length self.old.state.threads < self.old.state.limits.threads }
        ensures number { result.number ≡ length self.old.state.threads + 1 }
        ensures state { self.new.state
            ≡ record self.old.state {
              threads = self.old.state.threads ++ Some (record { name = name.now; script = script }) ∷ [];
              records = self.old.state.records ++ names.newborn ∷ [];
              clients = self.old.state.clients ++ [] ∷ [];
            } }
        ensures stale { MakesStale self.old self.new }
        ensures kept { KeepsStale self.old self.new }
        ensures meter { self.new.meter ≡ self.old.meter }
    {
        let place = self.threads.threads().len();
        self.thread_index.add(place, name);
        self.queues.add_thread();
        self.threads.add_thread(Thread {
            name: name.copied(),
            script,
        })
    }

    /// Makes a thread in the first free place and returns its number, or `None` if no place is free.
    fn add_thread_again(&mut self, name: &Hashed<'_>, script: u32) -> Option<ThreadNumber>
        requires idle { HasIdlePlace self.old.state }
        ensures number { option_map (λ t. t.number) result
            ≡ option_map (λ place. place + 1) (slice_get (free_threads self.old.state) 0) }
        ensures state { OnSome result (self.new.state ≡ names.with_thread self.old.state name.now script) }
        ensures none { IfNone result (self.old.state.freed.threads ≡ []) }
        ensures unchanged { IfNone result (self.new ≡ self.old) }
        ensures stale { MakesStale self.old self.new }
        ensures kept { KeepsStale self.old self.new }
        ensures meter { self.new.meter ≡ self.old.meter }
    {
        let place = self.freed.threads.pop()?;
        let number = ThreadNumber { number: place + 1 };
        self.thread_index.add(place as usize, name);
        let thread = Thread {
            name: name.copied(),
            script,
        };
        self.threads.reuse_thread(number, thread);
        Some(number)
    }

    fn drop_thread(&mut self, thread: u32)
        requires order { IsInOrder self.old.state }
        requires there { (found : Thread) × (at_number self.old.state.threads thread ≡ Some (Some found)) }
        ensures state { self.new.state ≡ names.drop_thread self.old.state thread }
        ensures stale { self.new.stale ≡ self.old.stale }
        ensures meter { self.new.meter ≡ self.old.meter }
    {
        self.thread_index.remove(index_of(thread));
        self.threads.remove_thread(ThreadNumber { number: thread });
        self.freed
            .threads
            .leave(index_of(thread) as u32, self.limits.reuse);
    }

    /// Makes a ticket, and a thread that it funds.
    fn add_funded(&mut self, ticket: Ticket, name: &Hashed<'_>, script: u32) -> Reply
        requires order { IsInOrder self.old.state }
        requires ready { CanBeDone self.old.state (NewFunded ticket name.now script) }
        ensures reply { result ≡ (done_step self.old.state (NewFunded ticket name.now script)).reply }
        ensures state { self.new.state ≡ (done_step self.old.state (NewFunded ticket name.now script)).state }
        ensures stale { MakesStale self.old self.new }
        ensures kept { KeepsStale self.old self.new }
        ensures meter { self.new.meter ≡ self.old.meter }
    {
        let number = self.issue(ticket);
        let thread = self.add_thread(name, script).number;
        self.put_target(number, ticket, Target::Thread(thread));
        Reply::Funded {
            ticket: number,
            thread,
        }
    }

    /// Gives a ticket that funds nothing a target, or one with a target none.
    #[inline(always)]
    fn put_target(&mut self, ticket: u32, found: Ticket, target: Target)
        requires found { ticket_at (funding_of self.old.state) ticket ≡ Some found }
        requires target { CanTarget (funding_of self.old.state) ticket found.target target }
        ensures state { self.new.state
            ≡ record self.old.state { tickets = with_target self.old.state.tickets ticket target } }
        ensures stale { MakesStale self.old self.new }
        ensures kept { KeepsStale self.old self.new }
        ensures meter { self.new.meter ≡ self.old.meter }
    {
        self.threads
            .apply(GraphChange::PutTicket(ticket, Ticket { target, ..found }));
    }

    fn set_amount(&mut self, ticket: u32, amount: u32)
        requires there { (found : Ticket) × (ticket_in self.old.state.tickets ticket ≡ Some found) }
        requires amount { 0 < amount }
        ensures state { self.new.state
            ≡ record self.old.state { tickets = with_amount self.old.state.tickets ticket amount } }
        ensures stale { MakesStale self.old self.new }
        ensures kept { KeepsStale self.old self.new }
        ensures meter { self.new.meter ≡ self.old.meter }
    {
        self.threads.apply(GraphChange::SetAmount(ticket, amount));
    }
}
