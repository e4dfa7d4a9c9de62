//! The checks of the commands, in the order of the definitions (4.7).
ghost use Rattle.std.specs.Prelude.{◌≡◌, ◌↔◌, ◌<◌, ◌≤◌, ◌^◌, ◌∷◌, [], false, true, IfErr, IfOk, IfSome, IsTrue};
ghost use Rattle.std.specs.Prelude.{Some, length, not};
ghost use Rattle.std.specs.Result.{result_err};
ghost use Rattle.lot_machine.specs.declared.command.Command.TheVariants.{MakeTicket, RemoveTicket, MakeCurrency};
ghost use Rattle.lot_machine.specs.declared.command.Command.TheVariants.{RemoveCurrency, Fund, Unfund, SetTicket};
ghost use Rattle.lot_machine.specs.declared.command.Command.TheVariants.{MakeThread, MakeFunded, RemoveThread, Kill};
ghost use Rattle.lot_machine.specs.declared.refusal.Refusal.TheVariants.{BadName, NameTaken, NoScript};
ghost use Rattle.lot_machine.specs.declared.ticket.Target.TheVariants.{Unfunded};
ghost use Rattle.lot_machine.specs.Commands as names;
ghost use Rattle.lot_machine.specs.Funding.{is_currency, target_of, ticket_in};
ghost use Rattle.lot_machine.specs.Order.{IsInOrder};
ghost use Rattle.lot_machine.specs.State.{funding_of};
ghost use Rattle.lot_graph.specs.Graphs.{IsCycle, IsTarget};
ghost use Rattle.lot_kernel.specs.Checked.{IsChecked};

use crate::names::Hashed;
use crate::tables::Tables;
use lot_machine::{
    Command, CurrencyRef, Kind, Name, Node, Refusal, Status, Target, TargetRef, ThreadNumber,
    ThreadRef, Ticket, TicketNumber,
};

/// A command that passed its checks, with the numbers of what it refers to, and its new name with the hash.
#[derive(Drop)]
pub(crate) enum Checked<'a> {
    NewTicket(Ticket),
    DropTicket(u32),
    NewCurrency(Hashed<'a>),
    DropCurrency(u32),
    /// A ticket, as it is, and its next target.
    PutTarget(u32, Ticket, Target),
    /// A ticket and its next amount.
    SetAmount(u32, u32),
    /// A name and a script.
    NewThread(Hashed<'a>, u32),
    DropThread(u32),
    EndThread(ThreadNumber),
    /// A ticket and the name and script of the thread that it funds.
    NewFunded(Ticket, Hashed<'a>, u32),
    List(Kind),
}

impl Tables {
    /// What a command does if all its checks pass, otherwise the refusal of the first that fails.
    pub(super) fn checked<'a>(&mut self, command: &'a Command) -> Result<Checked<'a>, Refusal>
        requires { IsInOrder self.old.state }
        ensures checked { IsChecked self.old.state command.now result }
        ensures unchanged { self.new ≡ self.old }
    {
        match command {
            Command::MakeTicket { amount, currency } => self.checked_new_ticket(*amount, currency),
            Command::RemoveTicket { ticket } => self.checked_drop_ticket(*ticket),
            Command::MakeCurrency { name } => self.checked_new_currency(name),
            Command::RemoveCurrency { currency } => self.checked_drop_currency(currency),
            Command::Fund { ticket, target } => self.checked_fund(*ticket, target),
            Command::Unfund { ticket } => self.checked_unfund(*ticket),
            Command::SetTicket { ticket, amount } => self.checked_set_ticket(*ticket, *amount),
            Command::MakeThread { name, script } => self.checked_new_thread(name, *script),
            Command::RemoveThread { thread } => self.checked_drop_thread(thread),
            Command::Kill { thread } => self.checked_kill(thread),
            Command::MakeFunded {
                amount,
                currency,
                name,
                script,
            } => self.checked_funded(*amount, currency, name, *script),
            Command::List(kind) => Ok(Checked::List(*kind)),
        }
    }

    fn checked_new_ticket<'a>(
        &self,
        amount: u64,
        currency: &CurrencyRef,
    ) -> Result<Checked<'a>, Refusal>
        ensures { IsChecked self.now.state (MakeTicket amount currency.now) result }
    {
        refused_if(is_bad_amount(amount), Refusal::BadAmount)?;
        let issuer = self.currency_meant(currency).ok_or(Refusal::NoCurrency)?;
        refused_if(self.are_tickets_full(), Refusal::Full)?;
        Ok(Checked::NewTicket(unfunded(amount as u32, issuer)))
    }

    fn checked_drop_ticket<'a>(&self, ticket: u64) -> Result<Checked<'a>, Refusal>
        ensures { IsChecked self.now.state (RemoveTicket ticket) result }
    {
        let found = self.ticket_at(ticket).ok_or(Refusal::NoTicket)?;
        refused_if(is_funding(found), Refusal::Funding)?;
        Ok(Checked::DropTicket(ticket as u32))
    }

    fn checked_new_currency<'a>(&self, name: &'a Name) -> Result<Checked<'a>, Refusal>
        ensures { IsChecked self.now.state (MakeCurrency name.now) result }
    {
        let name = Hashed::new(name);
        refused_if(!self.limits.allow_name(name.as_bytes()), Refusal::BadName)?;
        refused_if(self.is_taken(&name), Refusal::NameTaken)?;
        refused_if(self.are_currencies_full(), Refusal::Full)?;
        Ok(Checked::NewCurrency(name))
    }

    fn checked_drop_currency<'a>(&self, currency: &CurrencyRef) -> Result<Checked<'a>, Refusal>
        ensures { IsChecked self.now.state (RemoveCurrency currency.now) result }
    {
        let number = self.currency_meant(currency).ok_or(Refusal::NoCurrency)?;
        refused_if(number == 0, Refusal::BaseFixed)?;
        refused_if(!self.threads.graph().is_unused(number), Refusal::InUse)?;
        Ok(Checked::DropCurrency(number))
    }

    fn checked_fund<'a>(&mut self, ticket: u64, target: &TargetRef) -> Result<Checked<'a>, Refusal>
        requires { IsInOrder self.old.state }
        ensures checked { IsChecked self.old.state (Fund ticket target.now) result }
        ensures unchanged { self.new ≡ self.old }
    {
        let found = self.ticket_at(ticket).ok_or(Refusal::NoTicket)?;
        let to = self.target_meant(target).ok_or(Refusal::NoTarget)?;
        refused_if(is_base(to), Refusal::BaseFixed)?;
        refused_if(self.is_dead_thread(to), Refusal::DeadThread)?;
        refused_if(is_funding(found), Refusal::Funding)?;
        refused_if(self.would_cycle(ticket as u32, to), Refusal::Cycle)?;
        Ok(Checked::PutTarget(ticket as u32, found, to))
    }

    fn checked_unfund<'a>(&self, ticket: u64) -> Result<Checked<'a>, Refusal>
        ensures { IsChecked self.now.state (Unfund ticket) result }
    {
        let found = self.ticket_at(ticket).ok_or(Refusal::NoTicket)?;
        refused_if(!is_funding(found), Refusal::NotFunding)?;
        Ok(Checked::PutTarget(ticket as u32, found, Target::Unfunded))
    }

    fn checked_set_ticket<'a>(&self, ticket: u64, amount: u64) -> Result<Checked<'a>, Refusal>
        ensures { IsChecked self.now.state (SetTicket ticket amount) result }
    {
        refused_if(is_bad_amount(amount), Refusal::BadAmount)?;
        let _found = self.ticket_at(ticket).ok_or(Refusal::NoTicket)?;
        Ok(Checked::SetAmount(ticket as u32, amount as u32))
    }

    fn checked_new_thread<'a>(&self, name: &'a Name, script: u32) -> Result<Checked<'a>, Refusal>
        requires { IsInOrder self.now.state }
        ensures { IsChecked self.now.state (MakeThread name.now script) result }
    {
        let name = Hashed::new(name);
        self.checked_thread(&name, script)?;
        refused_if(self.are_threads_full(), Refusal::Full)?;
        Ok(Checked::NewThread(name, script))
    }

    fn checked_drop_thread<'a>(&self, thread: &ThreadRef) -> Result<Checked<'a>, Refusal>
        ensures { IsChecked self.now.state (RemoveThread thread.now) result }
    {
        let number = self.thread_meant(thread).ok_or(Refusal::NoThread)?;
        refused_if(!self.is_dead(number), Refusal::Alive)?;
        refused_if(self.is_thread_in_use(number), Refusal::InUse)?;
        Ok(Checked::DropThread(number))
    }

    fn checked_kill<'a>(&self, thread: &ThreadRef) -> Result<Checked<'a>, Refusal>
        ensures { IsChecked self.now.state (Kill thread.now) result }
    {
        let number = self.thread_meant(thread).ok_or(Refusal::NoThread)?;
        refused_if(self.is_dead(number), Refusal::DeadThread)?;
        Ok(Checked::EndThread(ThreadNumber { number }))
    }

    fn checked_funded<'a>(
        &self,
        amount: u64,
        currency: &CurrencyRef,
        name: &'a Name,
        script: u32,
    ) -> Result<Checked<'a>, Refusal>
        requires { IsInOrder self.now.state }
        ensures { IsChecked self.now.state (MakeFunded amount currency.now name.now script) result }
    {
        refused_if(is_bad_amount(amount), Refusal::BadAmount)?;
        let issuer = self.currency_meant(currency).ok_or(Refusal::NoCurrency)?;
        let name = Hashed::new(name);
        self.checked_thread(&name, script)?;
        refused_if(self.are_threads_full(), Refusal::Full)?;
        refused_if(self.are_tickets_full(), Refusal::Full)?;
        Ok(Checked::NewFunded(unfunded(amount as u32, issuer), name, script))
    }

    /// The checks of a new thread's name and script.
    fn checked_thread(&self, name: &Hashed<'_>, script: u32) -> Result<(), Refusal>
        ensures refusal { result_err result
            ≡ names.first_failing ((not (names.is_thread_name self.now.state.limits name.now), BadName)
            ∷ (names.is_taken self.now.state name.now, NameTaken)
            ∷ (names.is_no_script self.now.state script, NoScript) ∷ []) }
        ensures records { length self.now.state.threads ≡ length self.now.state.records }
        ensures clients { length self.now.state.clients ≡ length self.now.state.threads }
    {
        refused_if(
            !self.limits.allow_thread_name(name.as_bytes()),
            Refusal::BadName,
        )?;
        refused_if(self.is_taken(name), Refusal::NameTaken)?;
        refused_if(self.is_no_script(script), Refusal::NoScript)
    }

    /// Whether a currency or a thread has the name.
    fn is_taken(&self, name: &Hashed<'_>) -> bool
        ensures { result ≡ names.is_taken self.now.state name.now }
    {
        self.target_named(name).is_some()
    }

    /// Whether no script has this number.
    fn is_no_script(&self, script: u32) -> bool
        ensures { result ≡ names.is_no_script self.now.state script }
    {
        script == 0 || script > self.limits.scripts
    }

    /// Whether the ticket would make a cycle by funding the target (4.4).
    fn would_cycle(&mut self, ticket: u32, to: Target) -> bool
        requires order { IsInOrder self.old.state }
        requires unfunded { target_of (funding_of self.old.state) ticket ≡ Some Unfunded }
        requires target { IsTarget (funding_of self.old.state) to }
        ensures cycle { IsTrue result ↔ IsCycle (funding_of self.old.state) ticket to }
        ensures tested { names.is_cycle self.old.state ticket to ≡ result }
        ensures unchanged { self.new ≡ self.old }
    {
        self.threads
            .would_cycle(TicketNumber { number: ticket }, to)
    }

    /// Whether there is no room for one more ticket.
    fn are_tickets_full(&self) -> bool
        ensures { result ≡ names.are_tickets_full self.now.state }
    {
        self.freed.tickets.is_empty() && self.threads.graph().ticket_count() >= self.limits.tickets
    }

    /// Whether there is no room for one more currency.
    fn are_currencies_full(&self) -> bool
        ensures { result ≡ names.are_currencies_full self.now.state }
    {
        self.freed.currencies.is_empty() && self.currencies.len() > self.limits.currencies as usize
    }

    /// Whether there is no room for one more thread.
    fn are_threads_full(&self) -> bool
        ensures { result ≡ names.are_threads_full self.now.state }
    {
        self.freed.threads.is_empty()
            && self.threads.threads().len() >= self.limits.threads as usize
    }

    /// The ticket with this number, if it exists.
    fn ticket_at(&self, number: u64) -> Option<Ticket>
        ensures found { result ≡ ticket_in self.now.state.tickets number }
        ensures small { IfSome result (λ t. number < 2 ^ 32) }
    {
        if number > u64::from(self.threads.graph().ticket_count()) {
            return None;
        }
        self.threads.graph().ticket(number as u32)
    }

    fn is_dead_thread(&self, target: Target) -> bool
        ensures { result ≡ names.is_dead_thread self.now.state target }
    {
        match target {
            Target::Thread(thread) => self.is_dead(thread),
            _ => false,
        }
    }

    /// Whether a ticket funds the thread, it serves a thread, or it owns a mutex.
    fn is_thread_in_use(&self, thread: u32) -> bool
        requires { (0 < thread) × (thread ≤ length self.now.state.records) }
        ensures { result ≡ names.is_thread_in_use self.now.state thread }
    {
        self.threads.graph().has_edge_into(Node::Thread(thread))
            || self.queues.first_client(thread).is_some()
    }

    fn is_dead(&self, thread: u32) -> bool
        ensures { result ≡ names.is_dead_in self.now.state thread }
    {
        match self.threads.record(ThreadNumber { number: thread }) {
            Some(record) => matches!(record.status, Status::Dead),
            None => false,
        }
    }
}

/// Refuses with this refusal if its check fails.
fn refused_if(fails: bool, refusal: Refusal) -> Result<(), Refusal>
    ensures refused { IfErr result (λ e. (e ≡ refusal) × (fails ≡ true)) }
    ensures passed { IfOk result (λ _. fails ≡ false) }
{
    if fails { Err(refusal) } else { Ok(()) }
}

/// A ticket that funds nothing.
fn unfunded(amount: u32, issuer: u32) -> Ticket
    ensures { result ≡ record { amount = amount; issuer = issuer; target = Unfunded } }
{
    Ticket {
        amount,
        issuer,
        target: Target::Unfunded,
    }
}

/// Whether the amount isn't one of 1 to 4294967295.
fn is_bad_amount(amount: u64) -> bool
    ensures { result ≡ names.is_bad_amount amount }
{
    amount == 0 || amount > 4294967295
}

/// Whether the ticket funds something.
fn is_funding(ticket: Ticket) -> bool
    ensures { result ≡ names.is_funding ticket }
{
    !matches!(ticket.target, Target::Unfunded)
}

fn is_base(target: Target) -> bool
    ensures { result ≡ is_currency 0 target }
{
    matches!(target, Target::Currency(0))
}
