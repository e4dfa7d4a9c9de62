//! The named tickets.
ghost use Rattle.std.specs.Prelude.{◌≡◌, IfOk, None, replicate};
ghost use Rattle.lot_machine.specs.declared.command.Command.{Command as CommandRecord};
ghost use Rattle.lot_machine.specs.declared.event.Event.TheVariants as event_kinds;
ghost use Rattle.lot_machine.specs.declared.reply.Reply.TheVariants as reply_kinds;
ghost use Rattle.lot_machine.specs.Numbered.{set_number};
ghost use Rattle.lot_simulation.specs.World as world;

use lot_kept::Kept;
use lot_machine::{Command, Event, Reply};
use std::alloc::{AllocError, Global};
use std::marker::Model;

/// The ticket with each name, if there is one.
#[derive(Drop)]
pub(crate) struct NamedTickets {
    /// The tickets' numbers; 0 for a name that no ticket has.
    numbers: Kept<u32>,
}

impl Model for NamedTickets {
    ghost use Rattle.std.specs.Prelude.{ℕ, List};

    ghost Value = { List ℕ };

    ghost view = { λ named. named.numbers.items };
}

impl NamedTickets {
    /// This many names without tickets.
    pub(crate) fn new(alloc: Global, names: u32) -> Result<NamedTickets, AllocError>
        ensures { IfOk result (λ named. named ≡ replicate names 0) }
    {
        Ok(NamedTickets {
            numbers: Kept::filled(alloc, 0, names as usize)?,
        })
    }

    /// The command with the number of its named ticket, if it names one.
    #[inline(always)]
    pub(crate) fn resolve(&self, name: Option<u16>, command: Command) -> Command
        ensures { result ≡ world.resolved self.now name command }
    {
        match name {
            None => command,
            Some(name) => command.for_ticket(u64::from(self.ticket_named(name))),
        }
    }

    /// The number of the ticket with this name, or 0 if there is none.
    fn ticket_named(&self, name: u16) -> u32
        ensures { result ≡ world.ticket_named self.now name }
    {
        if name == 0 {
            return 0;
        }
        self.numbers
            .get(usize::from(name) - 1)
            .copied()
            .unwrap_or(0)
    }

    /// Follows a command, which may name its ticket, and the kernel's reply: a new ticket gets the name, and a removed
    /// one loses its name, since another ticket may get its number.
    #[inline(always)]
    pub(crate) fn follow(&mut self, name: Option<u16>, event: &Event, reply: Reply)
        ensures { (command : CommandRecord) → event.now ≡ event_kinds.Command command
            → self.new ≡ world.tickets_after self.old name command reply }
    {
        match (name, reply) {
            (Some(name), Reply::Ticket(ticket) | Reply::Funded { ticket, .. }) => {
                self.give(name, ticket);
            }
            (_, Reply::Done) => self.forget_removed(event),
            _ => {}
        }
    }

    /// Gives a new ticket this name.
    fn give(&mut self, name: u16, ticket: u32)
        ensures { self.new ≡ set_number self.old name ticket }
    {
        let place = usize::from(name).saturating_sub(1);
        if place < self.numbers.len() {
            self.numbers[place] = ticket;
        }
    }

    /// Clears the name of the ticket that this event removes, if it removes one.
    fn forget_removed(&mut self, event: &Event)
        ensures { (command : CommandRecord) → event.now ≡ event_kinds.Command command
            → self.new ≡ world.tickets_after self.old None command reply_kinds.Done }
    {
        if let Event::Command(Command::RemoveTicket { ticket }) = event {
            self.forget(*ticket);
        }
    }

    /// Clears this ticket's name.
    fn forget(&mut self, ticket: u64)
        ensures { self.new ≡ world.without_ticket ticket self.old }
    {
        for number in self.numbers.iter_mut() {
            if u64::from(*number) == ticket {
                *number = 0;
            }
        }
    }
}
