//! Events in plain fields.
ghost use Rattle.std.specs.Prelude.{◌≡◌};
ghost use Rattle.lot_machine.specs.State.{sizes_of};
ghost use Rattle.lot_c.specs.Events.{action_in, argument_given, event_meant};

use crate::kind::{EventKind, Reference};
use crate::name::PlainName;
use crate::status::Status;
use crate::wide::Wide;
use lot_machine::{
    Action, Arguments, CurrencyRef, Event, Limits, Name, TargetRef, ThreadRef, TrapWord, Verb,
    command_of,
};
use std::marker::Model;

/// An event in plain fields. Its kind decides which other fields the library reads.
#[repr(C)]
#[derive(Clone, Copy)]
pub struct PlainEvent {
    pub kind: u32,
    /// The processor of the event, from 1. Commands and wakes have none.
    pub processor: u32,
    /// The ticks of work before a trap or a preemption, or the ticks by which a quantum ended late.
    pub ticks: u32,
    /// The port or the mutex of a trap, or the thread to wake, fund, remove or kill, all from 1; or the currency to
    /// fund or remove, or that issues a ticket, from 0, which is base.
    pub object: u32,
    /// The number that a call, a reply or a serve sends.
    pub sent: u32,
    /// The script of a new thread, from 1; 0 means none.
    pub script: u32,
    /// The drawn number of a draw or an unlock.
    pub number: Wide,
    pub amount: u64,
    pub ticket: u64,
    /// The name of the currency that issues a ticket, or of the currency to remove.
    pub currency: PlainName,
    /// The name of a new currency or thread, of the target to fund, or of the thread to remove or to kill. No bytes
    /// mean a new thread without a name.
    pub name: PlainName,
}

impl PlainEvent {
    /// The event in these fields for a kernel with these limits, or `BadKind`, `LongName` or `BadName` for invalid
    /// fields.
    pub(crate) fn read(&self, limits: &Limits) -> Result<Event, Status>
        ensures { result ≡ event_meant (sizes_of limits.now) self.now }
    {
        let processor = self.processor;
        let ticks = self.ticks;
        match EventKind::numbered(self.kind).ok_or(Status::BadKind)? {
            EventKind::Command(verb, reference) => {
                let mut arguments = Fields {
                    event: self,
                    limits,
                    verb,
                    reference,
                };
                Ok(Event::Command(command_of(verb, &mut arguments)?))
            }
            EventKind::Trap(word) => Ok(Event::Trap(processor, ticks, self.action(word))),
            EventKind::Draw => Ok(Event::Draw(processor, self.number.number())),
            EventKind::Expire => Ok(Event::Expire(processor)),
            EventKind::Preempt => Ok(Event::Preempt { processor, ticks }),
            EventKind::Overrun => Ok(Event::Overrun { processor, ticks }),
            EventKind::Wake => Ok(Event::Wake {
                thread: self.object,
            }),
        }
    }

    /// What a trap with this word asks for in these fields.
    fn action(&self, word: TrapWord) -> Action
        ensures { result ≡ action_in self.now word }
    {
        word.with(self.object, self.sent, self.number.number(), ())
    }
}

/// The arguments of a command in plain fields, for a kernel with these limits.
#[derive(Drop)]
struct Fields<'a> {
    event: &'a PlainEvent,
    limits: &'a Limits,
    verb: Verb,
    reference: Reference,
}

impl<'a> Model for Fields<'a> {
    ghost use Rattle.lot_machine.specs.State.{sizes_of};
    ghost use Rattle.lot_c.specs.Events.{CommandFields};

    ghost Value = { CommandFields };

    ghost view = { λ fields. record {
      event = fields.event.now;
      sizes = sizes_of fields.limits.now;
      verb = fields.verb;
      reference = fields.reference;
    } };
}

impl Arguments for Fields<'_> {
    type Refusal = Status;

    ghost gives = { argument_given };

    fn amount(&mut self) -> Result<u64, Status> {
        Ok(self.event.amount)
    }

    fn ticket(&mut self) -> Result<u64, Status> {
        Ok(self.event.ticket)
    }

    fn currency(&mut self) -> Result<CurrencyRef, Status> {
        match self.reference {
            Reference::Currency => Ok(CurrencyRef::Numbered(self.event.object)),
            _ => Ok(CurrencyRef::Named(self.event.currency.read(self.limits)?)),
        }
    }

    fn target(&mut self) -> Result<TargetRef, Status> {
        match self.reference {
            Reference::Name => Ok(TargetRef::Named(self.event.name.read(self.limits)?)),
            Reference::Currency => Ok(TargetRef::Currency(self.event.object)),
            Reference::Thread => Ok(TargetRef::Thread(self.event.object)),
        }
    }

    fn thread(&mut self) -> Result<ThreadRef, Status> {
        match self.reference {
            Reference::Thread => Ok(ThreadRef::Numbered(self.event.object)),
            _ => Ok(ThreadRef::Named(self.event.name.read(self.limits)?)),
        }
    }

    fn name(&mut self) -> Result<Name, Status> {
        match self.verb {
            Verb::MakeCurrency => self.event.name.read(self.limits),
            _ => self.event.name.read_thread(self.limits),
        }
    }

    fn script(&mut self) -> Result<u32, Status> {
        Ok(self.event.script)
    }
}
