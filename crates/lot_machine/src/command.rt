//! The commands of the console to the kernel, each as a verb with arguments too.
ghost use Rattle.std.specs.Prelude.{◌≡◌, ◌≤◌, Some, IfOk, OnOk, fold, length, map};
ghost use Rattle.lot_machine.specs.Commands.{command_from, form, parts};
ghost use Rattle.lot_machine.specs.Verbs.{EachTaken, command_given, with_rest};

use crate::{Arguments, CurrencyRef, Name, Sink, Slot, TargetRef, ThreadRef};

/// The kind of rows in a listing.
#[derive(Clone, Copy, Debug, PartialEq, Eq)]
pub enum Kind {
    Tickets,
    Currencies,
    Threads,
}

/// A command of the console.
#[derive(Debug, PartialEq, Eq, Drop)]
pub enum Command {
    /// `mktkt`
    MakeTicket {
        amount: u64,
        currency: CurrencyRef,
    },
    /// `rmtkt`
    RemoveTicket {
        ticket: u64,
    },
    /// `mkcur`
    MakeCurrency {
        name: Name,
    },
    /// `rmcur`
    RemoveCurrency {
        currency: CurrencyRef,
    },
    /// `fund`
    Fund {
        ticket: u64,
        target: TargetRef,
    },
    /// `unfund`
    Unfund {
        ticket: u64,
    },
    /// `settkt`: changes the ticket's amount and keeps its target
    SetTicket {
        ticket: u64,
        amount: u64,
    },
    /// `mkthr`; script 0 means no script, and a name without bytes means no name
    MakeThread {
        name: Name,
        script: u32,
    },
    /// `rmthr`: removes a dead thread that nothing refers to; its name may then be used again
    RemoveThread {
        thread: ThreadRef,
    },
    /// `kill`: ends a thread in any status, and takes it off its processor or out of its queue. Its mutexes pass to the
    /// threads that have waited longest for them; its clients are Ready, with nothing delivered. A running thread is
    /// charged nothing more. To charge the ticks that it ran, a host makes an `Event::Preempt` first.
    Kill {
        thread: ThreadRef,
    },
    /// `fundx`: makes a thread, which may have no name, and a ticket that funds it
    MakeFunded {
        amount: u64,
        currency: CurrencyRef,
        name: Name,
        script: u32,
    },
    /// `lstkt`, `lscur` and `lsthr`
    List(Kind),
}

/// A command without its arguments.
#[derive(Clone, Copy, Debug, PartialEq, Eq)]
pub enum Verb {
    MakeTicket,
    RemoveTicket,
    MakeCurrency,
    RemoveCurrency,
    Fund,
    Unfund,
    SetTicket,
    MakeThread,
    RemoveThread,
    Kill,
    MakeFunded,
    List(Kind),
}

/// The arguments that the verb takes, each with its name.
pub fn form_of(verb: Verb) -> &'static [(&'static str, Slot)]
    ensures slots { map (λ argument. argument.1) result.now ≡ form verb }
    ensures few { length result.now ≤ 4 }
{
    match verb {
        Verb::MakeTicket => &[("AMOUNT", Slot::Amount), ("CURRENCY", Slot::Currency)],
        Verb::RemoveTicket => &[("TICKET", Slot::Ticket)],
        Verb::MakeCurrency => &[("NAME", Slot::Name)],
        Verb::RemoveCurrency => &[("CURRENCY", Slot::Currency)],
        Verb::Fund => &[("TICKET", Slot::Ticket), ("TARGET", Slot::Target)],
        Verb::Unfund => &[("TICKET", Slot::Ticket)],
        Verb::SetTicket => &[("TICKET", Slot::Ticket), ("AMOUNT", Slot::Amount)],
        Verb::MakeThread => &[("NAME", Slot::Name), ("SCRIPT", Slot::Script)],
        Verb::RemoveThread => &[("THREAD", Slot::Thread)],
        Verb::Kill => &[("THREAD", Slot::Thread)],
        Verb::MakeFunded => &[
            ("AMOUNT", Slot::Amount),
            ("CURRENCY", Slot::Currency),
            ("NAME", Slot::Name),
            ("SCRIPT", Slot::Script),
        ],
        Verb::List(_) => &[],
    }
}

impl Command {
    ghost use Rattle.lot_machine.specs.Verbs.{for_ticket};

    /// A copy of the command. It allocates nothing.
    pub fn copied(&self) -> Self
        ensures { result ≡ self.now }
    {
        match self {
            Command::MakeTicket { amount, currency } => Command::MakeTicket {
                amount: *amount,
                currency: currency.copied(),
            },
            Command::RemoveTicket { ticket } => Command::RemoveTicket { ticket: *ticket },
            Command::MakeCurrency { name } => Command::MakeCurrency {
                name: name.copied(),
            },
            Command::RemoveCurrency { currency } => Command::RemoveCurrency {
                currency: currency.copied(),
            },
            Command::Fund { ticket, target } => Command::Fund {
                ticket: *ticket,
                target: target.copied(),
            },
            Command::Unfund { ticket } => Command::Unfund { ticket: *ticket },
            Command::SetTicket { ticket, amount } => Command::SetTicket {
                ticket: *ticket,
                amount: *amount,
            },
            Command::MakeThread { name, script } => Command::MakeThread {
                name: name.copied(),
                script: *script,
            },
            Command::RemoveThread { thread } => Command::RemoveThread {
                thread: thread.copied(),
            },
            Command::Kill { thread } => Command::Kill {
                thread: thread.copied(),
            },
            Command::MakeFunded {
                amount,
                currency,
                name,
                script,
            } => Command::MakeFunded {
                amount: *amount,
                currency: currency.copied(),
                name: name.copied(),
                script: *script,
            },
            Command::List(kind) => Command::List(*kind),
        }
    }

    /// The command for this ticket, if it is one for a ticket.
    #[inline(always)]
    pub fn for_ticket(self, ticket: u64) -> Self
        ensures { result ≡ for_ticket ticket self }
    {
        match self {
            Command::RemoveTicket { .. } => Command::RemoveTicket { ticket },
            Command::Fund { target, .. } => Command::Fund { ticket, target },
            Command::Unfund { .. } => Command::Unfund { ticket },
            Command::SetTicket { amount, .. } => Command::SetTicket { ticket, amount },
            other => other,
        }
    }
}

/// The command with this verb, of the arguments that come next. It fails as the first of them does that is refused.
pub fn command_of<A: Arguments>(verb: Verb, arguments: &mut A) -> Result<Command, A::Refusal>
    ensures { command_given A.gives verb arguments.old ≡ with_rest Some arguments.new result }
{
    match verb {
        Verb::MakeTicket => Ok(Command::MakeTicket {
            amount: arguments.amount()?,
            currency: arguments.currency()?,
        }),
        Verb::RemoveTicket => Ok(Command::RemoveTicket {
            ticket: arguments.ticket()?,
        }),
        Verb::MakeCurrency => Ok(Command::MakeCurrency {
            name: arguments.name()?,
        }),
        Verb::RemoveCurrency => Ok(Command::RemoveCurrency {
            currency: arguments.currency()?,
        }),
        Verb::Fund => Ok(Command::Fund {
            ticket: arguments.ticket()?,
            target: arguments.target()?,
        }),
        Verb::Unfund => Ok(Command::Unfund {
            ticket: arguments.ticket()?,
        }),
        Verb::SetTicket => Ok(Command::SetTicket {
            ticket: arguments.ticket()?,
            amount: arguments.amount()?,
        }),
        Verb::MakeThread => Ok(Command::MakeThread {
            name: arguments.name()?,
            script: arguments.script()?,
        }),
        Verb::RemoveThread => Ok(Command::RemoveThread {
            thread: arguments.thread()?,
        }),
        Verb::Kill => Ok(Command::Kill {
            thread: arguments.thread()?,
        }),
        Verb::MakeFunded => Ok(Command::MakeFunded {
            amount: arguments.amount()?,
            currency: arguments.currency()?,
            name: arguments.name()?,
            script: arguments.script()?,
        }),
        Verb::List(kind) => Ok(Command::List(kind)),
    }
}

/// Puts the arguments of the command into the sink, and gives its verb. With it they make the command again. If it
/// fails, the sink may have some of them.
pub fn give_parts<S: Sink>(command: &Command, sink: &mut S) -> Result<Verb, S::Refusal>
    ensures verb { IfOk result (λ verb. verb ≡ (parts command.now).0) }
    ensures put { OnOk result (sink.new ≡ fold S.after sink.old (parts command.now).1) }
    ensures fact { OnOk result (EachTaken S.taken (form (parts command.now).0) (parts command.now).1) }
    ensures kept { S.kept sink.new ≡ S.kept sink.old }
    ensures back { command_from (parts command.now).0 (parts command.now).1 ≡ Some command.now }
{
    match command {
        Command::MakeTicket { amount, currency } => {
            sink.put_amount(*amount)?;
            sink.put_currency(currency)?;
            Ok(Verb::MakeTicket)
        }
        Command::RemoveTicket { ticket } => {
            sink.put_ticket(*ticket)?;
            Ok(Verb::RemoveTicket)
        }
        Command::MakeCurrency { name } => {
            sink.put_name(name)?;
            Ok(Verb::MakeCurrency)
        }
        Command::RemoveCurrency { currency } => {
            sink.put_currency(currency)?;
            Ok(Verb::RemoveCurrency)
        }
        Command::Fund { ticket, target } => {
            sink.put_ticket(*ticket)?;
            sink.put_target(target)?;
            Ok(Verb::Fund)
        }
        Command::Unfund { ticket } => {
            sink.put_ticket(*ticket)?;
            Ok(Verb::Unfund)
        }
        Command::SetTicket { ticket, amount } => {
            sink.put_ticket(*ticket)?;
            sink.put_amount(*amount)?;
            Ok(Verb::SetTicket)
        }
        Command::MakeThread { name, script } => {
            sink.put_name(name)?;
            sink.put_script(*script)?;
            Ok(Verb::MakeThread)
        }
        Command::RemoveThread { thread } => {
            sink.put_thread(thread)?;
            Ok(Verb::RemoveThread)
        }
        Command::Kill { thread } => {
            sink.put_thread(thread)?;
            Ok(Verb::Kill)
        }
        Command::MakeFunded {
            amount,
            currency,
            name,
            script,
        } => {
            sink.put_amount(*amount)?;
            sink.put_currency(currency)?;
            sink.put_name(name)?;
            sink.put_script(*script)?;
            Ok(Verb::MakeFunded)
        }
        Command::List(kind) => Ok(Verb::List(*kind)),
    }
}
