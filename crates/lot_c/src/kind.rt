//! The kinds of events.
ghost use Rattle.std.specs.Prelude.{◌≡◌};
ghost use Rattle.lot_c.specs.Numbers.{kind_numbered};

use lot_machine::{Kind, TrapWord, Verb};

/// How a command refers to a currency or a thread.
#[derive(Clone, Copy)]
pub(crate) enum Reference {
    Name,
    /// The number of a currency.
    Currency,
    /// The number of a thread.
    Thread,
}

/// A kind of events.
#[derive(Clone, Copy)]
pub(crate) enum EventKind {
    Command(Verb, Reference),
    Trap(TrapWord),
    Draw,
    Expire,
    Preempt,
    Overrun,
    Wake,
}

impl EventKind {
    /// The kind with this number, if there is one.
    pub(crate) fn numbered(number: u32) -> Option<Self>
        ensures { result ≡ kind_numbered number }
    {
        Some(match number {
            1 => EventKind::Command(Verb::MakeTicket, Reference::Name),
            2 => EventKind::Command(Verb::RemoveTicket, Reference::Name),
            3 => EventKind::Command(Verb::MakeCurrency, Reference::Name),
            4 => EventKind::Command(Verb::RemoveCurrency, Reference::Name),
            5 => EventKind::Command(Verb::Fund, Reference::Name),
            6 => EventKind::Command(Verb::Unfund, Reference::Name),
            7 => EventKind::Command(Verb::MakeThread, Reference::Name),
            8 => EventKind::Command(Verb::MakeFunded, Reference::Name),
            9 => EventKind::Command(Verb::List(Kind::Tickets), Reference::Name),
            10 => EventKind::Command(Verb::List(Kind::Currencies), Reference::Name),
            11 => EventKind::Command(Verb::List(Kind::Threads), Reference::Name),
            12 => EventKind::Draw,
            13 => EventKind::Expire,
            14 => EventKind::Trap(TrapWord::Yield),
            15 => EventKind::Trap(TrapWord::Call((), ())),
            16 => EventKind::Trap(TrapWord::Receive(())),
            17 => EventKind::Trap(TrapWord::Reply(())),
            18 => EventKind::Trap(TrapWord::Lock(())),
            19 => EventKind::Trap(TrapWord::Unlock((), ())),
            20 => EventKind::Trap(TrapWord::Exit),
            21 => EventKind::Trap(TrapWord::Serve((), ())),
            22 => EventKind::Command(Verb::SetTicket, Reference::Name),
            23 => EventKind::Command(Verb::RemoveThread, Reference::Name),
            24 => EventKind::Trap(TrapWord::Sleep(())),
            25 => EventKind::Preempt,
            26 => EventKind::Overrun,
            27 => EventKind::Wake,
            28 => EventKind::Command(Verb::MakeTicket, Reference::Currency),
            29 => EventKind::Command(Verb::RemoveCurrency, Reference::Currency),
            30 => EventKind::Command(Verb::Fund, Reference::Currency),
            31 => EventKind::Command(Verb::Fund, Reference::Thread),
            32 => EventKind::Command(Verb::RemoveThread, Reference::Thread),
            33 => EventKind::Command(Verb::MakeFunded, Reference::Currency),
            34 => EventKind::Command(Verb::Kill, Reference::Name),
            35 => EventKind::Command(Verb::Kill, Reference::Thread),
            _ => return None,
        })
    }
}
